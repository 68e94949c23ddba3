//! What is wrong with a line that is in none of the forms.

use crate::form::{Field, Form, Kind, TABLES, VERBS};
use program_script_text::read_request;
use std::alloc::{AllocError, Global};
use std::str::FromStr;

/// What is wrong with a line that has this text, of printable characters.
pub(crate) fn misshapen(alloc: Global, text: &str) -> Result<String, AllocError> {
    if let Some(what) = misspaced(text) {
        return String::from_str(alloc, what);
    }
    let Some((verb, rest)) = text.split_once(' ') else {
        return alone(alloc, text);
    };
    if verb != "show" {
        return match Form::of_verb(verb) {
            Some(form) => of_words(alloc, form, Some(rest)),
            None => format!(in alloc; "`{verb}` is no verb: there are {VERBS}"),
        };
    }
    let (table, key) = match rest.split_once(' ') {
        Some((table, key)) => (table, Some(key)),
        None => (rest, None),
    };
    match Form::of_table(table) {
        Some(form) => of_words(alloc, form, key),
        None => format!(in alloc; "`{table}` can't be shown: there are {TABLES}"),
    }
}

/// What is wrong with how the words of a text are parted.
fn misspaced(text: &str) -> Option<&'static str> {
    if text.is_empty() {
        Some("it is empty")
    } else if text.starts_with(' ') {
        Some("it begins with a space")
    } else if text.ends_with(' ') {
        Some("it ends in a space")
    } else if text.contains("  ") {
        Some("it has two spaces in a row")
    } else {
        None
    }
}

/// What is wrong with a line of one word.
fn alone(alloc: Global, word: &str) -> Result<String, AllocError> {
    match Form::of_verb(word) {
        Some(form) => of_words(alloc, form, None),
        None if word == "show" => format!(in alloc; "`show` of what? There are {TABLES}"),
        None => format!(in alloc; "`{word}` is no verb: there are {VERBS}"),
    }
}

/// What is wrong with the words behind what lines of this form begin with.
fn of_words(alloc: Global, form: Form, rest: Option<&str>) -> Result<String, AllocError> {
    let count = match rest {
        Some(text) => text.split(' ').count(),
        None => 0,
    };
    let (name, wanted) = (form.name(), form.words());
    if form == Form::NewOrder {
        if count < wanted {
            return format!(in alloc;
                "{name} has W, D, C and 5 to 15 lines behind it, and here are {count} words"
            );
        }
    } else if count != wanted {
        return miscounted(alloc, name, wanted, count);
    }
    match rest {
        Some(text) => first_misread(alloc, form, text),
        None => String::from_str(alloc, "it is in none of the forms"),
    }
}

/// What is told of a line with too few words, or too many.
fn miscounted(
    alloc: Global,
    name: &str,
    wanted: usize,
    count: usize,
) -> Result<String, AllocError> {
    let words = if wanted == 1 { "word" } else { "words" };
    let are = if count == 1 { "is" } else { "are" };
    format!(in alloc; "{name} has {wanted} {words} behind it, and here {are} {count}")
}

/// What is wrong with the first of the words that isn't what it is to be.
fn first_misread(alloc: Global, form: Form, text: &str) -> Result<String, AllocError> {
    for (place, word) in text.split(' ').enumerate() {
        if let Some(what) = misread(alloc, form.field(place), word)? {
            return Ok(what);
        }
    }
    String::from_str(alloc, "it is in none of the forms")
}

/// What is wrong with a word that is to be this, if anything is.
fn misread(alloc: Global, field: Field, word: &str) -> Result<Option<String>, AllocError> {
    let name = field.name;
    match field.kind {
        Kind::Who if !begins_with_digit(word) => misnamed(alloc, word),
        Kind::Amount => mispriced(alloc, word),
        Kind::Line => misordered(alloc, word),
        _ => match misnumbered(word) {
            Some(what) => Ok(Some(format!(in alloc; "{name} is `{word}`: {what}")?)),
            None => Ok(None),
        },
    }
}

/// What is wrong with a word as a number.
fn misnumbered(word: &str) -> Option<&'static str> {
    if word.is_empty() || !word.as_bytes().iter().all(|byte| byte.is_ascii_digit()) {
        Some("it is to be a number")
    } else if word.len() > 1 && word.starts_with('0') {
        Some("a number has no zero in front")
    } else if word.parse::<u32>().is_err() {
        Some("a number is up to 4294967295")
    } else {
        None
    }
}

fn begins_with_digit(word: &str) -> bool {
    matches!(word.as_bytes(), [b'0'..=b'9', ..])
}

/// What is wrong with a word as a last name.
fn misnamed(alloc: Global, word: &str) -> Result<Option<String>, AllocError> {
    let line = format!(in alloc; "status 1 1 {word}")?;
    match read_request(alloc, line.as_bytes(), 1) {
        Ok(_) => Ok(None),
        Err(_) => Ok(Some(format!(in alloc;
            "WHO is `{word}`: it is to be a number, or a last name in capitals, as BARBARESE"
        )?)),
    }
}

/// What is wrong with a word as an amount.
fn mispriced(alloc: Global, word: &str) -> Result<Option<String>, AllocError> {
    let what = match word.split_once('.') {
        Some((units, cents)) if are_digits(cents) && cents.len() == 2 => misnumbered_units(units),
        _ => Some("it is to have two digits behind a point"),
    };
    match what {
        Some(what) => Ok(Some(format!(in alloc; "AMOUNT is `{word}`: {what}")?)),
        None => Ok(None),
    }
}

/// What is wrong with what stands in front of the point of an amount, which may be of any size.
fn misnumbered_units(units: &str) -> Option<&'static str> {
    let unsigned = units.strip_prefix('-').unwrap_or(units);
    if !are_digits(unsigned) {
        Some("it is to be digits in front of the point")
    } else if unsigned.len() > 1 && unsigned.starts_with('0') {
        Some("it is to have no zero in front")
    } else if units.starts_with('-') {
        Some("an amount of nothing has no sign")
    } else {
        None
    }
}

fn are_digits(text: &str) -> bool {
    !text.is_empty() && text.as_bytes().iter().all(|byte| byte.is_ascii_digit())
}

/// What is wrong with a word as a line of an order.
fn misordered(alloc: Global, word: &str) -> Result<Option<String>, AllocError> {
    if word.split(':').count() != 3 {
        return Ok(Some(format!(in alloc; "`{word}` is to be ITEM:SUPPLY:QUANTITY")?));
    }
    for part in word.split(':') {
        if let Some(what) = misnumbered(part) {
            return Ok(Some(format!(in alloc; "`{part}` in `{word}`: {what}")?));
        }
    }
    Ok(None)
}
