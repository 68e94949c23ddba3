//! Which number of a line is outside its range.

use crate::form::{Field, Form, Kind, part};
use money::Cents;
use program_script_text::{Request, read_request};
use std::alloc::{AllocError, Global};
use std::str::FromStr;
use tables::limits::{LAST_NAMES, MAX_ORDER_LINES, MAX_PAYMENT, MIN_ORDER_LINES, MIN_PAYMENT};
use tables::{Input, Scale, Who, is_between};

/// Which number of a line with this text, which is in one of the forms, is outside its range at this scale.
pub(crate) fn out_of_range(alloc: Global, scale: &Scale, text: &str) -> Result<String, AllocError> {
    if let Some((verb, rest)) = text.split_once(' ') {
        if verb == "show" {
            if let Some((table, key)) = rest.split_once(' ') {
                return first_outside(alloc, scale, Form::of_table(table), key);
            }
        }
        return first_outside(alloc, scale, Form::of_verb(verb), rest);
    }
    unknown(alloc)
}

/// What is told where no more is known.
fn unknown(alloc: Global) -> Result<String, AllocError> {
    String::from_str(alloc, "a number is outside its range")
}

/// The first of the words behind what lines of this form begin with that is outside its range.
fn first_outside(
    alloc: Global,
    scale: &Scale,
    form: Option<Form>,
    text: &str,
) -> Result<String, AllocError> {
    let Some(form) = form else {
        return unknown(alloc);
    };
    if form == Form::NewOrder {
        if let Some(what) = outnumbered(alloc, text)? {
            return Ok(what);
        }
    }
    for (place, word) in text.split(' ').enumerate() {
        if let Some(what) = outside(alloc, scale, form.field(place), word)? {
            return Ok(what);
        }
    }
    unknown(alloc)
}

/// What is told of an order of too few lines, or too many.
fn outnumbered(alloc: Global, text: &str) -> Result<Option<String>, AllocError> {
    let lines = text
        .split(' ')
        .count()
        .saturating_sub(Form::NewOrder.words());
    if MIN_ORDER_LINES as usize <= lines && lines <= MAX_ORDER_LINES as usize {
        return Ok(None);
    }
    let are = if lines == 1 { "line" } else { "lines" };
    Ok(Some(format!(in alloc;
        "it has {lines} {are}: an order is to have from {MIN_ORDER_LINES} to {MAX_ORDER_LINES}"
    )?))
}

/// What is told of a word that is this, if it is outside its range.
fn outside(
    alloc: Global,
    scale: &Scale,
    field: Field,
    word: &str,
) -> Result<Option<String>, AllocError> {
    match (field.kind, word.parse::<u32>()) {
        (Kind::Amount, _) => overpaid(alloc, word),
        (Kind::Line, _) => line_outside(alloc, scale, word),
        (kind, Ok(number)) => {
            let (low, high) = kind.limits(scale);
            number_outside(alloc, field.name, number, low, high)
        }
        (_, Err(_)) => name_outside(alloc, scale, word),
    }
}

/// What is told of a number outside these limits.
fn number_outside(
    alloc: Global,
    name: &str,
    number: u32,
    low: u32,
    high: u32,
) -> Result<Option<String>, AllocError> {
    if is_between(low, high, number) {
        return Ok(None);
    }
    Ok(Some(format!(in alloc; "{name} is {number}: it is to be from {low} to {high}")?))
}

/// What is told of a payment of too little, or too much.
fn overpaid(alloc: Global, word: &str) -> Result<Option<String>, AllocError> {
    let (least, most) = (Cents::new(MIN_PAYMENT), Cents::new(MAX_PAYMENT));
    match Cents::read(word) {
        Ok(amount) if least <= amount && amount <= most => Ok(None),
        _ => Ok(Some(format!(in alloc; "AMOUNT is {word}: it is to be from {least} to {most}")?)),
    }
}

/// What is told of a line of an order of which a number is outside its range.
fn line_outside(alloc: Global, scale: &Scale, word: &str) -> Result<Option<String>, AllocError> {
    for (place, text) in word.split(':').enumerate() {
        let (name, most) = part(place, scale);
        match text.parse::<u32>() {
            Ok(number) if is_between(1, most, number) => {}
            _ => {
                return Ok(Some(format!(in alloc;
                    "{name} is {text} in `{word}`: it is to be from 1 to {most}"
                )?));
            }
        }
    }
    Ok(None)
}

/// What is told of a last name that nobody has.
fn name_outside(alloc: Global, scale: &Scale, word: &str) -> Result<Option<String>, AllocError> {
    let names = scale.customers().min(LAST_NAMES);
    match number_of_name(alloc, word)? {
        Some(number) if number >= names => {
            let last = names.saturating_sub(1);
            Ok(Some(format!(in alloc;
                "WHO is {word}, the last name of number {number}: there are those of 0 to {last}"
            )?))
        }
        _ => Ok(None),
    }
}

/// The number of the last name that a word is.
fn number_of_name(alloc: Global, word: &str) -> Result<Option<u32>, AllocError> {
    let line = format!(in alloc; "status 1 1 {word}")?;
    match read_request(alloc, line.as_bytes(), 1) {
        Ok(Request::Transaction(Input::OrderStatus(query))) => match query.who {
            Who::Last(number) => Ok(Some(number)),
            Who::Id(_) => Ok(None),
        },
        _ => Ok(None),
    }
}
