//! A customer's text, as tables hold it and a script shows it.
ghost use Rattle.std.specs.Prelude.{◌≡◌, ◌≤◌, ◌+◌, ◌-◌, ◌++◌, ℕ, List, length, take, replicate, string_bytes, IfOk};
ghost use Rattle.std.specs.Str.{IsAscii};
ghost use Rattle.customer_data.specs.Text.{IsData, first_text};
ghost use Rattle.customer_data.specs.Words.{data_words};

use crate::words::{DataWords, MAX_DATA, MIN_DATA, text_of, unpack, words_of};
use std::alloc::{AllocError, Global};
use std::fmt;
use std::marker::Model;

/// C_DATA, a customer's text (TPC-C 1.3.1). Contracts see the list of its characters, and it prints as these.
///
/// Each text begins as letters `x` alone, at whose left a Payment puts more. So what was put there is kept as it is,
/// and of the letters behind it only their number: a text that no Payment has touched takes no memory.
#[derive(Debug, Drop)]
pub struct CustomerData {
    front: String,
    letters: u16,
}

impl Model for CustomerData {
    ghost Value = { List ℕ };

    ghost view = { λ text. string_bytes text.front ++ replicate text.letters 120 };

    ghost invariant = { λ text. length (string_bytes text.front) + text.letters ≤ 500 };
}

impl CustomerData {
    /// The text that each customer begins with. Takes no memory.
    pub fn first(alloc: Global) -> CustomerData
        ensures { result ≡ first_text }
    {
        CustomerData {
            front: String::new(alloc),
            letters: MIN_DATA as u16,
        }
    }

    /// The text that these words stand for. Of words that stand for none nothing is said. Takes memory for what stands
    /// in front of the letters `x` at its end, and is refused for want of it alone.
    pub fn of_words(alloc: Global, words: &DataWords) -> Result<CustomerData, AllocError>
        ensures { (text : List ℕ) → IsData text → words.now ≡ data_words text
            → IfOk result (λ kept. kept ≡ text) }
    {
        let bytes = unpack(words);
        let text = text_of(&bytes);
        let end = front_end(text);
        let front = ascii(&text[..end]);
        Ok(CustomerData {
            front: String::from_str(alloc, front)?,
            letters: (text.len() - end) as u16,
        })
    }

    /// The words that stand for it.
    pub fn words(&self) -> DataWords
        ensures { result ≡ data_words self.now }
    {
        let mut text = [b'x'; MAX_DATA];
        let front = self.front.as_bytes();
        text[..front.len()].copy_from_slice(front);
        words_of(&text[..self.len()])
    }

    /// How many characters it has.
    pub fn len(&self) -> usize
        ensures { result ≡ length self.now }
    {
        self.front.len() + usize::from(self.letters)
    }
}

/// Where the letters `x` at the end of a text begin.
fn front_end(text: &[u8]) -> usize
    ensures within { result ≤ length text.now }
    ensures letters { text.now ≡ take result text.now ++ replicate (length text.now - result) 120 }
{
    let mut end = text.len();
    while end > 0 && text[end - 1] == b'x' {
        end -= 1;
    }
    end
}

/// Bytes of ASCII as a text.
fn ascii(bytes: &[u8]) -> &str
    ensures text { IsAscii bytes.now → result.now ≡ bytes.now }
    ensures few { length result.now ≤ length bytes.now }
{
    match str::from_utf8(bytes) {
        Ok(text) => text,
        Err(_) => "",
    }
}

impl Clone for CustomerData {
    ghost is_clone = { λ text copy. copy ≡ text };

    fn clone(&self) -> Result<CustomerData, AllocError> {
        Ok(CustomerData {
            front: self.front.clone()?,
            letters: self.letters,
        })
    }
}

impl fmt::Display for CustomerData {
    ghost use Rattle.std.specs.Prelude.{Some};

    ghost output = { λ text. Some text };

    fn fmt<W: fmt::Write>(&self, f: &mut fmt::Formatter<W>) -> fmt::Result {
        write!(f, "{}{}", self.front, Letters(self.letters))
    }
}

/// So many letters `x`.
#[derive(Clone, Copy)]
struct Letters(u16);

impl fmt::Display for Letters {
    ghost use Rattle.std.specs.Prelude.{Some};

    ghost output = { λ letters. Some (replicate letters.0 120) };

    fn fmt<W: fmt::Write>(&self, f: &mut fmt::Formatter<W>) -> fmt::Result {
        for _i in 0..self.0 {
            write!(f, "x")?;
        }
        Ok(())
    }
}
