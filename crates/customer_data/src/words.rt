//! A customer's text and its words: the text's length in two bytes, the lowest first, the text, and zeros up to 504
//! bytes; each eight of these are a word, the lowest byte first.
ghost use Rattle.std.specs.Prelude.{◌≡◌, ◌≤◌, ℕ, List, length};
ghost use Rattle.std.specs.List.{flat_map};
ghost use Rattle.byteorder.specs.Endian.{little_bytes};
ghost use Rattle.customer_data.specs.Text.{IsData, put_left};
ghost use Rattle.customer_data.specs.Words.{words_in, data_bytes, data_words};

use byteorder::{ByteOrder, LittleEndian};

/// The fewest characters of C_DATA (TPC-C 4.3.3.1), a byte each.
pub const MIN_DATA: usize = 300;

/// The most characters of C_DATA (TPC-C 1.3.1), a byte each.
pub const MAX_DATA: usize = 500;

/// How many words stand for a text: the fewest that have two bytes more than the longest text.
pub const DATA_WORDS: usize = 63;

/// How many bytes these words have.
pub const DATA_BYTES: usize = 504;

/// How many bytes in front of the text tell its length.
const LENGTH_BYTES: usize = 2;

/// The words that stand for a text.
pub type DataWords = [u64; DATA_WORDS];

/// The bytes of these words.
pub type DataBytes = [u8; DATA_BYTES];

/// The words of a text of at most 500 bytes, whatever they are.
pub fn words_of(text: &[u8]) -> DataWords
    requires { length text.now ≤ MAX_DATA }
    ensures { result ≡ data_words text.now }
{
    let mut bytes = [0; DATA_BYTES];
    LittleEndian::write_u16(&mut bytes, text.len() as u16);
    bytes[LENGTH_BYTES..LENGTH_BYTES + text.len()].copy_from_slice(text);
    words_at(&bytes)
}

/// The words of the text with `front` put at its left; what then stands beyond 500 bytes is cut off at the right
/// (TPC-C 2.5.2.2). `front` may have any length and any bytes. Of words that stand for no text nothing is said.
pub fn with_front(words: &DataWords, front: &[u8]) -> DataWords
    ensures { (text : List ℕ) → IsData text → words.now ≡ data_words text
        → result ≡ data_words (put_left front.now text) }
{
    let bytes = unpack(words);
    let text = text_of(&bytes);
    let front = &front[..front.len().min(MAX_DATA)];
    let kept = &text[..text.len().min(MAX_DATA - front.len())];
    let len = front.len() + kept.len();
    let mut joined = [0; MAX_DATA];
    joined[..front.len()].copy_from_slice(front);
    joined[front.len()..len].copy_from_slice(kept);
    words_of(&joined[..len])
}

/// The bytes of words, in which `text_of` finds the text.
pub fn unpack(words: &DataWords) -> DataBytes
    ensures bytes { result ≡ flat_map (little_bytes 8) words.now }
    ensures text { (text : List ℕ) → IsData text → words.now ≡ data_words text → result ≡ data_bytes text }
{
    let mut bytes = [0; DATA_BYTES];
    LittleEndian::write_u64_into(words, &mut bytes);
    bytes
}

/// The text in the bytes of its words. In other bytes it is some text of at most 500 bytes.
pub fn text_of(bytes: &DataBytes) -> &[u8]
    ensures few { length result.now ≤ MAX_DATA }
    ensures text { (text : List ℕ) → IsData text → bytes.now ≡ data_bytes text → result.now ≡ text }
{
    let len = usize::from(LittleEndian::read_u16(bytes)).min(MAX_DATA);
    &bytes[LENGTH_BYTES..LENGTH_BYTES + len]
}

/// The words in the bytes, each of eight bytes, the lowest first.
fn words_at(bytes: &DataBytes) -> DataWords
    ensures { result ≡ words_in DATA_WORDS bytes.now }
{
    let mut words = [0; DATA_WORDS];
    LittleEndian::read_u64_into(bytes, &mut words);
    words
}
