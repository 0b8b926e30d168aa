//! What is asked for of a file of rows, in words.

/// How many bytes the longest name of a block has.
const LONGEST_NAME: usize = 64;

/// What is asked for of a file of rows. A column is told by its name in the header or, where there is none, by its number
/// from 1. `#` is the number of the row.
#[derive(Drop)]
pub struct Asked<'a> {
    /// Whether the first row is a header, which has the names of the columns.
    pub header: bool,
    /// The columns that go to inputs, in the order of the records of a row.
    pub sent: Vec<Sent<'a>>,
    /// What a row must have, or no record is made of it.
    pub wanted: Vec<Wanted<'a>>,
    /// The column with the key that records have in front, if they have one.
    pub key: Option<&'a str>,
}

/// A column, and the input that its texts go to.
#[derive(Clone, Copy)]
pub struct Sent<'a> {
    pub column: &'a str,
    pub input: &'a str,
}

/// A column, and the text that a row must have there.
#[derive(Clone, Copy)]
pub struct Wanted<'a> {
    pub column: &'a str,
    pub text: &'a str,
}

impl<'a> Sent<'a> {
    /// Reads `COLUMN=INPUT`, with the name of a block behind the last `=`. None where it is not of this form.
    pub fn read(word: &'a str) -> Option<Sent<'a>> {
        match word.rsplit_once("=") {
            Some((column, input)) if is_name(input.as_bytes()) => Some(Sent { column, input }),
            Some(_) | None => None,
        }
    }
}

impl<'a> Wanted<'a> {
    /// Reads `COLUMN=TEXT`, with the text behind the first `=`. None where there is no `=`.
    pub fn read(word: &'a str) -> Option<Wanted<'a>> {
        match word.split_once("=") {
            Some((column, text)) => Some(Wanted { column, text }),
            None => None,
        }
    }
}

/// Whether a block may have this name.
fn is_name(name: &[u8]) -> bool {
    for byte in name {
        if !is_of_name(*byte) {
            return false;
        }
    }
    !name.is_empty() && name.len() <= LONGEST_NAME
}

fn is_of_name(byte: u8) -> bool {
    byte.is_ascii_alphanumeric() || matches!(byte, b'_' | b'-' | b'.')
}
