//! How a text is encoded.
use std::fmt;

/// A text without the byte order mark at its start, if it has one.
pub(crate) fn without_mark(text: &[u8]) -> &[u8] {
    text.strip_prefix(b"\xef\xbb\xbf").unwrap_or(text)
}

/// Whether a text begins with a byte order mark of UTF-16.
pub(crate) fn is_utf_16(text: &[u8]) -> bool {
    text.starts_with(b"\xff\xfe") || text.starts_with(b"\xfe\xff")
}

/// Whether this is a line that ends a network where its records follow.
pub(crate) fn ends_network(line: &[u8]) -> bool {
    line == b"%%".as_slice()
}

/// The first byte at which a text is no UTF-8: how many bytes stand in front of it, and the byte.
pub(crate) fn bad_byte(text: &[u8]) -> Option<(usize, u8)> {
    match str::from_utf8(text) {
        Ok(_) => None,
        Err(error) => {
            let before = error.valid_up_to();
            Some((before, text.get(before).copied()?))
        }
    }
}

/// A byte that is no UTF-8, what it may be, and what is to be done.
#[derive(Clone, Copy)]
pub(crate) struct BadByte(pub(crate) u8);

impl fmt::Display for BadByte {
    fn fmt<W: fmt::Write>(&self, f: &mut fmt::Formatter<W>) -> fmt::Result {
        let byte = self.0;
        let character = char::from(byte);
        write!(
            f,
            "no UTF-8 at the byte {byte:02x}, which is {character:?} in Latin-1; store it as UTF-8"
        )
    }
}
