//! Lines and columns, and where in a row they are asked for.
use crate::stand::{Stand, after, is_line_end};

/// A line and a column, both from 1. A line ends at a line feed, a carriage return, or both together, and a column counts
/// characters.
#[derive(Clone, Copy)]
pub(crate) struct Place {
    pub(crate) line: u64,
    pub(crate) column: u64,
}

/// The place behind these bytes, which begin this line.
pub(crate) fn place_behind(bytes: &[u8], line: u64) -> Place {
    let mut place = Place { line, column: 1 };
    let mut last = 0u8;
    for byte in bytes {
        place = place_after(place, last, *byte);
        last = *byte;
    }
    place
}

/// The place behind this byte, which is behind another.
fn place_after(place: Place, last: u8, byte: u8) -> Place {
    let Place { line, column } = place;
    if byte == b'\n' && last == b'\r' || byte >= 0x80 && byte < 0xc0 {
        place
    } else if is_line_end(byte) {
        let line = line.saturating_add(1);
        Place { line, column: 1 }
    } else {
        let column = column.saturating_add(1);
        Place { line, column }
    }
}

/// How many lines end in these bytes, which are behind another.
pub(crate) fn line_ends(bytes: &[u8], last: u8) -> u64 {
    let mut count = 0u64;
    let mut last = last;
    for byte in bytes {
        if *byte == b'\r' || (*byte == b'\n' && last != b'\r') {
            count = count.saturating_add(1);
        }
        last = *byte;
    }
    count
}

/// Where in a row its field with this number begins, from 0; where the row ends, if it has no such field.
pub(crate) fn field_start(row: &[u8], field: usize) -> usize {
    let mut stand = Stand::StartRecord;
    let mut fields = 0usize;
    for (offset, byte) in row.iter().enumerate() {
        if fields == field {
            return offset;
        }
        stand = after(stand, *byte);
        if stand.is_between() {
            return offset;
        }
        if stand == Stand::StartField {
            fields = fields.saturating_add(1);
        }
    }
    row.len()
}

/// Where in a row the last quote stands that begins a field.
pub(crate) fn last_quote(row: &[u8]) -> usize {
    let mut stand = Stand::StartRecord;
    let mut found = 0usize;
    for (offset, byte) in row.iter().enumerate() {
        let next = after(stand, *byte);
        if next == Stand::InQuoted && stand != Stand::InQuoted && stand != Stand::AfterQuote {
            found = offset;
        }
        stand = next;
    }
    found
}
