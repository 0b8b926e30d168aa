//! Where records stand in a text.
use flow_split::Records;

/// Where a record stands in a text: its number and its line, both from 1, and its bytes with their line end.
#[derive(Clone, Copy)]
pub(crate) struct Spot {
    pub number: u64,
    pub line: u64,
    start: usize,
    end: usize,
}

impl Spot {
    /// Where the record stands that this walk has come to.
    pub fn of(walk: &Records<'_>) -> Spot {
        let end = walk.end();
        Spot {
            number: walk.number(),
            line: walk.line(),
            start: end.saturating_sub(walk.raw().len()),
            end,
        }
    }

    /// The record as it stands in the text, with its line end.
    pub fn raw<'t>(&self, text: &'t [u8]) -> &'t [u8] {
        text.get(self.start..self.end).unwrap_or(&[])
    }
}

/// The text of these records, which stand one behind another.
///
/// Only the text of the first record of all begins where the whole does. Another has the line end in front of it, so that a byte
/// order mark is read there as it is in the whole.
pub(crate) fn text_of<'t>(text: &'t [u8], spots: &[Spot]) -> &'t [u8] {
    let (Some(first), Some(last)) = (spots.first(), spots.last()) else {
        return &[];
    };
    let from = if first.number > 1 {
        first.start.saturating_sub(1)
    } else {
        0
    };
    text.get(from..last.end).unwrap_or(&[])
}
