//! The records of a text, one after another, by the rules that a run reads them by.
use crate::fault::PieceFault;
use csv::{ByteRecord, Error, ErrorKind, Reader, ReaderBuilder};
use std::alloc::Global;

/// U+FEFF in UTF-8, which is no part of a text that begins with it.
const BYTE_ORDER_MARK: [u8; 3] = [0xef, 0xbb, 0xbf];

/// The records of a text, one after another, and where each stands.
#[derive(Drop)]
pub struct Records<'r> {
    text: &'r [u8],
    reader: Reader<&'r [u8]>,
    row: ByteRecord,
    number: u64,
    line: u64,
    start: usize,
    end: usize,
}

impl<'r> Records<'r> {
    /// The records of this text, before its first.
    pub fn new(alloc: Global, text: &'r [u8]) -> Records<'r> {
        let reader = ReaderBuilder::new()
            .has_headers(false)
            .flexible(true)
            .from_reader(alloc, text);
        let mark = text.starts_with(&BYTE_ORDER_MARK);
        let start = if mark { BYTE_ORDER_MARK.len() } else { 0 };
        Records {
            text,
            reader,
            row: ByteRecord::new(alloc),
            number: 0,
            line: 1,
            start,
            end: start,
        }
    }

    /// Goes on to the next record, and tells whether there is one.
    pub fn advance(&mut self) -> Result<bool, PieceFault> {
        match self.reader.read_byte_record(&mut self.row) {
            Ok(false) => return Ok(false),
            Ok(true) => {}
            Err(error) => return Err(fault_of(&error)),
        }
        let start = behind_empty_lines(self.text, self.end);
        let lines = line_ends(between(self.text, self.start, start));
        self.line = self.line.saturating_add(lines);
        self.start = start;
        self.end = behind_line_end(self.text, self.reader.position().byte());
        self.number = self.number.saturating_add(1);
        Ok(true)
    }

    /// The fields of the record.
    pub fn row(&self) -> &ByteRecord {
        &self.row
    }

    /// The record as it stands in the text, with its line end.
    pub fn raw(&self) -> &'r [u8] {
        between(self.text, self.start, self.end)
    }

    /// The number of the record, from 1.
    pub fn number(&self) -> u64 {
        self.number
    }

    /// The line that the record begins on, from 1.
    pub fn line(&self) -> u64 {
        self.line
    }

    /// The place behind the record and its line end; before the first record, that where the records begin.
    pub fn end(&self) -> usize {
        self.end
    }

    /// Whether a part may begin behind the record: one that begins with a byte order mark would lose it.
    pub fn may_cut(&self) -> bool {
        match self.text.get(self.end..) {
            Some(rest) => self.end == 0 || !rest.starts_with(&BYTE_ORDER_MARK),
            None => false,
        }
    }
}

/// What a failure of a reader or a writer in memory comes to: there, a text can't grow for want of memory alone.
pub(crate) fn fault_of(error: &Error) -> PieceFault {
    match error.kind() {
        ErrorKind::OutOfMemory | ErrorKind::Io(_) => PieceFault::Memory,
        ErrorKind::Utf8 { .. }
        | ErrorKind::UnequalLengths { .. }
        | ErrorKind::Serialize(_)
        | ErrorKind::Deserialize { .. } => PieceFault::Read,
    }
}

/// What stands between two places of a text; nothing where there are no such places.
fn between(text: &[u8], from: usize, to: usize) -> &[u8] {
    text.get(from..to).unwrap_or(&[])
}

/// The place behind the empty lines that stand here.
fn behind_empty_lines(text: &[u8], from: usize) -> usize {
    let Some(rest) = text.get(from..) else {
        return text.len();
    };
    for (count, byte) in rest.iter().enumerate() {
        if !is_line_end(*byte) {
            return from.saturating_add(count);
        }
    }
    text.len()
}

fn is_line_end(byte: u8) -> bool {
    byte == b'\n' || byte == b'\r'
}

/// The place behind a record that ends here: a line feed behind a carriage return is part of its line end.
fn behind_line_end(text: &[u8], end: u64) -> usize {
    let end = usize::try_from(end).unwrap_or(text.len());
    let (Some(before), Some(line)) = (text.get(..end), text.get(end..)) else {
        return text.len();
    };
    if before.ends_with(b"\r") && line.starts_with(b"\n") {
        end.saturating_add(1)
    } else {
        end
    }
}

/// How many lines end in a text: at a line feed, a carriage return, or both together.
fn line_ends(text: &[u8]) -> u64 {
    let mut count = 0u64;
    let mut last = 0u8;
    for byte in text {
        if *byte == b'\r' || (*byte == b'\n' && last != b'\r') {
            count = count.saturating_add(1);
        }
        last = *byte;
    }
    count
}
