//! The rows of a stream, one after another, and what is wrong with each.
ghost use Rattle.std.specs.Prelude.{◌≡◌};
ghost use Rattle.flow_feed.specs.RawRows.{raw_of};

use crate::fault::{BadRow, FeedFault, RowFault};
use crate::one_row::OneRow;
use crate::place::{Place, field_start, last_quote, place_behind};
use csv::{ByteRecord, Error, ErrorKind, Reader, ReaderBuilder};
use std::alloc::Global;
use std::io;
use std::io::Read;

/// The rows of a stream, one after another. Of the stream no more is kept than one row.
#[derive(Drop)]
pub(crate) struct Rows<R: Read + Drop> {
    reader: Reader<OneRow<R>>,
    row: ByteRecord,
}

impl<R: Read + Drop> Rows<R> {
    /// The rows that this reader gives, before the first.
    pub(crate) fn new(alloc: Global, source: OneRow<R>) -> Rows<R> {
        let reader = ReaderBuilder::new()
            .has_headers(false)
            .flexible(true)
            .from_reader(alloc, source);
        let row = ByteRecord::new(alloc);
        Rows { reader, row }
    }

    /// Goes on to the next row, and tells whether there is one.
    pub(crate) fn advance<'a>(&mut self) -> Result<bool, FeedFault<'a>> {
        match self.reader.read_byte_record(&mut self.row) {
            Ok(found) => Ok(found),
            Err(error) => Err(failed(error)),
        }
    }

    /// The fields of the row.
    pub(crate) fn row(&self) -> &ByteRecord
        ensures { result.now ≡ self.now.row }
    {
        &self.row
    }

    /// The row as it stands, with its line end.
    pub(crate) fn raw(&self) -> &[u8]
        ensures { result.now ≡ raw_of self.now }
    {
        self.reader.get_ref().row()
    }

    /// What is wrong with the row, which is to have so many fields.
    pub(crate) fn fault(&self, due: usize) -> Option<BadRow> {
        if let Some(bad) = self.text_fault() {
            return Some(bad);
        }
        let has = self.row.len();
        if has == due {
            return None;
        }
        let offset = field_start(self.raw(), due);
        Some(self.bad_at(offset, RowFault::Fields { has, due }))
    }

    /// What is wrong with the row, of any number of fields.
    pub(crate) fn text_fault(&self) -> Option<BadRow> {
        let raw = self.raw();
        if self.reader.get_ref().is_unclosed() {
            return Some(self.bad_at(last_quote(raw), RowFault::Unclosed));
        }
        match str::from_utf8(raw) {
            Ok(_) => None,
            Err(error) => Some(self.bad_at(error.valid_up_to(), RowFault::NotUtf8)),
        }
    }

    /// The row with its fault, which is at this byte of it.
    fn bad_at(&self, offset: usize, fault: RowFault) -> BadRow {
        let raw = self.raw();
        let before = &raw[..offset.min(raw.len())];
        let Place { line, column } = place_behind(before, self.reader.get_ref().line());
        BadRow {
            line,
            column,
            fault,
        }
    }
}

/// What a failure to read comes to.
fn failed<'a>(error: Error) -> FeedFault<'a> {
    match error.into_kind() {
        ErrorKind::Io(error) => unread(error),
        ErrorKind::OutOfMemory
        | ErrorKind::Utf8 { .. }
        | ErrorKind::UnequalLengths { .. }
        | ErrorKind::Serialize(_)
        | ErrorKind::Deserialize { .. } => FeedFault::Memory,
    }
}

/// What it comes to that a stream fails.
pub(crate) fn unread<'a>(error: io::Error) -> FeedFault<'a> {
    if error.kind() == io::ErrorKind::OutOfMemory {
        FeedFault::Memory
    } else {
        FeedFault::Read(error)
    }
}
