//! The records of a text, one after another, and where they stand.
use csv::{ByteRecord, Reader, ReaderBuilder};
use flow_spans::Span;
use std::alloc::{AllocError, Global};

/// The records of a text.
#[derive(Drop)]
pub(crate) struct Rows<'t> {
    text: &'t [u8],
    reader: Reader<&'t [u8]>,
    record: ByteRecord,
}

/// Where a record stands, and whether its second field begins with a blank.
#[derive(Clone, Copy)]
pub(crate) struct Row {
    pub(crate) span: Span,
    pub(crate) value_begins_blank: bool,
}

impl<'t> Rows<'t> {
    /// The records of this text, which has no byte order mark.
    pub(crate) fn new(alloc: Global, text: &'t [u8]) -> Rows<'t> {
        Rows {
            text,
            reader: ReaderBuilder::new()
                .has_headers(false)
                .flexible(true)
                .from_reader(alloc, text),
            record: ByteRecord::new(alloc),
        }
    }

    /// Reads the next record, if there is one.
    pub(crate) fn next_row(&mut self) -> Result<Option<Row>, AllocError> {
        let before = self.place();
        match self.reader.read_byte_record(&mut self.record) {
            Ok(true) => {
                let start = behind_line_ends(self.text, before);
                let end = self.place();
                let span = Span::new(start, end);
                let value_begins_blank = match self.field(1) {
                    Some(value) => value.starts_with(b" "),
                    None => false,
                };
                Ok(Some(Row {
                    span,
                    value_begins_blank,
                }))
            }
            Ok(false) => Ok(None),
            // a text in memory fails for memory alone
            Err(_) => Err(AllocError),
        }
    }

    /// Reads up to the record with this number, from 1, and answers it if it is there.
    pub(crate) fn read_to(&mut self, number: u64) -> Result<Option<Row>, AllocError> {
        let mut found = None;
        for _ in 0..number {
            found = self.next_row()?;
            if found.is_none() {
                break;
            }
        }
        Ok(found)
    }

    /// A field of the record that was read last.
    pub(crate) fn field(&self, number: usize) -> Option<&[u8]> {
        self.record.get(number)
    }

    /// How many fields the record has that was read last.
    pub(crate) fn field_count(&self) -> usize {
        self.record.len()
    }

    // How many bytes were read.
    fn place(&self) -> usize {
        match usize::try_from(self.reader.position().byte()) {
            Ok(place) => place.min(self.text.len()),
            Err(_) => self.text.len(),
        }
    }
}

// The first place from here on that is no line end.
fn behind_line_ends(text: &[u8], place: usize) -> usize {
    let rest = text.get(place..).unwrap_or(&[]);
    let mut ends = 0usize;
    for byte in rest {
        if *byte != b'\n' && *byte != b'\r' {
            break;
        }
        ends = ends.saturating_add(1);
    }
    place.saturating_add(ends)
}

/// Whether a record that reaches to the end of its text has a double quote that is never closed.
pub(crate) fn opens_quote(text: &[u8], record: Span) -> bool {
    let bytes = text.get(record.start..record.end).unwrap_or(&[]);
    let mut is_open = false;
    for byte in bytes {
        if *byte == b'"' {
            is_open = !is_open;
        }
    }
    record.end == text.len() && is_open
}
