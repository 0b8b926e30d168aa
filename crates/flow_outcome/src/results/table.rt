//! Results as CSV.
use crate::results::error::ResultsError;
use crate::results::escape::{unescape, write_json};
use csv::{ByteRecord, Writer, WriterBuilder};
use flow_reading::{PrintedList, PrintedValue, ValueKind};
use std::alloc::Global;
use std::io::Write;

/// A table that is written row by row.
#[derive(Drop)]
pub(crate) struct Table<W: Write + Drop> {
    rows: Writer<W>,
    row: ByteRecord,
    cell: Vec<u8>,
    /// How many columns each row has at least.
    columns: usize,
}

impl<W: Write + Drop> Table<W> {
    pub(crate) fn new(alloc: Global, writer: W) -> Table<W> {
        Table {
            rows: WriterBuilder::new().flexible(true).from_writer(writer),
            row: ByteRecord::new(alloc),
            cell: Vec::new(alloc),
            columns: 0,
        }
    }

    /// Writes the names of the columns where values have so many. Each row that follows has as many as this one at least.
    pub(crate) fn write_names<'a>(
        &mut self,
        alloc: Global,
        columns: usize,
    ) -> Result<(), ResultsError<'a>> {
        self.row.clear();
        self.row.push_field(b"block")?;
        if columns == 1 {
            self.row.push_field(b"value")?;
        } else {
            self.gather_numbered(alloc, columns)?;
        }
        self.rows.write_byte_record(&self.row)?;
        self.columns = self.row.len();
        Ok(())
    }

    /// Adds the names of so many columns of values, which have numbers.
    fn gather_numbered<'a>(
        &mut self,
        alloc: Global,
        columns: usize,
    ) -> Result<(), ResultsError<'a>> {
        for place in 0..columns {
            let number = place + 1;
            let name = format!(in alloc; "value{number}")?;
            self.row.push_field(name.as_bytes())?;
        }
        Ok(())
    }

    /// Writes a row for each value of a block: the block's name and the value, or the name and the items of a row.
    pub(crate) fn write_block<'a>(
        &mut self,
        name: &str,
        recorded: PrintedList,
    ) -> Result<(), ResultsError<'a>> {
        for value in recorded.items() {
            self.row.clear();
            self.row.push_field(name.as_bytes())?;
            self.gather(value)?;
            self.fill()?;
            self.rows.write_byte_record(&self.row)?;
        }
        Ok(())
    }

    /// Adds empty cells to the row up to as many columns as each has at least.
    fn fill<'a>(&mut self) -> Result<(), ResultsError<'a>> {
        for _ in self.row.len()..self.columns {
            self.row.push_field(b"")?;
        }
        Ok(())
    }

    /// Writes what is not written yet.
    pub(crate) fn finish<'a>(mut self) -> Result<(), ResultsError<'a>> {
        self.rows.flush()?;
        Ok(())
    }

    /// Adds the cells of a value to the row.
    fn gather<'a>(&mut self, value: PrintedValue) -> Result<(), ResultsError<'a>> {
        let Some(items) = value.row() else {
            return self.gather_cell(value);
        };
        for item in items {
            self.gather_cell(item)?;
        }
        Ok(())
    }

    fn gather_cell<'a>(&mut self, value: PrintedValue) -> Result<(), ResultsError<'a>> {
        match value.kind {
            ValueKind::Int => self.row.push_field(value.text)?,
            ValueKind::Text => {
                self.cell.clear();
                unescape(value.content(), &mut self.cell)?;
                self.row.push_field(&self.cell)?;
            }
            ValueKind::Row => {
                self.cell.clear();
                write_json(&mut self.cell, value.text)?;
                self.row.push_field(&self.cell)?;
            }
        }
        Ok(())
    }
}

/// How many columns the widest of these values has.
pub(crate) fn column_count(recorded: PrintedList) -> usize {
    let mut columns = 0;
    for value in recorded.items() {
        columns = columns_of(value).max(columns);
    }
    columns
}

/// How many columns a value has: one, or one for each item of a row.
fn columns_of(value: PrintedValue) -> usize {
    let Some(items) = value.row() else {
        return 1;
    };
    let mut columns = 0usize;
    for _ in items {
        columns = columns.saturating_add(1);
    }
    columns
}
