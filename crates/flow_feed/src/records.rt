//! The records of a row.
ghost use Rattle.std.specs.Prelude.{◌≡◌, true, false, OnOk};
ghost use Rattle.std.specs.Io.KnownBytes.{Appends};
ghost use Rattle.csv.specs.Records.{fields_of};
ghost use Rattle.csv.specs.Writing.{default_writer, row_text, text_written};
ghost use Rattle.flow_feed.specs.Sends.{HasAll, IsBetween, column_text, record_fields, records_text};

use crate::choice::{Choice, Column, Way};
use crate::fault::FeedFault;
use csv::{ByteRecord, Error, ErrorKind, Writer};
use std::io::Write;

/// A row, and its number in digits.
#[derive(Clone, Copy)]
pub(crate) struct Numbered<'r> {
    pub(crate) row: &'r ByteRecord,
    pub(crate) digits: &'r [u8],
}

/// The text of a row in this column, nothing where there is none.
fn text_at<'r>(row: Numbered<'r>, column: Column) -> &'r [u8]
    ensures { result.now ≡ column_text (fields_of row.entry.row.now) row.entry.digits.now column }
{
    match column {
        Column::Number => row.digits,
        Column::Field(place) => row.row.get(place).unwrap_or(&[]),
    }
}

/// Whether a row has all that it must have.
#[tactic(auto, using(crate::proofs::RowsHave::has_all))]
pub(crate) fn is_wanted(choice: &Choice<'_>, row: Numbered<'_>) -> bool
    ensures taken { result ≡ true → HasAll (fields_of row.entry.row.now) row.entry.digits.now choice.now.tests.items }
    ensures left { result ≡ false → HasAll (fields_of row.entry.row.now) row.entry.digits.now choice.now.tests.items → ⊥ }
{
    'tests: for test in &choice.tests {
        if text_at(row, test.column) != test.text.as_bytes() {
            return false;
        }
    }
    true
}

/// Writes the records of a row: an input and a text for each column that is asked for, behind the key if there is to be one.
#[tactic(auto, using(crate::proofs::RecordsGrow::sends_more, crate::proofs::RecordsGrow::sends_all))]
pub(crate) fn write_records<'a, W: Write + Drop>(
    writer: &mut Writer<W>,
    choice: &Choice<'_>,
    row: Numbered<'_>,
) -> Result<(), FeedFault<'a>>
    requires { IsBetween writer.old }
    ensures between { OnOk result (IsBetween writer.new) }
    ensures records { OnOk result (Appends (text_written W.contents writer.old) (text_written W.contents writer.new)
        (records_text (fields_of row.entry.row.now) row.entry.digits.now choice.now.key choice.now.ways.items)) }
{
    'ways: for way in &choice.ways {
        write_record(writer, choice.key, *way, row)?;
    }
    Ok(())
}

/// Writes the record of a row for one input.
fn write_record<'a, W: Write + Drop>(
    writer: &mut Writer<W>,
    key: Option<Column>,
    way: Way<'_>,
    row: Numbered<'_>,
) -> Result<(), FeedFault<'a>>
    requires { IsBetween writer.old }
    ensures between { OnOk result (IsBetween writer.new) }
    ensures record { OnOk result (Appends (text_written W.contents writer.old) (text_written W.contents writer.new)
        (row_text default_writer (record_fields (fields_of row.entry.row.now) row.entry.digits.now key way.entry))) }
{
    let (input, text) = (way.input.as_bytes(), text_at(row, way.column));
    let written = match key {
        Some(key) => writer.write_fields(&[text_at(row, key), input, text]),
        None => writer.write_fields(&[input, text]),
    };
    match written {
        Ok(()) => Ok(()),
        Err(error) => Err(unwritten(&error)),
    }
}

/// What a failure to write records comes to.
pub(crate) fn unwritten<'a>(error: &Error) -> FeedFault<'a> {
    match error.kind() {
        ErrorKind::OutOfMemory => FeedFault::Memory,
        ErrorKind::Io(_)
        | ErrorKind::Utf8 { .. }
        | ErrorKind::UnequalLengths { .. }
        | ErrorKind::Serialize(_)
        | ErrorKind::Deserialize { .. } => FeedFault::Write,
    }
}
