//! From rows to records.
ghost use Rattle.std.specs.Prelude.{◌≡◌, ◌≤◌, ◌↔◌, decimal, IfOk, OnOk, None};
ghost use Rattle.std.specs.Io.KnownBytes.{Appends};
ghost use Rattle.csv.specs.Records.{fields_of};
ghost use Rattle.csv.specs.Writing.{text_written};
ghost use Rattle.flow_feed.specs.RawRows.{raw_of};
ghost use Rattle.flow_feed.specs.Sends.{HasAll, IsBetween, records_text};

use crate::asked::Asked;
use crate::choice::Choice;
use crate::fault::{BadRow, FeedFault};
use crate::marked::Marked;
use crate::one_row::OneRow;
use crate::records::{Numbered, is_wanted, unwritten, write_records};
use crate::rows::{Rows, unread};
use csv::{Writer, WriterBuilder};
use itoa::Buffer;
use std::alloc::Global;
use std::io::{ErrorKind, Read, Write};

/// What is done with a bad row.
#[derive(Clone, Copy)]
pub enum OnBad {
    /// It ends the work.
    Stop,
    /// It is set aside as it stands, and the work goes on.
    SetAside,
}

/// How many rows there were behind the header, and which of them were set aside.
#[derive(Clone, Copy)]
pub struct Fed {
    pub rows: u64,
    pub bad: u64,
    /// The first one that was set aside.
    pub first_bad: Option<BadRow>,
}

/// Where there is no row.
const NOTHING: Fed = Fed {
    rows: 0,
    bad: 0,
    first_bad: None,
};

/// Reads rows, and writes the records that are asked for, row by row. Bad rows go to `bad` where they are to be set aside.
///
/// The first row says how many fields each has, and is never set aside. Lines without anything are no rows. Where the work ends
/// at a bad row, the records of those before it are written. Of the rows no more is kept in memory than one.
pub fn feed<'a, R: Read + Drop, W: Write + Drop, B: Write>(
    alloc: Global,
    asked: &Asked<'a>,
    stream: R,
    on_bad: OnBad,
    records: W,
    bad: &mut B,
) -> Result<Fed, FeedFault<'a>>
    ensures stopped { on_bad ≡ OnBad.Stop → IfOk result (λ fed. fed.bad ≡ 0) }
    ensures counted { IfOk result (λ fed. fed.bad ≤ fed.rows) }
    ensures first { IfOk result (λ fed. (fed.bad ≡ 0) ↔ (fed.first_bad ≡ None)) }
{
    let source = match OneRow::new(alloc, stream) {
        Ok(source) => source,
        Err(error) => return Err(unread(error)),
    };
    let mut rows = Rows::new(alloc, source);
    if !rows.advance()? {
        return if asked.header {
            Err(FeedFault::NoHeader)
        } else {
            Ok(NOTHING)
        };
    }
    if let Some(row) = rows.text_fault() {
        return Err(FeedFault::Row(row));
    }
    let choice = Choice::new(alloc, asked, rows.row())?;
    let is_there = if asked.header { rows.advance()? } else { true };
    let mut writer = WriterBuilder::new().from_writer(Marked::new(records));
    let fed = feed_rows(&mut rows, is_there, &choice, on_bad, &mut writer, bad);
    match writer.flush() {
        Ok(()) => fed,
        Err(error) => Err(unwritten(&error)),
    }
}

/// Feeds the row that is there, and those behind it.
fn feed_rows<'a, R: Read + Drop, W: Write + Drop, B: Write>(
    rows: &mut Rows<R>,
    is_there: bool,
    choice: &Choice<'_>,
    on_bad: OnBad,
    writer: &mut Writer<W>,
    bad: &mut B,
) -> Result<Fed, FeedFault<'a>>
    requires { IsBetween writer.old }
    ensures stopped { on_bad ≡ OnBad.Stop → IfOk result (λ fed. fed.bad ≡ 0) }
    ensures counted { IfOk result (λ fed. fed.bad ≤ fed.rows) }
    ensures first { IfOk result (λ fed. (fed.bad ≡ 0) ↔ (fed.first_bad ≡ None)) }
{
    let mut is_there = is_there;
    let mut fed = NOTHING;
    'rows: for _ in 0..u64::MAX {
        if !is_there {
            break;
        }
        fed.rows = fed.rows.saturating_add(1);
        match rows.fault(choice.width) {
            None => feed_row(rows, fed.rows, choice, writer)?,
            Some(row) => {
                set_aside(rows, row, on_bad, bad)?;
                fed.bad = fed.bad.saturating_add(1);
                fed.first_bad = Some(fed.first_bad.unwrap_or(row));
            }
        }
        is_there = rows.advance()?;
    }
    Ok(fed)
}

/// Feeds a row with this number, if it is wanted.
#[tactic(auto, using(crate::proofs::RowsHave::on_ok_never))]
fn feed_row<'a, R: Read + Drop, W: Write + Drop>(
    rows: &Rows<R>,
    number: u64,
    choice: &Choice<'_>,
    writer: &mut Writer<W>,
) -> Result<(), FeedFault<'a>>
    requires { IsBetween writer.old }
    ensures between { OnOk result (IsBetween writer.new) }
    ensures sent { OnOk result (HasAll (fields_of rows.now.row) (decimal number) choice.now.tests.items
        → Appends (text_written W.contents writer.old) (text_written W.contents writer.new)
        (records_text (fields_of rows.now.row) (decimal number) choice.now.key choice.now.ways.items)) }
    ensures left { OnOk result ((HasAll (fields_of rows.now.row) (decimal number) choice.now.tests.items → ⊥)
        → writer.new ≡ writer.old) }
{
    let mut digits = Buffer::new();
    let row = Numbered {
        row: rows.row(),
        digits: digits.format(number).as_bytes(),
    };
    if is_wanted(choice, row) {
        write_records(writer, choice, row)
    } else {
        Ok(())
    }
}

/// Sets a bad row aside as it stands, or ends the work.
fn set_aside<'a, R: Read + Drop, B: Write>(
    rows: &Rows<R>,
    row: BadRow,
    on_bad: OnBad,
    bad: &mut B,
) -> Result<(), FeedFault<'a>>
    ensures asked { OnOk result (on_bad ≡ OnBad.SetAside) }
    ensures whole { OnOk result (Appends (B.contents bad.old) (B.contents bad.new) (raw_of rows.now)) }
{
    match on_bad {
        OnBad::Stop => Err(FeedFault::Row(row)),
        OnBad::SetAside => match bad.write_all(rows.raw()) {
            Ok(()) => Ok(()),
            Err(error) if error.kind() == ErrorKind::OutOfMemory => Err(FeedFault::Memory),
            Err(error) => Err(FeedFault::Aside(error)),
        },
    }
}
