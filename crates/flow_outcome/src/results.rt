//! The records of actions, taken out of a report as rows of CSV, as lines of JSON or as one JSON object.
mod error;
mod escape;
mod json_form;
mod table;

use crate::results::json_form::{write_lines, write_member};
use crate::results::table::{Table, column_count};
pub use error::ResultsError;
use flow_reading::{BlockReport, Kept, PrintedList, ReadError, Report, read_report};
use std::alloc::Global;
use std::io::Write;

/// How results are written.
#[derive(Clone, Copy)]
pub enum ResultsForm {
    /// A row for each value: the name of its block, and the value, or the items of a row, each in a column.
    Csv,
    /// The same behind a row of names: `block`, and `value` or, where a value has several columns, `value1`, `value2` and so on.
    /// Each row has as many columns as that one; those that a value lacks are empty.
    NamedCsv,
    /// A line for each value: a JSON object with its `block` and the `value`.
    JsonLines,
    /// One JSON object, with an array of values for each block.
    Json,
}

/// Writes what the actions of a report recorded: those of these names, or all where none is named. Blocks come in the
/// order of the report.
///
/// Integers are written with all their digits. The writer gets many small pieces, and should gather them.
pub fn write_results<'a, W: Write>(
    alloc: Global,
    report: &[u8],
    names: &[&'a str],
    form: ResultsForm,
    writer: &mut W,
) -> Result<(), ResultsError<'a>> {
    let report = read_named(alloc, report, names)?;
    write_form(alloc, &report, names, form, writer)
}

/// What an action recorded, as text.
#[derive(Drop)]
pub struct ActionResults<'t> {
    pub name: &'t str,
    pub text: Vec<u8>,
}

/// The same for each action by itself.
pub fn results_by_action<'t, 'a>(
    alloc: Global,
    report: &'t [u8],
    names: &[&'a str],
    form: ResultsForm,
) -> Result<Vec<ActionResults<'t>>, ResultsError<'a>> {
    let report = read_named(alloc, report, names)?;
    let mut results = Vec::new(alloc);
    for block in &report.blocks {
        if wanted(block, names).is_some() {
            let name = block.name;
            let text = text_of(alloc, &report, name, form)?;
            results.push(ActionResults { name, text })?;
        }
    }
    Ok(results)
}

/// What the action of this name recorded.
fn text_of<'a>(
    alloc: Global,
    report: &Report,
    name: &str,
    form: ResultsForm,
) -> Result<Vec<u8>, ResultsError<'a>> {
    let mut text = Vec::new(alloc);
    write_form(alloc, report, &[name], form, &mut text)?;
    Ok(text)
}

/// Reads a report, in which each of these names is that of an action.
fn read_named<'t, 'a>(
    alloc: Global,
    report: &'t [u8],
    names: &[&'a str],
) -> Result<Report<'t>, ResultsError<'a>> {
    let report = match read_report(alloc, report) {
        Ok(report) => report,
        Err(ReadError::Memory) => return Err(ResultsError::Memory),
        Err(error @ ReadError::Fault { .. }) => return Err(ResultsError::Report(error)),
    };
    check_names(&report, names)?;
    Ok(report)
}

/// Writes what these actions of a report recorded.
fn write_form<'a, W: Write>(
    alloc: Global,
    report: &Report,
    names: &[&str],
    form: ResultsForm,
    writer: &mut W,
) -> Result<(), ResultsError<'a>> {
    match form {
        ResultsForm::Csv => write_table(report, names, Table::new(alloc, writer)),
        ResultsForm::NamedCsv => {
            let mut table = Table::new(alloc, writer);
            table.write_names(alloc, columns_in(report, names))?;
            write_table(report, names, table)
        }
        ResultsForm::JsonLines => write_json_lines(report, names, writer),
        ResultsForm::Json => write_object(report, names, writer),
    }
}

/// Tells the first name that is none of an action.
fn check_names<'a>(report: &Report, names: &[&'a str]) -> Result<(), ResultsError<'a>> {
    for name in names {
        match block_named(report, name) {
            Some(block) => match block.kept {
                Kept::Record(_) => {}
                Kept::Left(_) => return Err(ResultsError::NoAction(name)),
            },
            None => return Err(ResultsError::NoBlock(name)),
        }
    }
    Ok(())
}

/// The first block of a report that has this name.
fn block_named<'b, 't>(report: &'b Report<'t>, name: &str) -> Option<&'b BlockReport<'t>> {
    for block in &report.blocks {
        if block.name == name {
            return Some(block);
        }
    }
    None
}

/// What a block recorded, if it is an action that is asked for.
fn wanted<'a>(block: &BlockReport<'a>, names: &[&str]) -> Option<PrintedList<'a>> {
    match block.kept {
        Kept::Record(recorded) if names.is_empty() || names.contains(&block.name) => Some(recorded),
        Kept::Record(_) | Kept::Left(_) => None,
    }
}

/// How many columns the widest value has of what is asked for, and 1 at least.
fn columns_in(report: &Report, names: &[&str]) -> usize {
    let mut columns = 1;
    for block in &report.blocks {
        if let Some(recorded) = wanted(block, names) {
            columns = column_count(recorded).max(columns);
        }
    }
    columns
}

fn write_table<'a, W: Write + Drop>(
    report: &Report,
    names: &[&str],
    table: Table<W>,
) -> Result<(), ResultsError<'a>> {
    let mut table = table;
    for block in &report.blocks {
        if let Some(recorded) = wanted(block, names) {
            table.write_block(block.name, recorded)?;
        }
    }
    table.finish()
}

fn write_json_lines<'a, W: Write>(
    report: &Report,
    names: &[&str],
    writer: &mut W,
) -> Result<(), ResultsError<'a>> {
    for block in &report.blocks {
        if let Some(recorded) = wanted(block, names) {
            write_lines(writer, block.name, recorded)?;
        }
    }
    Ok(())
}

fn write_object<'a, W: Write>(
    report: &Report,
    names: &[&str],
    writer: &mut W,
) -> Result<(), ResultsError<'a>> {
    let mut is_first = true;
    writer.write_all(b"{")?;
    for block in &report.blocks {
        if let Some(recorded) = wanted(block, names) {
            write_member(writer, is_first, block.name, recorded)?;
            is_first = false;
        }
    }
    writer.write_all(b"\n}\n")?;
    Ok(())
}
