//! Where a value was, by the lists of a report.
use flow_reading::{
    BlockReport, Kept, PrintedList, PrintedValue, PrintedValues, Report, ValueKind,
};
use std::io;
use std::io::Write;

/// Writes a line for each list of a report in which a value stands, with its places there, from 1: which blocks took it
/// and hold it, which links it crossed, where it was recorded, left, or waits. Returns whether it stands anywhere.
///
/// The value is written as the report prints it, or is a text without its quotes: `7` finds the integer and the text. In a
/// row it is found as one of its items.
pub fn write_trace<W: Write>(report: &Report, value: &str, writer: &mut W) -> io::Result<bool> {
    let mut found = false;
    for block in &report.blocks {
        found = trace_block(writer, block, value.as_bytes())? || found;
    }
    Ok(found)
}

fn trace_block<W: Write>(writer: &mut W, block: &BlockReport, value: &[u8]) -> io::Result<bool> {
    let name = block.name;
    let mut found = false;
    if let Some(input) = block.input {
        found = trace_list(writer, name, "waits at the input", None, input, value)? || found;
    }
    for (number, port) in block.ports.iter().enumerate() {
        let number = Some(number);
        found = trace_list(writer, name, "took it at port", number, port.taken, value)? || found;
        found = trace_list(writer, name, "holds it at port", number, port.held, value)? || found;
    }
    for link in &block.links {
        let number = Some(link.number as usize);
        found = trace_list(writer, name, "gave it over link", number, link.given, value)? || found;
    }
    if let Some(exit) = block.exit {
        found = trace_list(writer, name, "gave it over the exit", None, exit, value)? || found;
    }
    let (words, list) = match block.kept {
        Kept::Record(list) => ("recorded it", list),
        Kept::Left(list) => ("left it", list),
    };
    Ok(trace_list(writer, name, words, None, list, value)? || found)
}

/// Writes the places of a value in a list, if it stands there.
fn trace_list<W: Write>(
    writer: &mut W,
    name: &str,
    words: &str,
    number: Option<usize>,
    list: PrintedList,
    value: &[u8],
) -> io::Result<bool> {
    let mut found = false;
    for (place, item) in list.items().enumerate() {
        if is_in(item, value) {
            if found {
                writer.write_all(b",")?;
            } else {
                write_heading(writer, name, words, number)?;
                found = true;
            }
            let place = place.saturating_add(1);
            write!(writer, " {place}")?;
        }
    }
    if found {
        writer.write_all(b"\n")?;
    }
    Ok(found)
}

fn write_heading<W: Write>(
    writer: &mut W,
    name: &str,
    words: &str,
    number: Option<usize>,
) -> io::Result<()> {
    match number {
        Some(number) => write!(writer, "{name} {words} {number}: number"),
        None => write!(writer, "{name} {words}: number"),
    }
}

/// Whether a value is this one, or a row with it.
fn is_in(item: PrintedValue, value: &[u8]) -> bool {
    if is_value(item, value) {
        return true;
    }
    match item.row() {
        Some(items) => has_value(items, value),
        None => false,
    }
}

fn has_value(items: PrintedValues, value: &[u8]) -> bool {
    for item in items {
        if is_value(item, value) {
            return true;
        }
    }
    false
}

fn is_value(item: PrintedValue, value: &[u8]) -> bool {
    match item.kind {
        ValueKind::Text => item.text == value || item.content() == value,
        ValueKind::Int | ValueKind::Row => item.text == value,
    }
}
