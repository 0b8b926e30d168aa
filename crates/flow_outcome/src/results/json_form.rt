//! Results as JSON.
use crate::results::escape::write_json;
use flow_reading::PrintedList;
use std::io;
use std::io::Write;

/// Writes a line for each value of a block: an object with the block's name and the value.
pub(crate) fn write_lines<W: Write>(
    writer: &mut W,
    name: &str,
    recorded: PrintedList,
) -> io::Result<()> {
    for value in recorded.items() {
        writer.write_all(b"{\"block\":\"")?;
        writer.write_all(name.as_bytes())?;
        writer.write_all(b"\",\"value\":")?;
        write_json(writer, value.text)?;
        writer.write_all(b"}\n")?;
    }
    Ok(())
}

/// Writes a member of an object: the block's name, and an array of the values.
pub(crate) fn write_member<W: Write>(
    writer: &mut W,
    is_first: bool,
    name: &str,
    recorded: PrintedList,
) -> io::Result<()> {
    writer.write_all(if is_first { b"\n\"" } else { b",\n\"" })?;
    writer.write_all(name.as_bytes())?;
    writer.write_all(b"\":")?;
    write_json(writer, recorded.text())
}
