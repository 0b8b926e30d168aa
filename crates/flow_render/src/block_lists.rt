//! What a page says of each block, folded: what it took, holds, gave, recorded and left.
use crate::columns::reported;
use crate::escape::write_bytes;
use crate::picture::{write_heading, write_link_line};
use crate::tone::{Tone, tone_of_block};
use flow_outcome::{BlockOutline, Outline, given_over};
use flow_reading::{BlockReport, Kept, PrintedList, Report};
use std::io;
use std::io::Write;

/// How many values of a list are shown.
const MOST_VALUES: usize = 100;

/// Writes what there is of each block: first of those that faulted, then of those that wait, and then of the others.
pub(crate) fn write_blocks<W: Write>(
    writer: &mut W,
    outline: &Outline,
    report: Option<&Report>,
) -> io::Result<()> {
    for tone in Tone::ALL {
        write_blocks_with(writer, outline, report, tone)?;
    }
    Ok(())
}

/// Writes what there is of each block with this tone.
fn write_blocks_with<W: Write>(
    writer: &mut W,
    outline: &Outline,
    report: Option<&Report>,
    tone: Tone,
) -> io::Result<()> {
    for (number, block) in outline.blocks.iter().enumerate() {
        let reported = reported(report, number);
        if tone_of_block(reported).is(tone) {
            write_title(writer, number, block, reported)?;
            if let Some(reported) = reported {
                write_taken(writer, reported)?;
            }
            write_given(writer, outline, report, number)?;
            if let Some(reported) = reported {
                write_kept(writer, reported)?;
            }
            writer.write_all(b"</dl></details>\n")?;
        }
    }
    Ok(())
}

/// Writes the line of a block that is there while its lists are folded.
fn write_title<W: Write>(
    writer: &mut W,
    number: usize,
    block: &BlockOutline,
    reported: Option<&BlockReport>,
) -> io::Result<()> {
    let class = tone_of_block(reported).class();
    write!(
        writer,
        "<details id=\"b{number}\" class=\"{class}\"><summary>"
    )?;
    write_heading(writer, block, reported)?;
    writer.write_all(b"</summary><dl>\n")
}

/// Writes what waits at the input of a block, what it took at its ports, and what it holds there.
fn write_taken<W: Write>(writer: &mut W, reported: &BlockReport) -> io::Result<()> {
    if let Some(input) = reported.input {
        writer.write_all(b"<dt>waits at the input")?;
        write_list(writer, input)?;
    }
    for (number, port) in reported.ports.iter().enumerate() {
        write!(writer, "<dt>took at port {number}")?;
        write_list(writer, port.taken)?;
        write!(writer, "<dt>holds at port {number}")?;
        write_list(writer, port.held)?;
    }
    Ok(())
}

/// Writes the links out of a block, and what it gave over each.
fn write_given<W: Write>(
    writer: &mut W,
    outline: &Outline,
    report: Option<&Report>,
    block: usize,
) -> io::Result<()> {
    for (number, link) in outline.links.iter().enumerate() {
        if link.from == block {
            writer.write_all(b"<dt>")?;
            write_link_line(writer, outline, report, number, link)?;
            writer.write_all(b"</dt>\n")?;
            write_crossing(writer, outline, report, number)?;
        }
    }
    Ok(())
}

/// Writes what crossed the link with this number, if a report tells it.
fn write_crossing<W: Write>(
    writer: &mut W,
    outline: &Outline,
    report: Option<&Report>,
    number: usize,
) -> io::Result<()> {
    let Some(report) = report else {
        return Ok(());
    };
    match given_over(outline, report, number) {
        Some(given) => write_values(writer, given),
        None => Ok(()),
    }
}

/// Writes what a block gave over its exit, and what it recorded or left.
fn write_kept<W: Write>(writer: &mut W, reported: &BlockReport) -> io::Result<()> {
    if let Some(exit) = reported.exit {
        writer.write_all(b"<dt>gave over the exit")?;
        write_list(writer, exit)?;
    }
    match reported.kept {
        Kept::Record(recorded) => {
            writer.write_all(b"<dt>recorded")?;
            write_list(writer, recorded)
        }
        Kept::Left(left) => {
            writer.write_all(b"<dt>left")?;
            write_list(writer, left)
        }
    }
}

/// Writes how long a list is, behind the words for it, and its values.
fn write_list<W: Write>(writer: &mut W, list: PrintedList) -> io::Result<()> {
    let count = list.len();
    writeln!(writer, ": {count}</dt>")?;
    write_values(writer, list)
}

/// Writes the first values of a list, and how many more there are; nothing of an empty one.
fn write_values<W: Write>(writer: &mut W, list: PrintedList) -> io::Result<()> {
    if list.is_empty() {
        return Ok(());
    }
    writer.write_all(b"<dd>")?;
    for value in list.items().take(MOST_VALUES) {
        writer.write_all(b"<code>")?;
        write_bytes(writer, value.text)?;
        writer.write_all(b"</code> ")?;
    }
    let more = list.len().saturating_sub(MOST_VALUES);
    if more > 0 {
        write!(writer, "<em>and {more} more</em>")?;
    }
    writer.write_all(b"</dd>\n")
}
