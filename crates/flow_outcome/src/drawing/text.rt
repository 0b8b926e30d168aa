//! A network as lines of text.
use crate::damage::Damage;
use crate::drawing::notes::{
    reported, write_counts, write_crossed, write_link, write_options, write_state,
};
use crate::outline::{BlockOutline, Outline};
use flow_reading::{BlockReport, Report, State};
use std::io;
use std::io::Write;

/// Writes a line where the report is damaged, one for each block, and under it one for each of its links.
pub(crate) fn write_text<W: Write>(
    outline: &Outline,
    report: Option<&Report>,
    coloured: bool,
    damage: Option<Damage<'_>>,
    writer: &mut W,
) -> io::Result<()> {
    if let Some(damage) = damage {
        writeln!(writer, "{damage}")?;
    }
    for (number, block) in outline.blocks.iter().enumerate() {
        write_block(writer, block, reported(report, number), coloured)?;
        write_links(writer, outline, report, number)?;
    }
    Ok(())
}

fn write_block<W: Write>(
    writer: &mut W,
    block: &BlockOutline,
    reported: Option<&BlockReport>,
    coloured: bool,
) -> io::Result<()> {
    let name = block.name;
    if coloured {
        write!(writer, "\x1b[1m{name}\x1b[0m  ")?;
    } else {
        write!(writer, "{name}  ")?;
    }
    write_options(writer, block)?;
    if let Some(reported) = reported {
        writer.write_all(b": ")?;
        write_shown(writer, reported.state, coloured)?;
        write_counts(writer, reported)?;
    }
    writer.write_all(b"\n")
}

/// Writes a state: green where the block is done, red where it faulted, and yellow where it is neither.
fn write_shown<W: Write>(writer: &mut W, state: State, coloured: bool) -> io::Result<()> {
    if !coloured {
        return write_state(writer, state);
    }
    writer.write_all(match state {
        State::Done => b"\x1b[32m",
        State::Faulted(_) => b"\x1b[31m",
        State::Open | State::Completing => b"\x1b[33m",
    })?;
    write_state(writer, state)?;
    writer.write_all(b"\x1b[0m")
}

/// Writes the lines of the links out of a block.
fn write_links<W: Write>(
    writer: &mut W,
    outline: &Outline,
    report: Option<&Report>,
    block: usize,
) -> io::Result<()> {
    for (number, link) in outline.links.iter().enumerate() {
        if link.from == block {
            writer.write_all(b"  ")?;
            write_link(writer, outline, number, link)?;
            write_crossed(writer, outline, report, number, ": ")?;
            writer.write_all(b"\n")?;
        }
    }
    Ok(())
}
