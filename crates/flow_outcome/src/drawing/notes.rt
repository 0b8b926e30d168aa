//! What is noted at blocks and links.
use crate::admits::Admits;
use crate::outline::{BlockOutline, LinkOutline, Outline, given_over, holds_any};
use flow_reading::{BlockReport, Kept, PortReport, Report, State};
use std::io;
use std::io::Write;

/// The report of the block with this number.
pub(crate) fn reported<'r, 't>(
    report: Option<&'r Report<'t>>,
    number: usize,
) -> Option<&'r BlockReport<'t>> {
    report?.blocks.get(number)
}

/// Writes how many messages crossed the link with this number, behind these words; nothing without a report.
pub fn write_crossed<W: Write>(
    writer: &mut W,
    outline: &Outline,
    report: Option<&Report>,
    number: usize,
    words: &str,
) -> io::Result<()> {
    let Some(report) = report else {
        return Ok(());
    };
    match given_over(outline, report, number) {
        Some(given) => {
            let count = given.len();
            write!(writer, "{words}{count}")
        }
        None => Ok(()),
    }
}

/// What is counted at a port.
#[derive(Clone, Copy)]
enum Side {
    Taken,
    Held,
}

/// Writes what a block is asked for, behind its kind.
pub fn write_options<W: Write>(writer: &mut W, block: &BlockOutline) -> io::Result<()> {
    let kind = block.kind;
    write!(writer, "{kind}")?;
    if block.input {
        writer.write_all(b", input")?;
    }
    if block.exit {
        writer.write_all(b", exit")?;
    }
    write_option(writer, ", capacity ", block.capacity)?;
    write_option(writer, ", lanes ", block.lanes)?;
    write_option(writer, ", size ", block.size)?;
    if block.reserves {
        writer.write_all(b", reserves")?;
    }
    Ok(())
}

/// Writes a number that a block or a link is asked for, if it is.
fn write_option<W: Write>(writer: &mut W, words: &str, number: Option<u32>) -> io::Result<()> {
    match number {
        Some(number) => write!(writer, "{words}{number}"),
        None => Ok(()),
    }
}

/// Writes a link: its number, its target, and what it is asked for.
pub fn write_link<W: Write>(
    writer: &mut W,
    outline: &Outline,
    number: usize,
    link: &LinkOutline,
) -> io::Result<()> {
    write!(writer, "link {number} -> ")?;
    if let Some(target) = outline.blocks.get(link.to) {
        let name = target.name;
        let port = link.port;
        write!(writer, "{name}")?;
        if target.ports > 1 {
            write!(writer, " port {port}")?;
        }
    }
    write_terms(writer, link)
}

/// Writes what a link is asked for, each with a comma in front.
pub fn write_terms<W: Write>(writer: &mut W, link: &LinkOutline) -> io::Result<()> {
    match link.when {
        Admits::Any => {}
        when @ (Admits::Even
        | Admits::Odd
        | Admits::Below(_)
        | Admits::AtLeast(_)
        | Admits::Only(_)) => write!(writer, ", when {when}")?,
    }
    write_option(writer, ", max ", link.max)?;
    if link.propagate {
        writer.write_all(b", propagate")?;
    }
    Ok(())
}

/// Writes the state of a block.
pub fn write_state<W: Write>(writer: &mut W, state: State) -> io::Result<()> {
    match state {
        State::Open => writer.write_all(b"open"),
        State::Completing => writer.write_all(b"completing"),
        State::Done => writer.write_all(b"done"),
        State::Faulted(number) => write!(writer, "faulted {number}"),
    }
}

/// Writes how many messages a block took, and where others are, each with a comma in front.
pub fn write_counts<W: Write>(writer: &mut W, block: &BlockReport) -> io::Result<()> {
    if let Some(input) = block.input {
        write_count(writer, ", waiting ", input.len())?;
    }
    write_ports(writer, Side::Taken, &block.ports)?;
    if holds_any(&block.ports) {
        write_ports(writer, Side::Held, &block.ports)?;
    }
    match block.kept {
        Kept::Record(list) => {
            let count = list.len();
            write!(writer, ", recorded {count}")
        }
        Kept::Left(list) => write_count(writer, ", left ", list.len()),
    }
}

/// Writes a count, unless it is 0.
fn write_count<W: Write>(writer: &mut W, words: &str, count: usize) -> io::Result<()> {
    if count > 0 {
        write!(writer, "{words}{count}")?;
    }
    Ok(())
}

/// Writes for each port how many messages it took or holds.
fn write_ports<W: Write>(writer: &mut W, side: Side, ports: &[PortReport]) -> io::Result<()> {
    writer.write_all(match side {
        Side::Taken => b", took ",
        Side::Held => b", holds ",
    })?;
    for (number, port) in ports.iter().enumerate() {
        let count = match side {
            Side::Taken => port.taken.len(),
            Side::Held => port.held.len(),
        };
        if number > 0 {
            writer.write_all(b" + ")?;
        }
        write!(writer, "{count}")?;
    }
    Ok(())
}
