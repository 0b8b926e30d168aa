//! Why a link carries no more, or no end.
ghost use Rattle.std.specs.Prelude.{◌≤◌, ◌↔◌, IsTrue};

use crate::outline::{BlockOutline, LinkOutline, Outline, given_over};
use flow_reading::{PrintedValue, Report, State};
use std::io;
use std::io::Write;

/// Whether as many messages crossed a link as may.
fn is_cut(outline: &Outline, report: &Report, id: usize, link: &LinkOutline) -> bool {
    match (link.max, given_over(outline, report, id)) {
        (Some(max), Some(given)) => is_reached(max, given.len()),
        (None, _) | (_, None) => false,
    }
}

fn is_reached(max: u32, count: usize) -> bool
    ensures { IsTrue result ↔ (max ≤ count) }
{
    max as usize <= count
}

/// Writes why the message at the head of what a block left did not cross a link out of it.
pub(crate) fn write_stuck<W: Write>(
    writer: &mut W,
    outline: &Outline,
    report: &Report,
    id: usize,
    link: &LinkOutline,
    head: PrintedValue,
) -> io::Result<()> {
    let (Some(target), Some(reported)) = (outline.blocks.get(link.to), report.blocks.get(link.to))
    else {
        return Ok(());
    };
    let name = target.name;
    write!(writer, "; link {id} ")?;
    if is_cut(outline, report, id, link) {
        return write_cut(writer, link);
    }
    if !link.when.admits(head) {
        let when = link.when;
        return write!(writer, "admits {when} alone");
    }
    write!(writer, "leads to {name}, which ")?;
    match reported.state {
        State::Faulted(_) => writer.write_all(b"faulted and takes no more"),
        State::Done | State::Completing => writer.write_all(b"takes no more"),
        State::Open => writer.write_all(why_not_taken(target).as_bytes()),
    }
}

/// Why a block that is open did not take a message that is there for it.
fn why_not_taken(target: &BlockOutline) -> &'static str {
    match (target.reserves, target.capacity) {
        (false, _) => "has no room for it",
        (true, None) => "takes whole rows alone, and has nothing at another port to go with it",
        (true, Some(_)) => "takes whole rows alone, and lacks room or a message at another port",
    }
}

fn write_cut<W: Write>(writer: &mut W, link: &LinkOutline) -> io::Result<()> {
    let max = link.max.unwrap_or(0);
    write!(writer, "was cut at max {max}")
}

/// Writes why a link into a block brought no end, if it brought none.
pub(crate) fn write_unended<W: Write>(
    writer: &mut W,
    outline: &Outline,
    report: &Report,
    id: usize,
    link: &LinkOutline,
) -> io::Result<()> {
    let (Some(source), Some(reported)) = (
        outline.blocks.get(link.from),
        report.blocks.get(link.from),
    ) else {
        return Ok(());
    };
    let name = source.name;
    write!(writer, "; link {id} from {name} ")?;
    if is_cut(outline, report, id, link) {
        write_cut(writer, link)?;
        return writer.write_all(b", and a cut link hands no end on");
    }
    if !link.propagate {
        return writer.write_all(b"does not propagate");
    }
    match reported.state {
        State::Done | State::Faulted(_) => {
            let port = link.port;
            write!(writer, "ended port {port}, and other ports are open")
        }
        State::Open | State::Completing => write!(writer, "waits for the end of {name}"),
    }
}
