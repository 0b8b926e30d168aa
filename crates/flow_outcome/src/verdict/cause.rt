//! Why a block is not done, and why records wait at it.
use crate::kind::Kind;
use crate::outline::{BlockOutline, LinkOutline, Outline, given_over};
use crate::verdict::link_cause::{write_stuck, write_unended};
use crate::verdict::work_fault::write_fault;
use flow_reading::{BlockReport, Kept, PrintedList, PrintedValue, Report, Settled, State};
use std::io;
use std::io::Write;

/// A block in its network, and in the report of a run.
#[derive(Clone, Copy)]
struct Scene<'r> {
    outline: &'r Outline<'r>,
    report: &'r Report<'r>,
    number: usize,
    block: &'r BlockOutline<'r>,
    reported: &'r BlockReport<'r>,
}

/// Writes a line for each cause that a block is not through; none where it is. Where the run was stopped, only faults are
/// causes: all else could have gone on.
pub(crate) fn write_causes<'r, W: Write>(
    writer: &mut W,
    outline: &'r Outline<'r>,
    report: &'r Report<'r>,
    number: usize,
) -> io::Result<()> {
    let (Some(block), Some(reported)) = (outline.blocks.get(number), report.blocks.get(number))
    else {
        return Ok(());
    };
    let scene = Scene {
        outline,
        report,
        number,
        block,
        reported,
    };
    match (report.settled, reported.state) {
        (Settled::Quiet, _) | (Settled::Stopped, State::Faulted(_)) => {
            write_state_cause(writer, scene)?;
            write_waiting(writer, scene)
        }
        (Settled::Stopped, State::Open | State::Completing | State::Done) => Ok(()),
    }
}

/// Writes why the state of a block is what it is, unless it is done.
fn write_state_cause<W: Write>(writer: &mut W, scene: Scene) -> io::Result<()> {
    let name = scene.block.name;
    match scene.reported.state {
        State::Done => return Ok(()),
        State::Faulted(fault) => {
            write!(writer, "{name}: ")?;
            write_fault(writer, fault)?;
            write_faulted(writer, scene, fault)?;
        }
        State::Completing => {
            write!(writer, "{name}: takes no more, and is not through")?;
            write_left(writer, scene)?;
            write_held(writer, scene)?;
        }
        State::Open => {
            write!(writer, "{name}: open, as no end has come to it")?;
            write_open(writer, scene)?;
            write_left(writer, scene)?;
            write_held(writer, scene)?;
        }
    }
    writer.write_all(b"\n")
}

/// Writes that records wait at the block's input, if some do.
fn write_waiting<W: Write>(writer: &mut W, scene: Scene) -> io::Result<()> {
    let Some(input) = scene.reported.input else {
        return Ok(());
    };
    if input.is_empty() {
        return Ok(());
    }
    let count = input.len();
    let name = scene.block.name;
    write!(writer, "{name}: records that wait at its input: {count}")?;
    match (scene.reported.state, scene.block.capacity) {
        (State::Open, Some(capacity)) => {
            write!(
                writer,
                "; it has room for {capacity}, and is not through with those it took"
            )?;
        }
        (State::Open, None) => {}
        (State::Done | State::Completing | State::Faulted(_), _) => {
            writer.write_all(b"; it takes no more")?;
        }
    }
    writer.write_all(b"\n")
}

/// Writes where a fault came from: the block's own work, or the end of another block.
fn write_faulted<W: Write>(writer: &mut W, scene: Scene, fault: u32) -> io::Result<()> {
    if scene.block.kind.has_work() && write_failed(writer, scene.reported)? {
        return Ok(());
    }
    for (id, link) in scene.outline.links.iter().enumerate() {
        if hands_on(scene, link, fault) {
            if let Some(source) = scene.outline.blocks.get(link.from) {
                let source = source.name;
                return write!(writer, ", which link {id} hands on from {source}");
            }
        }
    }
    Ok(())
}

/// Writes the message on which work faulted, the first that the block holds; false where it holds none.
fn write_failed<W: Write>(writer: &mut W, reported: &BlockReport) -> io::Result<bool> {
    let Some(port) = reported.ports.first() else {
        return Ok(false);
    };
    let Some(value) = port.held.items().next() else {
        return Ok(false);
    };
    let through = port.taken.len().saturating_sub(port.held.len());
    let number = through.saturating_add(1);
    write!(writer, " on its message {number}, ")?;
    writer.write_all(value.text)?;
    let behind = port.held.len().saturating_sub(1);
    if behind > 0 {
        write!(writer, "; held behind it: {behind}")?;
    }
    Ok(true)
}

/// Whether a link ended the block with this fault.
fn hands_on(scene: Scene, link: &LinkOutline, fault: u32) -> bool {
    link.to == scene.number
        && link.propagate
        && match scene.report.blocks.get(link.from) {
            Some(source) => has_fault(source.state, fault),
            None => false,
        }
}

fn has_fault(state: State, fault: u32) -> bool {
    match state {
        State::Faulted(number) => number == fault,
        State::Open | State::Completing | State::Done => false,
    }
}

/// Writes what the block made and could not give, if there is any.
fn write_left<W: Write>(writer: &mut W, scene: Scene) -> io::Result<()> {
    match scene.reported.kept {
        Kept::Left(left) => write_unsent(writer, scene, left),
        Kept::Record(_) => Ok(()),
    }
}

/// Writes how much was left, its head, and why the head crossed no link.
fn write_unsent<W: Write>(writer: &mut W, scene: Scene, left: PrintedList) -> io::Result<()> {
    let Some(head) = left.items().next() else {
        return Ok(());
    };
    let count = left.len();
    write!(writer, "; left: {count}, first ")?;
    writer.write_all(head.text)?;
    for (id, link) in scene.outline.links.iter().enumerate() {
        if link.from == scene.number && !has_copy(scene, id, head) {
            write_stuck(writer, scene.outline, scene.report, id, link, head)?;
        }
    }
    if scene.reported.links.is_empty() {
        writer.write_all(b"; no link leads out of it")?;
    }
    Ok(())
}

/// Whether a link of a block that copies has carried what was left: its head is the last that crossed.
fn has_copy(scene: Scene, id: usize, head: PrintedValue) -> bool {
    if !scene.block.kind.copies() {
        return false;
    }
    match given_over(scene.outline, scene.report, id) {
        Some(given) => match given.items().last() {
            Some(last) => last.text == head.text,
            None => false,
        },
        None => false,
    }
}

/// Writes what the block holds at its ports.
fn write_held<W: Write>(writer: &mut W, scene: Scene) -> io::Result<()> {
    for (number, port) in scene.reported.ports.iter().enumerate() {
        if !port.held.is_empty() {
            let count = port.held.len();
            write!(writer, "; held at port {number}: {count}")?;
            if matches!(scene.block.kind, Kind::Join) {
                writer.write_all(b", with none at another port to go with them")?;
            }
        }
    }
    Ok(())
}

/// Writes why no end has come to the block.
fn write_open<W: Write>(writer: &mut W, scene: Scene) -> io::Result<()> {
    let mut has_source = scene.block.input;
    for (id, link) in scene.outline.links.iter().enumerate() {
        if link.to == scene.number {
            write_unended(writer, scene.outline, scene.report, id, link)?;
            has_source = true;
        }
    }
    if has_source {
        Ok(())
    } else {
        writer.write_all(b"; nothing leads into it")
    }
}
