//! The lines of a merged report.
use flow_reading::{BlockReport, Kept, PrintedList, Report};
use std::io;
use std::io::Write;

/// A list of a block's report.
#[derive(Clone, Copy)]
enum Place {
    Input,
    Taken(usize),
    Held(usize),
    Given(usize),
    Kept,
}

/// The list of a block that stands at this place.
fn list_at<'a>(block: &BlockReport<'a>, place: Place) -> Option<PrintedList<'a>> {
    match place {
        Place::Input => block.input,
        Place::Taken(port) => Some(block.ports.get(port)?.taken),
        Place::Held(port) => Some(block.ports.get(port)?.held),
        Place::Given(link) => Some(block.links.get(link)?.given),
        Place::Kept => match block.kept {
            Kept::Record(list) | Kept::Left(list) => Some(list),
        },
    }
}

/// Writes the lines of a block of the whole: those of `first`, the block in the first part, with the lists of all parts.
pub fn write_block<W: Write>(
    parts: &[Report<'_>],
    number: usize,
    first: &BlockReport<'_>,
    writer: &mut W,
) -> io::Result<()> {
    let name = first.name;
    writeln!(writer, "block {name} done")?;
    if first.input.is_some() {
        writer.write_all(b"input ")?;
        write_joined(parts, number, Place::Input, writer)?;
    }
    for port in 0..first.ports.len() {
        write!(writer, "port {port} ")?;
        write_joined(parts, number, Place::Taken(port), writer)?;
        write!(writer, "held {port} ")?;
        write_joined(parts, number, Place::Held(port), writer)?;
    }
    write_links(parts, number, first, writer)?;
    match first.kept {
        Kept::Record(_) => writer.write_all(b"record ")?,
        Kept::Left(_) => writer.write_all(b"left ")?,
    }
    write_joined(parts, number, Place::Kept, writer)
}

fn write_links<W: Write>(
    parts: &[Report<'_>],
    number: usize,
    first: &BlockReport<'_>,
    writer: &mut W,
) -> io::Result<()> {
    for (place, link) in first.links.iter().enumerate() {
        let id = link.number;
        write!(writer, "link {id} ")?;
        write_joined(parts, number, Place::Given(place), writer)?;
    }
    Ok(())
}

/// The values of the list at this place of the block with this number; nothing where there is no such list.
fn inner_at<'a>(part: &Report<'a>, number: usize, place: Place) -> &'a [u8] {
    let Some(block) = part.blocks.get(number) else {
        return &[];
    };
    match list_at(block, place) {
        Some(list) => list.inner(),
        None => &[],
    }
}

/// Writes the lists at this place, one after the other, as one list, and ends the line.
fn write_joined<W: Write>(
    parts: &[Report<'_>],
    number: usize,
    place: Place,
    writer: &mut W,
) -> io::Result<()> {
    writer.write_all(b"[")?;
    let mut is_first = true;
    for part in parts {
        let inner = inner_at(part, number, place);
        if inner.is_empty() {
            continue;
        }
        if !is_first {
            writer.write_all(b",")?;
        }
        writer.write_all(inner)?;
        is_first = false;
    }
    writer.write_all(b"]\n")
}
