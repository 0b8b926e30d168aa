//! The arrows of links, and what stands beside them.
use crate::escape::Escaping;
use crate::graph::Step;
use crate::layout::Layout;
use crate::line::{fill_label, write_line};
use flow_outcome::{LinkOutline, Outline, write_crossed, write_link};
use flow_reading::Report;
use std::io;
use std::io::Write;

/// How far the text beside a link is from its block, and from the link.
const LABEL_LEFT: usize = 5;

const LABEL_ABOVE: usize = 4;

/// Where the number of a port stands in a box.
const PORT_LEFT: usize = 5;

const PORT_BELOW: usize = 4;

/// Writes an arrow for each link: to the right of a box it is level, so that there is room for text, and then it bends.
pub(crate) fn write_arrows<W: Write>(
    writer: &mut W,
    outline: &Outline,
    report: Option<&Report>,
    layout: &Layout,
) -> io::Result<()> {
    for step in &layout.graph.steps {
        if layout.is_block(step.from) {
            write_start(writer, outline, layout, *step)?;
        }
        write_step(writer, outline, layout, *step)?;
        if layout.is_block(step.to) {
            write_end(writer, outline, report, *step)?;
        }
    }
    Ok(())
}

/// Writes the start of a link's path. One that hands no end on is drawn otherwise.
fn write_start<W: Write>(
    writer: &mut W,
    outline: &Outline,
    layout: &Layout,
    step: Step,
) -> io::Result<()> {
    let class = match outline.links.get(step.link) {
        Some(link) if link.propagate => "link",
        Some(_) | None => "link loose",
    };
    let right = layout.column(step.from).right();
    let start = layout.start(step);
    write!(
        writer,
        "<path class=\"{class}\" marker-end=\"url(#tip)\" d=\"M{right} {start}"
    )
}

/// Writes the part of a path from the left or the right of a spot to the left of the next one.
fn write_step<W: Write>(
    writer: &mut W,
    outline: &Outline,
    layout: &Layout,
    step: Step,
) -> io::Result<()> {
    let bend = layout.column(step.from).bend();
    let left = layout.column(step.to).left;
    let middle = bend.saturating_add(left) / 2;
    let start = layout.start(step);
    let end = layout.end(outline, step);
    write!(
        writer,
        "H{bend}C{middle} {start} {middle} {end} {left} {end}"
    )
}

/// Writes the end of a link's path, with the line that a drawing has of it.
fn write_end<W: Write>(
    writer: &mut W,
    outline: &Outline,
    report: Option<&Report>,
    step: Step,
) -> io::Result<()> {
    writer.write_all(b"\"><title>")?;
    if let Some(link) = outline.links.get(step.link) {
        write_link_line(writer, outline, report, step.link, link)?;
    }
    writer.write_all(b"</title></path>\n")
}

/// Writes the line that a drawing has of a link: its number, where it leads, what it is asked for, and how much crossed it.
pub(crate) fn write_link_line<W: Write>(
    writer: &mut W,
    outline: &Outline,
    report: Option<&Report>,
    number: usize,
    link: &LinkOutline,
) -> io::Result<()> {
    let mut escaping = Escaping::new(&mut *writer);
    write_link(&mut escaping, outline, number, link)?;
    write_crossed(&mut escaping, outline, report, number, ": ")
}

/// Writes beside each link, where it leaves its block, what it is asked for and how much crossed it.
pub(crate) fn write_labels<W: Write>(
    writer: &mut W,
    outline: &Outline,
    report: Option<&Report>,
    layout: &Layout,
    line: &mut Vec<u8>,
) -> io::Result<()> {
    for step in &layout.graph.steps {
        if layout.is_block(step.from) {
            if let Some(link) = outline.links.get(step.link) {
                fill_label(line, outline, report, step.link, link)?;
                write_label(writer, layout, *step, line)?;
            }
        }
    }
    Ok(())
}

fn write_label<W: Write>(
    writer: &mut W,
    layout: &Layout,
    step: Step,
    line: &[u8],
) -> io::Result<()> {
    let right = layout.column(step.from).right();
    let left = right.saturating_add(LABEL_LEFT);
    let foot = layout.start(step).saturating_sub(LABEL_ABOVE);
    write!(writer, "<text class=\"label\" x=\"{left}\" y=\"{foot}\">")?;
    write_line(writer, line)?;
    writer.write_all(b"</text>\n")
}

/// Writes where links reach a block with several ports the numbers of these.
pub(crate) fn write_ports<W: Write>(
    writer: &mut W,
    outline: &Outline,
    layout: &Layout,
) -> io::Result<()> {
    for step in &layout.graph.steps {
        if let (Some(block), Some(link)) = (
            outline.blocks.get(step.to),
            outline.links.get(step.link),
        ) {
            if block.ports > 1 {
                write_port(writer, outline, layout, *step, link.port)?;
            }
        }
    }
    Ok(())
}

fn write_port<W: Write>(
    writer: &mut W,
    outline: &Outline,
    layout: &Layout,
    step: Step,
    port: u32,
) -> io::Result<()> {
    let left = layout.column(step.to).left.saturating_add(PORT_LEFT);
    let foot = layout.end(outline, step).saturating_add(PORT_BELOW);
    writeln!(
        writer,
        "<text class=\"port\" x=\"{left}\" y=\"{foot}\">{port}</text>"
    )
}
