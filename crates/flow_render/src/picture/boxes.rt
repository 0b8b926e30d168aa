//! The boxes of blocks.
use crate::columns::{LEFT_PADDING, reported};
use crate::escape::Escaping;
use crate::layout::{LINE_HEIGHT, Layout};
use crate::line::{fill_row, rows, write_line};
use crate::tone::tone_of_block;
use flow_outcome::{BlockOutline, Outline, write_counts, write_options, write_state};
use flow_reading::{BlockReport, Report};
use std::io;
use std::io::Write;

/// How far the foot of a line of text is from the line's top.
const BASELINE: usize = 13;

/// Writes a box for each block, which leads to what is said of it below the picture.
pub(crate) fn write_boxes<W: Write>(
    writer: &mut W,
    outline: &Outline,
    report: Option<&Report>,
    layout: &Layout,
    line: &mut Vec<u8>,
) -> io::Result<()> {
    for (number, block) in outline.blocks.iter().enumerate() {
        let reported = reported(report, number);
        write!(writer, "<a href=\"#b{number}\">")?;
        write_frame(writer, layout, number, reported)?;
        writer.write_all(b"<title>")?;
        write_heading(writer, block, reported)?;
        writer.write_all(b"</title></rect>")?;
        write_rows(writer, layout, number, block, reported, line)?;
        writer.write_all(b"</a>\n")?;
    }
    Ok(())
}

/// Writes the start of a rectangle in the colours of the block's tone.
fn write_frame<W: Write>(
    writer: &mut W,
    layout: &Layout,
    number: usize,
    reported: Option<&BlockReport>,
) -> io::Result<()> {
    let spot = layout.spot(number);
    let class = tone_of_block(reported).class();
    let column = layout.column(number);
    let left = column.left;
    let top = spot.top;
    let width = column.box_width;
    let height = spot.height;
    write!(
        writer,
        "<rect class=\"box {class}\" x=\"{left}\" y=\"{top}\" "
    )?;
    write!(writer, "width=\"{width}\" height=\"{height}\" rx=\"6\">")
}

/// Writes the line that a drawing has of a block: its name, what it is asked for, and what became of it.
pub(crate) fn write_heading<W: Write>(
    writer: &mut W,
    block: &BlockOutline,
    reported: Option<&BlockReport>,
) -> io::Result<()> {
    let name = block.name;
    let mut escaping = Escaping::new(&mut *writer);
    write!(escaping, "{name}  ")?;
    write_options(&mut escaping, block)?;
    if let Some(reported) = reported {
        escaping.write_all(b": ")?;
        write_state(&mut escaping, reported.state)?;
        write_counts(&mut escaping, reported)?;
    }
    Ok(())
}

/// Writes the lines in the box of a block.
fn write_rows<W: Write>(
    writer: &mut W,
    layout: &Layout,
    number: usize,
    block: &BlockOutline,
    reported: Option<&BlockReport>,
    line: &mut Vec<u8>,
) -> io::Result<()> {
    let rows = rows(reported.is_some());
    let spot = layout.spot(number);
    let left = layout.column(number).left.saturating_add(LEFT_PADDING);
    let room = rows.len().saturating_mul(LINE_HEIGHT);
    let top = spot
        .top
        .saturating_add(spot.height.saturating_sub(room) / 2);
    for (place, row) in rows.iter().enumerate() {
        let class = row.class();
        let foot = place
            .saturating_mul(LINE_HEIGHT)
            .saturating_add(BASELINE)
            .saturating_add(top);
        fill_row(line, *row, block, reported)?;
        write!(writer, "<text class=\"{class}\" x=\"{left}\" y=\"{foot}\">")?;
        write_line(writer, line)?;
        writer.write_all(b"</text>")?;
    }
    Ok(())
}
