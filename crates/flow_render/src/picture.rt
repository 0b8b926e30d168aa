//! A network as an image in SVG: boxes in layers, sources to the left of their targets, and links between them.
mod arrows;
mod boxes;

use crate::layout::Layout;
pub(crate) use crate::picture::arrows::write_link_line;
use crate::picture::arrows::{write_arrows, write_labels, write_ports};
use crate::picture::boxes::write_boxes;
pub(crate) use crate::picture::boxes::write_heading;
use flow_outcome::Outline;
use flow_reading::Report;
use std::io;
use std::io::Write;

/// The tip of an arrow.
const TIP: &[u8] =
    b"<defs><marker id=\"tip\" viewBox=\"0 0 8 8\" refX=\"8\" refY=\"4\" markerWidth=\"8\" markerHeight=\"8\" \
markerUnits=\"userSpaceOnUse\" orient=\"auto\"><path class=\"tip\" d=\"M0 0L8 4L0 8z\"/></marker></defs>\n";

/// Writes the image of a network that is laid out so, with what a report says of each block and link.
pub(crate) fn write_picture<W: Write>(
    writer: &mut W,
    outline: &Outline,
    report: Option<&Report>,
    layout: &Layout,
    line: &mut Vec<u8>,
) -> io::Result<()> {
    let width = layout.width();
    let height = layout.height();
    write!(writer, "<svg width=\"{width}\" height=\"{height}\" ")?;
    writeln!(writer, "viewBox=\"0 0 {width} {height}\">")?;
    writer.write_all(TIP)?;
    write_arrows(writer, outline, report, layout)?;
    write_labels(writer, outline, report, layout, line)?;
    write_boxes(writer, outline, report, layout, line)?;
    write_ports(writer, outline, layout)?;
    writer.write_all(b"</svg>\n")
}
