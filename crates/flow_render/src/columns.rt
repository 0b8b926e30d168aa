//! How wide the layers of a picture are, from left to right.
use crate::fault::PageFault;
use crate::graph::{Graph, layer_count};
use crate::line::{fill_label, fill_row, rows, width_of};
use flow_outcome::{BlockOutline, Outline};
use flow_reading::{BlockReport, Report};
use std::alloc::Global;
use std::io;

/// The room in a box to the left of its text, which numbers of ports have, and to the right.
pub(crate) const LEFT_PADDING: usize = 20;

const RIGHT_PADDING: usize = 12;

/// The width in which links bend between two layers.
const BEND: usize = 72;

/// The width of ten characters in a box, and beside a link.
const TEN_IN_BOX: usize = 75;

const TEN_IN_LABEL: usize = 69;

/// The room of a layer: its boxes, and to the right of them what stands beside their links.
#[derive(Clone, Copy)]
pub(crate) struct Column {
    pub(crate) left: usize,
    pub(crate) box_width: usize,
    pub(crate) label_width: usize,
}

impl Column {
    const NARROW: Column = Column {
        left: 0,
        box_width: 0,
        label_width: 0,
    };

    /// The column with room for so many characters in each box.
    fn for_box(self, chars: usize) -> Column {
        let width = width_for(chars, TEN_IN_BOX)
            .saturating_add(LEFT_PADDING)
            .saturating_add(RIGHT_PADDING);
        Column {
            box_width: self.box_width.max(width),
            ..self
        }
    }

    /// The column with room for so many characters beside each link.
    fn for_label(self, chars: usize) -> Column {
        let width = width_for(chars, TEN_IN_LABEL).saturating_add(RIGHT_PADDING);
        Column {
            label_width: self.label_width.max(width),
            ..self
        }
    }

    pub(crate) fn right(self) -> usize {
        self.left.saturating_add(self.box_width)
    }

    /// Where links out of the layer begin to bend.
    pub(crate) fn bend(self) -> usize {
        self.right().saturating_add(self.label_width)
    }
}

/// The width of so many characters, of which ten have this one.
fn width_for(chars: usize, ten: usize) -> usize {
    chars.saturating_mul(ten).saturating_add(9) / 10
}

/// The report of the block with this number.
pub(crate) fn reported<'r, 't>(
    report: Option<&'r Report<'t>>,
    number: usize,
) -> Option<&'r BlockReport<'t>> {
    report?.blocks.get(number)
}

/// The column of each layer; the first begins there. The line has had each text of the picture then, and room for it.
pub(crate) fn columns_of(
    alloc: Global,
    outline: &Outline,
    report: Option<&Report>,
    graph: &Graph,
    left: usize,
    line: &mut Vec<u8>,
) -> Result<Vec<Column>, PageFault> {
    let mut columns = vec![in alloc; Column::NARROW; layer_count(&graph.spots)]?;
    widen_for_boxes(columns.as_mut_slice(), outline, report, graph, line)?;
    widen_for_labels(columns.as_mut_slice(), outline, report, graph, line)?;
    set_apart(columns.as_mut_slice(), left);
    Ok(columns)
}

/// The column of a layer.
pub(crate) fn column_at(columns: &[Column], layer: usize) -> Column {
    columns.get(layer).copied().unwrap_or(Column::NARROW)
}

/// Makes room for each block in the column of its layer.
fn widen_for_boxes(
    columns: &mut [Column],
    outline: &Outline,
    report: Option<&Report>,
    graph: &Graph,
    line: &mut Vec<u8>,
) -> io::Result<()> {
    for (number, block) in outline.blocks.iter().enumerate() {
        let chars = widest_row(block, reported(report, number), line)?;
        let layer = graph.spot(number).layer;
        if layer < columns.len() {
            let column = columns[layer];
            columns[layer] = column.for_box(chars);
        }
    }
    Ok(())
}

/// How many characters the longest line has in the box of a block.
fn widest_row(
    block: &BlockOutline,
    reported: Option<&BlockReport>,
    line: &mut Vec<u8>,
) -> io::Result<usize> {
    let mut most = 0usize;
    for row in rows(reported.is_some()) {
        fill_row(line, *row, block, reported)?;
        most = most.max(width_of(line));
    }
    Ok(most)
}

/// Makes room for what stands beside each link in the column of the layer where it begins.
fn widen_for_labels(
    columns: &mut [Column],
    outline: &Outline,
    report: Option<&Report>,
    graph: &Graph,
    line: &mut Vec<u8>,
) -> io::Result<()> {
    for step in &graph.steps {
        let layer = graph.spot(step.from).layer;
        if step.from < outline.blocks.len() && layer < columns.len() {
            if let Some(link) = outline.links.get(step.link) {
                fill_label(line, outline, report, step.link, link)?;
                let column = columns[layer];
                columns[layer] = column.for_label(width_of(line));
            }
        }
    }
    Ok(())
}

/// Puts each column to the right of the one before it, with room between them in which links bend.
fn set_apart(columns: &mut [Column], left: usize) {
    let mut left = left;
    for layer in 0..columns.len() {
        let column = columns[layer];
        let moved = Column { left, ..column };
        columns[layer] = moved;
        left = moved.bend().saturating_add(BEND);
    }
}
