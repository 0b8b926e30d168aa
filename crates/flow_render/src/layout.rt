//! Where blocks and links stand in a picture, in pixels.
use crate::columns::{Column, column_at, columns_of};
use crate::fault::PageFault;
use crate::graph::{Graph, Spot, Step, graph_of, set_spot, spot_at};
use crate::line::rows;
use crate::order::place_spots;
use crate::stack::stack_spots;
use flow_outcome::Outline;
use flow_reading::Report;
use std::alloc::Global;

/// What is left free round the picture.
const MARGIN: usize = 16;

/// The height of a line of text, and the room above and below the lines of a box.
pub(crate) const LINE_HEIGHT: usize = 17;

const BOX_PADDING: usize = 8;

/// The room of a link at the side of a box.
const LINK_HEIGHT: usize = 15;

/// A picture: so many blocks, the spots and steps, and a column for each layer.
#[derive(Drop)]
pub(crate) struct Layout {
    pub(crate) blocks: usize,
    pub(crate) graph: Graph,
    pub(crate) columns: Vec<Column>,
}

/// Where everything stands in the picture of a network. The line has room for each text in it then.
pub(crate) fn layout_of(
    alloc: Global,
    outline: &Outline,
    report: Option<&Report>,
    line: &mut Vec<u8>,
) -> Result<Layout, PageFault> {
    let Graph { mut spots, steps } = graph_of(alloc, outline)?;
    let blocks = outline.blocks.len();
    let lines = rows(report.is_some()).len();
    set_heights(spots.as_mut_slice(), &steps, blocks, lines);
    place_spots(alloc, &mut spots, &steps)?;
    stack_spots(alloc, &mut spots, &steps, MARGIN)?;
    let graph = Graph { spots, steps };
    let columns = columns_of(alloc, outline, report, &graph, MARGIN, line)?;
    Ok(Layout {
        blocks,
        graph,
        columns,
    })
}

/// Gives the box of each block room for so many lines of text, and for its links.
fn set_heights(spots: &mut [Spot], steps: &[Step], blocks: usize, lines: usize) {
    let least = lines
        .saturating_mul(LINE_HEIGHT)
        .saturating_add(2 * BOX_PADDING);
    for number in 0..blocks {
        let links = most_links(steps, number).saturating_add(1);
        let height = links.saturating_mul(LINK_HEIGHT).max(least);
        let spot = spot_at(spots, number);
        set_spot(spots, number, Spot { height, ..spot });
    }
}

/// How many links a block has at the side that has more.
fn most_links(steps: &[Step], number: usize) -> usize {
    let mut sources = 0usize;
    let mut targets = 0usize;
    for step in steps {
        if step.to == number {
            sources = sources.saturating_add(1);
        }
        if step.from == number {
            targets = targets.saturating_add(1);
        }
    }
    sources.max(targets)
}

impl Layout {
    pub(crate) fn spot(&self, number: usize) -> Spot {
        self.graph.spot(number)
    }

    /// Whether the spot with this number is that of a block.
    pub(crate) fn is_block(&self, number: usize) -> bool {
        number < self.blocks
    }

    /// The column of the spot with this number.
    pub(crate) fn column(&self, number: usize) -> Column {
        column_at(&self.columns, self.spot(number).layer)
    }

    /// The width of the picture.
    pub(crate) fn width(&self) -> usize {
        let mut most = 0usize;
        for column in &self.columns {
            most = most.max(column.right());
        }
        most.saturating_add(MARGIN)
    }

    /// The height of the picture.
    pub(crate) fn height(&self) -> usize {
        let mut most = 0usize;
        for spot in &self.graph.spots {
            most = most.max(spot.top.saturating_add(spot.height));
        }
        most.saturating_add(MARGIN)
    }

    /// How low a step leaves its first spot. At a block the links go out in the order of where they lead.
    pub(crate) fn start(&self, step: Step) -> usize {
        let spot = self.spot(step.from);
        if !self.is_block(step.from) {
            return spot.centre();
        }
        let key = self.start_key(step);
        let mut before = 0usize;
        let mut count = 0usize;
        for other in &self.graph.steps {
            if other.from == step.from {
                count = count.saturating_add(1);
                if self.start_key(*other) < key {
                    before = before.saturating_add(1);
                }
            }
        }
        spot.point(before, count)
    }

    fn start_key(&self, step: Step) -> (usize, usize) {
        (self.spot(step.to).place, step.link)
    }

    /// How low a step reaches its second spot. At a block the links come in by their ports, and in the order of where they
    /// come from.
    pub(crate) fn end(&self, outline: &Outline, step: Step) -> usize {
        let spot = self.spot(step.to);
        if !self.is_block(step.to) {
            return spot.centre();
        }
        let key = self.end_key(outline, step);
        let mut before = 0usize;
        let mut count = 0usize;
        for other in &self.graph.steps {
            if other.to == step.to {
                count = count.saturating_add(1);
                if self.end_key(outline, *other) < key {
                    before = before.saturating_add(1);
                }
            }
        }
        spot.point(before, count)
    }

    fn end_key(&self, outline: &Outline, step: Step) -> (u32, usize, usize) {
        let port = match outline.links.get(step.link) {
            Some(link) => link.port,
            None => 0,
        };
        (port, self.spot(step.from).place, step.link)
    }
}
