//! A network in layers: a spot for each block, and for each link one in each layer that it passes.
use crate::layers::{layer_at, layers_of};
use flow_outcome::Outline;
use std::alloc::{AllocError, Global};

/// The height of a spot where a link passes.
const PASS_HEIGHT: usize = 2;

/// A place for a block, or for a link that passes a layer. Lengths are in pixels.
#[derive(Clone, Copy)]
pub(crate) struct Spot {
    pub(crate) layer: usize,
    /// How many spots of its layer stand above it.
    pub(crate) place: usize,
    pub(crate) top: usize,
    pub(crate) height: usize,
}

impl Spot {
    fn in_layer(layer: usize) -> Spot {
        Spot {
            layer,
            place: 0,
            top: 0,
            height: PASS_HEIGHT,
        }
    }

    pub(crate) fn centre(self) -> usize {
        self.top.saturating_add(self.height / 2)
    }

    /// How low the point is that stands behind so many of so many in all, which are spread over the height.
    pub(crate) fn point(self, before: usize, count: usize) -> usize {
        let parts = count.saturating_add(1);
        let share = self
            .height
            .saturating_mul(before.saturating_add(1))
            .checked_div(parts);
        self.top.saturating_add(share.unwrap_or(0))
    }
}

/// A piece of a link, from a spot to one in the next layer.
#[derive(Clone, Copy)]
pub(crate) struct Step {
    /// The number of the link.
    pub(crate) link: usize,
    pub(crate) from: usize,
    pub(crate) to: usize,
}

/// The spots, those of the blocks first and by their numbers, and the steps, link by link and each from its source on.
#[derive(Drop)]
pub(crate) struct Graph {
    pub(crate) spots: Vec<Spot>,
    pub(crate) steps: Vec<Step>,
}

impl Graph {
    pub(crate) fn spot(&self, number: usize) -> Spot {
        spot_at(&self.spots, number)
    }
}

/// The spots and steps of a network; none has a place yet.
pub(crate) fn graph_of(alloc: Global, outline: &Outline) -> Result<Graph, AllocError> {
    let layers = layers_of(alloc, outline)?;
    let mut spots = block_spots(alloc, &layers)?;
    let mut steps = Vec::new(alloc);
    for (number, link) in outline.links.iter().enumerate() {
        if link.from < layers.len() && link.to < layers.len() {
            let step = Step {
                link: number,
                from: link.from,
                to: link.to,
            };
            let end = layer_at(&layers, link.to);
            add_link(
                &mut spots,
                &mut steps,
                step,
                layer_at(&layers, link.from),
                end,
            )?;
        }
    }
    Ok(Graph { spots, steps })
}

/// The spots of blocks in these layers.
fn block_spots(alloc: Global, layers: &[usize]) -> Result<Vec<Spot>, AllocError> {
    let mut spots = Vec::with_capacity(alloc, layers.len())?;
    for layer in layers {
        spots.push(Spot::in_layer(*layer))?;
    }
    Ok(spots)
}

/// Adds a link, which is one step as a whole, in pieces, with a spot for each layer between these.
fn add_link(
    spots: &mut Vec<Spot>,
    steps: &mut Vec<Step>,
    whole: Step,
    start: usize,
    end: usize,
) -> Result<(), AllocError> {
    let mut from = whole.from;
    for layer in start.saturating_add(1)..end {
        let to = spots.len();
        spots.push(Spot::in_layer(layer))?;
        steps.push(Step { from, to, ..whole })?;
        from = to;
    }
    steps.push(Step { from, ..whole })?;
    Ok(())
}

/// How many layers there are.
pub(crate) fn layer_count(spots: &[Spot]) -> usize {
    let mut count = 0usize;
    for spot in spots {
        count = count.max(spot.layer.saturating_add(1));
    }
    count
}

/// The spot with this number.
pub(crate) fn spot_at(spots: &[Spot], number: usize) -> Spot {
    spots.get(number).copied().unwrap_or(Spot::in_layer(0))
}

/// Changes the spot with this number.
pub(crate) fn set_spot(spots: &mut [Spot], number: usize, spot: Spot) {
    if number < spots.len() {
        spots[number] = spot;
    }
}

/// The spots of a layer, each by its place and its number, in their order.
pub(crate) fn spots_in(
    alloc: Global,
    spots: &[Spot],
    layer: usize,
) -> Result<Vec<(usize, usize)>, AllocError> {
    let mut found = Vec::new(alloc);
    for (number, spot) in spots.iter().enumerate() {
        if spot.layer == layer {
            found.push((spot.place, number))?;
        }
    }
    found.sort_unstable();
    Ok(found)
}
