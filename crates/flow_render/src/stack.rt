//! How low each spot stands: at the mean of those with which it is linked, as far as the others of its layer leave room.
use crate::graph::{Spot, Step, layer_count, set_spot, spot_at, spots_in};
use crate::means::{Measure, Side, sum_at, sums_of};
use std::alloc::{AllocError, Global};

/// What is left free below a spot.
const GAP: usize = 18;

/// Where spots begin, so that there is room above them.
const START: usize = 16_777_216;

/// The room of a spot in its layer.
#[derive(Clone, Copy)]
struct Seat {
    /// The number of the spot.
    number: usize,
    /// Its height, with the gap below it.
    extent: usize,
    /// Where its top should be.
    due: usize,
    /// Where its top comes if the spots above it push it down.
    pushed: usize,
}

/// Stacks the spots of each layer in the order of their places, from this height on.
pub(crate) fn stack_spots(
    alloc: Global,
    spots: &mut Vec<Spot>,
    steps: &[Step],
    top: usize,
) -> Result<(), AllocError> {
    let layers = layer_count(spots);
    lift(spots.as_mut_slice(), 0, START);
    for side in [Side::Sources, Side::Targets, Side::Sources] {
        stack_layers(alloc, spots, steps, layers, side)?;
    }
    let least = least_top(spots);
    lift(spots.as_mut_slice(), least, top);
    Ok(())
}

/// Moves all spots so that what stood at the one height stands at the other.
fn lift(spots: &mut [Spot], from: usize, to: usize) {
    for number in 0..spots.len() {
        let spot = spots[number];
        let top = spot.top.saturating_sub(from).saturating_add(to);
        spots[number] = Spot { top, ..spot };
    }
}

fn least_top(spots: &[Spot]) -> usize {
    let mut least = usize::MAX;
    for spot in spots {
        least = least.min(spot.top);
    }
    least
}

/// Stacks so many layers, each by the one before it on this side.
fn stack_layers(
    alloc: Global,
    spots: &mut Vec<Spot>,
    steps: &[Step],
    layers: usize,
    side: Side,
) -> Result<(), AllocError> {
    for turn in 0..layers {
        stack_layer(alloc, spots, steps, side.layer(turn, layers), side)?;
    }
    Ok(())
}

/// Stacks a layer: each spot comes midway between where those above push it down and where those below push it up.
fn stack_layer(
    alloc: Global,
    spots: &mut Vec<Spot>,
    steps: &[Step],
    layer: usize,
    side: Side,
) -> Result<(), AllocError> {
    let mut seats = seats_of(alloc, spots, steps, layer, side)?;
    push_down(seats.as_mut_slice());
    let mut limit = usize::MAX;
    for seat in seats.iter().rev() {
        limit = seat.due.min(limit.saturating_sub(seat.extent));
        let top = limit.saturating_add(seat.pushed) / 2;
        let spot = spot_at(spots, seat.number);
        set_spot(spots.as_mut_slice(), seat.number, Spot { top, ..spot });
    }
    Ok(())
}

/// The seats of a layer, from top to bottom. Each is due where the centre is at the mean of what it is linked with on this side.
fn seats_of(
    alloc: Global,
    spots: &[Spot],
    steps: &[Step],
    layer: usize,
    side: Side,
) -> Result<Vec<Seat>, AllocError> {
    let sums = sums_of(alloc, spots, steps, layer, side, Measure::Centre)?;
    let found = spots_in(alloc, spots, layer)?;
    let mut seats = Vec::with_capacity(alloc, found.len())?;
    for (_, number) in &found {
        let spot = spot_at(spots, *number);
        let mean = sum_at(&sums, *number).mean_or(spot.centre());
        let due = mean.saturating_sub(spot.height / 2);
        seats.push(Seat {
            number: *number,
            extent: spot.height.saturating_add(GAP),
            due,
            pushed: due,
        })?;
    }
    Ok(seats)
}

/// Pushes each seat below the one above it.
fn push_down(seats: &mut [Seat]) {
    let mut free = 0usize;
    for place in 0..seats.len() {
        let seat = seats[place];
        let pushed = seat.due.max(free);
        seats[place] = Seat { pushed, ..seat };
        free = pushed.saturating_add(seat.extent);
    }
}
