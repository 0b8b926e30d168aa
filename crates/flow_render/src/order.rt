//! The order of the spots in each layer: by the mean place of those with which they are linked, so that few links cross.
use crate::graph::{Spot, Step, layer_count, set_spot, spot_at};
use crate::means::{Measure, Side, sum_at, sums_of};
use std::alloc::{AllocError, Global};

/// Gives each spot its place in its layer.
pub(crate) fn place_spots(
    alloc: Global,
    spots: &mut Vec<Spot>,
    steps: &[Step],
) -> Result<(), AllocError> {
    let layers = layer_count(spots);
    for side in [
        Side::Sources,
        Side::Targets,
        Side::Sources,
        Side::Targets,
        Side::Sources,
    ] {
        place_layers(alloc, spots, steps, layers, side)?;
    }
    Ok(())
}

/// Orders so many layers, each by the one before it on this side.
fn place_layers(
    alloc: Global,
    spots: &mut Vec<Spot>,
    steps: &[Step],
    layers: usize,
    side: Side,
) -> Result<(), AllocError> {
    for turn in 0..layers {
        place_layer(alloc, spots, steps, side.layer(turn, layers), side)?;
    }
    Ok(())
}

fn place_layer(
    alloc: Global,
    spots: &mut Vec<Spot>,
    steps: &[Step],
    layer: usize,
    side: Side,
) -> Result<(), AllocError> {
    let keys = keys_of(alloc, spots, steps, layer, side)?;
    for (place, key) in keys.iter().enumerate() {
        let number = key.2;
        let spot = spot_at(spots, number);
        set_spot(spots.as_mut_slice(), number, Spot { place, ..spot });
    }
    Ok(())
}

/// For each spot of a layer the mean place of those with which it is linked on this side, its own place, and its number; in
/// order. One with no such links is where it was.
fn keys_of(
    alloc: Global,
    spots: &[Spot],
    steps: &[Step],
    layer: usize,
    side: Side,
) -> Result<Vec<(usize, usize, usize)>, AllocError> {
    let sums = sums_of(alloc, spots, steps, layer, side, Measure::Place)?;
    let mut keys = Vec::new(alloc);
    for (number, spot) in spots.iter().enumerate() {
        if spot.layer == layer {
            let mean = sum_at(&sums, number).mean_or(Measure::Place.of(*spot));
            keys.push((mean, spot.place, number))?;
        }
    }
    keys.sort_unstable();
    Ok(keys)
}
