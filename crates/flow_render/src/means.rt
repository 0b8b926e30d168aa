//! Where the spots stand with which those of a layer are linked.
use crate::graph::{Spot, Step, spot_at};
use std::alloc::{AllocError, Global};

/// By how much places are multiplied, so that their means differ.
const FINENESS: usize = 1024;

/// A side on which a spot is linked with others.
#[derive(Clone, Copy)]
pub(crate) enum Side {
    Sources,
    Targets,
}

impl Side {
    /// The layer that comes in this turn where the layers come one after another and away from this side.
    pub(crate) fn layer(self, turn: usize, layers: usize) -> usize {
        match self {
            Side::Sources => turn,
            Side::Targets => layers.saturating_sub(turn).saturating_sub(1),
        }
    }
}

/// What is measured of a spot.
#[derive(Clone, Copy)]
pub(crate) enum Measure {
    Place,
    Centre,
}

impl Measure {
    pub(crate) fn of(self, spot: Spot) -> usize {
        match self {
            Measure::Place => spot.place.saturating_mul(FINENESS),
            Measure::Centre => spot.centre(),
        }
    }
}

/// What was measured of some spots.
#[derive(Clone, Copy)]
pub(crate) struct Sum {
    total: usize,
    count: usize,
}

impl Sum {
    const NOTHING: Sum = Sum { total: 0, count: 0 };

    fn with(self, measured: usize) -> Sum {
        Sum {
            total: self.total.saturating_add(measured),
            count: self.count.saturating_add(1),
        }
    }

    /// The mean, or this number where nothing was measured.
    pub(crate) fn mean_or(self, other: usize) -> usize {
        self.total.checked_div(self.count).unwrap_or(other)
    }
}

/// For each spot of a layer what is measured of those with which it is linked on this side. That of other spots is nothing.
pub(crate) fn sums_of(
    alloc: Global,
    spots: &[Spot],
    steps: &[Step],
    layer: usize,
    side: Side,
    measure: Measure,
) -> Result<Vec<Sum>, AllocError> {
    let mut sums = vec![in alloc; Sum::NOTHING; spots.len()]?;
    for step in steps {
        let (own, other) = match side {
            Side::Sources => (step.to, step.from),
            Side::Targets => (step.from, step.to),
        };
        if own < sums.len() && spot_at(spots, own).layer == layer {
            let sum = sums[own];
            sums[own] = sum.with(measure.of(spot_at(spots, other)));
        }
    }
    Ok(sums)
}

/// The sum of the spot with this number.
pub(crate) fn sum_at(sums: &[Sum], number: usize) -> Sum {
    sums.get(number).copied().unwrap_or(Sum::NOTHING)
}
