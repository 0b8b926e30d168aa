//! What a seat of a lane's table knows.
use std::marker::{Model, PhantomData};

/// What one side of a lane knows of it, which exists in proofs alone.
#[derive(Drop)]
pub struct View<W> {
    nothing: PhantomData<W>,
}

impl<W> Model for View<W> {
    ghost use Rattle.std.specs.Coded.{codes};
    ghost use Rattle.flow_value.specs.contracts.value.Value as content;
    ghost use Rattle.flow_lane.specs.Items.{JobState};
    ghost use Rattle.flow_lane.specs.Views.{SeatView};

    ghost Value = { SeatView (JobState W) };

    ghost coded = { Prim.hlevel (codes, content.the_row.coded, W.code) };

    ghost view = { λ _. SeatView.spent };
}
