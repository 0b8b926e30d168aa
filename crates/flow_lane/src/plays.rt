//! What each step on the table tells.
use crate::item::LaneItem;
use crate::view::View;
use atomic_table::{Join, Play, Split};
use flow_value::Runs;

pub(crate) struct BlockLook;

impl<W: Runs> Play<Option<LaneItem<W>>, View<W>> for BlockLook {
    ghost use Rattle.flow_lane.specs.Plays.{block_looks};

    ghost then = { block_looks };
}

pub(crate) struct SlotOut;

impl<W: Runs> Play<Option<LaneItem<W>>, View<W>> for SlotOut {
    ghost use Rattle.flow_lane.specs.Plays.{takes_slot};

    ghost then = { takes_slot };
}

pub(crate) struct Put;

impl<W: Runs> Play<Option<LaneItem<W>>, View<W>> for Put {
    ghost use Rattle.flow_lane.specs.Items.{as_job, as_result, state_of, state_in};
    ghost use Rattle.flow_lane.specs.Plays.{put};

    ghost then = { put as_job as_result state_of state_in };
}

pub(crate) struct Fetch;

impl<W: Runs> Play<Option<LaneItem<W>>, View<W>> for Fetch {
    ghost use Rattle.flow_lane.specs.Items.{as_job, as_result, state_of, state_in};
    ghost use Rattle.flow_lane.specs.Plays.{fetched};

    ghost then = { fetched as_job as_result state_of state_in };
}

pub(crate) struct Clear;

impl<W: Runs> Play<Option<LaneItem<W>>, View<W>> for Clear {
    ghost use Rattle.flow_lane.specs.Plays.{cleared};

    ghost then = { cleared };
}

pub(crate) struct End;

impl<W: Runs> Play<Option<LaneItem<W>>, View<W>> for End {
    ghost use Rattle.flow_lane.specs.Plays.{ended};

    ghost then = { ended };
}

pub(crate) struct LaneLook;

impl<W: Runs> Play<Option<LaneItem<W>>, View<W>> for LaneLook {
    ghost use Rattle.flow_lane.specs.Plays.{lane_looks};

    ghost then = { lane_looks };
}

pub(crate) struct Open;

impl<W: Runs> Play<Option<LaneItem<W>>, View<W>> for Open {
    ghost use Rattle.flow_lane.specs.Items.{as_job, as_result, state_of, state_in};
    ghost use Rattle.flow_lane.specs.Plays.{opened};

    ghost then = { opened as_job as_result state_of state_in };
}

pub(crate) struct Finish;

impl<W: Runs> Play<Option<LaneItem<W>>, View<W>> for Finish {
    ghost use Rattle.flow_lane.specs.Plays.{finished};

    ghost then = { finished };
}

// the block gives the slot back as the table is closed
pub(crate) struct Part;

impl<W: Runs> Play<Option<LaneItem<W>>, View<W>> for Part {
    ghost use Rattle.flow_lane.specs.Plays.{parted};

    ghost then = { parted };
}

// the two sides with which a table begins
pub(crate) struct Halves;

impl<W> Split<View<W>> for Halves {
    ghost use Rattle.flow_lane.specs.Views.{SeatView, starts_block, starts_lane};

    ghost left = { λ _. SeatView.block starts_block };

    ghost right = { λ _. SeatView.lane starts_lane };
}

// the lane takes in what the block knows
pub(crate) struct BothSides;

impl<W> Join<View<W>> for BothSides {
    ghost use Rattle.flow_lane.specs.Plays.{joined};
    ghost use Rattle.flow_lane.specs.Views.{SeatView};

    ghost both = { joined };

    ghost spent = { SeatView.spent };
}
