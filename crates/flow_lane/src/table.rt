//! The table of a lane: how it is made with its two sides, and how it is closed with them.
ghost use Rattle.std.specs.Prelude.{◌≡◌, IfOk};
ghost use Rattle.flow_lane.specs.Items.{as_job, as_result, state_of, state_in};
ghost use Rattle.flow_lane.specs.Phase.{word_of_phase, IsWord};
ghost use Rattle.flow_lane.specs.Rule.{Left, slot_at};
ghost use Rattle.flow_lane.specs.Views.{starts_block, starts_lane};

use crate::block_side::BlockSide;
use crate::item::LaneItem;
use crate::lane_side::LaneSide;
use crate::phase::{LanePhase, phase_of, word_of};
use crate::plays::{BothSides, Halves, Part};
use crate::standing::Standing;
use crate::view::View;
use atomic_table::{Seat, Table, TableRule};
use flow_value::Runs;
use std::alloc::{AllocError, Global};
use std::marker::Model;

/// The rule of a lane's table: between any two atomic steps the slot and the two sides stand as its phase says.
pub struct LaneRule;

impl<W: Runs> TableRule<Option<LaneItem<W>>, View<W>, ()> for LaneRule {
    ghost use Rattle.flow_lane.specs.Items.{as_job, as_result, state_of, state_in};
    ghost use Rattle.flow_lane.specs.Rule.{Ruled};
    ghost use Rattle.flow_lane.specs.Views.{SeatView};

    ghost holds = { λ _. Ruled as_job as_result state_of state_in };

    ghost first = { λ _. SeatView.fresh };
}

// a token with which a side takes its steps
pub(crate) type SideSeat<W> = Seat<Option<LaneItem<W>>, View<W>>;

pub(crate) type LaneTable<W> = Table<Option<LaneItem<W>>, View<W>, (), LaneRule, Global>;

/// The table of one lane, which its two sides share. It may lie where both threads see it, behind a `&`.
#[derive(Drop)]
pub struct Lane<W: Runs> {
    pub(crate) table: LaneTable<W>,
}

impl<W: Runs> Model for Lane<W> {
    ghost use Rattle.std.specs.Prelude.{◌≡◌};
    ghost use Rattle.atomic_table.specs.Seated.{TableId, table_id_coded};

    ghost Value = { TableId };

    ghost coded = { table_id_coded };

    ghost view = { λ l. l.table.shared.table_id };

    ghost invariant = { λ l. (l.table.shared.table_id.words ≡ 8) × (l.table.shared.table_id.slots ≡ 1) };
}

/// What a closed table has: where the lane stood, and the job or the result that was in its slot. At Working and Fetching
/// that is in a side's hand, and the slot is empty.
#[derive(Drop)]
pub struct LaneState<W: Runs> {
    pub phase: LanePhase,
    pub slot: Option<LaneItem<W>>,
}

impl<W: Runs> Lane<W> {
    /// The table of a lane in which nothing is, and its two sides.
    pub fn new(alloc: Global) -> Result<(Lane<W>, BlockSide<W>, LaneSide<W>), AllocError>
        ensures { IfOk result (λ made. (made.1 ≡ record { table = made.0; side = starts_block }) × (made.2 ≡ record { table = made.0; side = starts_lane })) }
    {
        let words = [word_of(LanePhase::Free), 0, 0, 0, 0, 0, 0, 0];
        match LaneTable::vacant(alloc, &words, 1, &()) {
            Ok((table, mut seat)) => {
                let other = table.shared.split_seat::<Halves>(&mut seat);
                let block = BlockSide {
                    seat,
                    standing: Standing::Free,
                };
                Ok((Lane { table }, block, LaneSide { seat: other }))
            }
            Err(_) => Err(AllocError),
        }
    }

    /// Where the lane stood, and what was in its slot, once its two sides come back at any phase.
    pub fn close(self, block: BlockSide<W>, lane: LaneSide<W>) -> LaneState<W>
        requires block { block.table ≡ self }
        requires lane { lane.table ≡ self }
        ensures { Left as_job as_result state_of state_in result.phase result.slot block.side.stage lane.side.stage }
    {
        let Lane { table } = self;
        let BlockSide {
            seat: mut other,
            standing: _,
        } = block;
        let LaneSide { mut seat } = lane;
        // a seat that is taken in has no slot out
        table.shared.load::<Part>(&mut other, 0);
        table.shared.join_seat::<BothSides>(&mut seat, other);
        let mut closed = table.close_with(seat);
        let word = closed.word(0);
        let found = closed.take(0);
        closed.free();
        state_of_word(word, found)
    }
}

// the lane that a closed table was
fn state_of_word<W: Runs>(word: u64, found: Option<LaneItem<W>>) -> LaneState<W>
    requires { IsWord word }
    ensures slot { result.slot ≡ slot_at result.phase found }
    ensures its_word { word ≡ word_of_phase result.phase }
{
    let phase = phase_of(word);
    match phase {
        LanePhase::Working | LanePhase::Fetching => LaneState { phase, slot: None },
        LanePhase::Free | LanePhase::Job | LanePhase::Result | LanePhase::Ended => {
            LaneState { phase, slot: found }
        }
    }
}
