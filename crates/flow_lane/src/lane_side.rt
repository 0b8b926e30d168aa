//! The lane's own side: its looks, and its moves of the word and the slot.
ghost use Rattle.std.specs.Prelude.{◌≡◌};
ghost use Rattle.flow_lane.specs.Items.{state_of, state_in};
ghost use Rattle.flow_lane.specs.Sides.{lane_looked, opening, finishing};
ghost use Rattle.flow_lane.specs.Views.{LaneStage, FoundByLane, StandsAsLane};

use crate::item::LaneItem;
use crate::phase::{LanePhase, phase_of, word_of};
use crate::plays::{Finish, LaneLook, Open};
use crate::table::{Lane, SideSeat};
use flow_exec::{Job, JobResult};
use flow_value::Runs;
use std::marker::Model;

/// The side of the thread that works on the lane's jobs. It belongs to one `Lane`, and each call takes that one.
#[derive(Drop)]
pub struct LaneSide<W: Runs> {
    pub(crate) seat: SideSeat<W>,
}

impl<W: Runs> Model for LaneSide<W> {
    ghost use Rattle.std.specs.Coded.{codes};
    ghost use Rattle.atomic_table.specs.Seated.{table_id_coded};
    ghost use Rattle.flow_value.specs.contracts.value.Value as content;
    ghost use Rattle.flow_lane.specs.Items.{JobState};
    ghost use Rattle.flow_lane.specs.Sides.{LaneOf};
    ghost use Rattle.flow_lane.specs.SideSeats.{lane_of, IsLaneSeat};

    ghost Value = { LaneOf (JobState W) };

    ghost coded = { Prim.hlevel (codes, table_id_coded, content.the_row.coded, W.code) };

    ghost view = { λ l. lane_of l.seat.table_id l.seat.me };

    ghost invariant = { λ l. IsLaneSeat l.seat.table_id l.seat.me };
}

impl<W: Runs> LaneSide<W> {
    /// The phase, which the block may leave at once. The side goes to the stage that the phase tells.
    pub fn look(&mut self, lane: &Lane<W>) -> LanePhase
        requires { self.old.table ≡ lane.now }
        ensures side { self.new ≡ record { table = self.old.table; side = lane_looked result self.old.side } }
        ensures found { FoundByLane result self.old.side.stage }
        ensures stands { StandsAsLane result self.new.side.stage }
    {
        phase_of(lane.table.shared.load::<LaneLook>(&mut self.seat, 0))
    }

    /// Takes the job that has arrived into its hand.
    pub fn open(&mut self, lane: &Lane<W>) -> Job<W>
        requires table { self.old.table ≡ lane.now }
        requires arrived { self.old.side.stage ≡ LaneStage.arrived }
        ensures { self.new ≡ record { table = self.old.table; side = opening (state_of result) self.old.side } }
    {
        let shared = &lane.table.shared;
        shared.store::<Open>(&mut self.seat, 0, word_of(LanePhase::Working));
        let Some(LaneItem::Job(job)) = shared.exchange(&mut self.seat, 0, None) else {
            unreachable!()
        };
        job
    }

    /// Lays in what came of the job in its hand.
    pub fn finish(&mut self, lane: &Lane<W>, done: JobResult<W>)
        requires table { self.old.table ≡ lane.now }
        requires working { self.old.side.stage ≡ LaneStage.working (state_in done) }
        ensures { self.new ≡ record { table = self.old.table; side = finishing self.old.side } }
    {
        let shared = &lane.table.shared;
        drop(shared.exchange(&mut self.seat, 0, Some(LaneItem::Result(done))));
        shared.store::<Finish>(&mut self.seat, 0, word_of(LanePhase::Result));
    }
}
