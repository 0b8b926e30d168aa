//! A lane with its table, for the thread that does its jobs.
ghost use Rattle.std.specs.Prelude.{◌≡◌, ◌↔◌, true, false, slice_get, IsTrue, IfOk, Ok, OnErr, Some};
ghost use Rattle.std.specs.Arc.{arc_value};
ghost use Rattle.flow_lane.specs.LaneEnd.{TakesWhatIsThere, ticket_in_hand};
ghost use Rattle.flow_lane.specs.Sides.{finishing};
ghost use Rattle.flow_lane.specs.Views.{LaneStage, is_working};

use crate::lane_end::LaneEnd;
use crate::table::Lane;
use flow_value::Runs;
use std::alloc::{AllocError, Global};
use std::marker::Model;
use std::sync::Arc;

/// A lane of a block, at the end at which jobs are done. Contracts see the side, whose stage says what is in hand.
#[derive(Drop)]
pub struct JobLane<W: Runs> {
    tables: Arc<Vec<Lane<W>>, Global>,
    place: usize,
    end: LaneEnd<W>,
}

impl<W: Runs> Model for JobLane<W> {
    ghost use Rattle.std.specs.Prelude.{◌≡◌, slice_get, Some};
    ghost use Rattle.std.specs.Arc.{arc_value};
    ghost use Rattle.std.specs.Coded.{codes};
    ghost use Rattle.atomic_table.specs.Seated.{table_id_coded};
    ghost use Rattle.flow_value.specs.contracts.value.Value as content;
    ghost use Rattle.flow_lane.specs.Items.{JobState};
    ghost use Rattle.flow_lane.specs.Sides.{LaneOf};

    ghost Value = { LaneOf (JobState W) };

    ghost coded = { Prim.hlevel (codes, table_id_coded, content.the_row.coded, W.code) };

    ghost view = { λ l. l.end };

    ghost invariant = { λ l. slice_get (arc_value l.tables).items l.place ≡ Some l.end.table };
}

impl<W: Runs> JobLane<W> {
    /// The lane at this place, of which this is an end.
    pub(crate) fn new(
        tables: Arc<Vec<Lane<W>>, Global>,
        place: usize,
        end: LaneEnd<W>,
    ) -> JobLane<W>
        requires { slice_get (arc_value tables).items place ≡ Some end.table }
        ensures { result ≡ end }
    {
        JobLane { tables, place, end }
    }

    /// The ticket of the job in hand. Where none is in hand, it looks first, and takes the job that has arrived.
    pub fn ticket(&mut self) -> Option<u64>
        ensures ticket { result ≡ ticket_in_hand self.new.side.stage }
        ensures table { self.new.table ≡ self.old.table }
        ensures busy { is_working self.old.side.stage ≡ true → self.new ≡ self.old }
        ensures takes { is_working self.old.side.stage ≡ false → TakesWhatIsThere self.old self.new }
    {
        self.end.ticket(&self.tables[self.place])
    }

    /// Does the job in hand, and lays in what came of it. False where none is in hand. Where memory is out, the job stays in hand.
    pub fn work(&mut self, alloc: Global) -> Result<bool, AllocError>
        ensures table { self.new.table ≡ self.old.table }
        ensures worked { IfOk result (λ worked. worked ≡ is_working self.old.side.stage) }
        ensures done { result ≡ Ok true → self.new ≡ record { table = self.old.table; side = finishing self.old.side } }
        ensures none { result ≡ Ok false → self.new ≡ self.old }

        // A refusal is of the job in hand, and changes nothing.
        ensures in_hand { OnErr result (is_working self.old.side.stage ≡ true) }
        ensures kept { OnErr result (self.new ≡ self.old) }
    {
        self.end.work(alloc, &self.tables[self.place])
    }

    /// Whether it has seen that no job comes any more.
    pub fn has_ended(&self) -> bool
        ensures { IsTrue result ↔ (self.now.side.stage ≡ LaneStage.ended) }
    {
        self.end.has_ended()
    }
}
