//! The end of a lane at which a thread does the jobs that come.
ghost use Rattle.std.specs.Prelude.{◌≡◌, ◌↔◌, true, false, Ok, IsTrue, IfOk, OnErr};
ghost use Rattle.flow_lane.specs.LaneEnd.{TakesWhatIsThere, ticket_in_hand};
ghost use Rattle.flow_lane.specs.Sides.{finishing};
ghost use Rattle.flow_lane.specs.Views.{LaneStage, is_working};

use crate::lane_side::LaneSide;
use crate::phase::LanePhase;
use crate::table::Lane;
use flow_exec::Job;
use flow_value::Runs;
use std::alloc::{AllocError, Global};
use std::marker::Model;
use std::mem::replace;

/// What a thread has of its lane.
#[derive(Drop)]
enum Hand<W> {
    /// No job is in hand.
    Nothing,
    /// This job is in hand.
    Job(Job<W>),
    /// No job comes any more.
    Ended,
}

/// The side of the thread that works, and the job in its hand. Contracts see the side, whose stage says what is in hand.
#[derive(Drop)]
pub struct LaneEnd<W: Runs> {
    side: LaneSide<W>,
    hand: Hand<W>,
}

impl<W: Runs> Model for LaneEnd<W> {
    ghost use Rattle.std.specs.Prelude.{◌≡◌};
    ghost use Rattle.std.specs.Coded.{codes};
    ghost use Rattle.atomic_table.specs.Seated.{table_id_coded};
    ghost use Rattle.flow_value.specs.contracts.value.Value as content;
    ghost use Rattle.flow_lane.specs.Items.{JobState};
    ghost use Rattle.flow_lane.specs.LaneEnd.{stage_with};
    ghost use Rattle.flow_lane.specs.Sides.{LaneOf};

    ghost Value = { LaneOf (JobState W) };

    ghost coded = { Prim.hlevel (codes, table_id_coded, content.the_row.coded, W.code) };

    ghost view = { λ e. e.side };

    ghost invariant = { λ e. e.side.side.stage ≡ stage_with e.hand };
}

impl<W: Runs> LaneEnd<W> {
    /// The end of a lane whose side has seen nothing yet.
    pub fn new(side: LaneSide<W>) -> LaneEnd<W>
        requires { side.side.stage ≡ LaneStage.idle }
        ensures { result ≡ side }
    {
        LaneEnd {
            side,
            hand: Hand::Nothing,
        }
    }

    /// The ticket of the job in hand. Where none is in hand, it looks first, and takes the job that has arrived.
    pub fn ticket(&mut self, lane: &Lane<W>) -> Option<u64>
        requires { self.old.table ≡ lane.now }
        ensures ticket { result ≡ ticket_in_hand self.new.side.stage }
        ensures table { self.new.table ≡ self.old.table }
        ensures busy { is_working self.old.side.stage ≡ true → self.new ≡ self.old }
        ensures takes { is_working self.old.side.stage ≡ false → TakesWhatIsThere self.old self.new }
    {
        if !self.is_busy() {
            self.take(lane);
        }
        self.ticket_in_hand()
    }

    /// Whether a job is in hand.
    fn is_busy(&self) -> bool
        ensures { result ≡ is_working self.now.side.stage }
    {
        match self.hand {
            Hand::Job(_) => true,
            Hand::Nothing | Hand::Ended => false,
        }
    }

    /// The ticket of the job in hand.
    fn ticket_in_hand(&self) -> Option<u64>
        ensures { result ≡ ticket_in_hand self.now.side.stage }
    {
        match &self.hand {
            Hand::Job(job) => Some(job.ticket()),
            Hand::Nothing | Hand::Ended => None,
        }
    }

    /// Looks, with nothing in hand, and takes the job that has arrived.
    fn take(&mut self, lane: &Lane<W>)
        requires table { self.old.table ≡ lane.now }
        requires idle { is_working self.old.side.stage ≡ false }
        ensures { TakesWhatIsThere self.old self.new }
    {
        match self.side.look(lane) {
            LanePhase::Job => self.hand = Hand::Job(self.side.open(lane)),
            LanePhase::Ended => self.hand = Hand::Ended,
            LanePhase::Free | LanePhase::Working | LanePhase::Result | LanePhase::Fetching => {}
        }
    }

    /// Does the job in hand, and lays in what came of it. False where none is in hand. Where memory is out, the job stays in hand.
    pub fn work(&mut self, alloc: Global, lane: &Lane<W>) -> Result<bool, AllocError>
        requires { self.old.table ≡ lane.now }
        ensures table { self.new.table ≡ self.old.table }
        ensures worked { IfOk result (λ worked. worked ≡ is_working self.old.side.stage) }
        ensures done { result ≡ Ok true → self.new ≡ record { table = self.old.table; side = finishing self.old.side } }
        ensures none { result ≡ Ok false → self.new ≡ self.old }

        // A refusal is of the job in hand, and changes nothing.
        ensures in_hand { OnErr result (is_working self.old.side.stage ≡ true) }
        ensures kept { OnErr result (self.new ≡ self.old) }
    {
        match replace(&mut self.hand, Hand::Nothing) {
            Hand::Job(job) => match job.run(alloc) {
                Ok(done) => {
                    self.side.finish(lane, done);
                    Ok(true)
                }
                Err(job) => {
                    self.hand = Hand::Job(job);
                    Err(AllocError)
                }
            },
            Hand::Nothing => Ok(false),
            Hand::Ended => {
                self.hand = Hand::Ended;
                Ok(false)
            }
        }
    }

    /// Whether it has seen that no job comes any more.
    pub fn has_ended(&self) -> bool
        ensures { IsTrue result ↔ (self.now.side.stage ≡ LaneStage.ended) }
    {
        match self.hand {
            Hand::Ended => true,
            Hand::Nothing | Hand::Job(_) => false,
        }
    }

    /// Its side, with which the lane is closed. A job in hand is let go: its block keeps the message.
    pub fn into_side(self) -> LaneSide<W>
        ensures { result ≡ self }
    {
        self.side
    }
}
