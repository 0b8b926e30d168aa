//! The task of a lane: a thread that turns it does the jobs that its block puts there.
ghost use Rattle.std.specs.Prelude.{◌≡◌, false, IfOk};
ghost use Rattle.flow_lane.specs.Views.{LaneStage, is_working};
ghost use Rattle.flow_poll.specs.declared.actor.TurnState.TheVariants.{Ended};
ghost use Rattle.flow_task.specs.LaneTasks.{LaneTurns, job_of};

use crate::board::Board;
use crate::gate::Gate;
use flow_lane::JobLane;
use flow_poll::{TurnState, Turned};
use flow_value::Runs;
use std::alloc::{AllocError, Global};
use std::snapshot::Snapshot;

/// A lane of a block, at the end at which jobs are done.
#[derive(Drop)]
pub struct BlockLane<W: Runs> {
    /// The number of the block.
    pub(crate) block: usize,
    pub(crate) lane: JobLane<W>,
}

/// What a thread turns of a lane. It borrows nothing.
#[derive(Drop)]
pub struct LaneTask<W: Runs> {
    pub(crate) of: Snapshot<Board<W>>,
    pub(crate) its: BlockLane<W>,
}

impl<W: Runs> LaneTask<W> {
    /// The number of its block, and the ticket of the job that it does next, if one has come.
    pub(crate) fn job(&mut self) -> Option<(usize, u64)>
        ensures of { self.new.of.value ≡ self.old.of.value }
        ensures job { result ≡ job_of self.new }
    {
        let ticket = self.its.lane.ticket()?;
        Some((self.its.block, ticket))
    }

    /// Does the job that has come, if one has. That is no event of the network, so no budget is needed for it. Where memory is out, the
    /// job stays in hand.
    pub(crate) fn turn<G: Gate>(&mut self, alloc: Global, gate: &G) -> Result<Turned, AllocError>
        ensures of { self.new.of.value ≡ self.old.of.value }
        ensures events { IfOk result (λ turned. turned.events ≡ 0) }
        ensures turned { IfOk result (λ turned. LaneTurns turned.state self.old.its.lane self.new.its.lane) }
        ensures free { IfOk result (λ turned. is_working self.new.its.lane.side.stage ≡ false) }
        ensures ended { IfOk result (λ turned. turned.state ≡ Ended → self.new.its.lane.side.stage ≡ LaneStage.ended) }
    {
        if let Some(ticket) = self.its.lane.ticket() {
            gate.before(self.its.block, ticket);
            let done = self.its.lane.work(alloc);
            gate.after(self.its.block, ticket);
            done?;
            return Ok(Turned {
                events: 0,
                state: TurnState::Moved,
            });
        }
        let state = if self.its.lane.has_ended() {
            TurnState::Ended
        } else {
            TurnState::Idle
        };
        Ok(Turned { events: 0, state })
    }
}
