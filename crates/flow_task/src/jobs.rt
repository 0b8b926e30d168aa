//! What of a block's jobs goes through its lanes: a result that has come is taken back, and a job begins where a lane is free. A job that
//! is out and stands in no lane, since the network was scattered, is done in place while nothing is in the lanes.
ghost use Rattle.std.specs.Prelude.{◌≡◌, ◌↔◌, ◌<◌, true, false, option_map, Ok, IfErr, IfOk, IsTrue, OnErr, OnOk};
ghost use Rattle.std.specs.List.{list_any};
ghost use Rattle.flow_link.specs.Planned.{layout_of};
ghost use Rattle.flow_outlet.specs.Outlet.{lacks_ids};
ghost use Rattle.flow_outlet.specs.declared.fault.OutletFault.TheVariants.{Ids};
ghost use Rattle.flow_block.specs.Block.{job_message};
ghost use Rattle.flow_block.specs.Peeks.{may_end};
ghost use Rattle.flow_block_law.specs.JobsEnd.{put_at_end};
ghost use Rattle.flow_exec.specs.Execution.{SameWork, next_ticket};
ghost use Rattle.flow_exec.specs.Jobs.{kind_in, message_in, ticket_in, work_in};
ghost use Rattle.flow_exec.specs.Results.{job_in};
ghost use Rattle.flow_lane.specs.BlockLanes.{has_ticket};
ghost use Rattle.flow_task.specs.Events.{Does, Spends};
ghost use Rattle.flow_task.specs.Laned.{BeginIsDone, IsOwnJob, JobsEndInPlace, LanesRest, LanesStayOut, OwnJobsStay, TakesBack};

use crate::board::Board;
use crate::gate::Gate;
use crate::own::left_undone;
use crate::task::BlockTask;
use flow_exec::{Job, JobResult};
use flow_lane::JobLanes;
use flow_outlet::OutletFault;
use flow_value::Runs;
use std::alloc::{AllocError, Global};

impl<W: Runs> BlockTask<W> {
    ghost use Rattle.flow_task.specs.Tasks.{makes_of};

    /// The block does what its lanes let it do, at most so many events.
    pub(crate) fn use_lanes<G: Gate>(
        &mut self,
        alloc: Global,
        board: &Board<W>,
        lanes: &mut JobLanes<W>,
        gate: &G,
        left: &mut u32,
    ) -> Result<(), AllocError>
        requires of { self.old.of.value ≡ board.now }
        ensures of { self.new.of.value ≡ self.old.of.value }
        ensures number { self.new.number ≡ self.old.number }
        ensures ins { self.new.ins ≡ self.old.ins }
        ensures outs { self.new.outs ≡ self.old.outs }
        ensures note { self.new.note ≡ self.old.note }
        ensures spends { Spends true (makes_of W.meaning self.old) left.old left.new self.old.node self.new.node }
        ensures rests { OnOk result (0 < left.old → left.new ≡ left.old → LanesRest (makes_of W.meaning self.old) self.old.node lanes.new) }
        ensures none { left.old ≡ 0 → lanes.new ≡ lanes.old }
        ensures out { LanesStayOut self.old.node self.new.node lanes.old lanes.new }
    {
        while *left > 0 {
            if !self.work_in_lanes(alloc, board, lanes, gate)? {
                return Ok(());
            }
            *left -= 1;
        }
        Ok(())
    }

    /// The block does the next of it. False where nothing is to do, or no message id is left for it.
    fn work_in_lanes<G: Gate>(
        &mut self,
        alloc: Global,
        board: &Board<W>,
        lanes: &mut JobLanes<W>,
        gate: &G,
    ) -> Result<bool, AllocError>
        requires of { self.old.of.value ≡ board.now }
        ensures of { self.new.of.value ≡ self.old.of.value }
        ensures number { self.new.number ≡ self.old.number }
        ensures ins { self.new.ins ≡ self.old.ins }
        ensures outs { self.new.outs ≡ self.old.outs }
        ensures note { self.new.note ≡ self.old.note }
        ensures does { Does true (makes_of W.meaning self.old) result self.old.node self.new.node }
        ensures rests { IfOk result (λ did. did ≡ false → LanesRest (makes_of W.meaning self.old) self.old.node lanes.new) }
        ensures out { LanesStayOut self.old.node self.new.node lanes.old lanes.new }
    {
        if self.end_from_lane(board, lanes)? {
            return Ok(true);
        }
        if self.end_in_place(alloc, board, lanes, gate)? {
            return Ok(true);
        }
        self.begin_in_lane(alloc, lanes)
    }

    /// While nothing is in the lanes, the oldest job that is out is done in place. False where none is out, or no message id is left for
    /// its result.
    fn end_in_place<G: Gate>(
        &mut self,
        alloc: Global,
        board: &Board<W>,
        lanes: &JobLanes<W>,
        gate: &G,
    ) -> Result<bool, AllocError>
        requires of { self.old.of.value ≡ board.now }
        ensures of { self.new.of.value ≡ self.old.of.value }
        ensures number { self.new.number ≡ self.old.number }
        ensures ins { self.new.ins ≡ self.old.ins }
        ensures outs { self.new.outs ≡ self.old.outs }
        ensures note { self.new.note ≡ self.old.note }
        ensures does { Does true (makes_of W.meaning self.old) result self.old.node self.new.node }
        ensures still { IfOk result (λ did. did ≡ false → JobsEndInPlace (makes_of W.meaning self.old) self.old.node lanes.now) }
        ensures out { LanesStayOut self.old.node self.new.node lanes.now lanes.now }
    {
        if !lanes.are_free() {
            return Ok(false);
        }
        self.end_once(alloc, board, gate)
    }

    /// A job begins, and goes into a lane. False where none may begin, or no lane is free.
    fn begin_in_lane(&mut self, alloc: Global, lanes: &mut JobLanes<W>) -> Result<bool, AllocError>
        ensures of { self.new.of.value ≡ self.old.of.value }
        ensures number { self.new.number ≡ self.old.number }
        ensures ins { self.new.ins ≡ self.old.ins }
        ensures outs { self.new.outs ≡ self.old.outs }
        ensures note { self.new.note ≡ self.old.note }
        ensures does { Does true (makes_of W.meaning self.old) result self.old.node self.new.node }
        ensures put { result ≡ Ok true → list_any (has_ticket (next_ticket self.old.node.block)) lanes.new.sides ≡ true }
        ensures still { IfOk result (λ did. did ≡ false → BeginIsDone self.old.node lanes.old) }
        ensures lanes { IfOk result (λ did. did ≡ false → lanes.new ≡ lanes.old) }
        ensures out { LanesStayOut self.old.node self.new.node lanes.old lanes.new }
    {
        if !self.node.block().may_begin() || !lanes.has_room() {
            return Ok(false);
        }
        let job = lanes.next_job(alloc, self.node.block())?;
        self.begin()?;
        // No lane has its ticket. Where one had, the block itself would do the job.
        drop(lanes.put(job));
        Ok(true)
    }

    /// The next result that has come is taken back, and its lane is free. Where it can't be taken back, it is kept. False where none has
    /// come, or no message id is left for it.
    fn end_from_lane(
        &mut self,
        board: &Board<W>,
        lanes: &mut JobLanes<W>,
    ) -> Result<bool, AllocError>
        requires of { self.old.of.value ≡ board.now }
        ensures of { self.new.of.value ≡ self.old.of.value }
        ensures number { self.new.number ≡ self.old.number }
        ensures ins { self.new.ins ≡ self.old.ins }
        ensures outs { self.new.outs ≡ self.old.outs }
        ensures note { self.new.note ≡ self.old.note }
        ensures does { Does true (makes_of W.meaning self.old) result self.old.node self.new.node }
        ensures own { OwnJobsStay W.eq (layout_of self.old.of.value.rest.plan) self.old.number (makes_of W.meaning self.old) self.old.node self.new.node lanes.old lanes.new }
        ensures out { LanesStayOut self.old.node self.new.node lanes.old lanes.new }
    {
        let Some((place, done)) = lanes.next_result() else {
            return Ok(false);
        };
        match self.take_back(board, done) {
            Ok(did) => {
                lanes.clear(place);
                Ok(did)
            }
            Err((done, fault)) => {
                lanes.keep(place, done);
                left_undone(Err(fault))
            }
        }
    }

    /// Takes the result of one of its jobs back. False where it is of none of them: it is let go then. Where message ids are used up or
    /// memory is out, nothing has changed, and the result comes back.
    fn take_back(
        &mut self,
        board: &Board<W>,
        done: JobResult<W>,
    ) -> Result<bool, (JobResult<W>, OutletFault)>
        requires of { self.old.of.value ≡ board.now }
        ensures of { self.new.of.value ≡ self.old.of.value }
        ensures number { self.new.number ≡ self.old.number }
        ensures ins { self.new.ins ≡ self.old.ins }
        ensures outs { self.new.outs ≡ self.old.outs }
        ensures note { self.new.note ≡ self.old.note }
        ensures takes { TakesBack (makes_of W.meaning self.old) (ticket_in (job_in done)) result self.old.node self.new.node }
        ensures back { IfErr result (λ refused. refused.0 ≡ done) }

        // It is let go just where it is of no job of its own. One of its own is taken, or comes back; for want of ids just where they are
        // wanting.
        ensures own { IfOk result (λ taken. (taken ≡ true) ↔ IsOwnJob W.eq (layout_of self.old.of.value.rest.plan) self.old.number self.old.node (job_in done)) }
        ensures refused_own { OnErr result (IsOwnJob W.eq (layout_of self.old.of.value.rest.plan) self.old.number self.old.node (job_in done)) }
        ensures ids { IfErr result (λ refused. (refused.1 ≡ Ids) ↔ (lacks_ids (put_at_end (makes_of W.meaning self.old)
            (ticket_in (job_in done)) self.old.node.block) self.old.node.block.exits ≡ true)) }
    {
        if !self.is_own_job(board, done.job()) {
            return Ok(false);
        }
        self.end_own(done)
    }

    /// Takes the result of a job of its own back.
    fn end_own(&mut self, done: JobResult<W>) -> Result<bool, (JobResult<W>, OutletFault)>
        requires own { IsOwnJob W.eq (layout_of self.old.of.value.rest.plan) self.old.number self.old.node (job_in done) }
        ensures of { self.new.of.value ≡ self.old.of.value }
        ensures number { self.new.number ≡ self.old.number }
        ensures ins { self.new.ins ≡ self.old.ins }
        ensures outs { self.new.outs ≡ self.old.outs }
        ensures note { self.new.note ≡ self.old.note }
        ensures takes { TakesBack (makes_of W.meaning self.old) (ticket_in (job_in done)) result self.old.node self.new.node }
        ensures back { IfErr result (λ refused. refused.0 ≡ done) }
        ensures taken { IfOk result (λ taken. taken ≡ true) }
        ensures ids { IfErr result (λ refused. (refused.1 ≡ Ids) ↔ (lacks_ids (put_at_end (makes_of W.meaning self.old)
            (ticket_in (job_in done)) self.old.node.block) self.old.node.block.exits ≡ true)) }
    {
        let (job, answer) = done.into_parts();
        match self.node.end_job(job.ticket(), answer) {
            Ok(()) => Ok(true),
            Err((answer, fault)) => Err((JobResult::new(job, answer), fault)),
        }
    }

    /// Whether this is a job of the block that is out: its message is the one of that ticket, and its work is the block's.
    fn is_own_job(&self, board: &Board<W>, job: &Job<W>) -> bool
        requires of { self.now.of.value ≡ board.now }
        ensures { IsTrue result ↔ IsOwnJob W.eq (layout_of self.now.of.value.rest.plan) self.now.number self.now.node job.now }
    {
        self.is_out(job) && has_work(board.rest.plan.block(self.number).work.as_ref(), job)
    }

    /// Whether this job is of a message on which the block works.
    fn is_out(&self, job: &Job<W>) -> bool
        ensures out { IsTrue result → may_end (ticket_in job.now) self.now.node.block ≡ true }
        ensures kind { IsTrue result → kind_in job.now ≡ self.now.node.block.kind }
        ensures message { IsTrue result → message_in job.now ≡ job_message (ticket_in job.now) self.now.node.block }
        ensures only { IsOwnJob W.eq (layout_of self.now.of.value.rest.plan) self.now.number self.now.node job.now → IsTrue result }
    {
        let block = self.node.block();
        block.may_end(job.ticket())
            && block.kind() == job.kind()
            && block.job_message(job.ticket()) == job.message()
    }
}

/// Whether a job is done by this work.
fn has_work<W: Runs>(work: Option<&W>, job: &Job<W>) -> bool
    ensures { IsTrue result ↔ SameWork W.eq (option_map (λ work. work.now) work.entry) (work_in job.now) }
{
    match (work, job.work()) {
        (Some(its), Some(given)) => its == given,
        (None, None) => true,
        (Some(_), None) | (None, Some(_)) => false,
    }
}
