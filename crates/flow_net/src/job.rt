//! Jobs that a caller runs: they begin in the network, and their results come back to it.
ghost use Rattle.std.specs.Prelude.{◌≡◌, ◌≢◌, ◌↔◌, ◌+◌, ◌<◌, true, length, option_map, IsTrue, IfOk, IfErr, OnOk, OnErr};
ghost use Rattle.std.specs.Arc.{arc_value};
ghost use Rattle.flow_link.specs.Planned.{layout_of};
ghost use Rattle.flow_link.specs.Plan.{block_in};
ghost use Rattle.flow_block.specs.Block.{job_message};
ghost use Rattle.flow_block.specs.Peeks.{may_end};
ghost use Rattle.flow_exec.specs.Execution.{SameWork, next_message, next_ticket};
ghost use Rattle.flow_exec.specs.Jobs.{work_in, kind_in, message_in, ticket_in};
ghost use Rattle.flow_exec.specs.Results.{job_in};
ghost use Rattle.flow_core.specs.Events.{NetEvent};
ghost use Rattle.flow_core.specs.State.{node_at};
ghost use Rattle.flow_net.specs.Engine.{EnabledIn, HasIdsIn, InOrder, IsWhyNotIn, MayHappenIn, parts_after};
ghost use Rattle.flow_net.specs.OwnJobs.{IsOwnJob, IsNextJob};
ghost use Rattle.flow_net.specs.declared.fault.NetFault.TheVariants.{NotEnabled, Ids, Memory};

use crate::due::Due;
use crate::engine::Engine;
use crate::fault::NetFault;
use flow_exec::{Job, JobResult};
use flow_value::Runs;
use std::alloc::{AllocError, Global};
use std::sync::Arc;

impl<W: Runs> Engine<W> {
    /// Begins a job of a block, if it may.
    pub(crate) fn begin_job(&mut self, alloc: Global, number: usize) -> Result<Job<W>, NetFault>
        requires kept { InOrder W.meaning self.old }
        ensures same_plan { self.new.plan ≡ self.old.plan }
        ensures may { OnOk result (MayHappenIn W.meaning self.old (NetEvent.begin number)) }
        ensures done { OnOk result (self.new.parts ≡ parts_after W.meaning self.old (NetEvent.begin number)) }
        ensures next { IfOk result (IsNextJob W.eq (layout_of self.old.plan) self.old.parts number) }
        ensures kept { OnErr result (self.new.parts ≡ self.old.parts) }
        ensures why { IfErr result (IsWhyNotIn W.meaning self.old (NetEvent.begin number)) }
    {
        if !self.is_due(&Due::Begin(number)) {
            return Err(NetFault::NotEnabled);
        }
        let work = self.copy_of_work(alloc, number)?;
        self.begin_with(alloc, number, work)
    }

    /// A copy of a block's work, to be shared.
    fn copy_of_work(
        &self,
        alloc: Global,
        number: usize,
    ) -> Result<Option<Arc<W, Global>>, AllocError>
        requires known { number < length (layout_of self.now.plan).blocks }
        ensures same { IfOk result (λ work. SameWork W.eq (block_in (layout_of self.now.plan).blocks number).work
            (option_map (λ work. arc_value work) work)) }
    {
        match self.plan.block(number).work {
            Some(ref work) => Ok(Some(Arc::new(alloc, work.copy_here(alloc)?)?)),
            None => Ok(None),
        }
    }

    /// Begins a job of a block that may begin one, with a share of the block's work.
    pub(crate) fn begin_with(
        &mut self,
        alloc: Global,
        number: usize,
        work: Option<Arc<W, Global>>,
    ) -> Result<Job<W>, NetFault>
        requires kept { InOrder W.meaning self.old }
        requires enabled { EnabledIn self.old (NetEvent.begin number) }
        ensures same_plan { self.new.plan ≡ self.old.plan }
        ensures may { OnOk result (MayHappenIn W.meaning self.old (NetEvent.begin number)) }
        ensures done { OnOk result (self.new.parts ≡ parts_after W.meaning self.old (NetEvent.begin number)) }
        ensures ticket { IfOk result (λ job. ticket_in job ≡ next_ticket (node_at self.old.parts number).block) }
        ensures message { IfOk result (λ job. message_in job ≡ next_message (node_at self.old.parts number).block) }
        ensures kind { IfOk result (λ job. kind_in job ≡ (node_at self.old.parts number).block.kind) }
        ensures work { IfOk result (λ job. work_in job ≡ option_map (λ work. arc_value work) work) }
        ensures kept { OnErr result (self.new.parts ≡ self.old.parts) }
        ensures why { IfErr result (IsWhyNotIn W.meaning self.old (NetEvent.begin number)) }
    {
        let job = self.job_of(alloc, number, work)?;
        self.go(alloc, &Due::Begin(number))?;
        Ok(job)
    }

    /// The job that a block would begin next, with this share of the block's work.
    fn job_of(
        &self,
        alloc: Global,
        number: usize,
        work: Option<Arc<W, Global>>,
    ) -> Result<Job<W>, AllocError>
        requires kept { InOrder W.meaning self.now }
        requires enabled { EnabledIn self.now (NetEvent.begin number) }
        ensures ticket { IfOk result (λ job. ticket_in job ≡ next_ticket (node_at self.now.parts number).block) }
        ensures message { IfOk result (λ job. message_in job ≡ next_message (node_at self.now.parts number).block) }
        ensures kind { IfOk result (λ job. kind_in job ≡ (node_at self.now.parts number).block.kind) }
        ensures work { IfOk result (λ job. work_in job ≡ option_map (λ work. arc_value work) work) }
    {
        let block = self.parts.node(number).block();
        if !block.has_ticket() {
            return Err(AllocError);
        }
        let message = block.begun_message().copy(alloc)?;
        Ok(Job::new(work, block.kind(), message, block.next_ticket()))
    }

    /// Takes the result of a job back, if it is that of a job which is out.
    pub(crate) fn end_job(
        &mut self,
        number: usize,
        done: JobResult<W>,
    ) -> Result<(), (JobResult<W>, NetFault)>
        requires kept { InOrder W.meaning self.old }
        ensures same_plan { self.new.plan ≡ self.old.plan }
        ensures may { OnOk result (MayHappenIn W.meaning self.old (NetEvent.end_job number (ticket_in (job_in done)))) }
        ensures done { OnOk result (self.new.parts ≡ parts_after W.meaning self.old (NetEvent.end_job number (ticket_in (job_in done)))) }
        ensures kept { OnErr result (self.new.parts ≡ self.old.parts) }
        ensures back { IfErr result (λ refused. refused.0 ≡ done) }
        ensures own { OnOk result (IsOwnJob W.eq (layout_of self.old.plan) self.old.parts number (job_in done)) }
        ensures strange { IfErr result (λ refused. refused.1 ≡ NotEnabled →
            IsOwnJob W.eq (layout_of self.old.plan) self.old.parts number (job_in done) → ⊥) }
        ensures refused_own { IfErr result (λ refused. refused.1 ≢ NotEnabled →
            IsOwnJob W.eq (layout_of self.old.plan) self.old.parts number (job_in done)) }
        ensures used_up { IfErr result (λ refused. refused.1 ≡ Ids →
            HasIdsIn W.meaning self.old (NetEvent.end_job number (ticket_in (job_in done))) → ⊥) }
        ensures ids { IfErr result (λ refused. refused.1 ≡ Memory →
            HasIdsIn W.meaning self.old (NetEvent.end_job number (ticket_in (job_in done)))) }
    {
        if !self.is_own_job(number, done.job()) {
            return Err((done, NetFault::NotEnabled));
        }
        let (job, answer) = done.into_parts();
        let ticket = job.ticket();
        match self.parts.end_job(number, ticket, answer) {
            Ok(()) => {
                self.agenda.list_after_make(&self.parts, number);
                Ok(())
            }
            Err((answer, fault)) => Err((JobResult::new(job, answer), NetFault::from(fault))),
        }
    }

    /// Whether this job of a block is out: its message is the one of that ticket, and its work is the block's.
    fn is_own_job(&self, number: usize, job: &Job<W>) -> bool
        requires kept { InOrder W.meaning self.now }
        ensures { IsTrue result ↔ IsOwnJob W.eq (layout_of self.now.plan) self.now.parts number job.now }
    {
        number < self.plan.block_count() && self.is_out(number, job) && self.has_work(number, job)
    }

    /// Whether this job is of a message of a block on which that works.
    fn is_out(&self, number: usize, job: &Job<W>) -> bool
        requires kept { InOrder W.meaning self.now }
        requires known { number < length (layout_of self.now.plan).blocks }
        ensures out { IsTrue result → may_end (ticket_in job.now) (node_at self.now.parts number).block ≡ true }
        ensures kind { IsTrue result → kind_in job.now ≡ (node_at self.now.parts number).block.kind }
        ensures message { IsTrue result → message_in job.now ≡
            job_message (ticket_in job.now) (node_at self.now.parts number).block }
        ensures only { IsOwnJob W.eq (layout_of self.now.plan) self.now.parts number job.now → IsTrue result }
    {
        let block = self.parts.node(number).block();
        block.may_end(job.ticket())
            && block.kind() == job.kind()
            && block.job_message(job.ticket()) == job.message()
    }

    /// Whether this job's work is that of a block.
    fn has_work(&self, number: usize, job: &Job<W>) -> bool
        requires known { number < length (layout_of self.now.plan).blocks }
        ensures { IsTrue result ↔ SameWork W.eq (block_in (layout_of self.now.plan).blocks number).work
            (work_in job.now) }
    {
        match (&self.plan.block(number).work, job.work()) {
            (Some(its), Some(given)) => its == given,
            (None, None) => true,
            _ => false,
        }
    }
}
