//! A block with a function, for a caller who drives it by hand.
ghost use Rattle.std.specs.Prelude.{◌≡◌, ◌↔◌, true, false, [], ◌∷◌, length, option_map, is_some, Ok, Err, None};
ghost use Rattle.std.specs.Prelude.{IsTrue, MatchResult, IfOk, IfErr, IfSome, OnOk, OnErr};
ghost use Rattle.std.specs.Arc.{arc_value};
ghost use Rattle.flow_link.specs.Plan.{has_work};
ghost use Rattle.flow_link.specs.declared.draft.BlockKind.TheVariants.{Action, Transform, TransformMany};
ghost use Rattle.flow_intake.specs.Port.{fresh_port};
ghost use Rattle.flow_outlet.specs.Outlet.{lacks_ids};
ghost use Rattle.flow_outlet.specs.declared.fault.OutletFault.TheVariants as Outlet;
ghost use Rattle.flow_block.specs.Block.{job_message, ends_job, put_by_job};
ghost use Rattle.flow_block.specs.Jobs.{is_out};
ghost use Rattle.flow_block.specs.Peeks.{holds_nothing, may_begin, may_end};

use crate::fault::EndFault;
use crate::job::Job;
use crate::result::JobResult;
use flow_block::{Answer, Block};
use flow_intake::Intake;
use flow_link::BlockKind;
use flow_outlet::{LinkRule, OutletFault};
use flow_value::{Runs, Value};
use std::alloc::{AllocError, Global};
use std::collections::VecDeque;
use std::marker::Model;
use std::sync::Arc;

/// A block with a function, and its work: an action, a transform or a transform-many.
///
/// Contracts see an `ExecutionState`, and `Runs` holds of each: nobody has to show that a job may begin or end.
#[derive(Drop)]
pub struct Execution<W> {
    pub(crate) block: Block,
    work: Option<Arc<W, Global>>,
}

impl<W> Model for Execution<W> {
    ghost use Rattle.std.specs.Coded.{codes};
    ghost use Rattle.std.specs.Prelude.{option_map};
    ghost use Rattle.std.specs.Arc.{arc_value};
    ghost use Rattle.flow_value.specs.contracts.value.Value as content;
    ghost use Rattle.flow_exec.specs.Execution.{ExecutionState, Runs};

    ghost Value = { ExecutionState W };

    ghost coded = { Prim.hlevel (codes, content.the_row.coded, W.code) };

    ghost view = { λ e. record { block = e.block; work = option_map (λ work. arc_value work) e.work } };

    ghost invariant = { λ e. Runs e.block };
}

impl<W> Execution<W> {
    ghost use Rattle.flow_exec.specs.Execution.{fresh_execution, Runs};

    /// A block of this kind with this work and so many lanes, with this port, at which nothing waits, and with these
    /// links out of it. Where there is no memory for it, its parts come back.
    pub fn new(
        alloc: Global,
        kind: BlockKind,
        lanes: usize,
        work: Option<Arc<W, Global>>,
        ports: Vec<Intake>,
        rules: Vec<LinkRule>,
    ) -> Result<Execution<W>, (Option<Arc<W, Global>>, Vec<Intake>, Vec<LinkRule>)>
        requires works { has_work kind ≡ true }
        requires one_port { length ports.items ≡ 1 }
        requires fresh { holds_nothing ports.items ≡ true }
        ensures { MatchResult result
            (λ execution. execution ≡ fresh_execution kind lanes (option_map (λ work. arc_value work) work) ports.items
            rules.items)
            (λ back. back ≡ (work, ports, rules)) }
    {
        match Block::new(alloc, kind, lanes, 0, ports, rules) {
            Ok(block) => Ok(Execution { block, work }),
            Err((ports, rules)) => Err((work, ports, rules)),
        }
    }

    /// An action with this work, so many lanes, room for so many messages or for any number, and these links out of it.
    /// Where there is no memory for it, its parts come back.
    ///
    /// Microsoft: `ActionBlock<TInput>`.
    pub fn action(
        alloc: Global,
        lanes: usize,
        capacity: Option<u32>,
        work: Option<Arc<W, Global>>,
        rules: Vec<LinkRule>,
    ) -> Result<Execution<W>, (Option<Arc<W, Global>>, Vec<LinkRule>)>
        ensures { MatchResult result
            (λ execution. execution ≡ fresh_execution Action lanes (option_map (λ work. arc_value work) work)
            (fresh_port capacity ∷ []) rules.items)
            (λ back. back ≡ (work, rules)) }
    {
        Execution::with_port(alloc, BlockKind::Action, lanes, capacity, work, rules)
    }

    /// A transform, likewise.
    ///
    /// Microsoft: `TransformBlock<TInput, TOutput>`.
    pub fn transform(
        alloc: Global,
        lanes: usize,
        capacity: Option<u32>,
        work: Option<Arc<W, Global>>,
        rules: Vec<LinkRule>,
    ) -> Result<Execution<W>, (Option<Arc<W, Global>>, Vec<LinkRule>)>
        ensures { MatchResult result
            (λ execution. execution ≡ fresh_execution Transform lanes (option_map (λ work. arc_value work) work)
            (fresh_port capacity ∷ []) rules.items)
            (λ back. back ≡ (work, rules)) }
    {
        Execution::with_port(alloc, BlockKind::Transform, lanes, capacity, work, rules)
    }

    /// A transform-many, likewise.
    ///
    /// Microsoft: `TransformManyBlock<TInput, TOutput>`.
    pub fn transform_many(
        alloc: Global,
        lanes: usize,
        capacity: Option<u32>,
        work: Option<Arc<W, Global>>,
        rules: Vec<LinkRule>,
    ) -> Result<Execution<W>, (Option<Arc<W, Global>>, Vec<LinkRule>)>
        ensures { MatchResult result
            (λ execution. execution ≡ fresh_execution TransformMany lanes (option_map (λ work. arc_value work) work)
            (fresh_port capacity ∷ []) rules.items)
            (λ back. back ≡ (work, rules)) }
    {
        Execution::with_port(
            alloc,
            BlockKind::TransformMany,
            lanes,
            capacity,
            work,
            rules,
        )
    }

    /// A block of this kind with a new port, into which no link leads yet.
    fn with_port(
        alloc: Global,
        kind: BlockKind,
        lanes: usize,
        capacity: Option<u32>,
        work: Option<Arc<W, Global>>,
        rules: Vec<LinkRule>,
    ) -> Result<Execution<W>, (Option<Arc<W, Global>>, Vec<LinkRule>)>
        requires { has_work kind ≡ true }
        ensures { MatchResult result
            (λ execution. execution ≡ fresh_execution kind lanes (option_map (λ work. arc_value work) work)
            (fresh_port capacity ∷ []) rules.items)
            (λ back. back ≡ (work, rules)) }
    {
        let mut ports = Vec::new(alloc);
        if ports.push(Intake::new(alloc, capacity)).is_err() {
            return Err((work, rules));
        }
        match Execution::new(alloc, kind, lanes, work, ports, rules) {
            Ok(execution) => Ok(execution),
            Err((work, _, rules)) => Err((work, rules)),
        }
    }

    /// What holds of each of them: it has one port, no more of its jobs are out than it has lanes, and it works on no more
    /// messages than it holds.
    pub fn runs(&self)
        ensures { Runs self.now.block }
    {
        let _ports = self.block.port_count();
    }

    /// The block, which tells all that it tells of itself.
    pub fn block(&self) -> &Block
        ensures { result.now ≡ self.now.block }
    {
        &self.block
    }

    /// Its work, if it has one.
    pub fn work(&self) -> Option<&W>
        ensures { option_map (λ work. work.now) result ≡ self.now.work }
    {
        match &self.work {
            Some(work) => Some(&**work),
            None => None,
        }
    }

    /// The results that it keeps, if it is an action.
    pub fn recorded(&self) -> &[Value]
        ensures { result.now ≡ self.now.block.recorded }
    {
        self.block.recorded()
    }

    /// What it has to give, oldest first.
    pub fn left(&self) -> &VecDeque<Value>
        ensures { result.now.items ≡ self.now.block.exits.left }
    {
        self.block.left()
    }
}

// Its jobs.
impl<W: Runs> Execution<W> {
    ghost use Rattle.flow_exec.specs.Jobs.{work_in, kind_in, message_in, ticket_in};
    ghost use Rattle.flow_exec.specs.Results.{job_in};
    ghost use Rattle.flow_exec.specs.Execution.{IsNextJob, next_ticket, next_message, IsOwnJob, SameWork, with_block, begins_job, ends_own_job, lacks_job_ids};
    ghost use Rattle.flow_exec.specs.declared.fault.EndFault.TheVariants.{Strange, Ids};

    /// Begins a job of the oldest message that is not worked on yet. There is none where nothing waits, where all lanes
    /// are busy, and where the block has faulted or stopped. A lane is busy until the result is back, and not while that
    /// waits for an earlier one. It is refused where memory is out, and where tickets are
    /// used up, after 2^64 - 1 of them.
    pub fn begin(&mut self, alloc: Global) -> Result<Option<Job<W>>, AllocError>
        ensures none { (result ≡ Ok None) ↔ (may_begin self.old.block ≡ false) }
        ensures next { IfOk result (λ begun. IfSome begun (λ job. IsNextJob self.old job)) }
        ensures done { IfOk result (λ begun. IfSome begun (λ job. self.new ≡ begins_job self.old)) }
        ensures nothing { (result ≡ Ok None) → self.new ≡ self.old }
        ensures kept { OnErr result (self.new ≡ self.old) }
    {
        if !self.block.may_begin() {
            return Ok(None);
        }
        let job = self.next_job(alloc)?;
        self.block.begin()?;
        Ok(Some(job))
    }

    /// The job that begins next.
    fn next_job(&self, alloc: Global) -> Result<Job<W>, AllocError>
        requires { may_begin self.now.block ≡ true }
        ensures ticket { IfOk result (λ job. ticket_in job ≡ next_ticket self.now.block) }
        ensures message { IfOk result (λ job. message_in job ≡ next_message self.now.block) }
        ensures kind { IfOk result (λ job. kind_in job ≡ self.now.block.kind) }
        ensures work { IfOk result (λ job. work_in job ≡ self.now.work) }
    {
        if !self.block.has_ticket() {
            return Err(AllocError);
        }
        let message = self.block.begun_message().copy(alloc)?;
        let work = self.share()?;
        Ok(Job::new(work, self.block.kind(), message, self.block.next_ticket()))
    }

    /// A share of its work.
    fn share(&self) -> Result<Option<Arc<W, Global>>, AllocError>
        ensures { IfOk result (λ work. option_map (λ work. arc_value work) work ≡ self.now.work) }
    {
        match &self.work {
            Some(work) => Ok(Some(work.clone()?)),
            None => Ok(None),
        }
    }

    /// Takes the result of a job back: what is in order comes out, up to a fault. Unless the job is out, the result is
    /// strange to it. Where the result is not taken, it comes back, and nothing has changed.
    pub fn end(&mut self, done: JobResult<W>) -> Result<(), (JobResult<W>, EndFault)>
        ensures own { OnOk result (IsOwnJob W.eq self.old (job_in done)) }
        ensures has_ids { OnOk result (lacks_job_ids W.meaning (ticket_in (job_in done)) self.old ≡ false) }
        ensures done { OnOk result (self.new ≡ ends_own_job W.meaning (ticket_in (job_in done)) self.old) }
        ensures kept { OnErr result (self.new ≡ self.old) }
        ensures back { IfErr result (λ refused. refused.0 ≡ done) }
        ensures strange { IfErr result (λ refused. (refused.1 ≡ Strange) ↔
            (IsOwnJob W.eq self.old (job_in done) → ⊥)) }
        ensures ids { IfErr result (λ refused. (refused.1 ≡ Ids) ↔ (IsOwnJob W.eq self.old (job_in done) ×
            (lacks_job_ids W.meaning (ticket_in (job_in done)) self.old ≡ true))) }
    {
        if !self.is_own_job(done.job()) {
            return Err((done, EndFault::Strange));
        }
        let (job, answer) = done.into_parts();
        match self.take_back(job.ticket(), answer) {
            Ok(()) => Ok(()),
            Err((answer, fault)) => Err((JobResult::new(job, answer), EndFault::from(fault))),
        }
    }

    /// Takes the answer of a job back that is out.
    fn take_back(&mut self, ticket: u64, answer: Answer) -> Result<(), (Answer, OutletFault)>
        requires { is_out ticket self.old.block.jobs ≡ true }
        ensures done { OnOk result (self.new ≡ with_block (ends_job ticket answer) self.old) }
        ensures kept { OnErr result (self.new ≡ self.old) }
        ensures back { IfErr result (λ refused. refused.0 ≡ answer) }
        ensures ids { (result ≡ Err (answer, Outlet.Ids)) ↔
            (lacks_ids (put_by_job ticket answer self.old.block) self.old.block.exits ≡ true) }
    {
        self.block.end_job(ticket, answer)
    }

    /// Whether this job is out: its message is the one of that ticket, and its work is the block's.
    pub fn is_own_job(&self, job: &Job<W>) -> bool
        ensures { IsTrue result ↔ IsOwnJob W.eq self.now job.now }
    {
        self.is_out(job) && self.has_work(job)
    }

    /// Whether this job is of a message on which the block works.
    fn is_out(&self, job: &Job<W>) -> bool
        ensures out { IsTrue result → may_end (ticket_in job.now) self.now.block ≡ true }
        ensures kind { IsTrue result → kind_in job.now ≡ self.now.block.kind }
        ensures message { IsTrue result → message_in job.now ≡ job_message (ticket_in job.now) self.now.block }
        ensures only { IsOwnJob W.eq self.now job.now → IsTrue result }
    {
        self.block.may_end(job.ticket()) && self.block.kind() == job.kind() && self.has_message(job)
    }

    /// Whether this job's message is the one of its ticket.
    fn has_message(&self, job: &Job<W>) -> bool
        requires { is_out (ticket_in job.now) self.now.block.jobs ≡ true }
        ensures { IsTrue result ↔ (message_in job.now ≡ job_message (ticket_in job.now) self.now.block) }
    {
        self.block.job_message(job.ticket()) == job.message()
    }

    /// Whether this job's work is that of the block.
    fn has_work(&self, job: &Job<W>) -> bool
        ensures { IsTrue result ↔ SameWork W.eq self.now.work (work_in job.now) }
    {
        match (&self.work, job.work()) {
            (Some(its), Some(given)) => **its == *given,
            (None, None) => true,
            _ => false,
        }
    }
}
