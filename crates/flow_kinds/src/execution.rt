//! A block with a function, with its kind as a type.
ghost use Rattle.std.specs.Prelude.{◌≡◌, ℕ, ◌<◌, ◌↔◌, true, false, length, option_map, Ok, Err, None};
ghost use Rattle.std.specs.Prelude.{IfOk, IfErr, IfSome, OnOk, OnErr};
ghost use Rattle.std.specs.Arc.{arc_value};
ghost use Rattle.flow_link.specs.Plan.{block_in};
ghost use Rattle.flow_link.specs.Planned.{layout_of};
ghost use Rattle.flow_link.specs.declared.stage.TargetStage.TheVariants.{Free};
ghost use Rattle.flow_block.specs.Peeks.{may_begin};
ghost use Rattle.flow_block.specs.Traits.{target_over};
ghost use Rattle.flow_exec.specs.Execution.{SameWork};
ghost use Rattle.flow_block.specs.Planned.{planned_block};

use crate::kind::{self, WorkKind};
use flow_block::{ports_of, rules_from};
use flow_exec::{EndFault, Execution, Job, JobResult};
use flow_link::Plan;
use flow_value::{Runs, Value};
use std::alloc::{AllocError, Global};
use std::marker::{Model, PhantomData};
use std::sync::Arc;

/// A block of this kind, and its work. Contracts see its `ExecutionState`.
#[derive(Drop)]
pub struct TypedExecution<K: WorkKind, W> {
    pub(crate) execution: Execution<W>,
    of: PhantomData<K>,
}

impl<K: WorkKind, W> Model for TypedExecution<K, W> {
    ghost use Rattle.std.specs.Prelude.{◌≡◌};
    ghost use Rattle.std.specs.Coded.{codes};
    ghost use Rattle.flow_value.specs.contracts.value.Value as content;
    ghost use Rattle.flow_exec.specs.Execution.{ExecutionState};

    ghost Value = { ExecutionState W };

    ghost coded = { Prim.hlevel (codes, content.the_row.coded, W.code) };

    ghost view = { λ e. e.execution };

    ghost invariant = { λ e. e.execution.block.kind ≡ K.kind };
}

/// Applies its work to each message, and keeps the results.
///
/// Microsoft: `ActionBlock<TInput>`.
pub type Action<W> = TypedExecution<kind::Action, W>;

/// Hands on the one result of each message.
///
/// Microsoft: `TransformBlock<TInput, TOutput>`.
pub type Transform<W> = TypedExecution<kind::Transform, W>;

/// Hands on all results of each message.
///
/// Microsoft: `TransformManyBlock<TInput, TOutput>`.
pub type TransformMany<W> = TypedExecution<kind::TransformMany, W>;

impl<K: WorkKind, W> TypedExecution<K, W> {
    ghost use Rattle.flow_exec.specs.Execution.{Runs};

    /// What holds of each: it is of its kind, has one port, and works on no more messages than it has lanes and holds.
    pub fn is_of_its_kind(&self)
        ensures kind { self.now.block.kind ≡ K.kind }
        ensures runs { Runs self.now.block }
    {
        self.execution.runs();
    }

    /// The block and its work, which tell all that they tell of themselves.
    pub fn execution(&self) -> &Execution<W>
        ensures { result.now ≡ self.now }
    {
        &self.execution
    }
}

impl<W> Action<W> {
    /// The results of its messages, oldest first.
    pub fn record(&self) -> &[Value]
        ensures { result.now ≡ self.now.block.recorded }
    {
        self.execution.recorded()
    }
}

impl<K: WorkKind, W: Runs> TypedExecution<K, W> {
    ghost use Rattle.flow_exec.specs.Jobs.{ticket_in};
    ghost use Rattle.flow_exec.specs.Results.{job_in};
    ghost use Rattle.flow_exec.specs.Execution.{IsNextJob, IsOwnJob, begins_job, ends_own_job, lacks_job_ids};
    ghost use Rattle.flow_exec.specs.declared.fault.EndFault.TheVariants.{Strange, Ids};

    /// The block of the plan with this number, in which nothing has happened, with an equal copy of its work. It fails
    /// only where memory is out.
    ///
    /// It looks at each link of the plan twice.
    pub fn new(
        alloc: Global,
        plan: &Plan<W>,
        number: usize,
    ) -> Result<TypedExecution<K, W>, AllocError>
        requires there { number < length (layout_of plan.now).blocks }
        requires kind { (block_in (layout_of plan.now).blocks number).kind ≡ K.kind }
        ensures block { IfOk result (λ made. made.block ≡ planned_block (layout_of plan.now) number) }
        ensures rests { IfOk result (λ made. (link : ℕ) → target_over made.block.ports link ≡ Free) }
        ensures work { IfOk result (λ made. SameWork W.eq (block_in (layout_of plan.now).blocks number).work made.work) }
    {
        let ports = ports_of(alloc, plan, number)?;
        let rules = rules_from(alloc, plan, number)?;
        let def = plan.block(number);
        let work = copy_of(alloc, &def.work)?;
        let lanes = def.lanes.unwrap_or(1) as usize;
        match Execution::new(alloc, def.kind, lanes, work, ports, rules) {
            Ok(execution) => Ok(TypedExecution {
                execution,
                of: PhantomData,
            }),
            Err(_) => Err(AllocError),
        }
    }

    /// Begins a job of the oldest message that is not worked on yet. There is none where nothing waits, where all lanes
    /// are busy, and where the block has faulted or stopped. It is refused where memory is out, and where tickets are
    /// used up, after 2^64 - 1 of them.
    pub fn begin(&mut self, alloc: Global) -> Result<Option<Job<W>>, AllocError>
        ensures none { (result ≡ Ok None) ↔ (may_begin self.old.block ≡ false) }
        ensures next { IfOk result (λ begun. IfSome begun (λ job. IsNextJob self.old job)) }
        ensures done { IfOk result (λ begun. IfSome begun (λ job. self.new ≡ begins_job self.old)) }
        ensures nothing { (result ≡ Ok None) → self.new ≡ self.old }
        ensures kept { OnErr result (self.new ≡ self.old) }
    {
        self.execution.begin(alloc)
    }

    /// Takes the result of a job back: what is in order comes out, up to a fault. Unless the job is out, the result is
    /// strange to it. Where the result is not taken, it comes back, and nothing has changed.
    pub fn end(&mut self, done: JobResult<W>) -> Result<(), (JobResult<W>, EndFault)>
        ensures own { OnOk result (IsOwnJob W.eq self.old (job_in done)) }
        ensures has_ids { OnOk result (lacks_job_ids W.meaning (ticket_in (job_in done)) self.old ≡ false) }
        ensures done { OnOk result (self.new ≡ ends_own_job W.meaning (ticket_in (job_in done)) self.old) }
        ensures kept { OnErr result (self.new ≡ self.old) }
        ensures back { IfErr result (λ refused. refused.0 ≡ done) }
        ensures strange { IfErr result (λ refused. (refused.1 ≡ Strange) ↔
            (IsOwnJob W.eq self.old (job_in done) → ⊥)) }
        ensures ids { IfErr result (λ refused. (refused.1 ≡ Ids) ↔ (IsOwnJob W.eq self.old (job_in done) ×
            (lacks_job_ids W.meaning (ticket_in (job_in done)) self.old ≡ true))) }
    {
        self.execution.end(done)
    }
}

/// A shared copy of a work, which is equal to it.
fn copy_of<W: Runs>(alloc: Global, work: &Option<W>) -> Result<Option<Arc<W, Global>>, AllocError>
    ensures { IfOk result (λ copy. SameWork W.eq work.now (option_map (λ shared. arc_value shared) copy)) }
{
    let Some(work) = work else {
        return Ok(None);
    };
    let copy = work.copy_here(alloc)?;
    match Arc::new(alloc, copy) {
        Ok(shared) => Ok(Some(shared)),
        Err(_) => Err(AllocError),
    }
}
