//! What the block of a task does by itself.
ghost use Rattle.std.specs.Prelude.{◌≡◌, ℕ, ◌<◌, true, false, List, length, Some, Result, Ok, Err, IfOk, IfSome, OnOk, OnErr};
ghost use Rattle.std.specs.Option.{IfNone};
ghost use Rattle.flow_value.specs.declared.value.Value.{Value};
ghost use Rattle.std.specs.List.{list_all};
ghost use Rattle.flow_link.specs.Planned.{layout_of};
ghost use Rattle.flow_block.specs.Node.{NodeCall};
ghost use Rattle.flow_block.specs.Peeks.{may_make, may_begin, may_end, may_complete, next_fault, may_finish, lacks_next, is_written};
ghost use Rattle.flow_outlet.specs.Outlet.{lacks_ids};
ghost use Rattle.flow_outlet.specs.declared.fault.OutletFault.TheVariants.{Ids};
ghost use Rattle.flow_block.specs.Planned.{block_makes};
ghost use Rattle.flow_block_law.specs.JobsEnd.{after_job, put_at_end};
ghost use Rattle.flow_exec.specs.Works.{works_of};
ghost use Rattle.flow_moves.specs.Calls.{Calls};
ghost use Rattle.flow_task.specs.Events.{Does};
ghost use Rattle.flow_task.specs.Turns.{JobsAreDone, MakeIsDone, OwnIsDone, StaysOpen, WorkIsDone, is_running, runs_on};

use crate::board::Board;
use crate::gate::{Gate, JobPolicy};
use crate::task::BlockTask;
use flow_block::Block;
use flow_intake::Intake;
use flow_link::PortId;
use flow_moves::finish_job;
use flow_outlet::OutletFault;
use flow_value::Runs;
use std::alloc::{AllocError, Global};

impl<W: Runs> BlockTask<W> {
    ghost use Rattle.flow_task.specs.Tasks.{makes_of};

    /// The block, which has no function, makes its next outputs. Where message ids are used up or memory is out, nothing has
    /// changed.
    pub(crate) fn make(&mut self, alloc: Global) -> Result<(), OutletFault>
        requires { may_make self.old.node.block ≡ true }
        ensures of { self.new.of.value ≡ self.old.of.value }
        ensures number { self.new.number ≡ self.old.number }
        ensures ins { self.new.ins ≡ self.old.ins }
        ensures outs { self.new.outs ≡ self.old.outs }
        ensures made { OnOk result (Calls (Some NodeCall.make) self.old.node self.new.node) }
        ensures kept { OnErr result (self.new.node ≡ self.old.node) }
        ensures used_up { result ≡ Err Ids → (makes : Value → Result (List Value) ℕ) → lacks_next makes self.old.node ≡ true }
    {
        self.node.make_next(alloc)
    }

    /// The block works on one more of the messages that it holds. Where memory is out, or tickets are used up, nothing has changed.
    pub(crate) fn begin(&mut self) -> Result<(), AllocError>
        requires { may_begin self.old.node.block ≡ true }
        ensures of { self.new.of.value ≡ self.old.of.value }
        ensures number { self.new.number ≡ self.old.number }
        ensures ins { self.new.ins ≡ self.old.ins }
        ensures outs { self.new.outs ≡ self.old.outs }
        ensures note { self.new.note ≡ self.old.note }
        ensures begun { OnOk result (Calls (Some NodeCall.begin) self.old.node self.new.node) }
        ensures kept { OnErr result (self.new.node ≡ self.old.node) }
    {
        self.node.begin()
    }

    /// The message of a job of the block is worked on, and the result comes back. Where message ids are used up or memory is out,
    /// nothing has changed.
    pub(crate) fn finish_job(
        &mut self,
        alloc: Global,
        board: &Board<W>,
        ticket: u64,
    ) -> Result<(), OutletFault>
        requires of { self.old.of.value ≡ board.now }
        requires out { may_end ticket self.old.node.block ≡ true }
        ensures of { self.new.of.value ≡ self.old.of.value }
        ensures number { self.new.number ≡ self.old.number }
        ensures ins { self.new.ins ≡ self.old.ins }
        ensures outs { self.new.outs ≡ self.old.outs }
        ensures note { self.new.note ≡ self.old.note }
        ensures ended { OnOk result (self.new.node ≡ after_job (block_makes (layout_of self.old.of.value.rest.plan)
            (works_of W.meaning (layout_of self.old.of.value.rest.plan)) self.old.number) ticket self.old.node) }
        ensures kept { OnErr result (self.new.node ≡ self.old.node) }
        ensures used_up { result ≡ Err Ids → lacks_ids (put_at_end (makes_of W.meaning self.old) ticket self.old.node.block)
            self.old.node.block.exits ≡ true }
    {
        let work = board.rest.plan.block(self.number).work.as_ref();
        finish_job(&mut self.node, alloc, ticket, work)
    }

    /// A port of the block takes no message any more. Where memory is out, nothing has changed.
    pub(crate) fn complete(&mut self, port: PortId) -> Result<(), AllocError>
        requires port { port < length self.old.node.block.ports }
        requires completes { may_complete port self.old.node.block ≡ true }
        ensures of { self.new.of.value ≡ self.old.of.value }
        ensures number { self.new.number ≡ self.old.number }
        ensures ins { self.new.ins ≡ self.old.ins }
        ensures outs { self.new.outs ≡ self.old.outs }
        ensures completed { OnOk result (Calls (Some (NodeCall.complete port)) self.old.node self.new.node) }
        ensures kept { OnErr result (self.new.node ≡ self.old.node) }
    {
        self.node.complete(port)
    }

    /// The block stops by a fault with this number. Where memory is out, nothing has changed.
    pub(crate) fn fault(&mut self, number: u32) -> Result<(), AllocError>
        requires { next_fault self.old.node.block ≡ Some number }
        ensures of { self.new.of.value ≡ self.old.of.value }
        ensures number { self.new.number ≡ self.old.number }
        ensures ins { self.new.ins ≡ self.old.ins }
        ensures outs { self.new.outs ≡ self.old.outs }
        ensures faulted { OnOk result (Calls (Some (NodeCall.fault number)) self.old.node self.new.node) }
        ensures kept { OnErr result (self.new.node ≡ self.old.node) }
    {
        self.node.fault(number)
    }

    /// The block stops, and has nothing left. Where memory is out, nothing has changed.
    pub(crate) fn finish(&mut self) -> Result<(), AllocError>
        requires { may_finish self.old.node.block ≡ true }
        ensures of { self.new.of.value ≡ self.old.of.value }
        ensures number { self.new.number ≡ self.old.number }
        ensures ins { self.new.ins ≡ self.old.ins }
        ensures outs { self.new.outs ≡ self.old.outs }
        ensures finished { OnOk result (Calls (Some NodeCall.finish) self.old.node self.new.node) }
        ensures kept { OnErr result (self.new.node ≡ self.old.node) }
    {
        self.node.finish()
    }

    /// The block does what comes next for it by itself; it does its jobs only where they are done in place. False where there is nothing,
    /// but for what no message id is left for.
    pub(crate) fn act<G: Gate>(
        &mut self,
        alloc: Global,
        board: &Board<W>,
        policy: &JobPolicy<'_, G>,
    ) -> Result<bool, AllocError>
        requires of { self.old.of.value ≡ board.now }
        ensures of { self.new.of.value ≡ self.old.of.value }
        ensures number { self.new.number ≡ self.old.number }
        ensures ins { self.new.ins ≡ self.old.ins }
        ensures outs { self.new.outs ≡ self.old.outs }
        ensures does { Does policy.now.in_place (makes_of W.meaning self.old) result self.old.node self.new.node }
        ensures still { IfOk result (λ did. did ≡ false → OwnIsDone (makes_of W.meaning self.old) self.old.node policy.now.in_place) }
    {
        if self.make_once(alloc)? {
            return Ok(true);
        }
        if self.work_once(alloc, board, policy)? {
            return Ok(true);
        }
        self.close()
    }

    /// The oldest job that is out ends, or one more begins, where jobs are done in place. False where there is none, or no message id is
    /// left for the result.
    fn work_once<G: Gate>(
        &mut self,
        alloc: Global,
        board: &Board<W>,
        policy: &JobPolicy<'_, G>,
    ) -> Result<bool, AllocError>
        requires of { self.old.of.value ≡ board.now }
        ensures of { self.new.of.value ≡ self.old.of.value }
        ensures number { self.new.number ≡ self.old.number }
        ensures ins { self.new.ins ≡ self.old.ins }
        ensures outs { self.new.outs ≡ self.old.outs }
        ensures does { Does policy.now.in_place (makes_of W.meaning self.old) result self.old.node self.new.node }
        ensures still { IfOk result (λ did. did ≡ false → WorkIsDone (makes_of W.meaning self.old) self.old.node policy.now.in_place) }
    {
        if !policy.in_place {
            return Ok(false);
        }
        if self.end_once(alloc, board, policy.gate)? {
            return Ok(true);
        }
        self.begin_once()
    }

    /// The block makes its next outputs, if it would. False where it would not, or no message id is left for them.
    fn make_once(&mut self, alloc: Global) -> Result<bool, AllocError>
        ensures of { self.new.of.value ≡ self.old.of.value }
        ensures number { self.new.number ≡ self.old.number }
        ensures ins { self.new.ins ≡ self.old.ins }
        ensures outs { self.new.outs ≡ self.old.outs }
        ensures does { Does false (makes_of W.meaning self.old) result self.old.node self.new.node }
        ensures still { IfOk result (λ did. did ≡ false → MakeIsDone (makes_of W.meaning self.old) self.old.node) }
    {
        if !self.node.block().may_make() {
            return Ok(false);
        }
        left_undone(self.make(alloc))
    }

    /// The message of the oldest job that is out is worked on, and the result comes back. False where none is out, or no message id
    /// is left for the result.
    pub(crate) fn end_once<G: Gate>(
        &mut self,
        alloc: Global,
        board: &Board<W>,
        gate: &G,
    ) -> Result<bool, AllocError>
        requires of { self.old.of.value ≡ board.now }
        ensures of { self.new.of.value ≡ self.old.of.value }
        ensures number { self.new.number ≡ self.old.number }
        ensures ins { self.new.ins ≡ self.old.ins }
        ensures outs { self.new.outs ≡ self.old.outs }
        ensures note { self.new.note ≡ self.old.note }
        ensures does { Does true (makes_of W.meaning self.old) result self.old.node self.new.node }
        ensures still { IfOk result (λ did. did ≡ false → JobsAreDone (makes_of W.meaning self.old) self.old.node) }
    {
        match self.node.block().next_end() {
            Some(ticket) => {
                gate.before(self.number, ticket);
                let done = self.finish_job(alloc, board, ticket);
                gate.after(self.number, ticket);
                left_undone(done)
            }
            None => Ok(false),
        }
    }

    /// The block works on one more of the messages that it holds, if it may. False where it may not.
    fn begin_once(&mut self) -> Result<bool, AllocError>
        ensures of { self.new.of.value ≡ self.old.of.value }
        ensures number { self.new.number ≡ self.old.number }
        ensures ins { self.new.ins ≡ self.old.ins }
        ensures outs { self.new.outs ≡ self.old.outs }
        ensures does { Does false (makes_of W.meaning self.old) result self.old.node self.new.node }
        ensures still { IfOk result (λ did. did ≡ false → may_begin self.old.node.block ≡ false) }
    {
        if !self.node.block().may_begin() {
            return Ok(false);
        }
        self.begin()?;
        Ok(true)
    }

    /// A port of the block completes, or the block stops, if that comes next. False where it does not.
    fn close(&mut self) -> Result<bool, AllocError>
        ensures of { self.new.of.value ≡ self.old.of.value }
        ensures number { self.new.number ≡ self.old.number }
        ensures ins { self.new.ins ≡ self.old.ins }
        ensures outs { self.new.outs ≡ self.old.outs }
        ensures does { Does false (makes_of W.meaning self.old) result self.old.node self.new.node }
        ensures still { IfOk result (λ did. did ≡ false → StaysOpen self.old.node.block) }
    {
        if is_running(self.node.block()) {
            return Ok(false);
        }
        if let Some(port) = self.port_to_complete() {
            self.complete(port)?;
            return Ok(true);
        }
        if let Some(number) = self.node.block().next_fault() {
            self.fault(number)?;
            return Ok(true);
        }
        if self.node.block().may_finish() {
            self.finish()?;
            return Ok(true);
        }
        Ok(false)
    }

    /// The first port of the block that would complete.
    fn port_to_complete(&self) -> Option<PortId>
        ensures there { IfSome result (λ port. port < length self.now.node.block.ports) }
        ensures completes { IfSome result (λ port. may_complete port self.now.node.block ≡ true) }
        ensures none { IfNone result ((port : ℕ) → port < length self.now.node.block.ports →
            may_complete port self.now.node.block ≡ false) }
    {
        let block = self.node.block();
        for port in 0..block.port_count() {
            if block.may_complete(port) {
                return Some(port as PortId);
            }
        }
        None
    }
}

/// Whether nothing has come to a block by which a port of it may complete or it may stop: the one test that most turns need.
#[tactic(auto, using(flow_link::proofs::FirstInOrder::all_is_every))]
fn is_running(block: &Block) -> bool
    ensures { result ≡ is_running block.now }
{
    (block.own_fault().is_none() && !is_written(block))
        && (!block.ports().is_empty() && do_ports_run_on(block.ports()))
}

/// Whether a block takes one message in all, and has it.
fn is_written(block: &Block) -> bool
    ensures { result ≡ is_written block.now }
{
    block.kind().unit().copies_one() && block.copies().element().is_some()
}

/// Whether all ports run on.
fn do_ports_run_on(ports: &[Intake]) -> bool
    ensures { result ≡ list_all runs_on ports.now }
{
    ports.iter().all(|port| runs_on(port))
}

/// Whether a port runs on: it was not completed, and over no link into it completion or a fault has come.
fn runs_on(port: &Intake) -> bool
    ensures { result ≡ runs_on port.now }
{
    !port.has_ended() && (!port.has_seen_completion() && port.fault_seen().is_none())
}

/// Whether something was done. Where a message id is wanting, nothing was.
pub(crate) fn left_undone(done: Result<(), OutletFault>) -> Result<bool, AllocError>
    ensures done { OnOk done (result ≡ Ok true) }
    ensures not_done { OnErr done (IfOk result (λ did. did ≡ false)) }
    ensures ids { IfOk result (λ did. did ≡ false → done ≡ Err Ids) }
{
    match done {
        Ok(()) => Ok(true),
        Err(OutletFault::Ids) => Ok(false),
        Err(OutletFault::Memory) => Err(AllocError),
    }
}
