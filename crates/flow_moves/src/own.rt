//! What a block does by itself.
ghost use Rattle.std.specs.Prelude.{◌≡◌, ◌≢◌, ℕ, ◌<◌, true, false, [], List, length, take, Result, Ok, Err, option_map};
ghost use Rattle.std.specs.Prelude.{◌≤◌, ◌↔◌, ◌∷◌, None, OnOk, OnErr, IfErr};
ghost use Rattle.flow_value.specs.declared.value.Value.{Value};
ghost use Rattle.flow_link.specs.declared.draft.BlockKind.TheVariants.{Action, Buffer};
ghost use Rattle.flow_link.specs.Plan.{has_work, is_write_once};
ghost use Rattle.flow_outlet.specs.Outlet.{lacks_ids};
ghost use Rattle.flow_outlet.specs.declared.fault.OutletFault.TheVariants.{Ids, Memory};
ghost use Rattle.flow_block.specs.Block.{held_by, has_ports, put_by_kind, ends_job, put_by_job};
ghost use Rattle.flow_block.specs.Jobs.{has_ticket, is_out, is_front_back};
ghost use Rattle.flow_block_law.specs.JobsEnd.{after_job, put_at_end};
ghost use Rattle.flow_block.specs.Node.{NodeCall, after, with_block};
ghost use Rattle.flow_block.specs.Peeks.{may_make, may_begin, lacks_next};
ghost use Rattle.flow_core.specs.Events.{with_node};
ghost use Rattle.flow_core.specs.State.{node_at};
ghost use Rattle.flow_exec.specs.Works.{results_by};
ghost use Rattle.flow_moves.specs.AtOnce.{put_at_once, works_at_once, works_out};

use crate::parts::Parts;
use flow_block::{Answer, Node};
use flow_exec::{answer_of, is_identity, value_of};
use flow_link::{BlockKind, PortId};
use flow_outlet::OutletFault;
use flow_value::{Runs, Value};
use std::alloc::{AllocError, Global};

impl Parts {
    /// A block without a function makes its next outputs: it hands on or copies the message that waits longest, or makes a
    /// row, a tuple or a group of those that wait. Where message ids are used up or memory is out, nothing has changed;
    /// where both are wanting, ids are told.
    #[inline(always)]
    pub fn make(&mut self, alloc: Global, block: usize) -> Result<(), OutletFault>
        requires there { block < length self.old.nodes }
        requires alone { has_ports (node_at self.old block).block.kind ≡ false →
            length (node_at self.old block).block.ports ≡ 1 }
        requires ports { 0 < length (node_at self.old block).block.ports }
        requires waits { may_make (node_at self.old block).block ≡ true }
        requires many { is_write_once (node_at self.old block).block.kind ≡ false }
        ensures done { OnOk result ((result : Value → Result (List Value) ℕ) →
            self.new ≡ with_node block (after result NodeCall.make) self.old) }
        ensures ids { OnOk result ((result : Value → Result (List Value) ℕ) →
            lacks_next result (node_at self.old block) ≡ false) }
        ensures kept { OnErr result (self.new ≡ self.old) }
        ensures used_up { result ≡ Err Ids → (result : Value → Result (List Value) ℕ) →
            lacks_next result (node_at self.old block) ≡ true }
        ensures memory { result ≡ Err Memory →
            (result : Value → Result (List Value) ℕ) → lacks_next result (node_at self.old block) ≡ false }
    {
        self.nodes[block].make_next(alloc)
    }

    /// A block works on one more of the messages that it holds. Where memory is out, or tickets are used up, nothing has
    /// changed.
    pub fn begin(&mut self, block: usize) -> Result<(), AllocError>
        requires there { block < length self.old.nodes }
        ensures done { OnOk result ((result : Value → Result (List Value) ℕ) →
            self.new ≡ with_node block (after result NodeCall.begin) self.old) }
        ensures kept { OnErr result (self.new ≡ self.old) }
    {
        self.nodes[block].begin()
    }

    /// A block works at once on the message that waits longest, by this work: the job begins, and its result comes back.
    /// Where message ids are used up or memory is out, nothing has changed.
    #[inline(always)]
    pub fn work<W: Runs>(
        &mut self,
        alloc: Global,
        block: usize,
        work: Option<&W>,
    ) -> Result<(), OutletFault>
        requires there { block < length self.old.nodes }
        requires alone { length (node_at self.old block).block.ports ≡ 1 }
        requires waits { may_begin (node_at self.old block).block ≡ true }
        requires idle { (node_at self.old block).block.jobs.slots ≡ [] }
        ensures done { OnOk result (self.new ≡ with_node block
            (works_at_once (results_by (option_map (λ work. work.now) work.entry)
            (node_at self.old block).block.kind W.meaning)) self.old) }
        ensures ids { OnOk result (lacks_ids (put_at_once (results_by (option_map (λ work. work.now) work.entry)
            (node_at self.old block).block.kind W.meaning) (node_at self.old block))
            (node_at self.old block).block.exits ≡ false) }
        ensures kept { OnErr result (self.new ≡ self.old) }
        ensures used_up { result ≡ Err Ids → lacks_ids (put_at_once (results_by (option_map (λ work. work.now)
            work.entry) (node_at self.old block).block.kind W.meaning) (node_at self.old block))
            (node_at self.old block).block.exits ≡ true }
    {
        work_at_once(&mut self.nodes[block], alloc, work)
    }

    /// The result of a job of a block comes back. Where message ids are used up or memory is out, nothing has changed, and
    /// the result comes back.
    pub fn end_job(
        &mut self,
        block: usize,
        ticket: u64,
        answer: Answer,
    ) -> Result<(), (Answer, OutletFault)>
        requires there { block < length self.old.nodes }
        requires alone { length (node_at self.old block).block.ports ≡ 1 }
        requires works { has_work (node_at self.old block).block.kind ≡ true }
        requires out { is_out ticket (node_at self.old block).block.jobs ≡ true }
        requires held { length (node_at self.old block).block.jobs.slots ≤
            length (held_by (node_at self.old block).block) }
        requires drained { (node_at self.old block).block.fault ≡ None →
            is_front_back (node_at self.old block).block.jobs.slots ≡ false }
        ensures done { OnOk result (self.new ≡ with_node block
            (λ node. with_block (ends_job ticket answer node.block) node) self.old) }
        ensures kept { OnErr result (self.new ≡ self.old) }
        ensures back { IfErr result (λ refused. refused.0 ≡ answer) }
        ensures ids { (result ≡ Err (answer, Ids)) ↔ (lacks_ids (put_by_job ticket answer
            (node_at self.old block).block) (node_at self.old block).block.exits ≡ true) }
    {
        self.nodes[block].end_job(ticket, answer)
    }

    /// The message of a job of a block is worked on by this work, and the result comes back. Where message ids are used
    /// up or memory is out, nothing has changed.
    pub fn finish_job<W: Runs>(
        &mut self,
        alloc: Global,
        block: usize,
        ticket: u64,
        work: Option<&W>,
    ) -> Result<(), OutletFault>
        requires there { block < length self.old.nodes }
        requires alone { length (node_at self.old block).block.ports ≡ 1 }
        requires works { has_work (node_at self.old block).block.kind ≡ true }
        requires out { is_out ticket (node_at self.old block).block.jobs ≡ true }
        requires held { length (node_at self.old block).block.jobs.slots ≤
            length (held_by (node_at self.old block).block) }
        requires drained { (node_at self.old block).block.fault ≡ None →
            is_front_back (node_at self.old block).block.jobs.slots ≡ false }
        ensures done { OnOk result (self.new ≡ with_node block
            (after_job (results_by (option_map (λ work. work.now) work.entry)
            (node_at self.old block).block.kind W.meaning) ticket) self.old) }
        ensures ids { OnOk result (lacks_ids (put_at_end (results_by (option_map (λ work. work.now) work.entry)
            (node_at self.old block).block.kind W.meaning) ticket (node_at self.old block).block)
            (node_at self.old block).block.exits ≡ false) }
        ensures kept { OnErr result (self.new ≡ self.old) }
        ensures used_up { result ≡ Err Ids → lacks_ids (put_at_end (results_by
            (option_map (λ work. work.now) work.entry) (node_at self.old block).block.kind W.meaning) ticket
            (node_at self.old block).block) (node_at self.old block).block.exits ≡ true }
    {
        finish_job(&mut self.nodes[block], alloc, ticket, work)
    }

    /// A port of a block takes no message any more. Where memory is out, nothing has changed.
    pub fn complete(&mut self, block: usize, port: PortId) -> Result<(), AllocError>
        requires there { block < length self.old.nodes }
        requires port { port < length (node_at self.old block).block.ports }
        ensures done { OnOk result ((result : Value → Result (List Value) ℕ) →
            self.new ≡ with_node block (after result (NodeCall.complete port)) self.old) }
        ensures kept { OnErr result (self.new ≡ self.old) }
    {
        self.nodes[block].complete(port)
    }

    /// A block stops by a fault with this number. Where memory is out, nothing has changed.
    pub fn fault(&mut self, block: usize, number: u32) -> Result<(), AllocError>
        requires { block < length self.old.nodes }
        ensures done { OnOk result ((result : Value → Result (List Value) ℕ) →
            self.new ≡ with_node block (after result (NodeCall.fault number)) self.old) }
        ensures kept { OnErr result (self.new ≡ self.old) }
    {
        self.nodes[block].fault(number)
    }

    /// A block stops, and has nothing left. Where memory is out, nothing has changed.
    pub fn finish(&mut self, block: usize) -> Result<(), AllocError>
        requires { block < length self.old.nodes }
        ensures done { OnOk result ((result : Value → Result (List Value) ℕ) →
            self.new ≡ with_node block (after result NodeCall.finish) self.old) }
        ensures kept { OnErr result (self.new ≡ self.old) }
    {
        self.nodes[block].finish()
    }
}

/// A block works at once on the message that waits longest. Where message ids are used up or memory is out, nothing has
/// changed.
#[tactic(auto, using(crate::proofs::WorksAtOnce::worked_is, crate::proofs::WorksAtOnce::put_is))]
#[inline(always)]
fn work_at_once<W: Runs>(
    node: &mut Node,
    alloc: Global,
    work: Option<&W>,
) -> Result<(), OutletFault>
    requires alone { length node.old.block.ports ≡ 1 }
    requires waits { may_begin node.old.block ≡ true }
    requires idle { node.old.block.jobs.slots ≡ [] }
    ensures done { OnOk result (node.new ≡ works_at_once
        (results_by (option_map (λ work. work.now) work.entry) node.old.block.kind W.meaning) node.old) }
    ensures ids { OnOk result (lacks_ids (put_at_once
        (results_by (option_map (λ work. work.now) work.entry) node.old.block.kind W.meaning) node.old)
        node.old.block.exits ≡ false) }
    ensures kept { OnErr result (node.new ≡ node.old) }
    ensures used_up { result ≡ Err Ids → lacks_ids (put_at_once
        (results_by (option_map (λ work. work.now) work.entry) node.old.block.kind W.meaning) node.old)
        node.old.block.exits ≡ true }
{
    if !node.block().has_ticket() {
        return Err(OutletFault::Memory);
    }
    if node.block().kind() == BlockKind::Action && is_identity(work) {
        return keep_first(node);
    }
    let found = match node.block().waiting(0).front() {
        Some(message) => value_of(alloc, work, message),
        None => return Err(OutletFault::Memory),
    };
    match found {
        Some(value) => yield_one(node, value),
        None => work_by_list(node, alloc, work),
    }
}

/// A block works at once on the message that waits longest, and has its results in a list. Where message ids are used up
/// or memory is out, nothing has changed.
#[tactic(auto, using(crate::proofs::WorksAtOnce::worked_is, crate::proofs::WorksAtOnce::put_is))]
fn work_by_list<W: Runs>(
    node: &mut Node,
    alloc: Global,
    work: Option<&W>,
) -> Result<(), OutletFault>
    requires alone { length node.old.block.ports ≡ 1 }
    requires waits { may_begin node.old.block ≡ true }
    requires idle { node.old.block.jobs.slots ≡ [] }
    requires ticket { has_ticket node.old.block.jobs ≡ true }
    ensures done { OnOk result (node.new ≡ works_at_once
        (results_by (option_map (λ work. work.now) work.entry) node.old.block.kind W.meaning) node.old) }
    ensures ids { OnOk result (lacks_ids (put_at_once
        (results_by (option_map (λ work. work.now) work.entry) node.old.block.kind W.meaning) node.old)
        node.old.block.exits ≡ false) }
    ensures kept { OnErr result (node.new ≡ node.old) }
    ensures used_up { result ≡ Err Ids → lacks_ids (put_at_once
        (results_by (option_map (λ work. work.now) work.entry) node.old.block.kind W.meaning) node.old)
        node.old.block.exits ≡ true }
{
    let kind = node.block().kind();
    let answer = match node.block().waiting(0).front() {
        Some(message) => answer_of(alloc, kind, work, message),
        None => return Err(OutletFault::Memory),
    };
    let Ok(answer) = answer else {
        return Err(OutletFault::Memory);
    };
    match answer.into_made() {
        Ok(values) => yield_results(node, values),
        Err(number) => fail_at_once(node, number),
    }
}

/// The message of a job is worked on by this work, and the result comes back.
#[tactic(auto, using(crate::proofs::WorksAtOnce::result_is))]
pub fn finish_job<W: Runs>(
    node: &mut Node,
    alloc: Global,
    ticket: u64,
    work: Option<&W>,
) -> Result<(), OutletFault>
    requires alone { length node.old.block.ports ≡ 1 }
    requires works { has_work node.old.block.kind ≡ true }
    requires out { is_out ticket node.old.block.jobs ≡ true }
    requires held { length node.old.block.jobs.slots ≤ length (held_by node.old.block) }
    requires drained { node.old.block.fault ≡ None → is_front_back node.old.block.jobs.slots ≡ false }
    ensures done { OnOk result (node.new ≡ after_job
        (results_by (option_map (λ work. work.now) work.entry) node.old.block.kind W.meaning) ticket node.old) }
    ensures ids { OnOk result (lacks_ids (put_at_end
        (results_by (option_map (λ work. work.now) work.entry) node.old.block.kind W.meaning) ticket node.old.block)
        node.old.block.exits ≡ false) }
    ensures kept { OnErr result (node.new ≡ node.old) }
    ensures used_up { result ≡ Err Ids → lacks_ids (put_at_end
        (results_by (option_map (λ work. work.now) work.entry) node.old.block.kind W.meaning) ticket node.old.block)
        node.old.block.exits ≡ true }
{
    let kind = node.block().kind();
    let Ok(answer) = answer_of(alloc, kind, work, node.block().job_message(ticket)) else {
        return Err(OutletFault::Memory);
    };
    match node.end_job(ticket, answer) {
        Ok(()) => Ok(()),
        Err((_, fault)) => Err(fault),
    }
}

/// A block has these results of the message that waits longest: an action keeps them, and any other block has them to
/// give. Where message ids are used up or memory is out, nothing has changed.
fn yield_results(node: &mut Node, values: Vec<Value>) -> Result<(), OutletFault>
    requires alone { length node.old.block.ports ≡ 1 }
    requires waits { 0 < length (held_by node.old.block) }
    requires idle { node.old.block.jobs.slots ≡ [] }
    requires ticket { has_ticket node.old.block.jobs ≡ true }
    requires works { node.old.block.kind ≢ Buffer }
    ensures done { OnOk result (node.new ≡ with_block (works_out (Ok values.items) node.old.block) node.old) }
    ensures ids { OnOk result (lacks_ids (put_by_kind node.old.block.kind values.items)
        node.old.block.exits ≡ false) }
    ensures kept { OnErr result (node.new ≡ node.old) }
    ensures used_up { result ≡ Err Ids → lacks_ids (put_by_kind node.old.block.kind values.items)
        node.old.block.exits ≡ true }
{
    if node.block().kind() == BlockKind::Action {
        return match node.record(values) {
            Ok(()) => Ok(()),
            Err(_) => Err(OutletFault::Memory),
        };
    }
    match node.put_out(values) {
        Ok(()) => Ok(()),
        Err((_, fault)) => Err(fault),
    }
}

/// A block has this one result of the message that waits longest: an action keeps it, and any other block has it to
/// give. Where message ids are used up or memory is out, nothing has changed.
#[inline(always)]
fn yield_one(node: &mut Node, value: Value) -> Result<(), OutletFault>
    requires alone { length node.old.block.ports ≡ 1 }
    requires waits { 0 < length (held_by node.old.block) }
    requires idle { node.old.block.jobs.slots ≡ [] }
    requires ticket { has_ticket node.old.block.jobs ≡ true }
    requires works { node.old.block.kind ≢ Buffer }
    ensures done { OnOk result (node.new ≡ with_block (works_out (Ok (value ∷ [])) node.old.block) node.old) }
    ensures ids { OnOk result (lacks_ids (put_by_kind node.old.block.kind (value ∷ []))
        node.old.block.exits ≡ false) }
    ensures kept { OnErr result (node.new ≡ node.old) }
    ensures used_up { result ≡ Err Ids → lacks_ids (put_by_kind node.old.block.kind (value ∷ []))
        node.old.block.exits ≡ true }
{
    if node.block().kind() == BlockKind::Action {
        return match node.record_one(value) {
            Ok(()) => Ok(()),
            Err(_) => Err(OutletFault::Memory),
        };
    }
    match node.put_out_one(value) {
        Ok(()) => Ok(()),
        Err((_, fault)) => Err(fault),
    }
}

/// An action whose work gives each message itself keeps the message that waits longest. Where memory is out, nothing has
/// changed.
#[inline(always)]
fn keep_first(node: &mut Node) -> Result<(), OutletFault>
    requires alone { length node.old.block.ports ≡ 1 }
    requires waits { may_begin node.old.block ≡ true }
    requires idle { node.old.block.jobs.slots ≡ [] }
    requires ticket { has_ticket node.old.block.jobs ≡ true }
    requires action { node.old.block.kind ≡ Action }
    ensures done { OnOk result (node.new ≡
        with_block (works_out (Ok (take 1 (held_by node.old.block))) node.old.block) node.old) }
    ensures kept { OnErr result (node.new ≡ node.old) }
    ensures memory { result ≢ Err Ids }
{
    match node.record_first() {
        Ok(()) => Ok(()),
        Err(_) => Err(OutletFault::Memory),
    }
}

/// The function of a block faults on the message on which it worked at once. Where memory is out, nothing has changed.
fn fail_at_once(node: &mut Node, number: u32) -> Result<(), OutletFault>
    requires idle { node.old.block.jobs.slots ≡ [] }
    ensures done { OnOk result (node.new ≡ with_block (works_out (Err number) node.old.block) node.old) }
    ensures kept { OnErr result (node.new ≡ node.old) }
    ensures memory { result ≢ Err Ids }
{
    match node.fail_at_once(number) {
        Ok(()) => Ok(()),
        Err(_) => Err(OutletFault::Memory),
    }
}
