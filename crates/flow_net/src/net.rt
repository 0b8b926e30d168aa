//! A network with one owner: what is posted goes from block to block until nothing can move.
ghost use Rattle.std.specs.Prelude.{◌≡◌, ◌<◌, ◌++◌, true, length};
ghost use Rattle.flow_net.specs.Asked.{none_asked};
ghost use Rattle.flow_link.specs.Planned.{layout_of};
ghost use Rattle.flow_block.specs.Node.{left_in};
ghost use Rattle.flow_block.specs.Peeks.{is_complete};
ghost use Rattle.flow_net.specs.Engine.{InOrder};
ghost use Rattle.flow_net.specs.Events.{net_event};
ghost use Rattle.flow_net.specs.States.{state_told};

use crate::engine::Engine;
use crate::event::{Event, Stepped};
use crate::fault::NetFault;
use crate::settled::{Settled, State};
use flow_block::Block;
use flow_link::{LinkId, Mark, Outcome, Phase, Plan};
use flow_moves::shares_out;
use flow_value::{Runs, Value, Work};
use std::alloc::Global;
use std::collections::VecDeque;
use std::slice::from_ref;
use std::sync::Wait;
use std::thread::Threads;

/// Blocks and links with what has become of them so far. No receive waits at its exits.
#[derive(Drop)]
pub struct Net<W: Runs> {
    pub(crate) engine: Engine<W>,
    ghost kept: { InOrder W.meaning engine },
    ghost unasked: { none_asked engine.parts ≡ true },
}

impl<W: Runs> Net<W> {
    ghost use Rattle.std.specs.Prelude.{◌≢◌, IsTrue, IfOk, IfErr, OnOk, OnErr, ◌↔◌, ◌<◌, ◌++◌, Ok, Err};
    ghost use Rattle.std.specs.Prelude.{true, false, [], length};
    ghost use Rattle.flow_lawful.specs.Lawful.{Lawful};
    ghost use Rattle.flow_lawful.specs.Quiet.{Quiet};
    ghost use Rattle.flow_link.specs.Trace.{block_of, input_of, marks_of, held_at, left_at, trace_of};
    ghost use Rattle.flow_link.specs.Plan.{port_count};
    ghost use Rattle.flow_core.specs.AtRest.{AtRest};
    ghost use Rattle.flow_core.specs.Inputs.{InputsStay, none_posted};
    ghost use Rattle.flow_core.specs.State.{line_at};
    ghost use Rattle.flow_net.specs.Events.{Answers, IsOfOwnJob};
    ghost use Rattle.flow_net.specs.Net.{NetGoesOn, NetIsStill, NetMayHappen, NetNeedsId, NetRefuses, NetSettles};
    ghost use Rattle.flow_net.specs.Net.{layout_in, net_after, parts_of, run_of};
    ghost use Rattle.flow_net.specs.States.{state_by};
    ghost use Rattle.flow_net.specs.declared.fault.NetFault.TheVariants.{NotEnabled, Ids};
    ghost use Rattle.flow_net.specs.declared.settled.Settled.TheVariants as Settled;

    /// Does events until nothing may happen any more, or as many as the limit are done. After a refusal the events that
    /// were done stay.
    pub fn settle(&mut self, alloc: Global, limit: u64) -> Result<Settled, NetFault>
        ensures same_plan { layout_in self.new ≡ layout_in self.old }
        ensures settled { IfOk result (NetSettles W.meaning limit self.old self.new) }
        ensures goes_on { NetGoesOn W.meaning limit self.old self.new }
        ensures lawful { Lawful (run_of W.meaning self.new) }
        ensures quiet { result ≡ Ok Settled.Quiet → Quiet (run_of W.meaning self.new) }
        ensures at_rest { result ≡ Ok Settled.Quiet → AtRest (layout_in self.new) (parts_of self.new) }
        ensures used_up { result ≡ Err Ids → NetNeedsId W.meaning self.new }
        ensures never { result ≢ Err NotEnabled }
        ensures inputs_stay { InputsStay (parts_of self.old) (parts_of self.new) }
        ensures same_inputs { none_posted (parts_of self.old) ≡ true → (run_of W.meaning self.new).trace.inputs ≡
            (run_of W.meaning self.old).trace.inputs }
    {
        self.engine.settle(alloc, limit)
    }

    /// Does this event, if it may happen. Where a job begins, the answer is that job; of every other event it is that the
    /// event is done. An event that names a link, block or port which the plan has not is not enabled, and nor is the
    /// result of a job that is not the block's own. After a refusal the network is as it was.
    pub fn event(
        &mut self,
        alloc: Global,
        event: Event<W>,
    ) -> Result<Stepped<W>, (Event<W>, NetFault)>
        ensures same_plan { layout_in self.new ≡ layout_in self.old }
        ensures enabled { OnOk result (NetMayHappen W.meaning self.old (net_event event)) }
        ensures moved { OnOk result (parts_of self.new ≡ net_after W.meaning self.old (net_event event)) }
        ensures answers { IfOk result (Answers W.eq (layout_in self.old) (parts_of self.old) event) }
        ensures own { OnOk result (IsOfOwnJob W.eq (layout_in self.old) (parts_of self.old) event) }
        ensures kept { OnErr result (parts_of self.new ≡ parts_of self.old) }
        ensures why { IfErr result (λ refused. NetRefuses W.eq W.meaning self.old event refused.1) }
        ensures back { IfErr result (λ refused. refused.0 ≡ event) }
        ensures lawful { Lawful (run_of W.meaning self.new) }
        ensures inputs_stay { InputsStay (parts_of self.old) (parts_of self.new) }
        ensures same_inputs { none_posted (parts_of self.old) ≡ true → (run_of W.meaning self.new).trace.inputs ≡
            (run_of W.meaning self.old).trace.inputs }
    {
        self.engine.take(alloc, event)
    }

    /// Whether nothing may happen any more.
    pub fn is_quiet(&self) -> bool
        ensures quiet { IsTrue result ↔ NetIsStill W.meaning self.now }
        ensures at_rest { IsTrue result → AtRest (layout_in self.now) (parts_of self.now) }
        ensures at_end { IsTrue result → Quiet (run_of W.meaning self.now) }
    {
        self.engine.is_quiet()
    }

    /// The plan of the network.
    pub fn plan(&self) -> &Plan<W>
        ensures { layout_of result.now ≡ (run_of W.meaning self.now).layout }
    {
        &self.engine.plan
    }

    /// How far the message over this link has come.
    pub fn phase(&self, link: LinkId) -> Phase
        requires { link < length (layout_in self.now).links }
        ensures { result ≡ (line_at (parts_of self.now) link).phase }
    {
        self.engine.parts.phase(link)
    }

    /// The marks of this block, in order.
    pub fn journal(&self, block: usize) -> &[Mark]
        requires { block < length (layout_in self.now).blocks }
        ensures { result.now ≡ marks_of (run_of W.meaning self.now) block }
    {
        self.engine.parts.node(block).journal()
    }

    /// What became of this block.
    pub fn state(&self, block: usize) -> State
        requires { block < length (layout_in self.now).blocks }
        ensures { result ≡ state_by (run_of W.meaning self.now) block }
    {
        state_of(self.engine.parts.node(block).block())
    }

    /// What was posted to the input of this block, in order; none where the block is no input.
    pub fn posted(&self, block: usize) -> &[Value]
        requires { block < length (layout_in self.now).blocks }
        ensures posted { (block_of (run_of W.meaning self.now) block).input ≡ true → result.now ≡
            (input_of (run_of W.meaning self.now) block).posted }
        ensures none { (block_of (run_of W.meaning self.now) block).input ≡ false → result.now ≡ [] }
    {
        match self.engine.input(block) {
            Some(input) => input.posted(),
            None => &[],
        }
    }

    /// What this block took at this port and has not worked on, oldest first.
    pub fn held(&self, block: usize, port: u32) -> &VecDeque<Value>
        requires known { block < length (layout_in self.now).blocks }
        requires port { port < port_count (block_of (run_of W.meaning self.now) block) }
        ensures { result.now.items ≡ held_at (run_of W.meaning self.now) block port }
    {
        self.engine.parts.node(block).block().waiting(port as usize)
    }

    /// What this block made and has not given, oldest first, in two parts. Of a block that copies it is what some link is
    /// still to have.
    pub fn left(&self, block: usize) -> (&[Value], &[Value])
        requires { block < length (layout_in self.now).blocks }
        ensures { result.0.now ++ result.1.now ≡ left_at (run_of W.meaning self.now) block }
    {
        left_of(self.engine.parts.node(block).block())
    }

    /// The results that this block keeps, in order; only actions keep any.
    pub fn record(&self, block: usize) -> &[Value]
        requires { block < length (layout_in self.now).blocks }
        ensures { result.now ≡ (trace_of (run_of W.meaning self.now) block).recorded }
    {
        self.engine.parts.node(block).block().recorded()
    }
}

// What sends works to other threads.
impl<W: Work> Net<W> {
    ghost use Rattle.std.specs.Prelude.{◌≡◌, ◌≢◌, true, IfOk, Ok, Err};
    ghost use Rattle.flow_lawful.specs.Lawful.{Lawful};
    ghost use Rattle.flow_lawful.specs.Quiet.{Quiet};
    ghost use Rattle.flow_core.specs.AtRest.{AtRest};
    ghost use Rattle.flow_core.specs.Inputs.{InputsStay, none_posted};
    ghost use Rattle.flow_net.specs.Net.{NetGoesOn, NetNeedsId, NetSettles, layout_in, parts_of, run_of};
    ghost use Rattle.flow_net.specs.declared.fault.NetFault.TheVariants.{NotEnabled, Ids};
    ghost use Rattle.flow_net.specs.declared.settled.Settled.TheVariants as Settled;

    /// The same as `settle`, by several threads: the calling one, and at most one fewer than there are workers.
    ///
    /// A block with several `lanes` (in .NET its `MaxDegreeOfParallelism`) works on up to so many messages at a time, each
    /// in one of these threads; its results go on in the order of its messages. All that blocks with one lane do, and all
    /// links, are the calling thread's, which runs jobs too before it waits for others. So workers above the lanes of all
    /// blocks are not made use of.
    ///
    /// The threads are made for this call, and have ended when it returns, whatever comes of it: there is no
    /// `TaskScheduler`, and nothing goes on behind the caller's back. Where no thread can be made, where there is no
    /// memory for the crew, with no worker or one, and in a network without such blocks, the calling thread does all of it.
    ///
    /// Where the limit stops it, jobs may be out: their messages are in their blocks, and are worked on anew by the next
    /// call of this or of `settle`.
    pub fn settle_with<R: Threads + Wait + Sync>(
        &mut self,
        rt: &R,
        alloc: Global,
        workers: usize,
        limit: u64,
    ) -> Result<Settled, NetFault>
        ensures same_plan { layout_in self.new ≡ layout_in self.old }
        ensures settled { IfOk result (NetSettles W.meaning limit self.old self.new) }
        ensures goes_on { NetGoesOn W.meaning limit self.old self.new }
        ensures lawful { Lawful (run_of W.meaning self.new) }
        ensures quiet { result ≡ Ok Settled.Quiet → Quiet (run_of W.meaning self.new) }
        ensures at_rest { result ≡ Ok Settled.Quiet → AtRest (layout_in self.new) (parts_of self.new) }
        ensures used_up { result ≡ Err Ids → NetNeedsId W.meaning self.new }
        ensures never { result ≢ Err NotEnabled }
        ensures inputs_stay { InputsStay (parts_of self.old) (parts_of self.new) }
        ensures same_inputs { none_posted (parts_of self.old) ≡ true → (run_of W.meaning self.new).trace.inputs ≡
            (run_of W.meaning self.old).trace.inputs }
    {
        self.engine.settle_with(rt, alloc, workers, limit)
    }
}

/// What a block made and has not given, oldest first, in two parts.
fn left_of(block: &Block) -> (&[Value], &[Value])
    ensures { result.0.now ++ result.1.now ≡ left_in block.now }
{
    if shares_out(block) {
        return block.left().as_slices();
    }
    match block.copies().left() {
        Some(value) => (from_ref(value), &[]),
        None => (&[], &[]),
    }
}

/// What became of a block.
fn state_of(block: &Block) -> State
    ensures { result ≡ state_told block.now.stopped (is_complete block.now) }
{
    match block.stopped() {
        Some(Outcome::Faulted(number)) => State::Faulted(number),
        Some(Outcome::Done) => State::Done,
        None if block.is_complete() => State::Completing,
        None => State::Open,
    }
}
