//! A way into a network that it owns: values are begun there, one at a time, while the network runs.
ghost use Rattle.std.specs.Prelude.{◌≡◌, ◌<◌, ℕ, true, false, length, IfOk, IfErr, IfSome, IfNone, OnOk, OnErr};
ghost use Rattle.flow_net.specs.Asked.{none_asked};
ghost use Rattle.flow_link.specs.Plan.{link_in};
ghost use Rattle.flow_link.specs.Planned.{layout_of};
ghost use Rattle.flow_link.specs.Posted.{is_numbered_ending};
ghost use Rattle.flow_lawful.specs.Quiet.{is_open};
ghost use Rattle.flow_block.specs.Planned.{input_place};
ghost use Rattle.flow_input.specs.Input.{InputCall, after_input};
ghost use Rattle.flow_input.specs.InputKeeps.{MayCallInput};
ghost use Rattle.flow_input.specs.Sends.{after_told, has_id, is_idle, sends_of, takes_more, told_next};
ghost use Rattle.flow_core.specs.State.{input_at};
ghost use Rattle.flow_net.specs.Engine.{InOrder};
ghost use Rattle.flow_moves.specs.Sights.{is_entry_of};

use crate::engine::Engine;
use crate::net::Net;
use crate::serve::{Caller, memory_of};
use flow_link::{Ending, Link, LinkId, LinkSource};
use flow_moves::Spot;
use flow_poll::{SendFault, SendPort, Sent};
use flow_value::{Runs, Value};
use std::alloc::{AllocError, Global};

/// The input of a block, with the network that it owns. Each look has the network do at most so many events, `steps`.
///
/// Microsoft: `ITargetBlock<TInput>`, as `DataflowBlock.Post` and `DataflowBlock.SendAsync` use it.
#[derive(Drop)]
pub struct NetEntry<W: Runs> {
    engine: Engine<W>,
    block: usize,
    link: LinkId,
    /// The place of its input among all inputs.
    place: usize,
    steps: u64,
    ghost kept: { InOrder W.meaning engine },
    ghost there: { link < length (layout_of engine.plan).links },
    ghost own: { is_entry_of block (link_in (layout_of engine.plan).links link) ≡ true },
    ghost placed: { place ≡ input_place (layout_of engine.plan) block },
    ghost unasked: { none_asked engine.parts ≡ true },
}

/// Whether this link leads from the input of this block.
fn is_entry_of(block: usize, link: Link) -> bool
    ensures { result ≡ is_entry_of block link }
{
    link.source == LinkSource::Input(block)
}

impl<W: Runs> Engine<W> {
    ghost use Rattle.flow_core.specs.Events.{after_post};
    ghost use Rattle.flow_exec.specs.Works.{works_of};

    /// The caller of the input of this block posts a value over its link.
    fn post(&mut self, alloc: Global, block: usize, id: LinkId, value: Value) -> Result<(), Value>
        requires kept { InOrder W.meaning self.old }
        requires there { id < length (layout_of self.old.plan).links }
        requires own { is_entry_of block (link_in (layout_of self.old.plan).links id) ≡ true }
        requires may { MayCallInput (InputCall.post value) (input_at (layout_of self.old.plan) self.old.parts block) }
        requires id { has_id (input_at (layout_of self.old.plan) self.old.parts block) ≡ true }
        ensures same_plan { self.new.plan ≡ self.old.plan }
        ensures posted { OnOk result (self.new.parts ≡ after_post (layout_of self.old.plan)
            (works_of W.meaning (layout_of self.old.plan)) id block value self.old.parts) }
        ensures kept { OnErr result (self.new.parts ≡ self.old.parts) }
        ensures back { IfErr result (λ back. back ≡ value) }
    {
        let Engine { parts, routes, .. } = self;
        parts.post_over(alloc, id, &routes[id as usize], value)
    }
}

impl<W: Runs> Net<W> {
    ghost use Rattle.flow_net.specs.Entries.{entry_block, entry_layout, entry_link, entry_of, entry_parts};
    ghost use Rattle.flow_net.specs.Net.{layout_in, parts_of};

    /// The input of this block, which owns the network until it gives it back; each look does at most `steps` events. The
    /// network comes back at once where there is no such input, and where it is to end.
    pub fn entry(self, input: usize, steps: u64) -> Result<NetEntry<W>, Net<W>>
        ensures same_layout { IfOk result (λ port. entry_layout port ≡ layout_in self) }
        ensures same_parts { IfOk result (λ port. entry_parts port ≡ parts_of self) }
        ensures its_block { IfOk result (λ port. entry_block port ≡ input) }
        ensures its_link { IfOk result (λ port. is_entry_of input (link_in (layout_in self).links (entry_link port)) ≡ true) }
        ensures stays_open { IfOk result (λ port. is_open (entry_of port).ending ≡ true) }
        ensures none { OnErr result ((l : ℕ) → l < length (layout_in self).links →
            is_entry_of input (link_in (layout_in self).links l) ≡ true →
            is_open (input_at (layout_in self) (parts_of self) input).ending ≡ false) }
        ensures back { IfErr result (λ net. net ≡ self) }
    {
        let Some(link) = self.link_from_input(input) else {
            return Err(self);
        };
        let place = self.engine.route(link).source_place;
        if !self.engine.parts.input(place).is_open() {
            return Err(self);
        }
        let Net { engine } = self;
        Ok(NetEntry {
            engine,
            block: input,
            link,
            place,
            steps,
        })
    }

    /// The link that leads from the input of this block, if there is one.
    fn link_from_input(&self, block: usize) -> Option<LinkId>
        ensures there { IfSome result (λ link. link < length (layout_in self.now).links) }
        ensures leads { IfSome result (λ link. is_entry_of block (link_in (layout_in self.now).links link) ≡ true) }
        ensures none { IfNone result ((l : ℕ) → l < length (layout_in self.now).links →
            is_entry_of block (link_in (layout_in self.now).links l) ≡ false) }
    {
        for id in 0..self.engine.plan.link_count() {
            if is_entry_of(block, self.engine.plan.link(id)) {
                return Some(id);
            }
        }
        None
    }
}

impl<W: Runs> NetEntry<W> {
    ghost use Rattle.flow_link.specs.Trace.{marks_of, took_over};
    ghost use Rattle.flow_link.specs.declared.plan.LinkTarget.TheVariants.{Port};
    ghost use Rattle.flow_link.specs.Lists.{is_front};
    ghost use Rattle.flow_poll.specs.Sends.{Begins, Tells};
    ghost use Rattle.flow_poll.specs.declared.send.SendFault.TheVariants.{Busy};
    ghost use Rattle.flow_net.specs.Entries.{EntryGoesOn, entry_layout, entry_link, entry_of, entry_parts, entry_run};
    ghost use Rattle.flow_net.specs.Net.{layout_in, parts_of};

    /// The network, as it is: what is under way, and an answer that was not told yet, stay for the next entry of this input.
    pub fn into_net(self) -> Net<W>
        ensures same_layout { layout_in result ≡ entry_layout self }
        ensures same_parts { parts_of result ≡ entry_parts self }
    {
        let NetEntry { engine, .. } = self;
        Net { engine }
    }

    /// The values that were told as accepted, in order: each was taken over the link, once, as far as it went.
    pub fn accepted(&self) -> &[Value]
        ensures accepted { result.now ≡ (sends_of (entry_of self.now)).accepted }
        ensures taken { (t p : ℕ) → (link_in (entry_layout self.now).links (entry_link self.now)).target ≡ Port t p →
            is_front result.now (took_over (entry_link self.now) (marks_of (entry_run W.meaning self.now) t)) ≡ true }
    {
        self.engine.parts.input(self.place).accepted()
    }

    /// No value comes any more: when all is taken, the input ends so. Refuses as busy while a value is begun; a second ending
    /// changes nothing.
    ///
    /// Microsoft: `IDataflowBlock.Complete` and `IDataflowBlock.Fault`.
    pub fn finish(&mut self, how: Ending) -> Result<(), SendFault>
        requires { is_numbered_ending how ≡ true }
        ensures finished { OnOk result (is_open (entry_of self.old).ending ≡ true →
            entry_of self.new ≡ after_input (InputCall.finish how) (entry_of self.old)) }
        ensures again { OnOk result (is_open (entry_of self.old).ending ≡ false → entry_of self.new ≡ entry_of self.old) }
        ensures kept { OnErr result (entry_of self.new ≡ entry_of self.old) }
        ensures busy { IfErr result (λ fault. fault ≡ Busy) }
        ensures why { OnErr result (is_idle (entry_of self.old) ≡ false) }
        ensures goes_on { EntryGoesOn self.old self.new }
    {
        if !self.is_idle() {
            return Err(SendFault::Busy);
        }
        if self.is_open() {
            self.end_so(how);
        }
        Ok(())
    }

    /// Whether the input stays open.
    fn is_open(&self) -> bool
        ensures { result ≡ is_open (entry_of self.now).ending }
    {
        self.engine.parts.input(self.place).is_open()
    }

    /// Ends the input so, where nothing is begun and it was to stay open.
    fn end_so(&mut self, how: Ending)
        requires idle { is_idle (entry_of self.old) ≡ true }
        requires stays_open { is_open (entry_of self.old).ending ≡ true }
        requires numbered { is_numbered_ending how ≡ true }
        ensures finished { entry_of self.new ≡ after_input (InputCall.finish how) (entry_of self.old) }
        ensures goes_on { EntryGoesOn self.old self.new }
    {
        self.engine.agenda.list(Spot::Link(self.link));
        self.engine.parts.finish_at(self.place, how);
    }

    /// Whether no value is begun of which the caller was not told.
    fn is_idle(&self) -> bool
        ensures { result ≡ is_idle (entry_of self.now) }
    {
        self.engine.parts.input(self.place).is_idle()
    }

    /// Whether there is an id for one more value.
    fn has_id(&self) -> bool
        ensures { result ≡ has_id (entry_of self.now) }
    {
        self.engine.parts.input(self.place).has_id()
    }

    /// Whether a value may go to the target.
    fn takes_more(&self) -> bool
        ensures { result ≡ takes_more (entry_of self.now) }
    {
        self.engine.parts.input(self.place).takes_more()
    }

    /// Begins a value, where none is begun and there is an id for it.
    fn begin_next(&mut self, alloc: Global, value: Value, may_postpone: bool) -> Result<(), Value>
        requires idle { is_idle (entry_of self.old) ≡ true }
        requires id { has_id (entry_of self.old) ≡ true }
        ensures begins { OnOk result (Begins (record { value = value; may_postpone = may_postpone })
            (has_id (entry_of self.old)) (sends_of (entry_of self.old)) (sends_of (entry_of self.new))) }
        ensures kept { OnErr result (entry_of self.new ≡ entry_of self.old) }
        ensures back { IfErr result (λ back. back ≡ value) }
        ensures goes_on { EntryGoesOn self.old self.new }
    {
        if !self.takes_more() {
            self.send_back(value, !may_postpone);
            return Ok(());
        }
        self.engine.agenda.list(Spot::Link(self.link));
        if may_postpone {
            self.begin_later(value)
        } else {
            self.post(alloc, value)
        }
    }

    /// A value goes back, since none is taken any more.
    fn send_back(&mut self, value: Value, at_once: bool)
        requires { MayCallInput (InputCall.send_back value at_once) (entry_of self.old) }
        ensures back { entry_of self.new ≡ after_input (InputCall.send_back value at_once) (entry_of self.old) }
        ensures goes_on { EntryGoesOn self.old self.new }
    {
        self.engine.parts.send_back_at(self.place, value, at_once);
    }

    /// Begins a value, which the target may put off.
    fn begin_later(&mut self, value: Value) -> Result<(), Value>
        requires { MayCallInput (InputCall.begin value) (entry_of self.old) }
        ensures begun { OnOk result (entry_of self.new ≡ after_input (InputCall.begin value) (entry_of self.old)) }
        ensures kept { OnErr result (entry_of self.new ≡ entry_of self.old) }
        ensures back { IfErr result (λ back. back ≡ value) }
        ensures goes_on { EntryGoesOn self.old self.new }
    {
        self.engine.parts.begin_at(self.place, value)
    }

    /// Posts a value, which the target takes at once or turns down.
    fn post(&mut self, alloc: Global, value: Value) -> Result<(), Value>
        requires may { MayCallInput (InputCall.post value) (entry_of self.old) }
        requires id { has_id (entry_of self.old) ≡ true }
        ensures posted { OnOk result (entry_of self.new ≡ after_input (InputCall.post value) (entry_of self.old)) }
        ensures kept { OnErr result (entry_of self.new ≡ entry_of self.old) }
        ensures back { IfErr result (λ back. back ≡ value) }
        ensures goes_on { EntryGoesOn self.old self.new }
    {
        self.engine.post(alloc, self.block, self.link, value)
    }

    /// Has the network do what it may, at most as many events as a look does, until it is known what became of the first value
    /// that was begun.
    fn run(&mut self, alloc: Global) -> Result<(), AllocError>
        ensures same { sends_of (entry_of self.new) ≡ sends_of (entry_of self.old) }
        ensures goes_on { EntryGoesOn self.old self.new }
    {
        let served = self
            .engine
            .serve(alloc, Caller::Input(self.place), self.steps);
        memory_of(&served)
    }

    /// Tells what became of the first value that was begun, if that is known.
    fn tell(&mut self) -> Sent
        ensures tells { Tells result (sends_of (entry_of self.old)) (sends_of (entry_of self.new)) }
        ensures goes_on { EntryGoesOn self.old self.new }
    {
        self.engine.parts.tell_at(self.place)
    }
}

impl<W: Runs> SendPort for NetEntry<W> {
    ghost use Rattle.flow_net.specs.Entries.{EntryGoesOn, entry_goes_further, entry_of, entry_stays};

    ghost sends = { λ port. sends_of (entry_of port) };

    ghost has_id = { λ port. has_id (entry_of port) };

    ghost goes_on = { λ old new. EntryGoesOn old new };

    ghost stays = { λ port. entry_stays port };

    ghost goes_further = { λ first mid last head tail. entry_goes_further first mid last head tail };

    fn begin(
        &mut self,
        alloc: Global,
        value: Value,
        may_postpone: bool,
    ) -> Result<(), (Value, SendFault)> {
        if !self.is_idle() {
            return Err((value, SendFault::Busy));
        }
        if !self.has_id() {
            return Err((value, SendFault::Ids));
        }
        match self.begin_next(alloc, value, may_postpone) {
            Ok(()) => Ok(()),
            Err(value) => Err((value, SendFault::Memory)),
        }
    }

    fn look(&mut self, alloc: Global) -> Result<Sent, AllocError> {
        self.run(alloc)?;
        Ok(self.tell())
    }
}
