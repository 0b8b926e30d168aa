//! A message that goes over a link in one call, where its target takes it at once.
ghost use Rattle.std.specs.Prelude.{◌≡◌, ℕ, ◌<◌, true, false, ◌&&◌, length, is_none, List, Result};
ghost use Rattle.std.specs.Prelude.{OnOk, OnErr, IfOk, Some};
ghost use Rattle.flow_value.specs.declared.value.Value.{Value};
ghost use Rattle.flow_link.specs.declared.phase.Move.TheVariants.{Offer};
ghost use Rattle.flow_link.specs.declared.phase.Phase.TheVariants.{Offered};
ghost use Rattle.flow_core.specs.Events.{with_line};
ghost use Rattle.flow_core.specs.State.{line_at};
ghost use Rattle.flow_moves.specs.Passed.{source_prepared, target_prepared, target_ready, target_forgot, sent_by, received_by, offered_by};
ghost use Rattle.flow_moves.specs.Passed.{MaySend, MayReceive};
ghost use Rattle.flow_moves.specs.Passes.{id_next, may_carry, takes_now, are_apart, is_idle_line, may_pass};
ghost use Rattle.flow_moves.specs.Passes.{passed_along, offered_along};
ghost use Rattle.flow_moves.specs.Ready.{SourceIsThere, TargetIsThere, SourceIsReady, IsThere};
ghost use Rattle.flow_moves.specs.Ways.{value_next, target_looked};

use crate::parts::Parts;
use crate::sends::{exit_may_carry, offer_exit, prepare_exit, send_exit};
use flow_block::Route;
use flow_link::{LinkId, LinkSource, LinkTarget, Move, Phase};
use flow_value::{MessageHeader, Parcel};
use std::alloc::{AllocError, Global};

impl Parts {
    /// Whether what the source offers over a link may go over it in one call: nothing is under way over the link, its
    /// two ends are not of one block, the target takes at once what it is offered, and the link may carry it.
    #[inline(always)]
    pub fn may_pass(&self, id: LinkId, route: &Route) -> bool
        requires { IsThere self.now id route.now }
        ensures { result ≡ may_pass id route.now self.now }
    {
        self.is_idle(id) && are_apart(route) && self.takes_now(route) && self.may_carry(route)
    }

    /// Whether nothing is under way over a link.
    #[inline(always)]
    fn is_idle(&self, id: LinkId) -> bool
        requires { id < length self.now.lines }
        ensures { result ≡ is_idle_line (line_at self.now id) }
    {
        let line = &self.lines[id as usize];
        line.phase == Phase::Idle && line.slot.is_none()
    }

    /// Whether the target of a link takes at once what is offered to it.
    #[inline(always)]
    fn takes_now(&self, route: &Route) -> bool
        requires { TargetIsThere self.now route.now.target route.now.target_place }
        ensures { result ≡ takes_now self.now route.now.target route.now.target_place }
    {
        match route.target {
            LinkTarget::Port(block, port) => {
                self.nodes[block].takes_at_once(port as usize, route.target_place)
            }
            LinkTarget::Exit => false,
        }
    }

    /// Whether one more message may cross a link.
    #[inline(always)]
    fn may_carry(&self, route: &Route) -> bool
        requires { SourceIsThere self.now route.now.source route.now.source_place }
        ensures { result ≡ may_carry self.now route.now.source route.now.source_place }
    {
        match route.source {
            LinkSource::Block(block) => exit_may_carry(&self.nodes[block], route.source_place),
            LinkSource::Input(_) => true,
        }
    }

    /// The source's end of a link sends the message that it would offer, and the target receives it: what five events
    /// come to. Answers false where the target has no memory for it: then it is only offered. Where the source has no
    /// memory, nothing has changed.
    #[inline(always)]
    pub fn pass(&mut self, alloc: Global, id: LinkId, route: &Route) -> Result<bool, AllocError>
        requires there { IsThere self.old id route.now }
        requires ready { SourceIsReady (Offer (id_next self.old route.now.source route.now.source_place)) self.old
            route.now.source route.now.source_place }
        requires passes { may_pass id route.now self.old ≡ true }
        ensures passed { IfOk result (λ passed. passed ≡ true → (makes : ℕ → Value → Result (List Value) ℕ) →
            self.new ≡ passed_along makes id (id_next self.old route.now.source route.now.source_place) route.now
            self.old) }
        ensures offered { IfOk result (λ passed. passed ≡ false → (makes : ℕ → Value → Result (List Value) ℕ) →
            self.new ≡ offered_along makes id (id_next self.old route.now.source route.now.source_place) route.now
            self.old) }
        ensures kept { OnErr result (self.new ≡ self.old) }
    {
        let was_ready = self.is_target_ready(route);
        if self.prepare_target(route).is_err() {
            self.offer_alone(alloc, id, route)?;
            return Ok(false);
        }
        match self.send(alloc, route) {
            Ok(parcel) => {
                self.receive(route, parcel);
                Ok(true)
            }
            Err(refused) => {
                self.forget_target(route, was_ready);
                Err(refused)
            }
        }
    }

    /// Has the source of a link make ready to send what it would offer: its parcel is made, or where it copies, the
    /// element is offered.
    #[inline(always)]
    fn prepare_source(&mut self, alloc: Global, route: &Route) -> Result<(), AllocError>
        requires there { SourceIsThere self.old route.now.source route.now.source_place }
        requires ready { SourceIsReady (Offer (id_next self.old route.now.source route.now.source_place)) self.old
            route.now.source route.now.source_place }
        ensures done { OnOk result (self.new ≡ source_prepared route.now.source route.now.source_place self.old) }
        ensures kept { OnErr result (self.new ≡ self.old) }
    {
        match route.source {
            LinkSource::Block(block) => {
                prepare_exit(&mut self.nodes[block], alloc, route.source_place)
            }
            LinkSource::Input(_) => self.inputs[route.source_place].prepare(alloc),
        }
    }

    /// Reserves what the target of a link needs to take a message.
    #[inline(always)]
    fn prepare_target(&mut self, route: &Route) -> Result<(), AllocError>
        requires { TargetIsThere self.old route.now.target route.now.target_place }
        ensures done { OnOk result (self.new ≡ target_prepared route.now.target self.old) }
        ensures kept { OnErr result (self.new ≡ self.old) }
    {
        match route.target {
            LinkTarget::Port(block, port) => self.nodes[block].prepare_answer(port),
            LinkTarget::Exit => Ok(()),
        }
    }

    /// Whether the target of a link has memory set aside for one more message.
    #[inline(always)]
    fn is_target_ready(&self, route: &Route) -> bool
        requires { TargetIsThere self.now route.now.target route.now.target_place }
        ensures { result ≡ target_ready route.now.target self.now }
    {
        match route.target {
            LinkTarget::Port(block, port) => self.nodes[block].is_port_ready(port),
            LinkTarget::Exit => true,
        }
    }

    /// The target of a link has no memory set aside any more, unless it had it before.
    #[cold]
    #[inline(never)]
    fn forget_target(&mut self, route: &Route, was_ready: bool)
        requires { TargetIsThere self.old route.now.target route.now.target_place }
        ensures { self.new ≡ target_forgot was_ready route.now.target self.old }
    {
        if was_ready {
            return;
        }
        if let LinkTarget::Port(block, port) = route.target {
            self.nodes[block].forget_answer(port);
        }
    }

    /// The source of a link offers what it would offer, and the target looks. Where the source has no memory, nothing has
    /// changed.
    #[cold]
    #[inline(never)]
    fn offer_alone(&mut self, alloc: Global, id: LinkId, route: &Route) -> Result<(), AllocError>
        requires there { IsThere self.old id route.now }
        requires ready { SourceIsReady (Offer (id_next self.old route.now.source route.now.source_place)) self.old
            route.now.source route.now.source_place }
        requires passes { may_pass id route.now self.old ≡ true }
        ensures offered { OnOk result ((makes : ℕ → Value → Result (List Value) ℕ) →
            self.new ≡ offered_along makes id (id_next self.old route.now.source route.now.source_place) route.now
            self.old) }
        ensures kept { OnErr result (self.new ≡ self.old) }
    {
        self.prepare_source(alloc, route)?;
        self.offer_ready(id, route);
        Ok(())
    }

    /// The source of a link offers what it has ready, and the target looks.
    fn offer_ready(&mut self, id: LinkId, route: &Route)
        requires line { id < length self.old.lines }
        requires may { MaySend self.old route.now.source route.now.source_place }
        requires target { TargetIsThere self.old route.now.target route.now.target_place }
        ensures { (makes : ℕ → Value → Result (List Value) ℕ) → self.new ≡ target_looked makes
            (Offered (id_next self.old route.now.source route.now.source_place))
            route.now.target route.now.target_place (with_line id (record {
              phase = Offered (id_next self.old route.now.source route.now.source_place);
              slot = (line_at self.old id).slot;
            }) (offered_by route.now.source route.now.source_place self.old)) }
    {
        let header = self.offer(route);
        let phase = Phase::Offered(header);
        self.pass_line(id, &Move::Offer(header), &phase, None);
        self.target_looks(route, phase);
    }

    /// The source of a link offers what it has ready: this is its header.
    fn offer(&mut self, route: &Route) -> MessageHeader
        requires { MaySend self.old route.now.source route.now.source_place }
        ensures header { result ≡ id_next self.old route.now.source route.now.source_place }
        ensures offered { self.new ≡ offered_by route.now.source route.now.source_place self.old }
    {
        match route.source {
            LinkSource::Block(block) => offer_exit(&mut self.nodes[block], route.source_place),
            LinkSource::Input(_) => self.inputs[route.source_place].offer(),
        }
    }

    /// The source of a link sends what it would offer: this is the parcel. Where memory is out, nothing has changed.
    #[inline(always)]
    fn send(&mut self, alloc: Global, route: &Route) -> Result<Parcel, AllocError>
        requires there { SourceIsThere self.old route.now.source route.now.source_place }
        requires ready { SourceIsReady (Offer (id_next self.old route.now.source route.now.source_place)) self.old
            route.now.source route.now.source_place }
        requires carries { may_carry self.old route.now.source route.now.source_place ≡ true }
        ensures value { IfOk result (λ parcel.
            value_next self.old route.now.source route.now.source_place ≡ Some parcel) }
        ensures sent { OnOk result (self.new ≡ sent_by route.now.source route.now.source_place
            (id_next self.old route.now.source route.now.source_place) self.old) }
        ensures kept { OnErr result (self.new ≡ self.old) }
    {
        match route.source {
            LinkSource::Block(block) => {
                send_exit(&mut self.nodes[block], alloc, route.source_place)
            }
            LinkSource::Input(_) => self.inputs[route.source_place].send(alloc),
        }
    }

    /// The target of a link, which takes it at once, receives a message: this is its parcel.
    #[inline(always)]
    fn receive(&mut self, route: &Route, parcel: Parcel)
        requires { MayReceive self.old route.now.target route.now.target_place }
        ensures { (i : ℕ) → self.new ≡ received_by route.now.target route.now.target_place i parcel self.old }
    {
        if let LinkTarget::Port(block, port) = route.target {
            self.nodes[block].receive(port, route.target_place, parcel);
        }
    }
}

/// Whether the two ends of a link are not of one block.
fn are_apart(route: &Route) -> bool
    ensures { result ≡ are_apart route.now.source route.now.target }
{
    match (route.source, route.target) {
        (LinkSource::Block(source), LinkTarget::Port(target, _)) => source != target,
        _ => true,
    }
}
