//! Finds events that may happen.
ghost use Rattle.std.specs.Prelude.{◌≡◌, ℕ, ◌<◌, true, false, length, is_some, IsTrue, IfOk, IfErr, IfSome, IfNone, ◌↔◌};
ghost use Rattle.flow_link.specs.Planned.{layout_of};
ghost use Rattle.flow_link.specs.Plan.{block_in};
ghost use Rattle.flow_block.specs.Peeks.{may_complete};
ghost use Rattle.flow_block.specs.Planned.{input_place};
ghost use Rattle.flow_block.specs.Routes.{route_of};
ghost use Rattle.flow_core.specs.Events.{NetEvent};
ghost use Rattle.flow_core.specs.State.{node_at};
ghost use Rattle.flow_moves.specs.Statements.{HasNothingToDo, LinkIsIdle};
ghost use Rattle.flow_moves.specs.Ways.{input_in};
ghost use Rattle.flow_net.specs.Dues.{IsOwn, event_of};
ghost use Rattle.flow_net.specs.Engine.{EnabledIn, InOrder, IsDueIn, IsStillIn, LinkHasIdIn, NeedsIdIn};
ghost use Rattle.flow_net.specs.Opens.{IsOpen};
ghost use Rattle.flow_net.specs.There.{OffersAnId};
ghost use Rattle.flow_net.specs.declared.fault.NetFault.TheVariants.{Ids};

use crate::due::Due;
use crate::engine::Engine;
use crate::fault::NetFault;
use flow_block::{Block, Route};
use flow_input::Input;
use flow_link::{LinkId, Move, PortId};
use flow_moves::{Spot, is_of_source, link_to_consume, link_to_offer};
use flow_value::{MAX_ID, Runs};

impl<W: Runs> Engine<W> {
    /// The way of a link.
    pub(crate) fn route(&self, id: LinkId) -> &Route
        requires { id < length (layout_of self.now.plan).links }
        ensures { result.now ≡ route_of (layout_of self.now.plan) id }
    {
        &self.routes[id as usize]
    }

    /// The input of a block, if it is one. It counts the inputs before it.
    pub(crate) fn input(&self, block: usize) -> Option<&Input>
        requires known { block < length (layout_of self.now.plan).blocks }
        requires kept { InOrder W.meaning self.now }
        ensures there { is_some result ≡ (block_in (layout_of self.now.plan).blocks block).input }
        ensures its { IfSome result (λ input. input.now ≡ input_in self.now.parts
            (input_place (layout_of self.now.plan) block)) }
    {
        if !self.plan.block(block).input {
            return None;
        }
        let mut place = 0;
        for number in 0..block {
            if self.plan.block(number).input {
                place += 1;
            }
        }
        Some(self.parts.input(place))
    }

    /// Whether this move is what its end of the link would do next. A message for which no id is left has no header, so
    /// nobody can name its offer.
    fn is_next(&self, id: LinkId, next: Move) -> bool
        requires known { id < length (layout_of self.now.plan).links }
        requires kept { InOrder W.meaning self.now }
        ensures told { IsTrue result ↔ EnabledIn self.now (NetEvent.at_link id next) }
        ensures id { IsTrue result → LinkHasIdIn W.meaning self.now (NetEvent.at_link id next) }
    {
        let route = self.route(id);
        if !is_of_source(&next) {
            return self.parts.next_of_target(route) == Some(next);
        }
        let _has_header = has_header(&next);
        if self.parts.lacks_id(route) {
            return false;
        }
        self.parts.next_of_source(route) == Some(next)
    }

    /// Whether a block would do this by itself.
    fn is_own(&self, event: &Due) -> bool
        requires kept { InOrder W.meaning self.now }
        requires own { IsOwn event.now }
        ensures { IsTrue result ↔ EnabledIn self.now (event_of event.now) }
    {
        let count = self.plan.block_count();
        match *event {
            Due::Make(number) => number < count && self.parts.node(number).block().may_make(),
            Due::Begin(number) => number < count && self.may_begin(number),
            Due::End(number, ticket) => {
                number < count && self.parts.node(number).block().may_end(ticket)
            }
            Due::Complete(number, port) => number < count && self.may_complete(number, port),
            Due::Fault(number) => {
                number < count && self.parts.node(number).block().next_fault().is_some()
            }
            Due::Done(number) => number < count && self.parts.node(number).block().may_finish(),
            _ => false,
        }
    }

    /// Whether a block would work on one more message.
    pub(crate) fn may_begin(&self, number: usize) -> bool
        requires known { number < length (layout_of self.now.plan).blocks }
        requires kept { InOrder W.meaning self.now }
        ensures { IsTrue result ↔ EnabledIn self.now (NetEvent.begin number) }
    {
        self.parts.node(number).block().may_begin()
    }

    /// Whether a port of a block would complete.
    fn may_complete(&self, number: usize, port: PortId) -> bool
        requires known { number < length (layout_of self.now.plan).blocks }
        requires kept { InOrder W.meaning self.now }
        ensures { IsTrue result ↔ EnabledIn self.now (NetEvent.complete number port) }
    {
        let block = self.parts.node(number).block();
        (port as usize) < block.port_count() && block.may_complete(port as usize)
    }

    /// Whether this event is due.
    pub(crate) fn is_due(&self, event: &Due) -> bool
        requires kept { InOrder W.meaning self.now }
        ensures told { IsTrue result ↔ EnabledIn self.now (event_of event.now) }
        ensures id { IsTrue result → LinkHasIdIn W.meaning self.now (event_of event.now) }
    {
        match *event {
            Due::Link(id, next) => id < self.plan.link_count() && self.is_next(id, next),
            _ => self.is_own(event),
        }
    }

    /// The event that would happen next at a link: a move of its source, or else of its target.
    #[inline(always)]
    pub(crate) fn event_at_link(&self, id: LinkId) -> Result<Option<Due>, NetFault>
        requires known { id < length (layout_of self.now.plan).links }
        requires kept { InOrder W.meaning self.now }
        ensures due { IfOk result (λ next. IfSome next (λ event. IsDueIn W.meaning self.now (event_of event))) }
        ensures none { IfOk result (λ next. IfNone next (LinkIsIdle (layout_of self.now.plan) self.now.parts id)) }
        ensures ids { IfErr result (λ fault. fault ≡ Ids) }
        ensures needed { IfErr result (λ fault. NeedsIdIn W.meaning self.now) }
    {
        let route = self.route(id);
        if self.parts.lacks_id(route) {
            return Err(NetFault::Ids);
        }
        if let Some(next) = self.parts.next_of_source(route) {
            return Ok(Some(Due::Link(id, next)));
        }
        match self.parts.next_of_target(route) {
            Some(next) => Ok(Some(Due::Link(id, next))),
            None => Ok(None),
        }
    }

    /// What a block would do next by itself.
    fn event_at_block(&self, number: usize) -> Option<Due>
        requires known { number < length (layout_of self.now.plan).blocks }
        requires kept { InOrder W.meaning self.now }
        ensures due { IfSome result (λ event. IsDueIn W.meaning self.now (event_of event)) }
        ensures none { IfNone result (HasNothingToDo (node_at self.now.parts number).block) }
    {
        let block = self.parts.node(number).block();
        if block.may_make() {
            Some(Due::Make(number))
        } else if block.may_begin() {
            Some(Due::Begin(number))
        } else if let Some(ticket) = block.next_end() {
            Some(Due::End(number, ticket))
        } else {
            self.end_of_block(number)
        }
    }

    /// The first port of a block that would complete.
    fn port_to_complete(&self, number: usize) -> Option<PortId>
        requires known { number < length (layout_of self.now.plan).blocks }
        requires kept { InOrder W.meaning self.now }
        ensures there { IfSome result (λ port. port < length (node_at self.now.parts number).block.ports) }
        ensures completes { IfSome result (λ port. may_complete port (node_at self.now.parts number).block ≡ true) }
        ensures none { IfNone result ((port : ℕ) → port < length (node_at self.now.parts number).block.ports →
            may_complete port (node_at self.now.parts number).block ≡ false) }
    {
        let block = self.parts.node(number).block();
        for port in 0..block.port_count() {
            if block.may_complete(port) {
                return Some(port as PortId);
            }
        }
        None
    }

    /// How a block would end next: one of its ports, or itself.
    fn end_of_block(&self, number: usize) -> Option<Due>
        requires known { number < length (layout_of self.now.plan).blocks }
        requires kept { InOrder W.meaning self.now }
        ensures due { IfSome result (λ event. IsDueIn W.meaning self.now (event_of event)) }
        ensures none { IfNone result (IsOpen (node_at self.now.parts number).block) }
    {
        let block = self.parts.node(number).block();
        if let Some(port) = self.port_to_complete(number) {
            Some(Due::Complete(number, port))
        } else if block.next_fault().is_some() {
            Some(Due::Fault(number))
        } else if block.may_finish() {
            Some(Due::Done(number))
        } else {
            None
        }
    }

    /// The result that would come back to a block next: that of the oldest job that is out.
    pub(crate) fn job_to_end(&self, number: usize) -> Option<Due>
        requires known { number < length (layout_of self.now.plan).blocks }
        requires kept { InOrder W.meaning self.now }
        ensures due { IfSome result (λ event. IsDueIn W.meaning self.now (event_of event)) }
    {
        let ticket = self.parts.node(number).block().next_end()?;
        Some(Due::End(number, ticket))
    }

    /// What a block would do next, but for its messages: it ends, or something happens at the links beside it.
    pub(crate) fn event_but_work(&self, number: usize) -> Result<Option<Due>, NetFault>
        requires known { number < length (layout_of self.now.plan).blocks }
        requires kept { InOrder W.meaning self.now }
        ensures due { IfOk result (λ next. IfSome next (λ event. IsDueIn W.meaning self.now (event_of event))) }
    {
        match self.end_of_block(number) {
            Some(event) => Ok(Some(event)),
            None => self.event_beside(number),
        }
    }

    /// The event that would happen next at this spot.
    pub(crate) fn event_at(&self, spot: Spot) -> Result<Option<Due>, NetFault>
        requires kept { InOrder W.meaning self.now }
        ensures due { IfOk result (λ next. IfSome next (λ event. IsDueIn W.meaning self.now (event_of event))) }
        ensures ids { IfErr result (λ fault. fault ≡ Ids) }
        ensures needed { IfErr result (λ fault. NeedsIdIn W.meaning self.now) }
    {
        match spot {
            Spot::Link(id) if id < self.plan.link_count() => self.event_at_link(id),
            Spot::Block(number) if number < self.plan.block_count() => {
                match self.event_at_block(number) {
                    Some(event) => Ok(Some(event)),
                    None => self.event_beside(number),
                }
            }
            _ => Ok(None),
        }
    }

    /// The event that would happen next at the links over which a block would offer or consume next.
    fn event_beside(&self, number: usize) -> Result<Option<Due>, NetFault>
        requires known { number < length (layout_of self.now.plan).blocks }
        requires kept { InOrder W.meaning self.now }
        ensures due { IfOk result (λ next. IfSome next (λ event. IsDueIn W.meaning self.now (event_of event))) }
        ensures ids { IfErr result (λ fault. fault ≡ Ids) }
        ensures needed { IfErr result (λ fault. NeedsIdIn W.meaning self.now) }
    {
        let count = self.plan.link_count();
        let block = self.parts.node(number).block();
        match link_to_offer(block) {
            Some(id) if id < count => return self.event_at_link(id),
            _ => {}
        }
        match link_to_consume(block) {
            Some(id) if id < count => self.event_at_link(id),
            _ => Ok(None),
        }
    }

    /// The first event that would happen at a link.
    fn event_at_links(&self) -> Result<Option<Due>, NetFault>
        requires kept { InOrder W.meaning self.now }
        ensures due { IfOk result (λ next. IfSome next (λ event. IsDueIn W.meaning self.now (event_of event))) }
        ensures none { IfOk result (λ next. IfNone next ((l : ℕ) → l < length (layout_of self.now.plan).links →
            LinkIsIdle (layout_of self.now.plan) self.now.parts l)) }
        ensures ids { IfErr result (λ fault. fault ≡ Ids) }
        ensures needed { IfErr result (λ fault. NeedsIdIn W.meaning self.now) }
    {
        for id in 0..self.plan.link_count() {
            if let Some(event) = self.event_at_link(id)? {
                return Ok(Some(event));
            }
        }
        Ok(None)
    }

    /// The first event that a block would do by itself.
    fn event_at_blocks(&self) -> Option<Due>
        requires kept { InOrder W.meaning self.now }
        ensures due { IfSome result (λ event. IsDueIn W.meaning self.now (event_of event)) }
        ensures none { IfNone result ((b : ℕ) → b < length (layout_of self.now.plan).blocks →
            HasNothingToDo (node_at self.now.parts b).block) }
    {
        for number in 0..self.plan.block_count() {
            if let Some(event) = self.event_at_block(number) {
                return Some(event);
            }
        }
        None
    }

    /// An event that is due, looked for everywhere.
    fn find_event(&self) -> Result<Option<Due>, NetFault>
        requires kept { InOrder W.meaning self.now }
        ensures due { IfOk result (λ next. IfSome next (λ event. IsDueIn W.meaning self.now (event_of event))) }
        ensures none { IfOk result (λ next. IfNone next (IsStillIn W.meaning self.now)) }
        ensures ids { IfErr result (λ fault. fault ≡ Ids) }
        ensures needed { IfErr result (λ fault. NeedsIdIn W.meaning self.now) }
    {
        match self.event_at_links()? {
            Some(event) => Ok(Some(event)),
            None => Ok(self.event_at_blocks()),
        }
    }

    /// An event that is due: at a spot of the agenda if there is one there, and else anywhere.
    pub(crate) fn next_event(&mut self) -> Result<Option<Due>, NetFault>
        requires kept { InOrder W.meaning self.old }
        ensures same_plan { self.new.plan ≡ self.old.plan }
        ensures same_parts { self.new.parts ≡ self.old.parts }
        ensures due { IfOk result (λ next. IfSome next (λ event. IsDueIn W.meaning self.old (event_of event))) }
        ensures none { IfOk result (λ next. IfNone next (IsStillIn W.meaning self.old)) }
        ensures ids { IfErr result (λ fault. fault ≡ Ids) }
        ensures needed { IfErr result (λ fault. NeedsIdIn W.meaning self.old) }
    {
        while let Some(spot) = self.agenda.take() {
            if let Some(event) = self.event_at(spot)? {
                return Ok(Some(event));
            }
        }
        self.find_event()
    }

    /// Whether nothing may happen any more.
    pub(crate) fn is_quiet(&self) -> bool
        requires kept { InOrder W.meaning self.now }
        ensures { IsTrue result ↔ IsStillIn W.meaning self.now }
    {
        match self.find_event() {
            Ok(next) => next.is_none(),
            Err(_fault) => false,
        }
    }
}

/// Whether the message that a move offers, if it offers one, has an id. Each header has: who asks learns that.
fn has_header(next: &Move) -> bool
    ensures always { result ≡ true }
    ensures id { OffersAnId next.now }
{
    match *next {
        Move::Offer(header) => header.id() <= MAX_ID,
        _ => true,
    }
}
