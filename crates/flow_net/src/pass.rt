//! Runs of messages: over one link, each in one call, and through one block.
ghost use Rattle.std.specs.Prelude.{◌≡◌, ◌≢◌, ◌<◌, ◌≤◌, true, false, [], length, IsTrue, IfOk, IfErr, IfSome, OnErr, Err};
ghost use Rattle.flow_link.specs.declared.phase.Move.TheVariants.{Offer};
ghost use Rattle.flow_link.specs.Planned.{layout_of};
ghost use Rattle.flow_block.specs.Routes.{route_of};
ghost use Rattle.flow_core.specs.Events.{NetEvent};
ghost use Rattle.flow_core.specs.State.{node_at};
ghost use Rattle.flow_moves.specs.Passes.{id_next, may_pass};
ghost use Rattle.flow_net.specs.Dues.{event_of};
ghost use Rattle.flow_net.specs.Engine.{EnabledIn, HasDone, InOrder, IsDueIn, MayHappenIn, NeedsIdIn};
ghost use Rattle.flow_net.specs.declared.fault.NetFault.TheVariants.{NotEnabled, Ids, Memory};

use crate::due::Due;
use crate::engine::Engine;
use crate::fault::NetFault;
use flow_link::{LinkId, LinkSource, Move};
use flow_moves::Spot;
use flow_value::Runs;
use std::alloc::Global;

/// The events of a message that goes over a link in one call: it is offered, wanted, given, opened and taken.
const PASS: u64 = 5;

/// The events of a message that is worked on at once: the job begins, and its result comes back.
const WORK: u64 = 2;

/// The most messages of a run over a link. A run through a block ends after as many events as it takes to work on so many
/// messages, and to hand a copy of each on over all its links.
const RUN: u64 = 64;

impl<W: Runs> Engine<W> {
    /// Goes on with the message that moved last, where it can. Answers how many events that took, of at most so many.
    pub(crate) fn carry_on(&mut self, alloc: Global, most: u64) -> Result<u64, NetFault>
        requires kept { InOrder W.meaning self.old }
        requires some { 0 < most }
        ensures same_plan { self.new.plan ≡ self.old.plan }
        ensures happened { IfOk result (λ count. HasDone W.meaning count self.old self.new) }
        ensures within { IfOk result (λ count. count ≤ most) }
        ensures kept { OnErr result (self.new.parts ≡ self.old.parts) }
        ensures used_up { result ≡ Err Ids → NeedsIdIn W.meaning self.old }
        ensures never { result ≢ Err NotEnabled }
    {
        match self.agenda.take_next() {
            Some(Spot::Block(number)) if number < self.plan.block_count() => {
                self.work_on(alloc, number, most)
            }
            Some(Spot::Link(id)) if id < self.plan.link_count() => self.move_on(alloc, id, most),
            _ => Ok(0),
        }
    }

    /// Has a block work on the messages that wait longest, as many as may be in a run, and lists where something may be able
    /// to happen after it; or lists the block, where none may be worked on.
    fn work_on(&mut self, alloc: Global, number: usize, most: u64) -> Result<u64, NetFault>
        requires kept { InOrder W.meaning self.old }
        requires known { number < length (layout_of self.old.plan).blocks }
        requires some { 0 < most }
        ensures same_plan { self.new.plan ≡ self.old.plan }
        ensures happened { IfOk result (λ count. HasDone W.meaning count self.old self.new) }
        ensures within { IfOk result (λ count. count ≤ most) }
        ensures kept { OnErr result (self.new.parts ≡ self.old.parts) }
        ensures used_up { result ≡ Err Ids → NeedsIdIn W.meaning self.old }
        ensures never { result ≢ Err NotEnabled }
    {
        let first = self.work_once(alloc, number, most)?;
        if first == 0 {
            self.agenda.list(Spot::Block(number));
            return Ok(0);
        }
        Ok(first + self.work_run(alloc, number, most - first))
    }

    /// Has a block that has worked on a message go on, as far as a run goes, and lists where something may be able to happen
    /// after it. Answers how many events that took, of at most so many.
    fn work_run(&mut self, alloc: Global, number: usize, most: u64) -> u64
        requires kept { InOrder W.meaning self.old }
        requires known { number < length (layout_of self.old.plan).blocks }
        ensures same_plan { self.new.plan ≡ self.old.plan }
        ensures happened { HasDone W.meaning result self.old self.new }
        ensures within { result ≤ most }
    {
        let copies = self.copy_count(number);
        let more = self.work_rest(alloc, number, copies, most);
        self.list_worked(number, copies);
        more
    }

    /// Over how many links a block copies in runs: over none where a report may show in which order blocks took their turns.
    fn copy_count(&self, number: usize) -> usize {
        if !self.agenda.hides_turns() {
            return 0;
        }
        match self.parts.find_node(number) {
            Some(node) => node.block().copies().ends().len(),
            None => 0,
        }
    }

    /// The link at a place among those over which a block copies, if there is one.
    fn copy_link(&self, number: usize, place: usize) -> Option<LinkId>
        ensures { IfSome result (λ id. id < length (layout_of self.now.plan).links) }
    {
        let node = self.parts.find_node(number)?;
        let end = node.block().copies().ends().get(place)?;
        let id = end.link.rule.id;
        if id < self.plan.link_count() {
            Some(id)
        } else {
            None
        }
    }

    /// Has a block work on the message that waits longest. Answers how many events that took, of at most so many; none where
    /// no message may be worked on.
    #[inline(always)]
    fn work_once(&mut self, alloc: Global, number: usize, most: u64) -> Result<u64, NetFault>
        requires kept { InOrder W.meaning self.old }
        requires known { number < length (layout_of self.old.plan).blocks }
        requires some { 0 < most }
        ensures same_plan { self.new.plan ≡ self.old.plan }
        ensures happened { IfOk result (λ count. HasDone W.meaning count self.old self.new) }
        ensures within { IfOk result (λ count. count ≤ most) }
        ensures kept { OnErr result (self.new.parts ≡ self.old.parts) }
        ensures used_up { result ≡ Err Ids → NeedsIdIn W.meaning self.old }
        ensures never { result ≢ Err NotEnabled }
    {
        let block = self.parts.node(number).block();
        if block.may_make() {
            self.make(alloc, number)?;
            return Ok(1);
        }
        let may_work = most >= WORK && block.is_idle() && block.may_begin();
        if may_work && self.work_at_once(alloc, number)? {
            return Ok(WORK);
        }
        Ok(0)
    }

    /// Has a block that copies over so many links go on working, as far as a run goes. Answers how many events that took, of at
    /// most so many.
    #[inline(always)]
    fn work_rest(&mut self, alloc: Global, number: usize, copies: usize, most: u64) -> u64
        requires kept { InOrder W.meaning self.old }
        requires known { number < length (layout_of self.old.plan).blocks }
        ensures same_plan { self.new.plan ≡ self.old.plan }
        ensures happened { HasDone W.meaning result self.old self.new }
        ensures within { result ≤ most }
    {
        if copies == 0 {
            self.work_more(alloc, number, most.min(RUN * WORK))
        } else {
            self.copy_more(alloc, number, copies, most.min(run_of(copies)))
        }
    }

    /// Has a block go on working, message after message, until there is none that it may work on, or memory or ids are
    /// wanting. Answers how many events that took, of at most so many.
    fn work_more(&mut self, alloc: Global, number: usize, limit: u64) -> u64
        requires kept { InOrder W.meaning self.old }
        requires known { number < length (layout_of self.old.plan).blocks }
        ensures same_plan { self.new.plan ≡ self.old.plan }
        ensures happened { HasDone W.meaning result self.old self.new }
        ensures within { result ≤ limit }
    {
        let mut rest = limit;
        while rest > 0 {
            match self.work_once(alloc, number, rest) {
                Ok(0) | Err(_) => break,
                Ok(count) => rest -= count,
            }
        }
        limit - rest
    }

    /// Has a block that copies over so many links go on working, message after message, until there is none that it may work
    /// on, or memory or ids are wanting. Answers how many events that took, of at most so many.
    fn copy_more(&mut self, alloc: Global, number: usize, copies: usize, limit: u64) -> u64
        requires kept { InOrder W.meaning self.old }
        requires known { number < length (layout_of self.old.plan).blocks }
        ensures same_plan { self.new.plan ≡ self.old.plan }
        ensures happened { HasDone W.meaning result self.old self.new }
        ensures within { result ≤ limit }
    {
        let mut rest = limit;
        while rest > 0 {
            match self.work_round(alloc, number, copies, rest) {
                0 => break,
                count => rest -= count,
            }
        }
        limit - rest
    }

    /// Has what a block copies go over so many links, and the block work on its next message. Answers how many events that
    /// took, of at most so many; none where there is nothing that it may do, or memory or ids are wanting.
    #[inline(always)]
    fn work_round(&mut self, alloc: Global, number: usize, copies: usize, most: u64) -> u64
        requires kept { InOrder W.meaning self.old }
        requires known { number < length (layout_of self.old.plan).blocks }
        requires some { 0 < most }
        ensures same_plan { self.new.plan ≡ self.old.plan }
        ensures happened { HasDone W.meaning result self.old self.new }
        ensures within { result ≤ most }
    {
        let given = self.hand_out(alloc, number, copies, most);
        if given == most {
            return given;
        }
        match self.work_once(alloc, number, most - given) {
            Ok(count) => given + count,
            Err(_) => given,
        }
    }

    /// Has what a block copies go over each of so many links over which it may. Answers how many events that took, of at most
    /// so many.
    #[inline(always)]
    fn hand_out(&mut self, alloc: Global, number: usize, copies: usize, limit: u64) -> u64
        requires kept { InOrder W.meaning self.old }
        ensures same_plan { self.new.plan ≡ self.old.plan }
        ensures happened { HasDone W.meaning result self.old self.new }
        ensures within { result ≤ limit }
    {
        let mut rest = limit;
        for place in 0..copies {
            rest -= self.copy_one(alloc, number, place, rest);
        }
        limit - rest
    }

    /// Has what a block copies go over the link at a place, if it may. Answers how many events that took, of at most so many.
    #[inline(always)]
    fn copy_one(&mut self, alloc: Global, number: usize, place: usize, most: u64) -> u64
        requires kept { InOrder W.meaning self.old }
        ensures same_plan { self.new.plan ≡ self.old.plan }
        ensures happened { HasDone W.meaning result self.old self.new }
        ensures within { result ≤ most }
    {
        match self.copy_link(number, place) {
            Some(id) => self.pass_more(alloc, id, most.min(PASS)),
            None => 0,
        }
    }

    /// Lists where something may be able to happen after a block has worked, and what it copies went over so many links.
    fn list_worked(&mut self, number: usize, copies: usize)
        ensures same_plan { self.new.plan ≡ self.old.plan }
        ensures same_parts { self.new.parts ≡ self.old.parts }
    {
        self.agenda.list_after_make(&self.parts, number);
        for place in 0..copies {
            if let Some(id) = self.copy_link(number, place) {
                self.list_passed(id);
            }
        }
    }

    /// Has a block that works on nothing work on the message that waits longest: two events. Nothing has happened where a
    /// message id is wanting for the result.
    #[inline(always)]
    fn work_at_once(&mut self, alloc: Global, number: usize) -> Result<bool, NetFault>
        requires kept { InOrder W.meaning self.old }
        requires enabled { EnabledIn self.old (NetEvent.begin number) }
        requires idle { (node_at self.old.parts number).block.jobs.slots ≡ [] }
        ensures same_plan { self.new.plan ≡ self.old.plan }
        ensures worked { IfOk result (λ worked. worked ≡ true → HasDone W.meaning 2 self.old self.new) }
        ensures none { IfOk result (λ worked. worked ≡ false → self.new.parts ≡ self.old.parts) }
        ensures kept { OnErr result (self.new.parts ≡ self.old.parts) }
        ensures memory { IfErr result (λ fault. fault ≡ Memory) }
    {
        match self.work(alloc, number) {
            Ok(()) => Ok(true),
            Err(NetFault::Ids) => Ok(false),
            Err(_) => Err(NetFault::Memory),
        }
    }

    /// Does what would happen next at a link, as far as so many events.
    fn move_on(&mut self, alloc: Global, id: LinkId, most: u64) -> Result<u64, NetFault>
        requires kept { InOrder W.meaning self.old }
        requires known { id < length (layout_of self.old.plan).links }
        requires some { 0 < most }
        ensures same_plan { self.new.plan ≡ self.old.plan }
        ensures happened { IfOk result (λ count. HasDone W.meaning count self.old self.new) }
        ensures within { IfOk result (λ count. count ≤ most) }
        ensures kept { OnErr result (self.new.parts ≡ self.old.parts) }
        ensures used_up { result ≡ Err Ids → NeedsIdIn W.meaning self.old }
        ensures never { result ≢ Err NotEnabled }
    {
        match self.event_at_link(id)? {
            Some(event) => self.advance(alloc, &event, most),
            None => Ok(0),
        }
    }

    /// Does an event that is due: with an offer that its target takes at once the four that follow, and a run of messages
    /// where that begins one. Answers how many events those are, of at most so many.
    pub(crate) fn advance(&mut self, alloc: Global, event: &Due, most: u64) -> Result<u64, NetFault>
        requires kept { InOrder W.meaning self.old }
        requires due { IsDueIn W.meaning self.old (event_of event.now) }
        requires some { 0 < most }
        ensures same_plan { self.new.plan ≡ self.old.plan }
        ensures happened { IfOk result (λ count. HasDone W.meaning count self.old self.new) }
        ensures some { IfOk result (λ count. 0 < count) }
        ensures within { IfOk result (λ count. count ≤ most) }
        ensures kept { OnErr result (self.new.parts ≡ self.old.parts) }
        ensures used_up { result ≡ Err Ids → MayHappenIn W.meaning self.old (event_of event.now) → ⊥ }
        ensures never { result ≢ Err NotEnabled }
    {
        if let Due::Link(id, Move::Offer(_)) = *event {
            if most >= PASS && self.may_pass(id) {
                return self.pass(alloc, id, most);
            }
        }
        if let Due::Make(number) = *event {
            if self.copy_count(number) > 0 {
                self.make(alloc, number)?;
                return Ok(1 + self.work_run(alloc, number, most - 1));
            }
        }
        if let Due::Begin(number) = *event {
            let may_work = most >= WORK && self.parts.node(number).block().is_idle();
            if may_work && self.work_at_once(alloc, number)? {
                return Ok(WORK + self.go_on_working(alloc, number, most - WORK));
            }
        }
        self.go(alloc, event)?;
        Ok(1)
    }

    /// Has a block that has worked on a message go on, as far as a run goes, where no report shows in which order blocks
    /// took their turns, and lists where something may be able to happen after it. Answers how many events that took, of
    /// at most so many.
    fn go_on_working(&mut self, alloc: Global, number: usize, most: u64) -> u64
        requires kept { InOrder W.meaning self.old }
        requires known { number < length (layout_of self.old.plan).blocks }
        ensures same_plan { self.new.plan ≡ self.old.plan }
        ensures happened { HasDone W.meaning result self.old self.new }
        ensures within { result ≤ most }
    {
        if self.agenda.hides_turns() {
            return self.work_run(alloc, number, most);
        }
        self.agenda.list_after_make(&self.parts, number);
        0
    }

    /// Whether what the source of a link would offer may go over it in one call.
    #[inline(always)]
    fn may_pass(&self, id: LinkId) -> bool
        requires known { id < length (layout_of self.now.plan).links }
        requires kept { InOrder W.meaning self.now }
        ensures { result ≡ may_pass id (route_of (layout_of self.now.plan) id) self.now.parts }
    {
        self.parts.may_pass(id, self.route(id))
    }

    /// Has the messages that the source of a link would offer go over it, as many as may be in a run. Answers how many events
    /// those are, of at most so many, and lists where something may be able to happen after them.
    fn pass(&mut self, alloc: Global, id: LinkId, most: u64) -> Result<u64, NetFault>
        requires kept { InOrder W.meaning self.old }
        requires due { IsDueIn W.meaning self.old
            (NetEvent.at_link id (Offer (id_next self.old.parts (route_of (layout_of self.old.plan) id).source
            (route_of (layout_of self.old.plan) id).source_place))) }
        requires passes { may_pass id (route_of (layout_of self.old.plan) id) self.old.parts ≡ true }
        requires room { 5 ≤ most }
        ensures same_plan { self.new.plan ≡ self.old.plan }
        ensures happened { IfOk result (λ count. HasDone W.meaning count self.old self.new) }
        ensures some { IfOk result (λ count. 0 < count) }
        ensures within { IfOk result (λ count. count ≤ most) }
        ensures kept { OnErr result (self.new.parts ≡ self.old.parts) }
        ensures memory { IfErr result (λ fault. fault ≡ Memory) }
    {
        let first = self.pass_one(alloc, id)?;
        let rest = self.rest_of_run(id, most - first);
        let more = self.pass_more(alloc, id, rest);
        self.list_passed(id);
        Ok(first + more)
    }

    /// How many more events a run over a link may have, of at most so many. A source that copies offers an element over all its
    /// links before the next.
    fn rest_of_run(&self, id: LinkId, most: u64) -> u64
        ensures { result ≤ most }
    {
        if self.gives_each_once(id) {
            most.min((RUN - 1) * PASS)
        } else {
            0
        }
    }

    /// Whether the source of a link gives each of its messages to one link.
    fn gives_each_once(&self, id: LinkId) -> bool {
        let Some(route) = self.routes.get(id as usize) else {
            return false;
        };
        match route.source {
            LinkSource::Block(number) => match self.parts.find_node(number) {
                Some(node) => node.block().kind().unit().shares(),
                None => false,
            },
            LinkSource::Input(_) => true,
        }
    }

    /// Has the message that the source of a link would offer go over it; where the target has no memory for it, it is
    /// offered alone. Answers how many events those are.
    #[inline(always)]
    fn pass_one(&mut self, alloc: Global, id: LinkId) -> Result<u64, NetFault>
        requires kept { InOrder W.meaning self.old }
        requires due { IsDueIn W.meaning self.old
            (NetEvent.at_link id (Offer (id_next self.old.parts (route_of (layout_of self.old.plan) id).source
            (route_of (layout_of self.old.plan) id).source_place))) }
        requires passes { may_pass id (route_of (layout_of self.old.plan) id) self.old.parts ≡ true }
        ensures same_plan { self.new.plan ≡ self.old.plan }
        ensures happened { IfOk result (λ count. HasDone W.meaning count self.old self.new) }
        ensures some { IfOk result (λ count. 0 < count) }
        ensures within { IfOk result (λ count. count ≤ 5) }
        ensures kept { OnErr result (self.new.parts ≡ self.old.parts) }
        ensures memory { IfErr result (λ fault. fault ≡ Memory) }
    {
        let Engine {
            parts,
            routes,
            agenda,
            ..
        } = self;
        let route = &routes[id as usize];
        if parts.pass(alloc, id, route)? {
            Ok(PASS)
        } else {
            agenda.list(Spot::Link(id));
            Ok(1)
        }
    }

    /// Whether the source of a link would offer a message that may go over it in one call.
    #[inline(always)]
    fn has_next_to_pass(&self, id: LinkId) -> bool
        requires known { id < length (layout_of self.now.plan).links }
        requires kept { InOrder W.meaning self.now }
        ensures due { IsTrue result → IsDueIn W.meaning self.now
            (NetEvent.at_link id (Offer (id_next self.now.parts (route_of (layout_of self.now.plan) id).source
            (route_of (layout_of self.now.plan) id).source_place))) }
        ensures passes { IsTrue result → may_pass id (route_of (layout_of self.now.plan) id) self.now.parts ≡ true }
    {
        let route = self.route(id);
        if self.parts.lacks_id(route) {
            return false;
        }
        let Some(Move::Offer(_)) = self.parts.next_of_source(route) else {
            return false;
        };
        self.may_pass(id)
    }

    /// Has messages go over a link, one after another, until there is none that may, or memory is out. Answers how many events
    /// that took, of at most so many.
    fn pass_more(&mut self, alloc: Global, id: LinkId, limit: u64) -> u64
        requires kept { InOrder W.meaning self.old }
        requires known { id < length (layout_of self.old.plan).links }
        ensures same_plan { self.new.plan ≡ self.old.plan }
        ensures happened { HasDone W.meaning result self.old self.new }
        ensures within { result ≤ limit }
    {
        let mut rest = limit;
        while rest >= PASS && self.has_next_to_pass(id) {
            match self.pass_one(alloc, id) {
                Ok(count) => rest -= count,
                Err(_) => break,
            }
        }
        limit - rest
    }

    /// Lists where something may be able to happen after messages went over a link.
    fn list_passed(&mut self, id: LinkId)
        ensures same_plan { self.new.plan ≡ self.old.plan }
        ensures same_parts { self.new.parts ≡ self.old.parts }
    {
        let Engine {
            parts,
            routes,
            agenda,
            ..
        } = self;
        if let Some(route) = routes.get(id as usize) {
            agenda.list_after_pass(parts, route, id);
        }
    }
}

/// How many events a run through a block may have that copies over so many links.
fn run_of(copies: usize) -> u64 {
    RUN.saturating_mul(PASS.saturating_mul(copies as u64).saturating_add(WORK))
}
