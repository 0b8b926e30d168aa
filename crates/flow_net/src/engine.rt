//! Drives the blocks and links of a network: finds an event that may happen, does it, and goes on.
ghost use Rattle.std.specs.Prelude.{◌≡◌, ◌≢◌, [], map, length, IfOk, IfErr, OnOk, OnErr, Err};
ghost use Rattle.flow_link.specs.Lists.{below};
ghost use Rattle.flow_link.specs.Planned.{layout_of};
ghost use Rattle.flow_block.specs.Routes.{route_of};
ghost use Rattle.flow_core.specs.Events.{NetEvent};
ghost use Rattle.flow_core.specs.State.{node_at};
ghost use Rattle.flow_net.specs.Dues.{IsEnd, IsEndOfJob, event_of};
ghost use Rattle.flow_net.specs.declared.fault.NetFault.TheVariants.{NotEnabled, Ids, Memory};

use crate::due::{Due, list_after};
use crate::fault::NetFault;
use crate::settled::Settled;
use flow_block::Route;
use flow_link::{LinkId, Move, Plan, step_of};
use flow_moves::{Agenda, Parts};
use flow_value::Runs;
use std::alloc::Global;

/// A plan with what has become of its blocks and links, and where to look next.
#[derive(Drop)]
pub(crate) struct Engine<W> {
    pub plan: Plan<W>,
    pub parts: Parts,
    /// The way of each link.
    pub routes: Vec<Route>,
    pub agenda: Agenda,
    ghost routed: { routes.items ≡ map (route_of (layout_of plan)) (below (length (layout_of plan).links)) },
}

impl<W: Runs> Engine<W> {
    ghost use Rattle.flow_net.specs.Engine.{EnabledIn, GoesOnIn, HasDone, InOrder, IsDueIn, IsWhyNotIn, MayHappenIn};
    ghost use Rattle.flow_net.specs.Engine.{NeedsIdIn, SettlesIn, parts_after};

    /// Does an event that is due: a link's move.
    fn move_link(&mut self, alloc: Global, id: LinkId, next: &Move) -> Result<(), NetFault>
        requires kept { InOrder W.meaning self.old }
        requires due { IsDueIn W.meaning self.old (NetEvent.at_link id next.now) }
        ensures same_plan { self.new.plan ≡ self.old.plan }
        ensures done { OnOk result (self.new.parts ≡ parts_after W.meaning self.old (NetEvent.at_link id next.now)) }
        ensures kept { OnErr result (self.new.parts ≡ self.old.parts) }
        ensures memory { IfErr result (λ fault. fault ≡ Memory) }
    {
        let Some(phase) = step_of(self.parts.phase(id), *next) else {
            return Ok(());
        };
        let Engine { parts, routes, .. } = self;
        parts.move_along(alloc, id, &routes[id as usize], *next, phase)?;
        Ok(())
    }

    /// Does an event that is due: a block without a function makes its next outputs.
    #[inline(always)]
    pub(crate) fn make(&mut self, alloc: Global, number: usize) -> Result<(), NetFault>
        requires kept { InOrder W.meaning self.old }
        requires enabled { EnabledIn self.old (NetEvent.make number) }
        ensures same_plan { self.new.plan ≡ self.old.plan }
        ensures may { OnOk result (MayHappenIn W.meaning self.old (NetEvent.make number)) }
        ensures done { OnOk result (self.new.parts ≡ parts_after W.meaning self.old (NetEvent.make number)) }
        ensures kept { OnErr result (self.new.parts ≡ self.old.parts) }
        ensures used_up { result ≡ Err Ids → MayHappenIn W.meaning self.old (NetEvent.make number) → ⊥ }
        ensures memory { result ≡ Err Memory → MayHappenIn W.meaning self.old (NetEvent.make number) }
        ensures never { result ≢ Err NotEnabled }
    {
        self.parts.make(alloc, number)?;
        Ok(())
    }

    /// Does an event that is due: a block works on one more of the messages that it holds.
    fn begin(&mut self, number: usize) -> Result<(), NetFault>
        requires kept { InOrder W.meaning self.old }
        requires enabled { EnabledIn self.old (NetEvent.begin number) }
        ensures same_plan { self.new.plan ≡ self.old.plan }
        ensures done { OnOk result (self.new.parts ≡ parts_after W.meaning self.old (NetEvent.begin number)) }
        ensures kept { OnErr result (self.new.parts ≡ self.old.parts) }
        ensures memory { IfErr result (λ fault. fault ≡ Memory) }
    {
        self.parts.begin(number)?;
        Ok(())
    }

    /// Does an event that is due: the message of a job is worked on, and its result comes back.
    fn finish_job(&mut self, alloc: Global, number: usize, ticket: u64) -> Result<(), NetFault>
        requires kept { InOrder W.meaning self.old }
        requires enabled { EnabledIn self.old (NetEvent.end_job number ticket) }
        ensures same_plan { self.new.plan ≡ self.old.plan }
        ensures may { OnOk result (MayHappenIn W.meaning self.old (NetEvent.end_job number ticket)) }
        ensures done { OnOk result (self.new.parts ≡ parts_after W.meaning self.old (NetEvent.end_job number ticket)) }
        ensures kept { OnErr result (self.new.parts ≡ self.old.parts) }
        ensures used_up { result ≡ Err Ids → MayHappenIn W.meaning self.old (NetEvent.end_job number ticket) → ⊥ }
        ensures never { result ≢ Err NotEnabled }
    {
        let work = self.plan.block(number).work.as_ref();
        self.parts.finish_job(alloc, number, ticket, work)?;
        Ok(())
    }

    /// Does two events, of which the first is due: a block that works on nothing begins to work on the message that
    /// waits longest, and the result comes back.
    #[inline(always)]
    pub(crate) fn work(&mut self, alloc: Global, number: usize) -> Result<(), NetFault>
        requires kept { InOrder W.meaning self.old }
        requires enabled { EnabledIn self.old (NetEvent.begin number) }
        requires idle { (node_at self.old.parts number).block.jobs.slots ≡ [] }
        ensures same_plan { self.new.plan ≡ self.old.plan }
        ensures happened { OnOk result (HasDone W.meaning 2 self.old self.new) }
        ensures kept { OnErr result (self.new.parts ≡ self.old.parts) }
        ensures never { result ≢ Err NotEnabled }
    {
        let work = self.plan.block(number).work.as_ref();
        self.parts.work(alloc, number, work)?;
        Ok(())
    }

    /// Does an event that is due: a port completes, or a block stops.
    fn end(&mut self, event: &Due) -> Result<(), NetFault>
        requires kept { InOrder W.meaning self.old }
        requires enabled { EnabledIn self.old (event_of event.now) }
        requires end { IsEnd event.now }
        ensures same_plan { self.new.plan ≡ self.old.plan }
        ensures done { OnOk result (self.new.parts ≡ parts_after W.meaning self.old (event_of event.now)) }
        ensures kept { OnErr result (self.new.parts ≡ self.old.parts) }
        ensures memory { IfErr result (λ fault. fault ≡ Memory) }
    {
        match *event {
            Due::Complete(number, port) => self.parts.complete(number, port)?,
            Due::Fault(number) => {
                if let Some(fault) = self.parts.node(number).block().next_fault() {
                    self.parts.fault(number, fault)?;
                }
            }
            Due::Done(number) => self.parts.finish(number)?,
            _ => {}
        }
        Ok(())
    }

    /// Does an event that is due.
    fn carry_out(&mut self, alloc: Global, event: &Due) -> Result<(), NetFault>
        requires kept { InOrder W.meaning self.old }
        requires due { IsDueIn W.meaning self.old (event_of event.now) }
        ensures same_plan { self.new.plan ≡ self.old.plan }
        ensures may { OnOk result (MayHappenIn W.meaning self.old (event_of event.now)) }
        ensures done { OnOk result (self.new.parts ≡ parts_after W.meaning self.old (event_of event.now)) }
        ensures kept { OnErr result (self.new.parts ≡ self.old.parts) }
        ensures used_up { result ≡ Err Ids → MayHappenIn W.meaning self.old (event_of event.now) → ⊥ }
        ensures memory { result ≡ Err Memory → (IsEndOfJob event.now → ⊥) → MayHappenIn W.meaning self.old (event_of event.now) }
        ensures never { result ≢ Err NotEnabled }
    {
        match *event {
            Due::Link(id, ref next) => self.move_link(alloc, id, next),
            Due::Make(number) => self.make(alloc, number),
            Due::Begin(number) => self.begin(number),
            Due::End(number, ticket) => self.finish_job(alloc, number, ticket),
            _ => self.end(event),
        }
    }

    /// Does an event that is due, and lists where something may be able to happen after it.
    pub(crate) fn go(&mut self, alloc: Global, event: &Due) -> Result<(), NetFault>
        requires kept { InOrder W.meaning self.old }
        requires due { IsDueIn W.meaning self.old (event_of event.now) }
        ensures same_plan { self.new.plan ≡ self.old.plan }
        ensures may { OnOk result (MayHappenIn W.meaning self.old (event_of event.now)) }
        ensures done { OnOk result (self.new.parts ≡ parts_after W.meaning self.old (event_of event.now)) }
        ensures kept { OnErr result (self.new.parts ≡ self.old.parts) }
        ensures used_up { result ≡ Err Ids → MayHappenIn W.meaning self.old (event_of event.now) → ⊥ }
        ensures memory { result ≡ Err Memory → (IsEndOfJob event.now → ⊥) → MayHappenIn W.meaning self.old (event_of event.now) }
        ensures never { result ≢ Err NotEnabled }
    {
        self.carry_out(alloc, event)?;
        list_after(&mut self.agenda, &self.parts, &self.routes, event);
        Ok(())
    }

    /// Does this event, if it may happen. It is no result that comes back: for that see `end_job`.
    pub(crate) fn event(&mut self, alloc: Global, event: &Due) -> Result<(), NetFault>
        requires kept { InOrder W.meaning self.old }
        requires driven { IsEndOfJob event.now → ⊥ }
        ensures same_plan { self.new.plan ≡ self.old.plan }
        ensures may { OnOk result (MayHappenIn W.meaning self.old (event_of event.now)) }
        ensures done { OnOk result (self.new.parts ≡ parts_after W.meaning self.old (event_of event.now)) }
        ensures kept { OnErr result (self.new.parts ≡ self.old.parts) }
        ensures why { IfErr result (IsWhyNotIn W.meaning self.old (event_of event.now)) }
        ensures goes_on { GoesOnIn W.meaning 1 self.old self.new }
    {
        if self.is_due(event) {
            self.go(alloc, event)
        } else {
            Err(NetFault::NotEnabled)
        }
    }

    /// Does events until nothing may happen any more, or as many as the limit are done.
    pub(crate) fn settle(&mut self, alloc: Global, limit: u64) -> Result<Settled, NetFault>
        requires kept { InOrder W.meaning self.old }
        ensures same_plan { self.new.plan ≡ self.old.plan }
        ensures settled { IfOk result (SettlesIn W.meaning limit self.old self.new) }
        ensures goes_on { GoesOnIn W.meaning limit self.old self.new }
        ensures used_up { result ≡ Err Ids → NeedsIdIn W.meaning self.new }
        ensures never { result ≢ Err NotEnabled }
    {
        let mut rest = limit;
        while rest > 0 {
            match self.carry_on(alloc, rest)? {
                0 => match self.next_event()? {
                    Some(event) => rest -= self.advance(alloc, &event, rest)?,
                    None => return Ok(Settled::Quiet),
                },
                count => rest -= count,
            }
        }
        if self.is_quiet() {
            Ok(Settled::Quiet)
        } else {
            Ok(Settled::Stopped)
        }
    }
}
