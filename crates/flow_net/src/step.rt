//! Does the events that the program asks for.
ghost use Rattle.std.specs.Prelude.{◌≡◌, IfSome, None};
ghost use Rattle.flow_net.specs.Dues.{event_of};
ghost use Rattle.flow_net.specs.Events.{net_event, IsOfJob};

use crate::due::Due;
use crate::engine::Engine;
use crate::event::{Event, Stepped};
use crate::fault::NetFault;
use flow_value::Runs;
use std::alloc::Global;

impl<W: Runs> Engine<W> {
    ghost use Rattle.flow_net.specs.Engine.{InOrder};
    ghost use Rattle.flow_net.specs.Taken.{Takes};

    /// Does this event, if it may happen.
    pub(crate) fn take(
        &mut self,
        alloc: Global,
        event: Event<W>,
    ) -> Result<Stepped<W>, (Event<W>, NetFault)>
        requires kept { InOrder W.meaning self.old }
        ensures { Takes W.eq W.meaning self.old self.new event result }
    {
        match due_of(&event) {
            Some(due) => match self.event(alloc, &due) {
                Ok(()) => Ok(Stepped::Moved),
                Err(fault) => Err((event, fault)),
            },
            None => self.step_job(alloc, event),
        }
    }

    /// Does this event, by which a job begins or its result comes back.
    fn step_job(
        &mut self,
        alloc: Global,
        event: Event<W>,
    ) -> Result<Stepped<W>, (Event<W>, NetFault)>
        requires kept { InOrder W.meaning self.old }
        requires job { IsOfJob event }
        ensures { Takes W.eq W.meaning self.old self.new event result }
    {
        match event {
            Event::Begin(number) => match self.begin_job(alloc, number) {
                Ok(job) => Ok(Stepped::Began(job)),
                Err(fault) => Err((Event::Begin(number), fault)),
            },
            Event::End(number, done) => match self.end_job(number, done) {
                Ok(()) => Ok(Stepped::Moved),
                Err((done, fault)) => Err((Event::End(number, done), fault)),
            },
            _ => unreachable!(),
        }
    }
}

/// The event as a driver finds it; none where a job begins or its result comes back.
fn due_of<W: Runs>(event: &Event<W>) -> Option<Due>
    ensures same { IfSome result (λ due. net_event event.now ≡ event_of due) }
    ensures driven { IfSome result (λ due. IsOfJob event.now → ⊥) }
    ensures job { result ≡ None → IsOfJob event.now }
{
    match *event {
        Event::Begin(_) | Event::End(_, _) => None,
        Event::Link(id, next) => Some(Due::Link(id, next)),
        Event::Make(number) => Some(Due::Make(number)),
        Event::Complete(number, port) => Some(Due::Complete(number, port)),
        Event::Fault(number) => Some(Due::Fault(number)),
        Event::Done(number) => Some(Due::Done(number)),
    }
}
