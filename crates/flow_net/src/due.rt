//! An event that a network does next, as its driver finds it.
use flow_block::Route;
use flow_link::{LinkId, Move, PortId};
use flow_moves::{Agenda, Parts, Spot};

/// One thing that may happen at a link or at a block, by their numbers.
#[derive(Clone, Copy)]
pub(crate) enum Due {
    /// An end of this link makes a move.
    Link(LinkId, Move),
    /// This block, which has no function, makes its next outputs.
    Make(usize),
    /// This block works on one more of the messages that it holds.
    Begin(usize),
    /// The result of the job with this ticket comes back to this block.
    End(usize, u64),
    /// This port of this block takes nothing any more.
    Complete(usize, PortId),
    /// This block ends by a fault.
    Fault(usize),
    /// This block has given all, and ends.
    Done(usize),
}

/// Lists where something may be able to happen after this event.
pub(crate) fn list_after(agenda: &mut Agenda, parts: &Parts, routes: &[Route], event: &Due) {
    match *event {
        Due::Link(id, next) => {
            if let Some(route) = routes.get(id as usize) {
                agenda.list_after_move(parts, route, &next);
            }
            agenda.list(Spot::Link(id));
        }
        Due::Make(number) | Due::Begin(number) | Due::End(number, _) => {
            agenda.list_after_make(parts, number);
        }
        Due::Complete(number, _) | Due::Fault(number) | Due::Done(number) => {
            agenda.list_round(parts, number);
            agenda.list(Spot::Block(number));
        }
    }
}
