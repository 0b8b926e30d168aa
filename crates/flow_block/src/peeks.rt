//! What a block could do next by itself. Each tells it by the ports, and by counts that they and the exits keep.
ghost use Rattle.std.specs.Prelude.{◌≡◌, ℕ, ◌<◌, ◌==◌, true, false, not, length, IfSome};
ghost use Rattle.std.specs.Option.{IfNone};
ghost use Rattle.std.specs.List.{list_all};
ghost use Rattle.flow_intake.specs.Port.{PortState, coming};
ghost use Rattle.flow_intake.specs.PortLaw.{has_ended};
ghost use Rattle.flow_outlet.specs.End.{is_waiting};
ghost use Rattle.flow_outlet.specs.Outlet.{out_move, stage_at, is_empty};
ghost use Rattle.flow_block.specs.Block.{port_at, port_in};
ghost use Rattle.flow_block.specs.Peeks.{may_work, may_make, may_begin, may_end, may_complete, next_fault, is_held_up, may_finish, could_stop};
ghost use Rattle.flow_spread.specs.Spread.{out_move as copy_move, stage_at as copy_stage_at};
ghost use Rattle.flow_block.specs.Peeks.{may_copy, is_written, is_copy_held_up, would_copy, has_all_given};
ghost use Rattle.flow_block.specs.Peeks.{is_copied_out, is_out_at_rest};
ghost use Rattle.flow_block.specs.Peeks.{fault_cause, link_fault, fault_at_ports, is_pending, has_group, has_next, is_worked_off, is_complete};

use crate::block::Block;
use crate::copies::copies_left;
use flow_group::{has_tuple, is_join_complete};
use flow_intake::{Intake, of_lower_link};
use flow_link::{BlockUnit, LinkId, Move};

impl Block {
    /// Whether it goes on, and holds what it could make something of.
    #[inline(always)]
    fn may_work(&self) -> bool
        ensures { result ≡ may_work self.now }
    {
        self.stopped.is_none() && self.fault.is_none() && self.has_next()
    }

    /// Whether it holds what it could make something of.
    #[inline(always)]
    fn has_next(&self) -> bool
        ensures { result ≡ has_next self.now }
    {
        match self.kind.unit() {
            BlockUnit::Row => self.has_group(),
            BlockUnit::Tuple => has_tuple(&self.ports),
            BlockUnit::Group => self.has_group_of_ports(),
            BlockUnit::Message | BlockUnit::Copy | BlockUnit::OneCopy => {
                holds_first(&self.ports) && self.may_copy()
            }
        }
    }

    /// Whether it may make something of another message: a broadcast may when its links are done with the last one.
    #[inline(always)]
    fn may_copy(&self) -> bool
        ensures { result ≡ may_copy self.now }
    {
        !self.kind.unit().copies_each() || self.copies.is_free() && self.copies.waiting_count() == 0
    }

    /// Whether a batch holds what it makes a row of: as many messages as a row has, or the rest when its port has
    /// completed.
    fn has_group(&self) -> bool
        ensures { result ≡ has_group self.now }
    {
        match self.ports.first() {
            Some(port) => {
                !port.waiting().is_empty()
                    && (self.size as usize <= port.waiting().len() || port.has_ended())
            }
            None => false,
        }
    }

    /// Whether it could make nothing more of what it holds.
    #[tactic(auto, using(flow_link::proofs::FirstInOrder::all_is_every))]
    fn is_worked_off(&self) -> bool
        ensures { result ≡ is_worked_off self.now }
    {
        match self.kind.unit() {
            BlockUnit::Row => !self.has_group(),
            BlockUnit::Tuple => !has_tuple(&self.ports),
            BlockUnit::Group => !self.has_group_of_ports(),
            BlockUnit::Message | BlockUnit::Copy | BlockUnit::OneCopy => holds_nothing(&self.ports),
        }
    }

    /// Whether it would make its next outputs: it has no function, and hands on the message that it holds first, or makes
    /// a row, a tuple or a group of those that it holds.
    #[inline(always)]
    pub fn may_make(&self) -> bool
        ensures { result ≡ may_make self.now }
    {
        self.may_work() && !self.kind.has_work()
    }

    /// Whether it may work on one more of the messages that it holds: a lane is free, and not all of them are begun.
    #[inline(always)]
    pub fn may_begin(&self) -> bool
        requires { 0 < length self.now.ports }
        ensures { result ≡ may_begin self.now }
    {
        self.may_work()
            && self.kind.has_work()
            && self.jobs.out_count() < self.jobs.lanes()
            && self.jobs.len() < self.ports[0].waiting().len()
    }

    /// Whether the result of the job with this ticket may come back.
    pub fn may_end(&self, ticket: u64) -> bool
        ensures { result ≡ may_end ticket self.now }
    {
        self.stopped.is_none() && self.jobs.is_out(ticket)
    }

    /// The job whose result may come back: the oldest of those that are out.
    pub fn next_end(&self) -> Option<u64>
        ensures some { IfSome result (λ ticket. may_end ticket self.now ≡ true) }
        ensures none { IfNone result ((ticket : ℕ) → may_end ticket self.now ≡ false) }
    {
        if self.stopped.is_some() {
            return None;
        }
        self.find_out()
    }

    /// Whether this port completes now: completion came over a link into it, or the block has all that it takes, and no
    /// message is on its way into it.
    pub fn may_complete(&self, port: usize) -> bool
        requires { port < length self.now.ports }
        ensures { result ≡ may_complete port self.now }
    {
        let port = &self.ports[port];
        !port.has_ended() && port.coming() == 0 && (port.has_seen_completion() || self.is_written())
    }

    /// Whether it takes one message in all, and has it.
    fn is_written(&self) -> bool
        ensures { result ≡ is_written self.now }
    {
        self.kind.unit().copies_one() && self.copies.element().is_some()
    }

    /// Whether a port takes no message any more.
    pub fn has_ended(&self, port: usize) -> bool
        requires { port < length self.now.ports }
        ensures { result ≡ has_ended (port_at port self.now).refusing }
    {
        self.ports[port].has_ended()
    }

    /// Whether it is to fault, when nothing is under way any more: its function has faulted, or it has seen a fault.
    pub fn is_pending(&self) -> bool
        ensures { result ≡ is_pending self.now }
    {
        self.fault.is_some() || fault_at_ports(&self.ports).is_some()
    }

    /// The fault by which it stops now, if it does.
    pub fn next_fault(&self) -> Option<u32>
        ensures { result ≡ next_fault self.now }
    {
        if self.could_stop() && self.is_out_at_rest() {
            self.fault_cause()
        } else {
            None
        }
    }

    /// Whether it would stop by a fault, but for offers that wait for their targets.
    pub fn is_held_up(&self) -> bool
        ensures { result ≡ is_held_up self.now }
    {
        self.could_stop() && self.exits.only_waits() && self.fault_cause().is_some()
    }

    /// Whether a block that copies would go on, fault or be done, but for offers that wait for their targets.
    pub fn is_copy_held_up(&self) -> bool
        ensures { result ≡ is_copy_held_up self.now }
    {
        self.would_copy()
            || self.could_stop()
                && self.copies.only_waits()
                && (self.fault_cause().is_some() || self.has_all_given())
    }

    /// Whether it would copy its next message, but for offers of the last one that wait.
    pub(crate) fn would_copy(&self) -> bool
        ensures { result ≡ would_copy self.now }
    {
        self.stopped.is_none() && holds_first(&self.ports) && self.copies.is_free()
    }

    /// Whether its ports have completed. A join is complete, too, when a completed port has no message that waits for
    /// partners, and a block that takes one message in all when it has that.
    #[tactic(auto, using(flow_link::proofs::FirstInOrder::all_is_every))]
    pub fn is_complete(&self) -> bool
        ensures { result ≡ is_complete self.now }
    {
        if self.kind.unit().makes_tuples() {
            is_join_complete(&self.ports)
        } else {
            all_ended(&self.ports) || self.is_written()
        }
    }

    /// Whether it is done now: it is complete, has nothing to work on and nothing to give.
    #[tactic(auto, using(flow_link::proofs::FirstInOrder::all_is_every))]
    pub fn may_finish(&self) -> bool
        ensures { result ≡ may_finish self.now }
    {
        self.could_stop()
            && self.is_complete()
            && holds_nothing(&self.ports)
            && self.exits.left().is_empty()
            && self.exits.is_at_rest()
            && self.is_copied_out()
    }

    /// Whether no copy is left to give, and none is under way.
    fn is_copied_out(&self) -> bool
        ensures { result ≡ is_copied_out self.now.copies }
    {
        copies_left(&self.copies) == 0 && self.copies.is_at_rest()
    }

    /// Whether it is complete, and has nothing to work on and nothing to give.
    #[tactic(auto, using(flow_link::proofs::FirstInOrder::all_is_every))]
    fn has_all_given(&self) -> bool
        ensures { result ≡ has_all_given self.now }
    {
        self.is_complete()
            && holds_nothing(&self.ports)
            && self.exits.left().is_empty()
            && copies_left(&self.copies) == 0
    }

    /// Whether nothing is under way over a link out of it.
    fn is_out_at_rest(&self) -> bool
        ensures { result ≡ is_out_at_rest self.now }
    {
        self.exits.is_at_rest() && self.copies.is_at_rest()
    }

    /// What the end of a link out of it over which copies go would do next.
    #[tactic(auto, using(crate::proofs::MovesOut::copies_held_up_where_one_waits))]
    #[inline(always)]
    pub fn next_copy(&self, place: usize) -> Option<Move>
        requires { place < length self.now.copies.ends }
        ensures { result ≡ copy_move place self.now.stopped (is_copy_held_up self.now) self.now.copies }
    {
        let held_up = self.copy_waits_at(place) && self.is_copy_held_up();
        self.copies.out_move(place, self.stopped, held_up)
    }

    /// Whether a copy is offered over the link at this place, and waits there.
    fn copy_waits_at(&self, place: usize) -> bool
        requires { place < length self.now.copies.ends }
        ensures { result ≡ is_waiting (copy_stage_at self.now.copies place) }
    {
        self.copies.ends()[place].link.is_waiting()
    }

    /// What the end of a link out of it would do next.
    #[tactic(auto, using(crate::proofs::MovesOut::held_up_where_it_waits))]
    #[inline(always)]
    pub fn next_out(&self, place: usize) -> Option<Move>
        requires { place < length self.now.exits.ends }
        ensures { result ≡ out_move place self.now.stopped (is_held_up self.now) self.now.exits }
    {
        let held_up = self.waits_at(place) && self.is_held_up();
        self.out_move(place, held_up)
    }

    /// Whether an offer waits over the link out of it at this place.
    fn waits_at(&self, place: usize) -> bool
        requires { place < length self.now.exits.ends }
        ensures { result ≡ is_waiting (stage_at self.now.exits place) }
    {
        self.exits.ends()[place].is_waiting()
    }

    /// Whether it has not stopped, and no message is on its way into it.
    #[tactic(auto, using(flow_link::proofs::FirstInOrder::all_is_every))]
    fn could_stop(&self) -> bool
        ensures { result ≡ could_stop self.now }
    {
        self.stopped.is_none() && nothing_comes(&self.ports)
    }

    /// The fault by which it would stop: its own, or one that it has seen, once it could make nothing more of what it
    /// took.
    fn fault_cause(&self) -> Option<u32>
        ensures { result ≡ fault_cause self.now }
    {
        match self.fault {
            Some(number) => Some(number),
            None if self.is_worked_off() => fault_at_ports(&self.ports),
            None => None,
        }
    }
}

/// Whether a message waits at the first port.
#[inline(always)]
pub(crate) fn holds_first(ports: &[Intake]) -> bool
    ensures { result ≡ not (is_empty (port_in ports.now 0).waiting) }
{
    match ports.first() {
        Some(port) => !port.waiting().is_empty(),
        None => false,
    }
}

/// Whether no message waits at a port.
fn holds_nothing(ports: &[Intake]) -> bool
    ensures { result ≡ list_all (λ (port : PortState). is_empty port.waiting) ports.now }
{
    ports.iter().all(|port| port.waiting().is_empty())
}

/// Whether no message is on its way into a port.
fn nothing_comes(ports: &[Intake]) -> bool
    ensures { result ≡ list_all (λ (port : PortState). coming port == 0) ports.now }
{
    ports.iter().all(|port| port.coming() == 0)
}

/// Whether each port was completed.
fn all_ended(ports: &[Intake]) -> bool
    ensures { result ≡ list_all (λ (port : PortState). has_ended port.refusing) ports.now }
{
    ports.iter().all(|port| port.has_ended())
}

/// The fault that came over a link: of several the one over the link with the lowest number.
fn fault_at_ports(ports: &[Intake]) -> Option<u32>
    ensures { result ≡ fault_at_ports ports.now }
{
    match link_fault(ports) {
        Some((_, number)) => Some(number),
        None => None,
    }
}

/// That fault, and its link.
fn link_fault(ports: &[Intake]) -> Option<(LinkId, u32)>
    ensures { result ≡ link_fault ports.now }
{
    let mut lowest = None;
    for port in ports {
        lowest = of_lower_link(lowest, port.fault_seen());
    }
    lowest
}
