//! A block's own side of each move of a link, and its looks.
//!
//! A move that takes memory has two calls: the one that prepares may be refused, and then nothing has changed; what
//! follows takes none.
ghost use Rattle.std.specs.Prelude.{◌≡◌, ◌<◌, ◌∷◌, true, length, is_some, Some, OnOk, OnErr};
ghost use Rattle.flow_link.specs.LinkOk.{HasRoom};
ghost use Rattle.flow_intake.specs.Port.{stage_at as port_stage, is_offer, is_hand, is_holding, has_room, hand_in};
ghost use Rattle.flow_intake.specs.Calls.{prepared, is_offered, is_posted, is_postponed, is_arrived};
ghost use Rattle.flow_intake.specs.Calls.{may_be_refused, unprepared, wants, turns_down, postpones, refuses, consumes};
ghost use Rattle.flow_intake.specs.Calls.{asks, claims, releases, opens, closes, looks as port_looks};
ghost use Rattle.flow_outlet.specs.End.{is_waiting, is_free};
ghost use Rattle.flow_outlet.specs.Outlet.{end_at, stage_at, may_offer, may_give, may_hold, is_wish, prepares, offers};
ghost use Rattle.flow_outlet.specs.Outlet.{holds, denies, withdraws, ends_link, looks};
ghost use Rattle.flow_block.specs.Block.{port_at, with_port, gives_out};

use crate::block::Block;
use crate::ports::bring_back;
use flow_link::{LinkEnd, Phase};
use flow_value::{MessageHeader, Parcel, Value};
use std::alloc::{AllocError, Global};

// The target's side.
impl Block {
    /// Sets memory aside for one more message at a port, from the answer to its offer until it is taken.
    #[inline(always)]
    pub fn prepare_answer(&mut self, port: usize) -> Result<(), AllocError>
        requires { port < length self.old.ports }
        ensures done { OnOk result (self.new ≡ with_port port prepared self.old) }
        ensures kept { OnErr result (self.new ≡ self.old) }
    {
        self.ports[port].prepare_answer()?;
        Ok(())
    }

    /// Memory is not set aside any more for one more message at a port.
    pub fn forget_answer(&mut self, port: usize)
        requires { port < length self.old.ports }
        ensures { self.new ≡ with_port port unprepared self.old }
    {
        self.ports[port].forget_answer();
    }

    /// Accepts the offer over the link at this place.
    pub fn want(&mut self, port: usize, place: usize)
        requires port { port < length self.old.ports }
        requires place { place < length (port_at port self.old).ends }
        requires offer { is_offer (port_stage place (port_at port self.old)) ≡ true }
        requires ready { (port_at port self.old).ready ≡ true }
        requires room { has_room (port_at port self.old) ≡ true }
        ensures { self.new ≡ with_port port (wants place) self.old }
    {
        self.ports[port].want(place);
    }

    /// Does not take the message that was posted over the link at this place.
    pub fn turn_down(&mut self, port: usize, place: usize)
        requires port { port < length self.old.ports }
        requires place { place < length (port_at port self.old).ends }
        requires posted { is_posted (port_stage place (port_at port self.old)) ≡ true }
        ensures { self.new ≡ with_port port (turns_down place) self.old }
    {
        self.ports[port].turn_down(place);
    }

    /// Postpones the offer over the link at this place.
    pub fn postpone(&mut self, port: usize, place: usize)
        requires port { port < length self.old.ports }
        requires place { place < length (port_at port self.old).ends }
        requires offered { is_offered (port_stage place (port_at port self.old)) ≡ true }
        requires ready { (port_at port self.old).ready ≡ true }
        ensures { self.new ≡ with_port port (postpones place) self.old }
    {
        self.ports[port].postpone(place);
    }

    /// Refuses the offer over the link at this place for good, which it may have postponed before.
    pub fn refuse(&mut self, port: usize, place: usize)
        requires port { port < length self.old.ports }
        requires place { place < length (port_at port self.old).ends }
        requires refusing { is_some (port_at port self.old).refusing ≡ true }
        requires offer { may_be_refused (port_stage place (port_at port self.old)) ≡ true }
        ensures { self.new ≡ with_port port (refuses place) self.old }
    {
        self.ports[port].refuse(place);
    }

    /// Consumes the offer over the link at this place, which it postponed.
    pub fn consume(&mut self, port: usize, place: usize)
        requires port { port < length self.old.ports }
        requires place { place < length (port_at port self.old).ends }
        requires postponed { is_postponed (port_stage place (port_at port self.old)) ≡ true }
        requires room { has_room (port_at port self.old) ≡ true }
        ensures { self.new ≡ with_port port (consumes place) self.old }
    {
        self.ports[port].consume(place);
    }

    /// Asks to reserve the offer over the link at this place, which it postponed.
    pub fn ask(&mut self, port: usize, place: usize)
        requires port { port < length self.old.ports }
        requires place { place < length (port_at port self.old).ends }
        requires postponed { is_postponed (port_stage place (port_at port self.old)) ≡ true }
        requires room { has_room (port_at port self.old) ≡ true }
        ensures { self.new ≡ with_port port (asks place) self.old }
    {
        self.ports[port].ask(place);
    }

    /// Claims the message over the link at this place, which is kept for it.
    pub fn claim(&mut self, port: usize, place: usize)
        requires port { port < length self.old.ports }
        requires place { place < length (port_at port self.old).ends }
        requires holding { is_holding (port_stage place (port_at port self.old)) ≡ true }
        ensures { self.new ≡ with_port port (claims place) self.old }
    {
        self.ports[port].claim(place);
    }

    /// Gives up the message over the link at this place, which is kept for it.
    pub fn release(&mut self, port: usize, place: usize)
        requires port { port < length self.old.ports }
        requires place { place < length (port_at port self.old).ends }
        requires holding { is_holding (port_stage place (port_at port self.old)) ≡ true }
        ensures { self.new ≡ with_port port (releases place) self.old }
    {
        self.ports[port].release(place);
    }

    /// Takes the message out of the slot of the link at this place: this is its parcel.
    pub fn open(&mut self, port: usize, place: usize, parcel: Parcel)
        requires port { port < length self.old.ports }
        requires place { place < length (port_at port self.old).ends }
        requires arrived { is_arrived (port_stage place (port_at port self.old)) ≡ true }
        ensures { self.new ≡ with_port port (opens place parcel) self.old }
    {
        self.ports[port].open(place, parcel);
    }

    /// Makes the message its own that it has in hand from the link at this place, and gives a copy of it for a journal.
    pub fn close(&mut self, port: usize, place: usize) -> Value
        requires port { port < length self.old.ports }
        requires place { place < length (port_at port self.old).ends }
        requires hand { is_hand (port_stage place (port_at port self.old)) ≡ true }
        ensures value { hand_in place (port_at port self.old).ends ≡ Some result }
        ensures closed { self.new ≡ with_port port (closes place result) self.old }
    {
        self.ports[port].close(place)
    }

    /// Looks at the phase of the link into it at this place.
    pub fn look_in(&mut self, port: usize, place: usize, phase: Phase)
        requires port { port < length self.old.ports }
        requires place { place < length (port_at port self.old).ends }
        ensures { self.new ≡ with_port port (port_looks place phase) self.old }
    {
        self.ports[port].look_in(place, phase);
    }
}

// The source's side.
impl Block {
    /// Makes the parcel of the head, unless it is made.
    #[inline(always)]
    pub fn prepare_offer(&mut self, alloc: Global) -> Result<(), AllocError>
        ensures done { OnOk result (self.new ≡ record self.old { exits = prepares self.old.exits }) }
        ensures kept { OnErr result (self.new ≡ self.old) }
    {
        self.exits.prepare_offer(alloc)
    }

    /// Offers the head over the link at the place where it may be offered, and tells its header.
    pub fn offer(&mut self, place: usize) -> MessageHeader
        requires may { may_offer self.old.exits ≡ Some place }
        requires ready { is_some self.old.exits.parcel ≡ true }
        ensures header { result ≡ self.old.exits.next }
        ensures out { self.new ≡ record self.old { exits = offers place self.old.exits } }
    {
        self.exits.offer(place)
    }

    /// Gives the head over the link at this place, where it is wanted: the message for a journal, and its parcel. Room
    /// that comes back with it goes to the ports.
    pub fn give(&mut self, place: usize) -> (Value, Parcel)
        requires there { place < length self.old.exits.ends }
        requires wanted { may_give place self.old.exits ≡ true }
        requires ready { is_some self.old.exits.parcel ≡ true }
        requires room { HasRoom (end_at self.old.exits place).rule.max (end_at self.old.exits place).given }
        ensures oldest { self.old.exits.left ≡ result.0 ∷ self.new.exits.left }
        ensures same { result.1 ≡ result.0 }
        ensures given { self.new ≡ gives_out place self.old }
    {
        let given = self.exits.give(place);
        bring_back(
            &mut self.ports,
            &mut self.exits,
            &self.copies,
            self.kind,
            &given.0,
        );
        given
    }

    /// Keeps the head for the target that asks to reserve it over the link at this place.
    pub fn hold(&mut self, place: usize)
        requires there { place < length self.old.exits.ends }
        requires asked { may_hold place self.old.exits ≡ true }
        ensures { self.new ≡ record self.old { exits = holds place self.old.exits } }
    {
        self.exits.hold(place);
    }

    /// Denies the wish for a message over the link at this place.
    pub fn deny(&mut self, place: usize)
        requires there { place < length self.old.exits.ends }
        requires wish { is_wish (stage_at self.old.exits place) ≡ true }
        ensures { self.new ≡ record self.old { exits = denies place self.old.exits } }
    {
        self.exits.deny(place);
    }

    /// Withdraws the offer that was postponed over the link at this place.
    pub fn withdraw(&mut self, place: usize)
        requires there { place < length self.old.exits.ends }
        requires waits { is_waiting (stage_at self.old.exits place) ≡ true }
        ensures { self.new ≡ record self.old { exits = withdraws place self.old.exits } }
    {
        self.exits.withdraw(place);
    }

    /// Ends the link at this place.
    pub fn end(&mut self, place: usize, how: LinkEnd)
        requires there { place < length self.old.exits.ends }
        requires free { is_free (stage_at self.old.exits place) ≡ true }
        ensures { self.new ≡ record self.old { exits = ends_link place how self.old.exits } }
    {
        self.exits.end(place, how);
    }

    /// Looks at the phase of the link out of it at this place.
    pub fn look_out(&mut self, place: usize, phase: Phase)
        requires { place < length self.old.exits.ends }
        ensures { self.new ≡ record self.old { exits = looks place phase self.old.exits } }
    {
        self.exits.look_out(place, phase);
    }
}
