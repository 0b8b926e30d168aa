//! A message that goes over a link in one call: the source's side of it, and the target's.
//!
//! It comes to what the five moves of the link come to, with the looks at its phases. A caller that has both ends uses
//! these where the target takes the message at once.
ghost use Rattle.std.specs.Prelude.{◌≡◌, ℕ, ◌<◌, ◌∷◌, true, length, is_some, Some, IfOk, OnOk, OnErr};
ghost use Rattle.flow_link.specs.LinkOk.{HasRoom};
ghost use Rattle.flow_link.specs.declared.stage.SourceStage.TheVariants.{Out};
ghost use Rattle.flow_intake.specs.Receives.{takes_at_once, receives};
ghost use Rattle.flow_outlet.specs.ByLink.{has_room as has_room_out};
ghost use Rattle.flow_outlet.specs.Outlet.{end_at, may_offer, head_of};
ghost use Rattle.flow_spread.specs.Spread.{end_at as copy_end_at, link_at, stage_at};
ghost use Rattle.flow_block.specs.Block.{port_at, with_port};
ghost use Rattle.flow_block.specs.Passes.{block_sends, sends_on, sends_copy, receives_on, takes_freely};

use crate::block::Block;
use crate::node::{Node, reserve_mark};
use crate::ports::bring_back;
use flow_link::{Mark, PortId};
use flow_value::{Kept, Parcel, Value};
use std::alloc::{AllocError, Global};

impl Block {
    /// Whether a port takes at once what is offered over the link at this place, over which nothing is under way.
    #[inline(always)]
    pub fn takes_at_once(&self, port: usize, place: usize) -> bool
        requires port { port < length self.now.ports }
        requires place { place < length (port_at port self.now).ends }
        ensures { result ≡ takes_at_once place (port_at port self.now) }
    {
        self.ports[port].takes_at_once(place)
    }

    /// Whether one more message may cross the link out of it at this place.
    #[inline(always)]
    pub fn may_carry(&self, place: usize) -> bool
        requires { place < length self.now.exits.ends }
        ensures { result ≡ has_room_out (end_at self.now.exits place).rule.max (end_at self.now.exits place).given }
    {
        self.exits.ends()[place].has_room()
    }

    /// Whether one more copy may cross the link at this place.
    #[inline(always)]
    pub fn may_carry_copy(&self, place: usize) -> bool
        requires { place < length self.now.copies.ends }
        ensures { result ≡ has_room_out (link_at self.now.copies place).rule.max (link_at self.now.copies place).given }
    {
        self.copies.ends()[place].link.has_room()
    }

    /// Sends the head over the link at the place where it may be offered, to a target that takes it at once: the
    /// message for a journal, and its parcel, which is made first. Room that comes back with it goes to the ports. Where memory is
    /// out, nothing has changed.
    #[inline(always)]
    pub fn send(&mut self, alloc: Global, place: usize) -> Result<(Value, Parcel), AllocError>
        requires may { may_offer self.old.exits ≡ Some place }
        requires room { HasRoom (end_at self.old.exits place).rule.max (end_at self.old.exits place).given }
        ensures oldest { IfOk result (λ sent. self.old.exits.left ≡ sent.0 ∷ self.new.exits.left) }
        ensures same { IfOk result (λ sent. sent.1 ≡ sent.0) }
        ensures sent { OnOk result (self.new ≡ block_sends place self.old.exits.next self.old) }
        ensures kept { OnErr result (self.new ≡ self.old) }
    {
        let sent = self.exits.send(alloc, place)?;
        bring_back(
            &mut self.ports,
            &mut self.exits,
            &self.copies,
            self.kind,
            &sent.0,
        );
        Ok(sent)
    }

    /// Takes a message that comes over the link at this place, and that the port takes at once. This is its parcel; a
    /// copy of it is for a journal.
    #[inline(always)]
    pub fn receive(&mut self, port: usize, place: usize, parcel: Parcel) -> Value
        requires port { port < length self.old.ports }
        requires place { place < length (port_at port self.old).ends }
        requires takes { takes_at_once place (port_at port self.old) ≡ true }
        requires ready { (port_at port self.old).ready ≡ true }
        ensures value { parcel ≡ result }
        ensures received { (i : ℕ) → self.new ≡ with_port port (receives place i result) self.old }
    {
        self.ports[port].receive(place, parcel)
    }
}

impl Node {
    /// Sends the head over the link at the place where it may be offered, to a target that takes it at once, and marks
    /// that; this is its parcel, which is made first. Where memory is out, nothing has changed.
    #[inline(always)]
    pub fn send(&mut self, alloc: Global, place: usize) -> Result<Parcel, AllocError>
        requires may { may_offer self.old.block.exits ≡ Some place }
        requires room { HasRoom (end_at self.old.block.exits place).rule.max (end_at self.old.block.exits place).given }
        ensures oldest { IfOk result (λ parcel. head_of self.old.block.exits ≡ Some parcel) }
        ensures sent { OnOk result (self.new ≡ sends_on place self.old.block.exits.next self.old) }
        ensures kept { OnErr result (self.new ≡ self.old) }
    {
        reserve_mark(&mut self.journal, &self.block)?;
        let link = self.block.out_link(place);
        let (value, parcel) = self.block.send(alloc, place)?;
        let mark = Mark::Gave(link, Kept::new(value));
        self.journal.push_reserved(mark);
        Ok(parcel)
    }

    /// Sends the element over the link at this place, where it is offered, to a target that takes it at once, and marks
    /// that; this is its parcel.
    #[inline(always)]
    pub fn send_copy(&mut self, place: usize) -> Parcel
        requires there { place < length self.old.block.copies.ends }
        requires offered { stage_at self.old.block.copies place ≡ Out self.old.block.copies.id }
        requires ready { is_some (copy_end_at self.old.block.copies place).share ≡ true }
        requires room { HasRoom (link_at self.old.block.copies place).rule.max (link_at self.old.block.copies place).given }
        ensures element { self.old.block.copies.element ≡ Some result }
        ensures sent { self.new ≡ sends_copy place self.old.block.copies.id self.old }
    {
        let link = self.block.copies().ends()[place].link.rule.id;
        let (value, parcel) = self.block.send_copy(place);
        let mark = Mark::Gave(link, Kept::new(value));
        self.journal.push_reserved(mark);
        parcel
    }

    /// Whether a port takes at once what is offered over the link at this place, over which nothing is under way. A join
    /// that reserves does not: it takes by rounds.
    #[inline(always)]
    pub fn takes_at_once(&self, port: usize, place: usize) -> bool
        requires port { port < length self.now.block.ports }
        requires place { place < length (port_at port self.now.block).ends }
        ensures { result ≡ takes_freely port place self.now }
    {
        self.block.takes_at_once(port, place) && !self.round.reserves()
    }

    /// Takes a message that comes over the link at this place, and that the port takes at once, and marks that. This is
    /// its parcel.
    #[inline(always)]
    pub fn receive(&mut self, port: PortId, place: usize, parcel: Parcel)
        requires port { port < length self.old.block.ports }
        requires place { place < length (port_at port self.old.block).ends }
        requires takes { takes_at_once place (port_at port self.old.block) ≡ true }
        requires ready { (port_at port self.old.block).ready ≡ true }
        ensures { (i : ℕ) → self.new ≡ receives_on port place i parcel self.old }
    {
        let link = self.block.in_link(port as usize, place);
        let value = self.block.receive(port as usize, place, parcel);
        let mark = Mark::Took(port, link, Kept::new(value));
        self.journal.push_reserved(mark);
        self.block.copy_taken();
    }
}
