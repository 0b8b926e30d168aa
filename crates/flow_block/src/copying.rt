//! A node whose block copies: its calls at the links over which the copies go.
ghost use Rattle.std.specs.Prelude.{◌≡◌, ◌<◌, true, length, is_some, Some, IfOk, OnOk, OnErr};
ghost use Rattle.flow_link.specs.LinkOk.{HasRoom};
ghost use Rattle.flow_outlet.specs.End.{is_free, is_waiting};
ghost use Rattle.flow_spread.specs.Spread.{may_offer, may_give, is_asked_by, end_at, link_at, stage_at};
ghost use Rattle.flow_block.specs.Copies.{CopyCall};
ghost use Rattle.flow_block.specs.Node.{copies_by};

use crate::node::{Node, reserve_mark};
use flow_link::{LinkEnd, Mark, Phase};
use flow_value::{Kept, MessageHeader, Parcel};
use std::alloc::{AllocError, Global};

impl Node {
    /// Offers the element over the link at this place, and tells its header. Memory for what the link is to have, and
    /// for the mark that it is given, is set aside first.
    #[inline(always)]
    pub fn offer_copy(&mut self, alloc: Global, place: usize) -> Result<MessageHeader, AllocError>
        requires there { place < length self.old.block.copies.ends }
        requires may { may_offer place self.old.block.copies ≡ true }
        ensures header { IfOk result (λ header. header ≡ self.old.block.copies.id) }
        ensures done { OnOk result (self.new ≡ copies_by (CopyCall.offer place) self.old) }
        ensures kept { OnErr result (self.new ≡ self.old) }
    {
        reserve_mark(&mut self.journal, &self.block)?;
        let header = self.block.offer_copy(alloc, place)?;
        Ok(header)
    }

    /// Looks at the phase of the link at this place.
    pub fn look_copy(&mut self, place: usize, phase: Phase)
        requires { place < length self.old.block.copies.ends }
        ensures { self.new ≡ copies_by (CopyCall.look place phase) self.old }
    {
        self.block.look_copy(place, phase);
    }

    /// Gives the element over the link at this place, where it is wanted, and marks that; this is its parcel.
    pub fn give_copy(&mut self, place: usize) -> Parcel
        requires there { place < length self.old.block.copies.ends }
        requires wanted { may_give place self.old.block.copies ≡ true }
        requires ready { is_some (end_at self.old.block.copies place).share ≡ true }
        requires room { HasRoom (link_at self.old.block.copies place).rule.max (link_at self.old.block.copies place).given }
        ensures element { self.old.block.copies.element ≡ Some result }
        ensures given { self.new ≡ copies_by (CopyCall.give place) self.old }
    {
        let link = self.block.copies().ends()[place].link.rule.id;
        let (value, parcel) = self.block.give_copy(place);
        let mark = Mark::Gave(link, Kept::new(value));
        self.journal.push_reserved(mark);
        parcel
    }

    /// Keeps the element for the target that asks for it over the link at this place.
    pub fn hold_copy(&mut self, place: usize)
        requires there { place < length self.old.block.copies.ends }
        requires asks { is_asked_by (stage_at self.old.block.copies place) ≡ true }
        ensures { self.new ≡ copies_by (CopyCall.hold place) self.old }
    {
        self.block.hold_copy(place);
    }

    /// Withdraws the offer that was postponed over the link at this place.
    pub fn withdraw_copy(&mut self, place: usize)
        requires there { place < length self.old.block.copies.ends }
        requires waits { is_waiting (stage_at self.old.block.copies place) ≡ true }
        ensures { self.new ≡ copies_by (CopyCall.withdraw place) self.old }
    {
        self.block.withdraw_copy(place);
    }

    /// Ends the link at this place.
    pub fn end_copy(&mut self, place: usize, how: LinkEnd)
        requires there { place < length self.old.block.copies.ends }
        requires free { is_free (stage_at self.old.block.copies place) ≡ true }
        ensures { self.new ≡ copies_by (CopyCall.end_link place how) self.old }
    {
        self.block.end_copy(place, how);
    }
}
