//! A block that copies: it gives each of its links a copy of one element, over the links' own offers.
//!
//! What the element takes of the block's room comes back when no link owes it any more, and never where the block takes one
//! message in all.
ghost use Rattle.std.specs.Prelude.{◌≡◌, ◌<◌, ◌≤◌, ◌+◌, ◌-◌, ◌^◌, ◌↔◌, true, false, [], length, map, is_some, Some, Err, IfOk, IfErr, OnOk, OnErr, MatchResult};
ghost use Rattle.flow_link.specs.LinkOk.{HasRoom};
ghost use Rattle.flow_link.specs.declared.stage.SourceStage.TheVariants.{Out};
ghost use Rattle.flow_intake.specs.Calls.{first_of, gives_room};
ghost use Rattle.flow_outlet.specs.End.{is_free, is_waiting};
ghost use Rattle.flow_outlet.specs.Outlet.{fresh_outlet};
ghost use Rattle.flow_outlet.specs.declared.fault.OutletFault.TheVariants.{Ids};
ghost use Rattle.flow_spread.specs.Spread.{fresh_spread, may_offer, may_give, is_asked_by, is_spread_free, end_at, link_at, stage_at};
ghost use Rattle.flow_spread.specs.Spread.{gives, holds, withdraws, ends_link, looks, offers, prepares};
ghost use Rattle.flow_spread.specs.Sends.{sends};
ghost use Rattle.flow_block.specs.Block.{held_by, copies_next, copies_at_once, copies_taken, with_copies};
ghost use Rattle.flow_block.specs.BlockFits.{AllGaveOut};
ghost use Rattle.flow_block.specs.Copies.{shared_rules, fresh_copies, copies_left, copies_weight};

use crate::block::Block;
use crate::peeks::holds_first;
use crate::ports::give_room;
use flow_intake::Intake;
use flow_link::{BlockKind, BlockUnit, LinkEnd, Phase};
use flow_outlet::{LinkRule, Outlet, OutletFault};
use flow_spread::Spread;
use flow_value::{MAX_ID, MessageHeader, Parcel, Value};
use std::alloc::{AllocError, Global};

/// What a block of this kind has to give over these links, and what it copies to them: it does one of the two. Where
/// there is no memory for it, the rules come back.
pub(crate) fn exits_of(
    alloc: Global,
    kind: BlockKind,
    rules: Vec<LinkRule>,
) -> Result<(Outlet, Spread), Vec<LinkRule>>
    ensures { MatchResult result (λ made. (made.0 ≡ fresh_outlet (shared_rules kind rules.items) 1) ×
        (made.1 ≡ fresh_copies kind rules.items)) (λ back. back ≡ rules) }
{
    let Some(first) = MessageHeader::new(1) else {
        unreachable!()
    };
    match kind.unit() {
        BlockUnit::Copy => copying(alloc, false, rules, first),
        BlockUnit::OneCopy => copying(alloc, true, rules, first),
        BlockUnit::Message | BlockUnit::Row | BlockUnit::Tuple | BlockUnit::Group => {
            sharing(alloc, rules, first)
        }
    }
}

/// What a block has to give over these links, and nothing that it copies.
fn sharing(
    alloc: Global,
    rules: Vec<LinkRule>,
    first: MessageHeader,
) -> Result<(Outlet, Spread), Vec<LinkRule>>
    ensures { MatchResult result (λ made. (made.0 ≡ fresh_outlet rules.items first) ×
        (made.1 ≡ fresh_spread false [] first)) (λ back. back ≡ rules) }
{
    let Ok(copies) = Spread::new(alloc, Vec::new(alloc), first) else {
        return Err(rules);
    };
    match Outlet::new(alloc, rules, first) {
        Ok(exits) => Ok((exits, copies)),
        Err(rules) => Err(rules),
    }
}

/// What a block copies to these links, once or each time, and nothing that it has to give.
fn copying(
    alloc: Global,
    once: bool,
    rules: Vec<LinkRule>,
    first: MessageHeader,
) -> Result<(Outlet, Spread), Vec<LinkRule>>
    ensures { MatchResult result (λ made. (made.0 ≡ fresh_outlet [] first) ×
        (made.1 ≡ fresh_spread once rules.items first)) (λ back. back ≡ rules) }
{
    let Ok(exits) = Outlet::new(alloc, Vec::new(alloc), first) else {
        return Err(rules);
    };
    match copies_of(alloc, once, rules, first) {
        Ok(copies) => Ok((exits, copies)),
        Err(rules) => Err(rules),
    }
}

// the copies alone
fn copies_of(
    alloc: Global,
    once: bool,
    rules: Vec<LinkRule>,
    first: MessageHeader,
) -> Result<Spread, Vec<LinkRule>>
    ensures { MatchResult result (λ copies. copies ≡ fresh_spread once rules.items first) (λ back. back ≡ rules) }
{
    if once {
        Spread::new_once(alloc, rules, first)
    } else {
        Spread::new(alloc, rules, first)
    }
}

/// What the element counts: nothing, where no link owes it.
#[inline(always)]
pub(crate) fn copies_left(copies: &Spread) -> u32
    ensures { result ≡ copies_left copies.now }
{
    if copies.owing_count() == 0 { 0 } else { 1 }
}

/// What the element takes of the block's room: at a block that takes one message in all, it does for good.
#[inline(always)]
pub(crate) fn copies_weight(copies: &Spread) -> u32
    ensures { result ≡ copies_weight copies.now }
{
    if copies.is_once() {
        u32::from(copies.element().is_some())
    } else {
        copies_left(copies)
    }
}

/// The room of the element comes back to the ports, where it counted and does no more.
#[inline(always)]
pub(crate) fn give_back(ports: &mut Vec<Intake>, counted: u32, copies: &Spread)
    requires { AllGaveOut (counted - copies_weight copies.now) ports.old.items }
    ensures { ports.new.items ≡ map (gives_room (counted - copies_weight copies.now)) ports.old.items }
{
    give_room(ports, counted.saturating_sub(copies_weight(copies)));
}

// What it copies.
impl Block {
    /// Copies the message that waits longest from now on. Where message ids are used up, nothing has changed.
    pub fn copy_next(&mut self) -> Result<(), OutletFault>
        requires alone { length self.old.ports ≡ 1 }
        requires waits { 0 < length (held_by self.old) }
        requires free { is_spread_free self.old.copies ≡ true }
        ensures done { OnOk result (self.new ≡ copies_next (first_of (held_by self.old)) self.old) }
        ensures kept { OnErr result (self.new ≡ self.old) }
        ensures ids { (result ≡ Err Ids) ↔ (2 ^ 59 ≤ self.old.copies.id + 1) }
        ensures only_ids { IfErr result (λ fault. fault ≡ Ids) }
    {
        if self.copies.id() >= MAX_ID {
            return Err(OutletFault::Ids);
        }
        self.copy_first();
        Ok(())
    }

    /// Copies the message that waits longest from now on. There is an id for it.
    fn copy_first(&mut self)
        requires alone { length self.old.ports ≡ 1 }
        requires waits { 0 < length (held_by self.old) }
        requires free { is_spread_free self.old.copies ≡ true }
        requires ids { self.old.copies.id + 1 < 2 ^ 59 }
        ensures { self.new ≡ copies_next (first_of (held_by self.old)) self.old }
    {
        let port = &mut self.ports[0];
        let Some(value) = port.take_next() else {
            unreachable!()
        };
        let Ok(()) = self.copies.put(value) else {
            unreachable!()
        };
        port.give_room((1 - copies_weight(&self.copies)) as usize);
    }

    /// Copies at once what it has taken, if it takes one message in all.
    pub(crate) fn copy_taken(&mut self)
        ensures { self.new ≡ copies_taken self.old }
    {
        if self.copies_at_once() {
            self.copy_first();
        }
    }

    /// Whether it takes one message in all, and has it to copy: nothing was copied before.
    fn copies_at_once(&self) -> bool
        ensures { result ≡ copies_at_once self.now }
    {
        self.kind.unit().copies_one()
            && self.ports.len() == 1
            && holds_first(&self.ports)
            && self.copies.is_free()
            && self.copies.id() < MAX_ID
    }
}

// The source's side of each move, and the looks, at a link over which copies go.
impl Block {
    /// Offers the element over the link at this place, and tells its header. What the link is to have is made first.
    #[inline(always)]
    pub fn offer_copy(&mut self, alloc: Global, place: usize) -> Result<MessageHeader, AllocError>
        requires there { place < length self.old.copies.ends }
        requires may { may_offer place self.old.copies ≡ true }
        ensures header { IfOk result (λ header. header ≡ self.old.copies.id) }
        ensures done { OnOk result (self.new ≡ with_copies (offers place (prepares place self.old.copies)) self.old) }
        ensures kept { OnErr result (self.new ≡ self.old) }
    {
        let counted = copies_weight(&self.copies);
        self.copies.prepare_offer(alloc, place)?;
        let header = self.copies.offer(place);
        give_back(&mut self.ports, counted, &self.copies);
        Ok(header)
    }

    /// Looks at the phase of the link at this place.
    pub fn look_copy(&mut self, place: usize, phase: Phase)
        requires { place < length self.old.copies.ends }
        ensures { self.new ≡ with_copies (looks place phase self.old.copies) self.old }
    {
        let counted = copies_weight(&self.copies);
        self.copies.look_out(place, phase);
        give_back(&mut self.ports, counted, &self.copies);
    }

    /// Gives the element over the link at this place, where it is wanted: a copy for a journal, and a parcel.
    pub fn give_copy(&mut self, place: usize) -> (Value, Parcel)
        requires there { place < length self.old.copies.ends }
        requires wanted { may_give place self.old.copies ≡ true }
        requires ready { is_some (end_at self.old.copies place).share ≡ true }
        requires room { HasRoom (link_at self.old.copies place).rule.max (link_at self.old.copies place).given }
        ensures own { self.old.copies.element ≡ Some result.0 }
        ensures parcel { result.1 ≡ result.0 }
        ensures given { self.new ≡ with_copies (gives place self.old.copies) self.old }
    {
        let counted = copies_weight(&self.copies);
        let given = self.copies.give(place);
        give_back(&mut self.ports, counted, &self.copies);
        given
    }

    /// Sends the element over the link at this place, where it is offered, to a target that takes it at once: a copy for a
    /// journal, and a parcel.
    #[inline(always)]
    pub fn send_copy(&mut self, place: usize) -> (Value, Parcel)
        requires there { place < length self.old.copies.ends }
        requires offered { stage_at self.old.copies place ≡ Out self.old.copies.id }
        requires ready { is_some (end_at self.old.copies place).share ≡ true }
        requires room { HasRoom (link_at self.old.copies place).rule.max (link_at self.old.copies place).given }
        ensures own { self.old.copies.element ≡ Some result.0 }
        ensures parcel { result.1 ≡ result.0 }
        ensures sent { self.new ≡ with_copies (sends place self.old.copies) self.old }
    {
        let counted = copies_weight(&self.copies);
        let sent = self.copies.send(place);
        give_back(&mut self.ports, counted, &self.copies);
        sent
    }

    /// Keeps the element for the target that asks for it over the link at this place.
    pub fn hold_copy(&mut self, place: usize)
        requires there { place < length self.old.copies.ends }
        requires asks { is_asked_by (stage_at self.old.copies place) ≡ true }
        ensures { self.new ≡ with_copies (holds place self.old.copies) self.old }
    {
        let counted = copies_weight(&self.copies);
        self.copies.hold(place);
        give_back(&mut self.ports, counted, &self.copies);
    }

    /// Withdraws the offer that was postponed over the link at this place. The element is not offered there again.
    pub fn withdraw_copy(&mut self, place: usize)
        requires there { place < length self.old.copies.ends }
        requires waits { is_waiting (stage_at self.old.copies place) ≡ true }
        ensures { self.new ≡ with_copies (withdraws place self.old.copies) self.old }
    {
        let counted = copies_weight(&self.copies);
        self.copies.withdraw(place);
        give_back(&mut self.ports, counted, &self.copies);
    }

    /// Ends the link at this place.
    pub fn end_copy(&mut self, place: usize, how: LinkEnd)
        requires there { place < length self.old.copies.ends }
        requires free { is_free (stage_at self.old.copies place) ≡ true }
        ensures { self.new ≡ with_copies (ends_link place how self.old.copies) self.old }
    {
        let counted = copies_weight(&self.copies);
        self.copies.end(place, how);
        give_back(&mut self.ports, counted, &self.copies);
    }
}
