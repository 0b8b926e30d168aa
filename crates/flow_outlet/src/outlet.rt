//! What a block has to give, and its ends of the links that lead out of it.
ghost use Rattle.std.specs.Prelude.{◌≡◌, ◌<◌, ◌≤◌, ◌+◌, ◌-◌, ◌^◌, ◌++◌, ◌∷◌, ◌==◌, ◌↔◌, length, true, false, is_some};
ghost use Rattle.std.specs.Prelude.{Some, None, Err, IfOk, IfErr, OnOk, OnErr, MatchResult, cond, drop, map, []};
ghost use Rattle.std.specs.Option.{option_copied, ForSome};
ghost use Rattle.std.specs.VecDeque.{deque_capacity};
ghost use Rattle.flow_link.specs.LinkOk.{HasRoom};
ghost use Rattle.flow_outlet.specs.ByLink.{offer_named, offers_next, IsAsked, answered, MayConsume, consumed};
ghost use Rattle.flow_outlet.specs.ByLink.{MayReserve, tests_reserve, reserved, reserves, IsReserved, tests_reserved};
ghost use Rattle.flow_outlet.specs.ByLink.{releases, forgets_all, is_kept_elsewhere};
ghost use Rattle.flow_outlet.specs.ByLink.{consumes, place_of, forgets, tests_asked, tests_consume};
ghost use Rattle.flow_outlet.specs.End.{count_at, is_away, is_waiting, is_free, is_cut, place_in, fresh_end};
ghost use Rattle.flow_outlet.specs.Fits.{weight_of};
ghost use Rattle.flow_outlet.specs.Outlet.{changes, recounted, first_of, head_of, is_empty, fresh_outlet, lacks_ids, puts};
ghost use Rattle.flow_outlet.specs.Outlet.{lacks_ids_for, sets_aside, puts_aside};
ghost use Rattle.flow_outlet.specs.Outlet.{groups_with, groups_after, weight_at, may_offer, prepares, offers, looks};
ghost use Rattle.flow_outlet.specs.Outlet.{gives, may_give, is_wish, denies, withdraws, ends_link, out_move, free_move};
ghost use Rattle.flow_outlet.specs.Outlet.{answers_wish, end_at, stage_at, is_at_rest, only_waits};
ghost use Rattle.flow_outlet.specs.Outlet.{is_renewing, has_offer_out, may_hold, holds};
ghost use Rattle.flow_outlet.specs.End.{waits_with};
ghost use Rattle.std.specs.List.{list_any};
ghost use Rattle.flow_link.specs.Stage.{source_is_released};
ghost use Rattle.flow_outlet.specs.Sends.{sends};
ghost use Rattle.flow_outlet.specs.declared.fault.OutletFault.TheVariants.{Ids, Memory};

use crate::ends::{
    LinkRule, OutEnd, cursor_after, first_from, forget_answers, forget_waiting, place_of,
};
use crate::fault::OutletFault;
use crate::group::Group;
use flow_link::{LinkEnd, LinkId, Move, Outcome, Phase, SourceStage};
use flow_value::{MAX_ID, MessageHeader, MessageStatus, Parcel, Value};
use std::alloc::{AllocError, Global};
use std::collections::VecDeque;
use std::marker::Model;

/// The messages that a block has to give, and its ends of the links over which they go. It gives each message once.
///
/// Contracts see an `OutletState`.
#[derive(Drop)]
pub struct Outlet {
    pub(crate) ends: Vec<OutEnd>,
    pub(crate) left: VecDeque<Value>,
    pub(crate) next: u64,
    pub(crate) offer: Option<usize>,
    pub(crate) renewing: bool,
    pub(crate) parcel: Option<Parcel>,
    pub(crate) groups: VecDeque<Group>,
    pub(crate) room: u32,
    // the first place that the head does not go past
    pub(crate) cursor: usize,
    // how many ends are under way, and how many of them only wait
    pub(crate) away: usize,
    pub(crate) waiting: usize,
    // for how many more values memory and ids are set aside
    pub(crate) spare: usize,
}

impl Model for Outlet {
    ghost use Rattle.std.specs.Coded.{codes};
    ghost use Rattle.std.specs.VecDeque.{deque_capacity};
    ghost use Rattle.flow_value.specs.contracts.value.Value as content;
    ghost use Rattle.flow_outlet.specs.Outlet.{OutletState};
    ghost use Rattle.flow_outlet.specs.Fits.{Fits};

    ghost Value = { OutletState };

    ghost coded = { Prim.hlevel (codes, content.the_row.coded) };

    ghost view = { λ o. record {
      ends = o.ends.items;
      left = o.left.items;
      next = o.next;
      offer = o.offer;
      renewing = o.renewing;
      parcel = o.parcel;
      groups = o.groups.items;
      room = o.room;
      spare = o.spare;
    } };

    ghost invariant = { λ o. Fits o.ends.items o.left.items o.next o.parcel o.groups.items o.room o.cursor o.away
        o.waiting o.spare (deque_capacity o.left) (deque_capacity o.groups) };
}

impl Outlet {
    /// An outlet with these links, which counts its messages from this id on. Where there is no memory for it, the
    /// rules come back.
    pub fn new(
        alloc: Global,
        rules: Vec<LinkRule>,
        first: MessageHeader,
    ) -> Result<Outlet, Vec<LinkRule>>
        ensures { MatchResult result (λ outlet. outlet ≡ fresh_outlet rules.items first)
            (λ back. back ≡ rules) }
    {
        let Ok(ends) = fresh_ends(alloc, &rules) else {
            return Err(rules);
        };
        let cursor = first_from(&ends, 0, first.id(), None);
        Ok(Outlet {
            ends,
            left: VecDeque::new(alloc),
            next: first.id(),
            offer: None,
            renewing: false,
            parcel: None,
            groups: VecDeque::new(alloc),
            room: 0,
            cursor,
            away: 0,
            waiting: 0,
            spare: 0,
        })
    }

    /// The ends of its links, in the order of the links.
    pub fn ends(&self) -> &[OutEnd]
        ensures { result.now ≡ self.now.ends }
    {
        self.ends.as_slice()
    }

    /// What was put and is not given, oldest first.
    pub fn left(&self) -> &VecDeque<Value>
        ensures { result.now.items ≡ self.now.left }
    {
        &self.left
    }

    /// The id of the message that is given next.
    pub fn next(&self) -> u64
        ensures value { result ≡ self.now.next }
        ensures begins { 1 ≤ self.now.next }
        ensures fits { self.now.next + length self.now.left + self.now.spare ≤ 2 ^ 59 }
    {
        self.next
    }

    /// Whether nothing is under way over a link, or waits there.
    pub fn is_at_rest(&self) -> bool
        ensures { result ≡ is_at_rest self.now }
    {
        self.away == 0
    }

    /// Over how many links something is under way, or waits there.
    pub fn away_count(&self) -> usize
        ensures { result ≡ count_at is_away self.now.ends }
    {
        self.away
    }

    /// Whether all that is under way over a link waits there to be wished for.
    pub fn only_waits(&self) -> bool
        ensures { result ≡ only_waits self.now }
    {
        self.away == self.waiting
    }

    /// The weights of what was put and is not told by [`Outlet::room_back`].
    pub fn weight(&self) -> u32
        ensures { result ≡ self.now.room + weight_of self.now.groups }
    {
        self.room + weight_in(&self.groups)
    }

    /// Takes the values of one result, to give them in order; its weight comes back as room when they are all given.
    pub fn put(&mut self, values: Vec<Value>, weight: u32) -> Result<(), (Vec<Value>, OutletFault)>
        requires { self.old.room + weight_of self.old.groups + weight < 2 ^ 32 }
        ensures done { OnOk result (self.new ≡ puts values.items weight self.old) }
        ensures kept { OnErr result (self.new ≡ self.old) }
        ensures back { IfErr result (λ refused. refused.0 ≡ values) }
        ensures ids { (result ≡ Err (values, Ids)) ↔ (lacks_ids values.items self.old ≡ true) }
    {
        if self.lacks_ids_of(&values) {
            return Err((values, OutletFault::Ids));
        }
        let count = count(&values);
        let (space, slots) = (self.spare + count, self.spare + 1);
        let Ok(()) = make_room(&mut self.left, &mut self.groups, space, slots) else {
            return Err((values, OutletFault::Memory));
        };
        let start = self.next + left_count(&self.left);
        add_group(&mut self.groups, start, count, weight);
        self.room += weight_at_once(count, weight);
        let was_empty = is_empty(&self.left);
        append(&mut self.left, values);
        let head = front(&self.left);
        self.cursor = cursor_with(was_empty, self.cursor, &self.ends, self.next, head);
        Ok(())
    }

    /// Takes one value, as [`Outlet::put`] does, without a list of it.
    #[inline(always)]
    pub fn put_one(&mut self, value: Value, weight: u32) -> Result<(), (Value, OutletFault)>
        requires { self.old.room + weight_of self.old.groups + weight < 2 ^ 32 }
        ensures done { OnOk result (self.new ≡ puts (value ∷ []) weight self.old) }
        ensures kept { OnErr result (self.new ≡ self.old) }
        ensures back { IfErr result (λ refused. refused.0 ≡ value) }
        ensures ids { (result ≡ Err (value, Ids)) ↔ (lacks_ids (value ∷ []) self.old ≡ true) }
    {
        let start = self.next + left_count(&self.left);
        if start + self.spare as u64 > MAX_ID {
            return Err((value, OutletFault::Ids));
        }
        let more = self.spare + 1;
        let Ok(()) = make_room(&mut self.left, &mut self.groups, more, more) else {
            return Err((value, OutletFault::Memory));
        };
        add_group(&mut self.groups, start, 1, weight);
        let was_empty = is_empty(&self.left);
        self.left.push_back_reserved(value);
        let head = front(&self.left);
        self.cursor = cursor_with(was_empty, self.cursor, &self.ends, self.next, head);
        Ok(())
    }

    fn lacks_ids_of(&self, values: &Vec<Value>) -> bool
        ensures { result ≡ lacks_ids values.now.items self.now }
    {
        self.lacks_ids(values.len())
    }

    /// Whether message ids are wanting for so many values more. An id is at most 2^59 - 1.
    pub fn lacks_ids(&self, count: usize) -> bool
        ensures { result ≡ lacks_ids_for count self.now }
    {
        count as u64 > self.free_ids()
    }

    // how many ids are neither used nor set aside
    #[inline]
    fn free_ids(&self) -> u64
        ensures { result + (self.now.next + length self.now.left + self.now.spare) ≡ 2 ^ 59 }
    {
        MAX_ID + 1 - self.next - self.left.len() as u64 - self.spare as u64
    }

    /// Sets memory and ids aside for so many values more, which [`Outlet::put_aside`] then takes without fail.
    pub fn set_aside(&mut self, count: usize) -> Result<(), OutletFault>
        ensures done { OnOk result (self.new ≡ sets_aside count self.old) }
        ensures kept { OnErr result (self.new ≡ self.old) }
        ensures ids { (result ≡ Err Ids) ↔ (lacks_ids_for count self.old ≡ true) }
    {
        if self.lacks_ids(count) {
            return Err(OutletFault::Ids);
        }
        let spare = self.spare + count;
        let Ok(()) = make_room(&mut self.left, &mut self.groups, spare, spare) else {
            return Err(OutletFault::Memory);
        };
        self.spare = spare;
        Ok(())
    }

    /// Takes the values of one result, as [`Outlet::put`] does, where memory and ids are set aside for them.
    pub fn put_aside(&mut self, values: Vec<Value>, weight: u32)
        requires weight { self.old.room + weight_of self.old.groups + weight < 2 ^ 32 }
        requires aside { length values.items ≤ self.old.spare }
        ensures { self.new ≡ puts_aside values.items weight self.old }
    {
        let count = count(&values);
        let start = self.next + left_count(&self.left);
        add_group(&mut self.groups, start, count, weight);
        self.room += weight_at_once(count, weight);
        let was_empty = is_empty(&self.left);
        append(&mut self.left, values);
        let head = front(&self.left);
        self.cursor = cursor_with(was_empty, self.cursor, &self.ends, self.next, head);
        self.spare -= count;
    }

    /// The place of the end over which the head is offered next, if it may be offered now.
    #[inline(always)]
    pub fn may_offer(&self) -> Option<usize>
        ensures { result ≡ may_offer self.now }
    {
        if self.left.is_empty() || self.offer.is_some() || self.is_renewing() {
            return None;
        }
        match self.ends.get(self.cursor) {
            Some(end) if end.is_free() => Some(self.cursor),
            _ => None,
        }
    }

    /// Whether the head was released, and still waits somewhere.
    #[inline(always)]
    fn is_renewing(&self) -> bool
        ensures { result ≡ is_renewing self.now }
    {
        self.renewing && some_waits(&self.ends, self.next)
    }

    /// Whether an offer is out: not answered yet, or accepted and not given yet.
    pub(crate) fn has_offer_out(&self) -> bool
        ensures { result ≡ has_offer_out self.now }
    {
        match self.offer {
            Some(place) => place < self.ends.len() && self.ends[place].is_out(),
            None => false,
        }
    }

    /// What the end at a place does next by itself, if anything. The block tells whether it has stopped, and whether it
    /// could stop or begin anew but for what waits over its links.
    #[inline(always)]
    pub fn out_move(&self, place: usize, stopped: Option<Outcome>, held_up: bool) -> Option<Move>
        requires { place < length self.now.ends }
        ensures { result ≡ out_move place stopped held_up self.now }
    {
        let end = &self.ends[place];
        match end.stage {
            SourceStage::Free => match end.ending(stopped) {
                Some(how) => Some(Move::End(how)),
                None => self.next_move(place),
            },
            SourceStage::Accepted(_) | SourceStage::Claimed(_) => Some(Move::Give),
            SourceStage::Wished(header) => self.answer_to(Move::Give, header),
            SourceStage::AskedBy(header) => self.answer_to(Move::Hold, header),
            SourceStage::Waiting(header) if held_up || self.renewing || header.id() != self.next =>
                { Some(Move::Withdraw) }
            SourceStage::Posted(_)
            | SourceStage::Out(_)
            | SourceStage::Waiting(_)
            | SourceStage::Reserved(_)
            | SourceStage::Crossing
            | SourceStage::Refused
            | SourceStage::Ended(_) => None,
        }
    }

    // offers the head, where it may be offered over the link at a place
    #[inline(always)]
    fn next_move(&self, place: usize) -> Option<Move>
        ensures { result ≡ free_move self.now place None }
    {
        if self.may_offer() == Some(place) {
            MessageHeader::new(self.next).map(Move::Offer)
        } else {
            None
        }
    }

    // a wish is answered only while no offer is out: so, or by a denial where the message is not there for it
    fn answer_to(&self, so: Move, header: MessageHeader) -> Option<Move>
        ensures { result ≡ answers_wish so header self.now }
    {
        if self.has_offer_out() {
            None
        } else if header.id() == self.next && self.offer.is_none() {
            Some(so)
        } else {
            Some(Move::Deny)
        }
    }

    /// Makes the parcel of the head, unless it is made.
    #[inline(always)]
    pub fn prepare_offer(&mut self, alloc: Global) -> Result<(), AllocError>
        ensures done { OnOk result (self.new ≡ prepares self.old) }
        ensures kept { OnErr result (self.new ≡ self.old) }
    {
        if self.parcel.is_some() {
            return Ok(());
        }
        if let Some(value) = front(&self.left) {
            self.parcel = Some(Parcel::of(alloc, value)?);
        }
        Ok(())
    }

    /// Whether the parcel of the head is made.
    pub fn is_ready(&self) -> bool
        ensures { result ≡ is_some self.now.parcel }
    {
        self.parcel.is_some()
    }

    /// Offers the head over the link at the place where it may be offered, and tells its header.
    pub fn offer(&mut self, place: usize) -> MessageHeader
        requires may { may_offer self.old ≡ Some place }
        requires ready { is_some self.old.parcel ≡ true }
        ensures header { result ≡ self.old.next }
        ensures out { self.new ≡ offers place self.old }
    {
        let Some(header) = MessageHeader::new(self.next) else {
            unreachable!()
        };
        self.restage(place, SourceStage::Out(header));
        self.offer = Some(place);
        self.renewing = false;
        header
    }

    /// Looks at the phase of the link at a place.
    pub fn look_out(&mut self, place: usize, phase: Phase)
        requires { place < length self.old.ends }
        ensures { self.new ≡ looks place phase self.old }
    {
        let released = is_released(&self.ends[place], &phase);
        let stage = self.ends[place].stage.look(phase);
        self.restage(place, stage);
        if self.offer == Some(place) && !self.ends[place].is_spoken_for() {
            self.offer = None;
        }
        self.renewing = self.renewing || released;
    }

    /// Gives the head over the link at a place, where it is wanted: the message for the block's own account, and its
    /// parcel.
    pub fn give(&mut self, place: usize) -> (Value, Parcel)
        requires there { place < length self.old.ends }
        requires wanted { may_give place self.old ≡ true }
        requires ready { is_some self.old.parcel ≡ true }
        requires room { HasRoom (end_at self.old place).rule.max (end_at self.old place).given }
        ensures oldest { self.old.left ≡ result.0 ∷ self.new.left }
        ensures same { result.1 ≡ result.0 }
        ensures given { self.new ≡ gives place self.old }
    {
        let head = taken(&mut self.left, &mut self.parcel);
        let before = self.ends[place];
        self.ends[place] = before.gave(self.next);
        self.away = recounted(self.away, before.is_away(), true);
        self.waiting = recounted(self.waiting, before.is_waiting(), false);
        self.room += end_group(&mut self.groups, self.next);
        self.next += 1;
        self.offer = None;
        self.renewing = false;
        self.cursor = first_from(&self.ends, 0, self.next, front(&self.left));
        head
    }

    /// Sends the head over the link at the place where it may be offered, to a target that takes it at once: the
    /// message for the block's own account, and its parcel, which is made first. Where memory is out, nothing has changed.
    #[inline(always)]
    pub fn send(&mut self, alloc: Global, place: usize) -> Result<(Value, Parcel), AllocError>
        requires may { may_offer self.old ≡ Some place }
        requires room { HasRoom (end_at self.old place).rule.max (end_at self.old place).given }
        ensures oldest { IfOk result (λ sent. self.old.left ≡ sent.0 ∷ self.new.left) }
        ensures same { IfOk result (λ sent. sent.1 ≡ sent.0) }
        ensures sent { OnOk result (self.new ≡ sends place self.old) }
        ensures kept { OnErr result (self.new ≡ self.old) }
    {
        let parcel = self.parcel_to_send(alloc)?;
        let head = pop_head(&mut self.left);
        self.ends[place].note_sent(self.next);
        self.room += end_group(&mut self.groups, self.next);
        self.next += 1;
        self.renewing = false;
        self.cursor = first_from(&self.ends, 0, self.next, front(&self.left));
        Ok((head, parcel))
    }

    // the parcel of the head, which is made where it was not
    #[inline(always)]
    fn parcel_to_send(&mut self, alloc: Global) -> Result<Parcel, AllocError>
        requires { is_empty self.old.left ≡ false }
        ensures same { IfOk result (λ parcel. head_of self.old ≡ Some parcel) }
        ensures taken { OnOk result (self.new ≡ record self.old { parcel = None }) }
        ensures kept { OnErr result (self.new ≡ self.old) }
    {
        if self.parcel.is_some() {
            return Ok(self.take_parcel());
        }
        let Some(head) = front(&self.left) else {
            unreachable!()
        };
        Parcel::of(alloc, head)
    }

    // the parcel that was made before
    #[cold]
    #[inline(never)]
    fn take_parcel(&mut self) -> Parcel
        requires { is_some self.old.parcel ≡ true }
        ensures same { head_of self.old ≡ Some result }
        ensures taken { self.new ≡ record self.old { parcel = None } }
    {
        let Some(parcel) = self.parcel.take() else {
            unreachable!()
        };
        parcel
    }

    /// Keeps the head for the target that asks to reserve it over the link at a place.
    pub fn hold(&mut self, place: usize)
        requires there { place < length self.old.ends }
        requires asked { may_hold place self.old ≡ true }
        ensures { self.new ≡ holds place self.old }
    {
        if let SourceStage::AskedBy(header) = self.ends[place].stage {
            self.restage(place, SourceStage::Reserved(header));
            self.offer = Some(place);
        }
    }

    /// Denies the wish for a message over the link at a place.
    pub fn deny(&mut self, place: usize)
        requires there { place < length self.old.ends }
        requires wish { is_wish (stage_at self.old place) ≡ true }
        ensures { self.new ≡ denies place self.old }
    {
        self.restage(place, SourceStage::Free);
    }

    /// Withdraws the offer that was postponed over the link at a place. That message is not offered there again, unless it
    /// is to be offered anew.
    pub fn withdraw(&mut self, place: usize)
        requires there { place < length self.old.ends }
        requires waits { is_waiting (stage_at self.old place) ≡ true }
        ensures { self.new ≡ withdraws place self.old }
    {
        let declined = match self.ends[place].id() {
            _ if self.renewing => self.ends[place].declined,
            Some(header) => header.id(),
            None => 0,
        };
        self.change(place, SourceStage::Free, declined);
    }

    /// Ends the link at a place.
    pub fn end(&mut self, place: usize, how: LinkEnd)
        requires there { place < length self.old.ends }
        requires free { is_free (stage_at self.old place) ≡ true }
        ensures { self.new ≡ ends_link place how self.old }
    {
        self.restage(place, SourceStage::Ended(how));
    }

    /// How much room came back with the results that were wholly given since this was asked last.
    pub fn room_back(&mut self) -> u32
        ensures room { result ≡ self.old.room }
        ensures told { self.new ≡ record self.old { room = 0 } }
    {
        let room = self.room;
        self.room = 0;
        room
    }

    // puts the end at a place to a stage
    pub(crate) fn restage(&mut self, place: usize, stage: SourceStage)
        requires { place < length self.old.ends }
        ensures { self.new ≡ changes place stage (end_at self.old place).declined self.old }
    {
        let declined = self.ends[place].declined;
        self.change(place, stage, declined);
    }

    // puts the end at a place to a stage
    pub(crate) fn change(&mut self, place: usize, stage: SourceStage, declined: u64)
        requires { place < length self.old.ends }
        ensures { self.new ≡ changes place stage declined self.old }
    {
        let before = self.ends[place];
        let after = OutEnd {
            declined,
            stage,
            ..before
        };
        self.ends[place] = after;
        self.away = recounted(self.away, before.is_away(), after.is_away());
        self.waiting = recounted(self.waiting, before.is_waiting(), after.is_waiting());
        let head = front(&self.left);
        self.cursor = cursor_after(&self.ends, place, self.cursor, self.next, head);
    }
}

// whether a look that finds this phase tells that the target released the message that was kept for it
fn is_released(end: &OutEnd, phase: &Phase) -> bool
    ensures { result ≡ source_is_released end.now.stage phase.now }
{
    matches!(end.stage, SourceStage::Reserved(_))
        && matches!(
            phase,
            Phase::Postponed(_) | Phase::Asked(_) | Phase::Refused
        )
}

// whether the message with this id waits over a link
fn some_waits(ends: &[OutEnd], id: u64) -> bool
    ensures { result ≡ list_any (waits_with id) ends.now }
{
    ends.iter().any(|end| end.waits_with(id))
}

// the head, and its parcel
#[inline(always)]
fn taken(left: &mut VecDeque<Value>, parcel: &mut Option<Parcel>) -> (Value, Parcel)
    requires ready { is_some parcel.old ≡ true }
    requires made { ForSome parcel.old (λ value. first_of left.old.items ≡ Some value) }
    ensures oldest { left.old.items ≡ result.0 ∷ left.new.items }
    ensures same { result.1 ≡ result.0 }
    ensures none { parcel.new ≡ None }
    ensures capacity { deque_capacity left.new ≡ deque_capacity left.old }
{
    let (Some(value), Some(parcel)) = (left.pop_front(), parcel.take()) else {
        unreachable!()
    };
    (value, parcel)
}

// the head alone
#[inline(always)]
fn pop_head(left: &mut VecDeque<Value>) -> Value
    requires { is_empty left.old.items ≡ false }
    ensures oldest { left.old.items ≡ result ∷ left.new.items }
    ensures capacity { deque_capacity left.new ≡ deque_capacity left.old }
{
    let Some(value) = left.pop_front() else {
        unreachable!()
    };
    value
}

#[inline]
pub(crate) fn front(left: &VecDeque<Value>) -> Option<&Value>
    ensures { option_copied result ≡ first_of left.now.items }
{
    left.front()
}

// a count, where one end counted before and counts now
fn recounted(count: usize, before: bool, now: bool) -> usize
    requires counted { before ≡ true → 0 < count }
    requires fits { count < 2 ^ 63 }
    ensures { result ≡ recounted count before now }
{
    if before == now {
        count
    } else if now {
        count + 1
    } else {
        count - 1
    }
}

fn fresh_ends(alloc: Global, rules: &[LinkRule]) -> Result<Vec<OutEnd>, AllocError>
    ensures { IfOk result (λ ends. ends.items ≡ map fresh_end rules.now) }
{
    rules.iter().map(|rule| OutEnd::new(*rule)).collect(alloc)
}

fn count(values: &[Value]) -> usize
    ensures count { result ≡ length values.now }
    ensures small { result < 2 ^ 63 }
{
    values.len()
}

fn left_count(left: &VecDeque<Value>) -> u64
    ensures { result ≡ length left.now.items }
{
    left.len() as u64
}

pub(crate) fn is_empty(left: &VecDeque<Value>) -> bool
    ensures { result ≡ is_empty left.now.items }
{
    left.is_empty()
}

// memory for so many values more, and so many groups more
#[inline(always)]
fn make_room(
    left: &mut VecDeque<Value>,
    groups: &mut VecDeque<Group>,
    space: usize,
    slots: usize,
) -> Result<(), AllocError>
    ensures left { left.new.items ≡ left.old.items }
    ensures groups { groups.new.items ≡ groups.old.items }
    ensures space { OnOk result (length left.old.items + space ≤ deque_capacity left.new) }
    ensures slots { OnOk result (length groups.old.items + slots ≤ deque_capacity groups.new) }
    ensures no_less { deque_capacity left.old ≤ deque_capacity left.new }
    ensures no_fewer { deque_capacity groups.old ≤ deque_capacity groups.new }
{
    if space <= left.capacity() - left.len() && slots <= groups.capacity() - groups.len() {
        return Ok(());
    }
    grow(left, groups, space, slots)
}

// Cold, since memory for as many values again is taken each time.
#[cold]
#[inline(never)]
fn grow(
    left: &mut VecDeque<Value>,
    groups: &mut VecDeque<Group>,
    space: usize,
    slots: usize,
) -> Result<(), AllocError>
    ensures left { left.new.items ≡ left.old.items }
    ensures groups { groups.new.items ≡ groups.old.items }
    ensures space { OnOk result (length left.old.items + space ≤ deque_capacity left.new) }
    ensures slots { OnOk result (length groups.old.items + slots ≤ deque_capacity groups.new) }
    ensures no_less { deque_capacity left.old ≤ deque_capacity left.new }
    ensures no_fewer { deque_capacity groups.old ≤ deque_capacity groups.new }
{
    left.reserve(space)?;
    groups.reserve(slots)
}

fn append(left: &mut VecDeque<Value>, values: Vec<Value>)
    requires { length left.old.items + length values.items ≤ deque_capacity left.old }
    ensures items { left.new.items ≡ left.old.items ++ values.items }
    ensures capacity { deque_capacity left.old ≤ deque_capacity left.new }
{
    let mut values = VecDeque::from_vec(values);
    let Ok(()) = left.append(&mut values) else {
        unreachable!()
    };
}

fn weight_in(groups: &VecDeque<Group>) -> u32
    requires { weight_of groups.now.items < 2 ^ 32 }
    ensures { result ≡ weight_of groups.now.items }
{
    let mut total = 0;
    for place in 0..groups.len() {
        total += groups[place].weight;
    }
    total
}

// the weight of a result that has no message comes back at once
fn weight_at_once(count: usize, weight: u32) -> u32
    ensures { result ≡ cond (count == 0) weight 0 }
{
    if count == 0 { weight } else { 0 }
}

// the first place that the head does not go past: where nothing was left, there is a new head
#[inline(always)]
fn cursor_with(
    was_empty: bool,
    cursor: usize,
    ends: &[OutEnd],
    next: u64,
    head: Option<&Value>,
) -> usize
    ensures { result ≡ cond was_empty (0 + place_in next (option_copied head.entry) (drop 0 ends.now)) cursor }
{
    if was_empty {
        first_from(ends, 0, next, head)
    } else {
        cursor
    }
}

// keeps the weight of a result that has so many messages, from this id on
fn add_group(groups: &mut VecDeque<Group>, start: u64, count: usize, weight: u32)
    requires room { 0 < count → length groups.old.items < deque_capacity groups.old }
    requires fits { start + count < 2 ^ 64 }
    ensures groups { groups.new.items ≡ groups_with start count weight groups.old.items }
    ensures capacity { deque_capacity groups.new ≡ deque_capacity groups.old }
{
    if count != 0 && weight != 0 {
        let until = start + (count as u64 - 1);
        groups.push_back_reserved(Group { until, weight });
    }
}

// drops the group that the message ends, and tells its weight
#[inline]
fn end_group(groups: &mut VecDeque<Group>, id: u64) -> u32
    ensures rest { groups.new.items ≡ groups_after id groups.old.items }
    ensures weight { result ≡ weight_at id groups.old.items }
    ensures capacity { deque_capacity groups.new ≡ deque_capacity groups.old }
{
    match groups.front() {
        Some(group) if group.until == id => {
            let weight = group.weight;
            groups.pop_front();
            weight
        }
        _ => 0,
    }
}
