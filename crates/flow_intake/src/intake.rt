//! One port, and its side of each move.
//!
//! A move that takes memory has two calls. `prepare_answer` takes it, and may be refused; what follows takes none and
//! does not fail, from the answer until the message is taken.
ghost use Rattle.std.specs.Prelude.{◌≡◌, ◌<◌, ◌≤◌, ◌+◌, ◌-◌, true, false, ◌++◌, ◌∷◌, [], ◌^◌, length, OnOk, OnErr, is_none};
ghost use Rattle.std.specs.Prelude.{ℕ, IfOk, Some, is_some, cond, drop, unwrap_or};
ghost use Rattle.std.specs.VecDeque.{deque_len, deque_capacity};
ghost use Rattle.flow_intake.specs.Port.{PortState, fresh_end, fresh_port, stage_at, hand_in, is_offer};
ghost use Rattle.flow_intake.specs.Port.{is_owed, is_hand, is_wanted, coming, has_room, count_at, is_coming};
ghost use Rattle.flow_intake.specs.Ended.{has_seen_completion, fault_at_ends};
ghost use Rattle.flow_intake.specs.Port.{link_in};
ghost use Rattle.flow_intake.specs.PortLaw.{has_ended};
ghost use Rattle.flow_intake.specs.Calls.{first_of, answer_to, next_place, in_move, is_offered, is_posted};
ghost use Rattle.flow_intake.specs.Calls.{is_postponed, is_arrived, may_be_refused, may_be_dropped, prepared, unprepared};
ghost use Rattle.flow_intake.specs.Calls.{accepts, puts_off, wants, turns_down, postpones, refuses};
ghost use Rattle.flow_intake.specs.Port.{is_holding};
ghost use Rattle.flow_intake.specs.Calls.{asks, claims, releases, is_front, loses_front};
ghost use Rattle.flow_intake.specs.Calls.{consumes, opens, closes, looks, takes_next, gives_room, port_closes};
ghost use Rattle.flow_intake.specs.Calls.{port_fails};
ghost use Rattle.flow_intake.specs.Calls.{one_more, move_of as moves_of};
ghost use Rattle.flow_intake.specs.ByLink.{place_of, with_link, place_in, stands_at, is_free_over, answered, arrives};
ghost use Rattle.flow_intake.specs.ByLink.{drops, next_wish, consumes_next, closes_link};
ghost use Rattle.flow_intake.specs.Receives.{takes_at_once, receives};

use crate::end::is_queued;
use crate::ends::Ends;
use crate::queue::Queue;
use flow_link::{LinkId, Move, Phase, Refusal, TargetStage};
use flow_value::{MessageHeader, MessageStatus, Parcel, Value};
use std::alloc::{AllocError, Global};
use std::collections::VecDeque;
use std::marker::Model;
use std::mem;

/// One port of a block, with its ends of the links that lead into it.
#[derive(Drop)]
pub struct Intake {
    // Set when the port is made.
    capacity: Option<u32>,
    reserves: bool,
    // What changes.
    ends: Ends,
    queue: Queue,
    waiting: VecDeque<Value>,
    /// How many messages it took whose room has not come back, where there is a capacity.
    load: usize,
    refusing: Option<Refusal>,
    /// Memory is set aside for one more message.
    ready: bool,
}

impl Model for Intake {
    ghost use Rattle.std.specs.Coded.{codes};
    ghost use Rattle.std.specs.Prelude.{◌≡◌, ◌≤◌, ◌+◌, true, not, ◌||◌, cond, length, is_some, unwrap_or};
    ghost use Rattle.std.specs.VecDeque.{deque_len, deque_capacity};
    ghost use Rattle.flow_value.specs.contracts.value.Value as content;
    ghost use Rattle.flow_intake.specs.Port.{PortState, count_at, is_coming, is_owed};

    ghost Value = { PortState };

    ghost coded = { Prim.hlevel (codes, content.the_row.coded) };

    ghost view = { λ p. record {
      ends = p.ends;
      queue = p.queue.places;
      waiting = p.waiting.items;
      capacity = p.capacity;
      reserves = p.reserves;
      load = p.load;
      refusing = p.refusing;
      ready = p.ready;
    } };

    ghost invariant = { λ p. (deque_len p.waiting + count_at is_owed p.ends + cond p.ready 1 0 ≤
        deque_capacity p.waiting) ×
        (cond (is_some p.capacity) (p.load + count_at is_coming p.ends) p.load ≤ unwrap_or p.capacity 0) ×
        (length p.ends ≤ p.queue.count) ×
        (not p.ready || p.queue.has_room ≡ true) };
}

impl Intake {
    /// A port with room for so many messages, or for any number; no link leads into it yet.
    pub fn new(alloc: Global, capacity: Option<u32>) -> Intake
        ensures { result ≡ fresh_port capacity }
    {
        Intake {
            capacity,
            reserves: false,
            ends: Ends::new(alloc),
            queue: Queue::new(alloc),
            waiting: VecDeque::new(alloc),
            load: 0,
            refusing: None,
            ready: false,
        }
    }

    /// A port of a block that reserves messages before it claims them: it postpones each offer, and consumes none.
    pub fn reserving(alloc: Global, capacity: Option<u32>) -> Intake
        ensures { result ≡ record (fresh_port capacity) { reserves = true } }
    {
        let mut port = Intake::new(alloc, capacity);
        port.reserves = true;
        port
    }

    /// One more link leads into the port: its end has the place that comes next.
    pub fn add_link(&mut self, link: LinkId) -> Result<(), AllocError>
        ensures added { OnOk result (self.new ≡ record self.old { ends = self.old.ends ++ fresh_end link ∷ [] }) }
        ensures kept { OnErr result (self.new ≡ self.old) }
    {
        self.queue.know(self.ends.len())?;
        self.ends.add(link)
    }

    /// How many messages it has room for, or none for any number.
    pub fn capacity(&self) -> Option<u32>
        ensures capacity { result ≡ self.now.capacity }
        ensures room { self.now.load ≤ unwrap_or self.now.capacity 0 }
    {
        self.capacity
    }

    /// How many links lead into it.
    pub fn link_count(&self) -> usize
        ensures { result ≡ length self.now.ends }
    {
        self.ends.len()
    }

    /// The link of the end at this place.
    pub fn link(&self, place: usize) -> LinkId
        requires { place < length self.now.ends }
        ensures { result ≡ link_in place self.now.ends }
    {
        self.ends.link(place)
    }

    /// Where the end at this place stands.
    pub fn stage(&self, place: usize) -> TargetStage
        requires { place < length self.now.ends }
        ensures { result ≡ stage_at place self.now }
    {
        self.ends.stage(place)
    }

    /// For how many messages of its links memory is set aside, beside the one that it is ready for.
    pub fn owed(&self) -> usize
        ensures { result ≡ count_at is_owed self.now.ends }
    {
        self.ends.owed()
    }

    /// Whether memory is set aside for one more message.
    pub fn is_ready(&self) -> bool
        ensures { result ≡ self.now.ready }
    {
        self.ready
    }

    /// How many messages come: they are wanted, and not taken yet.
    pub fn coming(&self) -> usize
        ensures { result ≡ coming self.now }
    {
        self.ends.coming()
    }

    /// Whether completion came over a link that has ended.
    pub fn has_seen_completion(&self) -> bool
        ensures { result ≡ has_seen_completion self.now.ends }
    {
        self.ends.has_seen_completion()
    }

    /// The fault that came over a link that has ended, and the link: of several the one over the link with the lowest
    /// number.
    pub fn fault_seen(&self) -> Option<(LinkId, u32)>
        ensures { result ≡ fault_at_ends self.now.ends }
    {
        self.ends.fault_seen()
    }

    /// Whether it was completed: no message comes into it any more.
    pub fn has_ended(&self) -> bool
        ensures { result ≡ has_ended self.now.refusing }
    {
        matches!(self.refusing, Some(Refusal::PortEnded))
    }

    /// Whether it refuses nothing by itself: it was not completed, and its block has no fault of its own.
    pub fn is_open(&self) -> bool
        ensures { result ≡ is_none self.now.refusing }
    {
        self.refusing.is_none()
    }

    /// Whether there is room for one more message.
    #[inline]
    pub fn has_room(&self) -> bool
        ensures { result ≡ has_room self.now }
    {
        match self.capacity {
            Some(capacity) => self.load + self.ends.coming() < capacity as usize,
            None => true,
        }
    }

    /// What it took and nobody has taken on, oldest first.
    pub fn waiting(&self) -> &VecDeque<Value>
        ensures { result.now.items ≡ self.now.waiting }
    {
        &self.waiting
    }

    /// The answer to an offer.
    #[inline]
    fn answer_to(&self, may_postpone: bool) -> MessageStatus
        ensures { result ≡ answer_to may_postpone self.now }
    {
        let put_off = if may_postpone {
            MessageStatus::Postponed
        } else {
            MessageStatus::Declined
        };
        if self.refusing.is_some() {
            MessageStatus::DecliningPermanently
        } else if !self.reserves && self.queue.is_empty() && self.has_room() {
            MessageStatus::Accepted
        } else {
            put_off
        }
    }

    /// Whether the link at this place is free, and a message that is offered over it would be accepted.
    #[inline(always)]
    pub fn takes_at_once(&self, place: usize) -> bool
        requires { place < length self.now.ends }
        ensures { result ≡ takes_at_once place self.now }
    {
        self.ends.is_free(place) && matches!(self.answer_to(true), MessageStatus::Accepted)
    }

    /// The place of the end that consumes next.
    pub fn next_place(&self) -> Option<usize>
        ensures { result ≡ next_place self.now }
    {
        if self.refusing.is_none() && !self.reserves && self.has_room() {
            self.queue.first()
        } else {
            None
        }
    }

    /// What the end at this place would do next, if it would do anything.
    pub fn in_move(&self, place: usize) -> Option<Move>
        requires { place < length self.now.ends }
        ensures { result ≡ in_move place self.now }
    {
        match self.ends.stage(place) {
            TargetStage::Offered(_) => move_of(self.answer_to(true)),
            TargetStage::Posted(_) => move_of(self.answer_to(false)),
            TargetStage::Postponed(_) => {
                if self.refusing.is_some() {
                    Some(Move::Refuse)
                } else if self.next_place() == Some(place) {
                    Some(Move::Consume)
                } else {
                    None
                }
            }
            TargetStage::Arrived(_) => Some(Move::Open),
            TargetStage::Hand(_) => Some(Move::Close),
            _ => None,
        }
    }

    /// Sets memory aside for one more message, from the answer to its offer until it is taken.
    #[inline(always)]
    pub fn prepare_answer(&mut self) -> Result<(), AllocError>
        ensures done { OnOk result (self.new ≡ prepared self.old) }
        ensures kept { OnErr result (self.new ≡ self.old) }
    {
        reserve(&mut self.waiting, self.ends.owed() + 1)?;
        self.queue.prepare()?;
        self.ready = true;
        Ok(())
    }

    /// Memory is not set aside any more for one more message.
    pub fn forget_answer(&mut self)
        ensures { self.new ≡ unprepared self.old }
    {
        self.ready = false;
    }

    /// Accepts this message over the link at this place.
    fn accept(&mut self, place: usize, header: MessageHeader)
        requires place { place < length self.old.ends }
        requires before { is_owed (stage_at place self.old) ≡ false }
        requires ready { self.old.ready ≡ true }
        requires room { has_room self.old ≡ true }
        ensures { self.new ≡ accepts place header self.old }
    {
        self.ends.go_to(place, TargetStage::Accepted(header));
        self.ready = false;
    }

    /// Postpones this message over the link at this place.
    fn put_off(&mut self, place: usize, header: MessageHeader)
        requires place { place < length self.old.ends }
        requires before { is_owed (stage_at place self.old) ≡ false }
        requires ready { self.old.ready ≡ true }
        ensures { self.new ≡ puts_off place header self.old }
    {
        self.ends.go_to(place, TargetStage::Postponed(header));
        self.queue.join(place);
        self.ready = false;
    }

    /// Accepts the offer over the link at this place.
    pub fn want(&mut self, place: usize)
        requires place { place < length self.old.ends }
        requires offer { is_offer (stage_at place self.old) ≡ true }
        requires ready { self.old.ready ≡ true }
        requires room { has_room self.old ≡ true }
        ensures { self.new ≡ wants place self.old }
    {
        if let TargetStage::Offered(header) | TargetStage::Posted(header) = self.ends.stage(place) {
            self.accept(place, header);
        }
    }

    /// Does not take the message that was posted over the link at this place.
    pub fn turn_down(&mut self, place: usize)
        requires place { place < length self.old.ends }
        requires posted { is_posted (stage_at place self.old) ≡ true }
        ensures { self.new ≡ turns_down place self.old }
    {
        self.ends.go_to(place, TargetStage::Free);
    }

    /// Postpones the offer over the link at this place.
    pub fn postpone(&mut self, place: usize)
        requires place { place < length self.old.ends }
        requires offered { is_offered (stage_at place self.old) ≡ true }
        requires ready { self.old.ready ≡ true }
        ensures { self.new ≡ postpones place self.old }
    {
        if let TargetStage::Offered(header) = self.ends.stage(place) {
            self.put_off(place, header);
        }
    }

    /// Refuses the offer over the link at this place for good, which it may have postponed before.
    pub fn refuse(&mut self, place: usize)
        requires place { place < length self.old.ends }
        requires refusing { is_some self.old.refusing ≡ true }
        requires offer { may_be_refused (stage_at place self.old) ≡ true }
        ensures { self.new ≡ refuses place self.old }
    {
        if let Some(why) = self.refusing {
            self.ends.go_to(place, TargetStage::Refused(why));
            self.queue.leave(place);
        }
    }

    /// Consumes the offer over the link at this place, which it postponed.
    pub fn consume(&mut self, place: usize)
        requires place { place < length self.old.ends }
        requires postponed { is_postponed (stage_at place self.old) ≡ true }
        requires room { has_room self.old ≡ true }
        ensures { self.new ≡ consumes place self.old }
    {
        if let TargetStage::Postponed(header) = self.ends.stage(place) {
            self.ends.go_to(place, TargetStage::Consuming(header));
            self.queue.leave(place);
        }
    }

    /// Asks to reserve the message over the link at this place, which it postponed. Its place is taken from now on.
    pub fn ask(&mut self, place: usize)
        requires place { place < length self.old.ends }
        requires postponed { is_postponed (stage_at place self.old) ≡ true }
        requires room { has_room self.old ≡ true }
        ensures { self.new ≡ asks place self.old }
    {
        if let TargetStage::Postponed(header) = self.ends.stage(place) {
            self.ends.go_to(place, TargetStage::Asking(header));
        }
    }

    /// Claims the message over the link at this place, which is kept for it.
    pub fn claim(&mut self, place: usize)
        requires place { place < length self.old.ends }
        requires holding { is_holding (stage_at place self.old) ≡ true }
        ensures { self.new ≡ claims place self.old }
    {
        if let TargetStage::Holding(header) = self.ends.stage(place) {
            self.ends.go_to(place, TargetStage::Claiming(header));
            self.queue.leave(place);
        }
    }

    /// Gives up the message over the link at this place, which is kept for it. Its offer goes on waiting.
    pub fn release(&mut self, place: usize)
        requires place { place < length self.old.ends }
        requires holding { is_holding (stage_at place self.old) ≡ true }
        ensures { self.new ≡ releases place self.old }
    {
        if let TargetStage::Holding(header) = self.ends.stage(place) {
            self.ends.go_to(place, TargetStage::Postponed(header));
        }
    }

    /// The place of the end whose offer waits longest.
    pub fn front(&self) -> Option<usize>
        ensures { result ≡ first_of self.now.queue }
    {
        self.queue.first()
    }

    /// Whether the offer over the link at this place waits longest.
    pub fn is_front(&self, place: usize) -> bool
        ensures { result ≡ is_front place self.now }
    {
        self.queue.first() == Some(place)
    }

    /// Whether the offer over the link at this place waits longest, and has gone, by a look that finds this phase.
    pub fn loses_front(&self, place: usize, phase: Phase) -> bool
        requires { place < length self.now.ends }
        ensures { result ≡ loses_front place phase self.now }
    {
        self.is_front(place) && !is_queued(&self.ends.stage(place).look(phase))
    }

    /// Takes the message out of the slot of the link at this place: this is its parcel.
    pub fn open(&mut self, place: usize, parcel: Parcel)
        requires place { place < length self.old.ends }
        requires arrived { is_arrived (stage_at place self.old) ≡ true }
        ensures { self.new ≡ opens place parcel self.old }
    {
        if let TargetStage::Arrived(header) = self.ends.stage(place) {
            self.ends.open(place, header, parcel);
        }
    }

    /// Makes the message its own that it has in hand from the link at this place, and gives a copy of it for a journal.
    pub fn close(&mut self, place: usize) -> Value
        requires place { place < length self.old.ends }
        requires hand { is_hand (stage_at place self.old) ≡ true }
        ensures value { hand_in place self.old.ends ≡ Some result }
        ensures closed { self.new ≡ closes place result self.old }
    {
        let (value, copy) = self.ends.close(place).into_parts();
        self.waiting.push_back_reserved(value);
        self.load = with_one_more(self.capacity, self.load);
        copy
    }

    /// Takes a message that comes over the link at this place, and that it accepts at once: this is its parcel. It
    /// gives a copy for a journal.
    ///
    /// This is the whole way of a message over a free link: nothing of it stays at the link's end.
    #[inline(always)]
    pub fn receive(&mut self, place: usize, parcel: Parcel) -> Value
        requires place { place < length self.old.ends }
        requires takes { takes_at_once place self.old ≡ true }
        requires ready { self.old.ready ≡ true }
        ensures value { parcel ≡ result }
        ensures received { (i : ℕ) → self.new ≡ receives place i result self.old }
    {
        prove!(self.ends.is_free(place));
        let (value, copy) = parcel.into_parts();
        self.waiting.push_back_reserved(value);
        self.load = with_one_more(self.capacity, self.load);
        self.ready = false;
        copy
    }

    /// Looks at the phase of the link at this place.
    pub fn look_in(&mut self, place: usize, phase: Phase)
        requires { place < length self.old.ends }
        ensures { self.new ≡ looks place phase self.old }
    {
        let stage = self.ends.stage(place).look(phase);
        self.ends.go_to(place, stage);
        if !is_queued(&stage) {
            self.queue.leave(place);
        }
    }

    /// Takes the message on that waits longest.
    pub fn take_next(&mut self) -> Option<Value>
        ensures first { result ≡ first_of self.old.waiting }
        ensures taken { self.new ≡ takes_next self.old }
    {
        self.waiting.pop_front()
    }

    /// Drops the message that waits longest.
    #[inline(always)]
    pub fn drop_next(&mut self)
        ensures { self.new ≡ takes_next self.old }
    {
        let _value = self.waiting.pop_front();
    }

    /// Exchanges the message that waits longest for this value.
    #[inline(always)]
    pub fn swap_first(&mut self, value: Value) -> Value
        requires { 0 < length self.old.waiting }
        ensures first { first_of self.old.waiting ≡ Some result }
        ensures swapped { self.new ≡ record self.old { waiting = value ∷ drop 1 self.old.waiting } }
    {
        mem::replace(&mut self.waiting[0], value)
    }

    /// How many messages were taken on whose room may come back; where there is no capacity, none is counted.
    pub fn room_out(&self) -> usize
        ensures { result ≡ self.now.load - length self.now.waiting }
    {
        self.load.saturating_sub(self.waiting.len())
    }

    /// The room of so many messages comes back, which were taken on.
    pub fn give_room(&mut self, count: usize)
        requires { cond (is_some self.old.capacity) count 0 ≤ self.old.load - length self.old.waiting }
        ensures { self.new ≡ gives_room count self.old }
    {
        if self.capacity.is_some() {
            self.load -= count;
        }
    }

    /// The port takes no message any more.
    ///
    /// Microsoft: `IDataflowBlock.Complete`.
    pub fn close_port(&mut self)
        ensures { self.new ≡ port_closes self.old }
    {
        self.refusing = Some(Refusal::PortEnded);
    }

    /// The port takes no message any more, since its block's own fault stands. A port that has ended stays so.
    pub fn fail_port(&mut self)
        ensures { self.new ≡ port_fails self.old }
    {
        if self.refusing.is_none() {
            self.refusing = Some(Refusal::OwnFault);
        }
    }
}

// Calls that name a link: the caller plays the far end. They look for the link's end; who knows its place need not.
impl Intake {
    /// Whether nothing is under way over this link: it may bring an offer.
    pub fn is_free_over(&self, link: LinkId) -> bool
        ensures { result ≡ is_free_over link self.now }
    {
        match self.ends.find(link) {
            Some(place) => matches!(self.ends.stage(place), TargetStage::Free),
            None => true,
        }
    }

    /// Whether it waits for a message over this link, which it accepted or consumes.
    pub fn is_wanted_over(&self, link: LinkId) -> bool
        ensures { result ≡ stands_at is_wanted link self.now }
    {
        match self.ends.find(link) {
            Some(place) => matches!(
                self.ends.stage(place),
                TargetStage::Accepted(_) | TargetStage::Consuming(_) | TargetStage::Claiming(_)
            ),
            None => false,
        }
    }

    /// Whether an offer over this link may be dropped: it is postponed, or wished for.
    pub fn may_drop(&self, link: LinkId) -> bool
        ensures { result ≡ stands_at may_be_dropped link self.now }
    {
        match self.ends.find(link) {
            Some(place) => matches!(
                self.ends.stage(place),
                TargetStage::Postponed(_) | TargetStage::Consuming(_) | TargetStage::Asking(_)
            ),
            None => false,
        }
    }

    /// Answers an offer over this link, which may be a new one. What it accepts is still to [arrive](Intake::arrive).
    ///
    /// Microsoft: `ITargetBlock<TInput>.OfferMessage`.
    pub fn answer(
        &mut self,
        link: LinkId,
        header: MessageHeader,
        may_postpone: bool,
    ) -> Result<MessageStatus, AllocError>
        requires { is_free_over link self.old ≡ true }
        ensures status { IfOk result (λ status. status ≡ answer_to may_postpone self.old) }
        ensures answered { IfOk result (λ status. self.new ≡ answered link header status self.old) }
        ensures kept { OnErr result (self.new ≡ self.old) }
    {
        let status = self.answer_to(may_postpone);
        match status {
            MessageStatus::Accepted => {
                let place = self.prepare_link(link)?;
                self.accept(place, header);
            }
            MessageStatus::Postponed => {
                let place = self.prepare_link(link)?;
                self.put_off(place, header);
            }
            MessageStatus::DecliningPermanently => self.close_link(link),
            MessageStatus::Declined | MessageStatus::NotAvailable => {}
        }
        Ok(status)
    }

    /// Sets memory aside for one more message over this link, and answers the place of its end, which may be a new one.
    fn prepare_link(&mut self, link: LinkId) -> Result<usize, AllocError>
        ensures place { IfOk result (λ place. place ≡ place_in link self.old) }
        ensures there { IfOk result (λ place. place < length self.new.ends) }
        ensures done { OnOk result (self.new ≡ prepared (with_link link self.old)) }
        ensures kept { OnErr result (self.new ≡ self.old) }
    {
        let was_ready = self.ready;
        self.prepare_answer()?;
        if let Some(place) = self.ends.find(link) {
            return Ok(place);
        }
        let place = self.ends.len();
        match self.add_link(link) {
            Ok(()) => Ok(place),
            Err(refused) => {
                self.ready = was_ready;
                Err(refused)
            }
        }
    }

    /// The link's end refuses its message for good, if there is one.
    fn close_link(&mut self, link: LinkId)
        requires free { is_free_over link self.old ≡ true }
        requires refusing { is_some self.old.refusing ≡ true }
        ensures { self.new ≡ closes_link (place_of link self.old.ends) self.old }
    {
        if let Some(why) = self.refusing
            && let Some(place) = self.ends.find(link)
        {
            self.ends.go_to(place, TargetStage::Refused(why));
        }
    }

    /// The message that was wanted arrives over this link.
    pub fn arrive(&mut self, link: LinkId, parcel: Parcel)
        requires { stands_at is_wanted link self.old ≡ true }
        ensures { self.new ≡ arrives link parcel self.old }
    {
        if let Some(place) = self.ends.find(link) {
            self.ends.go_to(place, TargetStage::Free);
            let (value, _copy) = parcel.into_parts();
            self.waiting.push_back_reserved(value);
            self.load = with_one_more(self.capacity, self.load);
        }
    }

    /// The offer over this link that waits longest, which it consumes now: there is room for it, and it is set aside.
    ///
    /// Microsoft: `ISourceBlock<TOutput>.ConsumeMessage`, which the caller is to call.
    pub fn next_postponed(&mut self) -> Option<(LinkId, MessageHeader)>
        ensures offer { result ≡ next_wish self.old }
        ensures consumed { self.new ≡ consumes_next self.old }
    {
        let place = self.next_place()?;
        if place >= self.ends.len() {
            return None;
        }
        let TargetStage::Postponed(header) = self.ends.stage(place) else {
            return None;
        };
        self.consume(place);
        Some((self.ends.link(place), header))
    }

    /// Forgets the offer over this link, which was withdrawn or has gone elsewhere: its room is free again.
    pub fn drop_postponed(&mut self, link: LinkId)
        requires { stands_at may_be_dropped link self.old ≡ true }
        ensures { self.new ≡ drops link self.old }
    {
        if let Some(place) = self.ends.find(link) {
            self.ends.go_to(place, TargetStage::Free);
            self.queue.leave(place);
        }
    }
}

/// The move that an answer is.
fn move_of(status: MessageStatus) -> Option<Move>
    ensures { result ≡ moves_of status }
{
    match status {
        MessageStatus::Accepted => Some(Move::Want),
        MessageStatus::Declined => Some(Move::TurnDown),
        MessageStatus::Postponed => Some(Move::Postpone),
        MessageStatus::NotAvailable => None,
        MessageStatus::DecliningPermanently => Some(Move::Refuse),
    }
}

/// Sets memory aside for so many messages more.
#[inline]
fn reserve(waiting: &mut VecDeque<Value>, count: usize) -> Result<(), AllocError>
    ensures items { waiting.new.items ≡ waiting.old.items }
    ensures len { deque_len waiting.new ≡ deque_len waiting.old }
    ensures capacity { deque_capacity waiting.old ≤ deque_capacity waiting.new }
    ensures room { OnOk result (deque_len waiting.new + count ≤ deque_capacity waiting.new) }
{
    if count <= waiting.capacity() - waiting.len() {
        return Ok(());
    }
    grow(waiting, count)
}

// Cold, since memory for as many messages again is taken each time.
#[cold]
#[inline(never)]
fn grow(waiting: &mut VecDeque<Value>, count: usize) -> Result<(), AllocError>
    ensures items { waiting.new.items ≡ waiting.old.items }
    ensures len { deque_len waiting.new ≡ deque_len waiting.old }
    ensures capacity { deque_capacity waiting.old ≤ deque_capacity waiting.new }
    ensures room { OnOk result (deque_len waiting.new + count ≤ deque_capacity waiting.new) }
{
    waiting.reserve(count)
}

/// The load when one more message was taken: it counts only where there is a capacity.
#[inline]
fn with_one_more(capacity: Option<u32>, load: usize) -> usize
    requires { cond (is_some capacity) load 0 < 2 ^ 63 }
    ensures { result ≡ one_more capacity load }
{
    match capacity {
        Some(_) => load + 1,
        None => load,
    }
}
