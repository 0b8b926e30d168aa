//! The calls of an outlet that name a link, with the caller in the place of the link's target.
ghost use Rattle.std.specs.Prelude.{◌≡◌, ◌<◌, ◌↔◌, true, length, OnOk, OnErr, IfOk};
ghost use Rattle.flow_link.specs.LinkOk.{HasRoom};
ghost use Rattle.flow_outlet.specs.ByLink.{offer_named, offers_next, IsAsked, answered, MayConsume, consumed};
ghost use Rattle.flow_outlet.specs.ByLink.{MayReserve, tests_reserve, reserved, reserves, IsReserved, tests_reserved};
ghost use Rattle.flow_outlet.specs.ByLink.{releases, forgets_all, is_kept_elsewhere};
ghost use Rattle.flow_outlet.specs.ByLink.{consumes, place_of, forgets, tests_asked, tests_consume};
ghost use Rattle.flow_outlet.specs.End.{is_cut};
ghost use Rattle.flow_outlet.specs.Outlet.{end_at};

use crate::ends::{first_from, forget_answers, forget_waiting, place_of};
use crate::outlet::{Outlet, front, is_empty};
use flow_link::{LinkId, Phase};
use flow_value::{MessageHeader, MessageStatus, Parcel};
use std::alloc::{AllocError, Global};

impl Outlet {
    /// The link over which the head is offered next, and its header: its offer is then out.
    pub fn next_offer(
        &mut self,
        alloc: Global,
    ) -> Result<Option<(LinkId, MessageHeader)>, AllocError>
        ensures named { IfOk result (λ named. named ≡ offer_named self.old) }
        ensures out { OnOk result (self.new ≡ offers_next self.old) }
        ensures kept { OnErr result (self.new ≡ self.old) }
    {
        let Some(place) = self.may_offer() else {
            return Ok(None);
        };
        self.prepare_offer(alloc)?;
        let header = self.offer(place);
        Ok(Some((self.ends[place].rule.id, header)))
    }

    /// Whether the link's offer of this message is out, and not answered.
    pub fn is_asked(&self, link: LinkId, header: MessageHeader) -> bool
        ensures { (result ≡ true) ↔ IsAsked link header self.now }
    {
        self.tests_asked(place_of(&self.ends, link), header)
    }

    fn tests_asked(&self, place: usize, header: MessageHeader) -> bool
        ensures { result ≡ tests_asked place header self.now }
    {
        match self.ends.get(place) {
            Some(end) => end.is_offered(header) && self.offer == Some(place),
            None => false,
        }
    }

    /// Whether the link may be told of this message, that it comes or that it has gone elsewhere: where it is the head,
    /// the link's target accepted it, or it postponed it and no offer is out.
    pub fn may_consume(&self, link: LinkId, header: MessageHeader) -> bool
        ensures { (result ≡ true) ↔ MayConsume link header self.now }
    {
        self.tests_consume(place_of(&self.ends, link), header)
    }

    fn tests_consume(&self, place: usize, header: MessageHeader) -> bool
        ensures { result ≡ tests_consume place header self.now }
    {
        let is_head = header.id() == self.next && !is_empty(&self.left);
        let is_there = is_head && !self.is_kept_elsewhere(place);
        match self.ends.get(place) {
            Some(end) => {
                let is_taken = end.is_taken(self.next, self.offer.is_some());
                !is_there || is_taken && self.parcel.is_some() && end.has_room()
            }
            None => false,
        }
    }

    /// Notes what the target answered to the offer that is out.
    pub fn note_answer(&mut self, link: LinkId, header: MessageHeader, status: MessageStatus)
        requires { IsAsked link header self.old }
        ensures { self.new ≡ answered status header (place_of link self.old.ends) self.old }
    {
        let place = place_of(&self.ends, link);
        let (stage, declined) = self.ends[place].answered(header, status);
        self.change(place, stage, declined);
        if status != MessageStatus::Accepted {
            self.offer = None;
        }
    }

    /// Gives the message to the target that accepted it, or that it postponed; none, where it has gone elsewhere. All
    /// answers for it are forgotten.
    pub fn consume_message(&mut self, link: LinkId, header: MessageHeader) -> Option<Parcel>
        requires { MayConsume link header self.old }
        ensures consumed { result ≡ consumed link header self.old }
        ensures left { self.new ≡ consumes link header self.old }
    {
        let place = place_of(&self.ends, link);
        if header.id() != self.next || self.left.is_empty() || self.is_kept_elsewhere(place) {
            return None;
        }
        self.look_out(place, Phase::Wanted(header));
        let (_value, parcel) = self.give(place);
        self.look_out(place, Phase::Idle);
        self.forget();
        Some(parcel)
    }

    // whether the head is kept for another
    fn is_kept_elsewhere(&self, place: usize) -> bool
        ensures { result ≡ is_kept_elsewhere place self.now }
    {
        self.offer.is_some() && self.offer != Some(place) && !self.has_offer_out()
    }

    /// Whether the link may ask to reserve this message: its target postponed it, and no offer is out.
    pub fn may_reserve(&self, link: LinkId, header: MessageHeader) -> bool
        ensures { (result ≡ true) ↔ MayReserve link header self.now }
    {
        self.tests_reserve(place_of(&self.ends, link), header)
    }

    fn tests_reserve(&self, place: usize, header: MessageHeader) -> bool
        ensures { result ≡ tests_reserve place header self.now }
    {
        match self.ends.get(place) {
            Some(end) => end.is_waiting_for(header) && !self.has_offer_out(),
            None => false,
        }
    }

    /// Whether this message is kept for the link.
    pub fn is_reserved(&self, link: LinkId, header: MessageHeader) -> bool
        ensures { (result ≡ true) ↔ IsReserved link header self.now }
    {
        self.tests_reserved(place_of(&self.ends, link), header)
    }

    fn tests_reserved(&self, place: usize, header: MessageHeader) -> bool
        ensures { result ≡ tests_reserved place header self.now }
    {
        match self.ends.get(place) {
            Some(end) => end.is_kept_for(header),
            None => false,
        }
    }

    /// Keeps the message for the target that postponed it; false, where it has gone elsewhere, or is kept for another.
    pub fn reserve_message(&mut self, link: LinkId, header: MessageHeader) -> bool
        requires { MayReserve link header self.old }
        ensures told { result ≡ reserved header self.old }
        ensures kept { self.new ≡ reserves link header self.old }
    {
        if header.id() != self.next || self.left.is_empty() || self.offer.is_some() {
            return false;
        }
        let place = place_of(&self.ends, link);
        self.look_out(place, Phase::Asked(header));
        self.hold(place);
        true
    }

    /// The target gives up the message that is kept for it. All answers for it are forgotten.
    pub fn release_reservation(&mut self, link: LinkId, header: MessageHeader)
        requires { IsReserved link header self.old }
        ensures { self.new ≡ releases link header self.old }
    {
        let place = place_of(&self.ends, link);
        self.look_out(place, Phase::Postponed(header));
        self.forget_all();
    }

    // the head may be offered anew, also where it was declined
    fn forget_all(&mut self)
        ensures { self.new ≡ forgets_all self.old }
    {
        forget_answers(&mut self.ends, self.next);
        self.away -= self.waiting;
        self.waiting = 0;
        self.cursor = first_from(&self.ends, 0, self.next, front(&self.left));
    }

    /// Whether the link has carried as many messages as it may. It then ends, and passes nothing on.
    pub fn cut(&self, link: LinkId) -> bool
        requires { place_of link self.now.ends < length self.now.ends }
        ensures { result ≡ is_cut (end_at self.now (place_of link self.now.ends)) }
    {
        self.ends[place_of(&self.ends, link)].is_cut()
    }

    // what was postponed may be offered anew
    fn forget(&mut self)
        ensures { self.new ≡ forgets self.old }
    {
        forget_waiting(&mut self.ends);
        self.away -= self.waiting;
        self.waiting = 0;
        self.cursor = first_from(&self.ends, 0, self.next, front(&self.left));
    }
}
