//! What a block copies to its links, and its ends of them.
ghost use Rattle.std.specs.Prelude.{◌≡◌, ◌<◌, ◌≤◌, ◌+◌, ◌^◌, ◌↔◌, Some, Err, IfOk, IfErr, OnOk, OnErr, MatchResult, cond};
ghost use Rattle.std.specs.Prelude.{length, true, false, is_some, None, is_err, ltb, ◌&&◌};
ghost use Rattle.std.specs.Option.{option_copied};
ghost use Rattle.flow_link.specs.LinkOk.{HasRoom};
ghost use Rattle.flow_link.specs.declared.stage.SourceStage.TheVariants.{Out};
ghost use Rattle.flow_outlet.specs.End.{is_cut, is_free, is_waiting, id_of};
ghost use Rattle.flow_spread.specs.ByLink.{place_of, offer_named, offers_next, IsAsked, answered, MayConsume, consumed};
ghost use Rattle.flow_spread.specs.ByLink.{MayReserve, tests_reserve, reserved, reserves};
ghost use Rattle.flow_spread.specs.ByLink.{IsReserved, tests_reserved, releases};
ghost use Rattle.flow_spread.specs.ByLink.{consumes, tests_asked, tests_consume, is_there, still_owes};
ghost use Rattle.flow_spread.specs.End.{count_of, owes_it, is_busy_at, is_waiting_at};
ghost use Rattle.flow_spread.specs.Spread.{fresh_spread, is_spread_free, puts, left_of, is_at_rest, only_waits, moves};
ghost use Rattle.flow_spread.specs.Spread.{may_offer, next_place, prepares, offers, looks, may_give, gives, is_asked_by};
ghost use Rattle.flow_spread.specs.Spread.{holds, withdraws, ends_link, out_move, free_move, end_at, link_at, stage_at};
ghost use Rattle.flow_spread.specs.Spread.{restages, changes};
ghost use Rattle.flow_spread.specs.Sends.{sends};

use crate::end::{CopyEnd, is_answer};
use crate::ends::Ends;
use crate::share::Share;
use flow_link::{LinkEnd, LinkId, Move, Outcome, Phase, SourceStage};
use flow_outlet::{LinkRule, OutEnd};
use flow_value::{MAX_ID, MessageHeader, MessageStatus, Parcel, Value};
use std::alloc::{AllocError, Global};
use std::marker::Model;

/// One element at a time, of which each link is given a copy of its own, and the block's ends of the links.
///
/// Contracts see a `SpreadState`.
#[derive(Drop)]
pub struct Spread {
    ends: Ends,
    element: Option<Value>,
    // the id of the element; before the first, the id below it
    id: u64,
    once: bool,
    // before this place nobody may be offered the element
    cursor: usize,
}

impl Model for Spread {
    ghost use Rattle.std.specs.Coded.{codes};
    ghost use Rattle.flow_value.specs.contracts.value.Value as content;
    ghost use Rattle.flow_spread.specs.Spread.{SpreadState};
    ghost use Rattle.flow_spread.specs.Fits.{Fits};

    ghost Value = { SpreadState };

    ghost coded = { Prim.hlevel (codes, content.the_row.coded) };

    ghost view = { λ s. record { ends = s.ends; element = s.element; id = s.id; once = s.once } };

    ghost invariant = { λ s. Fits s.ends s.element s.id s.cursor };
}

impl Spread {
    /// Copies to these links, with ids from this one on. Each element is overwritten by the next. Where there is no
    /// memory for it, the rules come back.
    pub fn new(
        alloc: Global,
        rules: Vec<LinkRule>,
        first: MessageHeader,
    ) -> Result<Spread, Vec<LinkRule>>
        ensures { MatchResult result (λ spread. spread ≡ fresh_spread false rules.items first)
            (λ back. back ≡ rules) }
    {
        Spread::made(alloc, rules, first, false)
    }

    /// The same for a block that takes one element in all.
    pub fn new_once(
        alloc: Global,
        rules: Vec<LinkRule>,
        first: MessageHeader,
    ) -> Result<Spread, Vec<LinkRule>>
        ensures { MatchResult result (λ spread. spread ≡ fresh_spread true rules.items first)
            (λ back. back ≡ rules) }
    {
        Spread::made(alloc, rules, first, true)
    }

    fn made(
        alloc: Global,
        rules: Vec<LinkRule>,
        first: MessageHeader,
        once: bool,
    ) -> Result<Spread, Vec<LinkRule>>
        ensures { MatchResult result (λ spread. spread ≡ fresh_spread once rules.items first)
            (λ back. back ≡ rules) }
    {
        let Ok(ends) = Ends::new(alloc, &rules) else {
            return Err(rules);
        };
        Ok(Spread {
            ends,
            element: None,
            id: first.id() - 1,
            once,
            cursor: 0,
        })
    }

    /// The ends of its links, in the order of the links.
    pub fn ends(&self) -> &[CopyEnd]
        ensures { result.now ≡ self.now.ends }
    {
        self.ends.all()
    }

    /// The id of the element; before the first, the id below it.
    pub fn id(&self) -> u64
        ensures value { result ≡ self.now.id }
        ensures fits { self.now.id < 2 ^ 59 }
        ensures begins { is_some self.now.element ≡ true → 1 ≤ self.now.id }
    {
        self.id
    }

    /// Whether it takes one element in all.
    pub fn is_once(&self) -> bool
        ensures { result ≡ self.now.once }
    {
        self.once
    }

    /// Whether it may take an element: no link owes, and none is offered the last one, wants it or has it kept.
    pub fn is_free(&self) -> bool
        ensures { result ≡ is_spread_free self.now }
    {
        self.ends.owing() == 0 && self.ends.busy() == 0 && !(self.once && self.element.is_some())
    }

    /// What it took last, whether it is left or not.
    pub fn element(&self) -> Option<&Value>
        ensures { option_copied result ≡ self.now.element }
    {
        self.element.as_ref()
    }

    /// The element, while a link owes.
    pub fn left(&self) -> Option<&Value>
        ensures { option_copied result ≡ left_of self.now }
    {
        if self.ends.owing() == 0 {
            None
        } else {
            self.element.as_ref()
        }
    }

    /// How many links have not answered for the element.
    pub fn owing_count(&self) -> usize
        ensures { result ≡ count_of owes_it self.now.ends }
    {
        self.ends.owing()
    }

    /// Over how many links an offer of the element waits.
    pub fn waiting_count(&self) -> usize
        ensures { result ≡ count_of is_waiting_at self.now.ends }
    {
        self.ends.waiting()
    }

    /// Over how many links the target has to be given the element, or to say more of it.
    pub fn busy_count(&self) -> usize
        ensures { result ≡ count_of is_busy_at self.now.ends }
    {
        self.ends.busy()
    }

    /// Whether nothing is under way over a link, or waits there.
    pub fn is_at_rest(&self) -> bool
        ensures { result ≡ is_at_rest self.now }
    {
        self.ends.away() == 0
    }

    /// Whether all that is under way over a link waits there to be wished for.
    pub fn only_waits(&self) -> bool
        ensures { result ≡ only_waits self.now }
    {
        self.ends.away() == self.ends.waiting()
    }

    /// Takes an element in the place of the last one. Each link is then asked that may still carry something, and whose
    /// predicate admits the element. Offers of the last one that wait are forgotten. Where its ids are used up, the
    /// value comes back.
    pub fn put(&mut self, value: Value) -> Result<(), Value>
        requires { is_spread_free self.old ≡ true }
        ensures done { OnOk result (self.new ≡ puts value self.old) }
        ensures kept { OnErr result (self.new ≡ self.old) }
        ensures back { IfErr result (λ back. back ≡ value) }
        ensures ids { (is_err result ≡ true) ↔ (2 ^ 59 ≤ self.old.id + 1) }
    {
        if self.id >= MAX_ID {
            return Err(value);
        }
        self.ends.take_up(&value);
        self.element = Some(value);
        self.id += 1;
        self.cursor = 0;
        Ok(())
    }

    /// Whether the element may be offered over the link at a place now.
    #[inline(always)]
    pub fn may_offer(&self, place: usize) -> bool
        requires { place < length self.now.ends }
        ensures { result ≡ may_offer place self.now }
    {
        self.element.is_some() && self.ends.at(place).is_open(self.id)
    }

    /// What the end at a place does next by itself, if anything. The block tells whether it has stopped, and whether it
    /// could go on but for what waits over its links.
    #[inline(always)]
    pub fn out_move(&self, place: usize, stopped: Option<Outcome>, held_up: bool) -> Option<Move>
        requires { place < length self.now.ends }
        ensures { result ≡ out_move place stopped held_up self.now }
    {
        let link = self.ends.at(place).link;
        match link.stage {
            SourceStage::Free => match link.ending(stopped) {
                Some(how) => Some(Move::End(how)),
                None => self.next_move(place),
            },
            SourceStage::Accepted(_) | SourceStage::Wished(_) | SourceStage::Claimed(_) => {
                Some(Move::Give)
            }
            SourceStage::AskedBy(_) => Some(Move::Hold),
            SourceStage::Waiting(_) if held_up => Some(Move::Withdraw),
            SourceStage::Posted(_)
            | SourceStage::Out(_)
            | SourceStage::Waiting(_)
            | SourceStage::Reserved(_)
            | SourceStage::Crossing
            | SourceStage::Refused
            | SourceStage::Ended(_) => None,
        }
    }

    // offers the element, where it may be offered over the link at a place
    #[inline(always)]
    fn next_move(&self, place: usize) -> Option<Move>
        requires { place < length self.now.ends }
        ensures { result ≡ free_move self.now place None }
    {
        if self.may_offer(place) {
            MessageHeader::new(self.id).map(Move::Offer)
        } else {
            None
        }
    }

    /// Makes what the link at a place is to have of the element, unless it is made.
    #[inline(always)]
    pub fn prepare_offer(&mut self, alloc: Global, place: usize) -> Result<(), AllocError>
        requires { place < length self.old.ends }
        ensures done { OnOk result (self.new ≡ prepares place self.old) }
        ensures kept { OnErr result (self.new ≡ self.old) }
    {
        if self.ends.at(place).share.is_some() {
            return Ok(());
        }
        match &self.element {
            Some(value) => self.ends.prepare(alloc, place, value),
            None => Ok(()),
        }
    }

    /// Whether it is made.
    pub fn is_ready(&self, place: usize) -> bool
        requires { place < length self.now.ends }
        ensures { result ≡ is_some (end_at self.now place).share }
    {
        self.ends.at(place).share.is_some()
    }

    /// Offers the element over the link at a place, and tells its header.
    #[inline(always)]
    pub fn offer(&mut self, place: usize) -> MessageHeader
        requires there { place < length self.old.ends }
        requires may { may_offer place self.old ≡ true }
        requires ready { is_some (end_at self.old place).share ≡ true }
        ensures header { result ≡ self.old.id }
        ensures out { self.new ≡ offers place self.old }
    {
        let Some(header) = MessageHeader::new(self.id) else {
            unreachable!()
        };
        let owes = self.ends.at(place).owes;
        self.restage(place, SourceStage::Out(header), owes);
        header
    }

    /// Looks at the phase of the link at a place.
    pub fn look_out(&mut self, place: usize, phase: Phase)
        requires { place < length self.old.ends }
        ensures { self.new ≡ looks place phase self.old }
    {
        let end = self.ends.at(place);
        let stage = end.link.stage.look(phase);
        let owed = end.owes;
        let answered = is_answer(self.once, stage);
        self.restage(place, stage, owed && !answered);
    }

    /// Gives the element over the link at a place, where it is wanted: a copy for the block's own account, and a parcel.
    pub fn give(&mut self, place: usize) -> (Value, Parcel)
        requires there { place < length self.old.ends }
        requires wanted { may_give place self.old ≡ true }
        requires ready { is_some (end_at self.old place).share ≡ true }
        requires room { HasRoom (link_at self.old place).rule.max (link_at self.old place).given }
        ensures own { self.old.element ≡ Some result.0 }
        ensures parcel { result.1 ≡ result.0 }
        ensures given { self.new ≡ gives place self.old }
    {
        let link = self.ends.at(place).link.gave(self.id);
        self.hand_over(place, link)
    }

    /// Sends the element over the link at a place, where it is offered, to a target that takes it at once: a copy for the
    /// block's own account, and a parcel.
    #[inline(always)]
    pub fn send(&mut self, place: usize) -> (Value, Parcel)
        requires there { place < length self.old.ends }
        requires offered { stage_at self.old place ≡ Out self.old.id }
        requires ready { is_some (end_at self.old place).share ≡ true }
        requires room { HasRoom (link_at self.old place).rule.max (link_at self.old place).given }
        ensures own { self.old.element ≡ Some result.0 }
        ensures parcel { result.1 ≡ result.0 }
        ensures sent { self.new ≡ sends place self.old }
    {
        let Some(share) = self.ends.send(place, self.id) else {
            unreachable!()
        };
        share.into_parts()
    }

    // what the link at a place is to have goes over it. The link stands elsewhere then, and owes nothing
    #[inline(always)]
    fn hand_over(&mut self, place: usize, link: OutEnd) -> (Value, Parcel)
        requires there { place < length self.old.ends }
        requires ready { is_some (end_at self.old place).share ≡ true }
        requires done { id_of link.stage ≡ None }
        ensures own { self.old.element ≡ Some result.0 }
        ensures parcel { result.1 ≡ result.0 }
        ensures over { self.new ≡ changes place (record { link = link; owes = false; share = None }) self.old }
    {
        let Some(share) = self.ends.take_share(place) else {
            unreachable!()
        };
        self.go_to(place, link, false);
        share.into_parts()
    }

    /// Keeps the element for the target that asks for it over the link at a place.
    pub fn hold(&mut self, place: usize)
        requires there { place < length self.old.ends }
        requires asks { is_asked_by (stage_at self.old place) ≡ true }
        ensures { self.new ≡ holds place self.old }
    {
        let end = self.ends.at(place);
        let owes = end.owes;
        let Some(header) = end.link.id() else {
            unreachable!()
        };
        self.restage(place, SourceStage::Reserved(header), owes);
    }

    /// Withdraws the offer that was postponed over the link at a place. The element is not offered there again.
    pub fn withdraw(&mut self, place: usize)
        requires there { place < length self.old.ends }
        requires waits { is_waiting (stage_at self.old place) ≡ true }
        ensures { self.new ≡ withdraws place self.old }
    {
        let end = self.ends.at(place);
        let owes = end.owes;
        let declined = match end.link.id() {
            Some(header) => header.id(),
            None => 0,
        };
        let link = OutEnd {
            declined,
            stage: SourceStage::Free,
            ..end.link
        };
        self.go_to(place, link, owes);
    }

    /// Ends the link at a place. What it owes stays.
    pub fn end(&mut self, place: usize, how: LinkEnd)
        requires there { place < length self.old.ends }
        requires free { is_free (stage_at self.old place) ≡ true }
        ensures { self.new ≡ ends_link place how self.old }
    {
        let owes = self.ends.at(place).owes;
        self.restage(place, SourceStage::Ended(how), owes);
    }

    /// The link over which the element is offered next, the first in order that may be asked, and its header: the offer
    /// is then out. What the link is to have is made before.
    pub fn next_offer(
        &mut self,
        alloc: Global,
    ) -> Result<Option<(LinkId, MessageHeader)>, AllocError>
        ensures named { IfOk result (λ named. named ≡ offer_named self.old) }
        ensures out { OnOk result (self.new ≡ offers_next self.old) }
        ensures kept { OnErr result (self.new ≡ self.old) }
    {
        let Some(place) = self.next_place() else {
            return Ok(None);
        };
        self.prepare_offer(alloc, place)?;
        let header = self.offer(place);
        Ok(Some((self.ends.at(place).link.rule.id, header)))
    }

    /// The place of the link over which the element would be offered next. The next search goes on from there.
    pub fn next_place(&mut self) -> Option<usize>
        ensures place { result ≡ next_place self.old }
        ensures kept { self.new ≡ self.old }
    {
        self.cursor = self.ends.first_open(self.cursor, self.id);
        place_below(self.element.is_some(), self.cursor, self.ends.all().len())
    }

    /// Whether the link's offer of this message is out, and not answered.
    pub fn is_asked(&self, link: LinkId, header: MessageHeader) -> bool
        ensures { (result ≡ true) ↔ IsAsked link header self.now }
    {
        self.tests_asked(self.ends.place_of(link), header)
    }

    fn tests_asked(&self, place: usize, header: MessageHeader) -> bool
        ensures { result ≡ tests_asked place header self.now }
    {
        place < self.ends.all().len() && self.ends.at(place).link.is_offered(header)
    }

    /// Whether the link may be told of this message, that it comes or that it is there no more: where it is the element
    /// and the link's target accepted it or put it off, all that giving it needs is there.
    pub fn may_consume(&self, link: LinkId, header: MessageHeader) -> bool
        ensures { (result ≡ true) ↔ MayConsume link header self.now }
    {
        self.tests_consume(self.ends.place_of(link), header)
    }

    fn tests_consume(&self, place: usize, header: MessageHeader) -> bool
        ensures { result ≡ tests_consume place header self.now }
    {
        if place >= self.ends.all().len() {
            return false;
        }
        let end = self.ends.at(place);
        !self.is_there(place, header) || end.share.is_some() && end.link.has_room()
    }

    // whether the message is the element, and the target at a place accepted it or put it off
    fn is_there(&self, place: usize, header: MessageHeader) -> bool
        requires { place < length self.now.ends }
        ensures { result ≡ is_there place header self.now }
    {
        header.id() == self.id && self.ends.at(place).link.is_taken(self.id, false)
    }

    /// Notes what the target answered to the offer that is out.
    pub fn note_answer(&mut self, link: LinkId, header: MessageHeader, status: MessageStatus)
        requires { IsAsked link header self.old }
        ensures { self.new ≡ answered status header (place_of link self.old.ends) self.old }
    {
        let place = self.ends.place_of(link);
        let end = self.ends.at(place);
        let (stage, declined) = end.link.answered(header, status);
        let owes = still_owes(status, self.once, end.owes);
        let link = OutEnd {
            declined,
            stage,
            ..end.link
        };
        self.go_to(place, link, owes);
    }

    /// Gives the link a copy of the message, where its target accepted it or put it off; none, where it is not the
    /// element any more, or the link does not wait for it.
    pub fn consume_message(&mut self, link: LinkId, header: MessageHeader) -> Option<Parcel>
        requires { MayConsume link header self.old }
        ensures consumed { result ≡ consumed link header self.old }
        ensures left { self.new ≡ consumes link header self.old }
    {
        let place = self.ends.place_of(link);
        if !self.is_there(place, header) {
            return None;
        }
        self.look_out(place, Phase::Wanted(header));
        let (_value, parcel) = self.give(place);
        self.look_out(place, Phase::Idle);
        Some(parcel)
    }

    /// Whether the link may ask to reserve this message: its target postponed it.
    pub fn may_reserve(&self, link: LinkId, header: MessageHeader) -> bool
        ensures { (result ≡ true) ↔ MayReserve link header self.now }
    {
        self.tests_reserve(self.ends.place_of(link), header)
    }

    fn tests_reserve(&self, place: usize, header: MessageHeader) -> bool
        ensures { result ≡ tests_reserve place header self.now }
    {
        place < self.ends.all().len() && self.ends.at(place).link.is_waiting_for(header)
    }

    /// Whether this message is kept for the link.
    pub fn is_reserved(&self, link: LinkId, header: MessageHeader) -> bool
        ensures { (result ≡ true) ↔ IsReserved link header self.now }
    {
        self.tests_reserved(self.ends.place_of(link), header)
    }

    fn tests_reserved(&self, place: usize, header: MessageHeader) -> bool
        ensures { result ≡ tests_reserved place header self.now }
    {
        place < self.ends.all().len() && self.ends.at(place).link.is_kept_for(header)
    }

    /// Keeps the message for the target that postponed it; false, where it is not the element any more.
    pub fn reserve_message(&mut self, link: LinkId, header: MessageHeader) -> bool
        requires { MayReserve link header self.old }
        ensures told { result ≡ reserved header self.old }
        ensures kept { self.new ≡ reserves link header self.old }
    {
        if header.id() != self.id {
            return false;
        }
        let place = self.ends.place_of(link);
        self.look_out(place, Phase::Asked(header));
        self.hold(place);
        true
    }

    /// The target gives up the message that is kept for it, which waits again.
    pub fn release_reservation(&mut self, link: LinkId, header: MessageHeader)
        requires { IsReserved link header self.old }
        ensures { self.new ≡ releases link header self.old }
    {
        let place = self.ends.place_of(link);
        self.look_out(place, Phase::Postponed(header));
    }

    /// Whether the link has carried as many messages as it may. It then ends, and passes nothing on.
    pub fn cut(&self, link: LinkId) -> bool
        requires { place_of link self.now.ends < length self.now.ends }
        ensures { result ≡ is_cut (link_at self.now (place_of link self.now.ends)) }
    {
        self.ends.at(self.ends.place_of(link)).link.is_cut()
    }

    // puts the end at a place to a stage
    #[inline(always)]
    fn restage(&mut self, place: usize, stage: SourceStage, owes: bool)
        requires { place < length self.old.ends }
        ensures { self.new ≡ restages place stage owes self.old }
    {
        let link = OutEnd {
            stage,
            ..self.ends.at(place).link
        };
        self.go_to(place, link, owes);
    }

    // the link at a place stands elsewhere. The search for the next offer goes back to it where it is open
    #[inline(always)]
    fn go_to(&mut self, place: usize, link: OutEnd, owes: bool)
        requires { place < length self.old.ends }
        ensures { self.new ≡ moves place link owes self.old }
    {
        self.ends.go_to(place, link, owes);
        if place < self.cursor && self.ends.at(place).is_open(self.id) {
            self.cursor = place;
        }
    }
}

// a place, where there is an element, and an end at that place
fn place_below(is_some: bool, place: usize, count: usize) -> Option<usize>
    ensures { result ≡ cond (is_some && ltb place count) (Some place) None }
{
    if is_some && place < count {
        Some(place)
    } else {
        None
    }
}

// whether a link still owes after its target's answer
fn still_owes(status: MessageStatus, once: bool, owes: bool) -> bool
    ensures { result ≡ still_owes status once owes }
{
    match status {
        MessageStatus::Accepted => owes,
        MessageStatus::Declined | MessageStatus::Postponed | MessageStatus::NotAvailable => {
            owes && once
        }
        MessageStatus::DecliningPermanently => false,
    }
}
