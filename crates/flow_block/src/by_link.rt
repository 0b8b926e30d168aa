//! What a block does at a link that is named by its number: its place is looked for first.
ghost use Rattle.std.specs.Prelude.{◌≡◌, ◌<◌, ◌^◌, ◌==◌, cond, None, length, position, is_some};
ghost use Rattle.std.specs.Prelude.{IfOk, IfSome, OnOk, OnErr};
ghost use Rattle.flow_link.specs.TargetCalls.{MayNote};
ghost use Rattle.flow_link.specs.declared.traits.WishAnswer.TheVariants.{Held};
ghost use Rattle.flow_intake.specs.ByLink.{place_of as port_place};
ghost use Rattle.flow_outlet.specs.ByLink.{place_of, named_at, offers_at, answered, consumed};
ghost use Rattle.flow_outlet.specs.Outlet.{may_offer};
ghost use Rattle.flow_outlet.specs.declared.ends.OutEnd.{OutEnd};
ghost use Rattle.flow_spread.specs.declared.end.CopyEnd.{CopyEnd};
ghost use Rattle.flow_spread.specs.ByLink.{place_of as copy_place, named_at as copy_named, answered as copy_answered, IsAsked};
ghost use Rattle.flow_spread.specs.ByLink.{IsReserved};
ghost use Rattle.flow_spread.specs.Spread.{next_place as next_copy};
ghost use Rattle.flow_block.specs.Block.{with_copies};
ghost use Rattle.flow_block.specs.JournalFits.{ports_due};
ghost use Rattle.flow_block.specs.Traits.{carries, offers_over, may_take, gives_over, carries_copy, copies_over};
ghost use Rattle.flow_block.specs.Traits.{offers_copy_at, may_take_copy, copies_home, port_shown, holds_at};
ghost use Rattle.flow_block.specs.Traits.{may_keep, keeps_head, may_keep_copy, keeps_copy, releases_its_copy};
ghost use Rattle.flow_block.specs.Traits.{port_into, wishes_at, wishing_port};

use crate::block::Block;
use crate::copies::{copies_weight, give_back};
use crate::ports::{bring_back, ports_due};
use flow_intake::Intake;
use flow_link::{LinkId, Phase, TargetStage};
use flow_outlet::OutEnd;
use flow_spread::CopyEnd;
use flow_value::{MessageHeader, MessageStatus, Parcel};
use std::alloc::{AllocError, Global};

// At the links over which it shares its messages out.
impl Block {
    /// Offers the head over the next link that may be asked, if its end is the one that it names.
    pub(crate) fn offer_head(
        &mut self,
        alloc: Global,
    ) -> Result<Option<(LinkId, MessageHeader)>, AllocError>
        ensures named { IfOk result (λ offer. offer ≡
            named_at self.old.exits (offers_over self.old.exits (may_offer self.old.exits))) }
        ensures done { OnOk result (self.new ≡ record self.old {
          exits = offers_at self.old.exits (offers_over self.old.exits (may_offer self.old.exits));
        }) }
        ensures kept { OnErr result (self.new ≡ self.old) }
    {
        if !self.carries_next() {
            return Ok(None);
        }
        let offer = self.exits.next_offer(alloc)?;
        Ok(offer)
    }

    /// Whether the end over which the head may be offered is the one that its link names, and may carry it.
    fn carries_next(&self) -> bool
        ensures { result ≡ is_some (offers_over self.now.exits (may_offer self.now.exits)) }
    {
        match self.exits.may_offer() {
            Some(place) => carries(self.exits.ends(), place),
            None => false,
        }
    }

    /// Gives the head over this link, where it is the message and is there for the link.
    pub(crate) fn give_head(&mut self, link: LinkId, header: MessageHeader) -> Option<Parcel>
        ensures given { result ≡ cond (may_take link header self.old.exits) (consumed link header self.old.exits) None }
        ensures left { self.new ≡ cond (may_take link header self.old.exits) (gives_over link header self.old) self.old }
    {
        if !self.exits.may_consume(link, header) {
            return None;
        }
        let parcel = self.exits.consume_message(link, header)?;
        bring_back(
            &mut self.ports,
            &mut self.exits,
            &self.copies,
            self.kind,
            parcel.value(),
        );
        Some(parcel)
    }

    /// Keeps the head for this link's target, where it is the message, may cross there, and is kept for no other.
    pub(crate) fn keep_head(&mut self, link: LinkId, header: MessageHeader) -> bool
        ensures told { result ≡ may_keep link header self.old.exits }
        ensures left { self.new ≡ cond (may_keep link header self.old.exits) (keeps_head link header self.old) self.old }
    {
        if !self.exits.may_reserve(link, header) {
            return false;
        }
        if !self.exits.may_consume(link, header) {
            return false;
        }
        self.exits.reserve_message(link, header)
    }
}

// At the links over which it copies.
impl Block {
    /// Offers the element over the next link that may be asked, if its end is the one that it names.
    pub(crate) fn offer_next_copy(
        &mut self,
        alloc: Global,
    ) -> Result<Option<(LinkId, MessageHeader)>, AllocError>
        ensures named { IfOk result (λ offer. offer ≡
            copy_named self.old.copies (copies_over self.old.copies (next_copy self.old.copies))) }
        ensures done { OnOk result (self.new ≡
            offers_copy_at (copies_over self.old.copies (next_copy self.old.copies)) self.old) }
        ensures kept { OnErr result (self.new ≡ self.old) }
    {
        let Some(place) = self.copies.next_place() else {
            return Ok(None);
        };
        if !carries_copy(self.copies.ends(), place) {
            return Ok(None);
        }
        let link = self.copies.ends()[place].link.rule.id;
        let header = self.offer_copy(alloc, place)?;
        Ok(Some((link, header)))
    }

    /// Notes what the target at this link answered to the offer of the element.
    pub(crate) fn note_copy(&mut self, link: LinkId, header: MessageHeader, status: MessageStatus)
        requires { IsAsked link header self.old.copies }
        ensures { self.new ≡
            with_copies (copy_answered status header (copy_place link self.old.copies.ends) self.old.copies) self.old }
    {
        let counted = copies_weight(&self.copies);
        self.copies.note_answer(link, header, status);
        give_back(&mut self.ports, counted, &self.copies);
    }

    /// Gives a copy of the element over this link, where it is the message and is there for the link.
    pub(crate) fn give_copy_over(&mut self, link: LinkId, header: MessageHeader) -> Option<Parcel>
        ensures given { result ≡ cond (may_take_copy link header self.old.copies) self.old.copies.element None }
        ensures left { self.new ≡
            cond (may_take_copy link header self.old.copies) (copies_home link header self.old) self.old }
    {
        if self.copies.element().is_none() || !self.copies.may_consume(link, header) {
            return None;
        }
        let counted = copies_weight(&self.copies);
        let parcel = self.copies.consume_message(link, header)?;
        give_back(&mut self.ports, counted, &self.copies);
        Some(parcel)
    }

    /// Keeps a copy of the element for this link's target, where it is the message and may cross there.
    pub(crate) fn keep_copy(&mut self, link: LinkId, header: MessageHeader) -> bool
        ensures told { result ≡ may_keep_copy link header self.old.copies }
        ensures left { self.new ≡
            cond (may_keep_copy link header self.old.copies) (keeps_copy link header self.old) self.old }
    {
        if !self.may_keep_copy(link, header) {
            return false;
        }
        let counted = copies_weight(&self.copies);
        let kept = self.copies.reserve_message(link, header);
        give_back(&mut self.ports, counted, &self.copies);
        kept
    }

    fn may_keep_copy(&self, link: LinkId, header: MessageHeader) -> bool
        ensures { result ≡ may_keep_copy link header self.now.copies }
    {
        self.copies.element().is_some()
            && self.copies.may_reserve(link, header)
            && self.copies.may_consume(link, header)
            && self.copies.id() == header.id()
    }

    /// The target at this link gives up the copy that is kept for it, and waits on.
    pub(crate) fn release_copy(&mut self, link: LinkId, header: MessageHeader)
        requires { IsReserved link header self.old.copies }
        ensures { self.new ≡ releases_its_copy link header self.old }
    {
        let counted = copies_weight(&self.copies);
        self.copies.release_reservation(link, header);
        give_back(&mut self.ports, counted, &self.copies);
    }
}

impl Block {
    /// The port into which a link leads: the first that has an end of it. A link that is new leads into the first port.
    pub fn port_into(&self, link: LinkId) -> usize
        ensures { result ≡ port_into link self.now.ports }
    {
        port_into(&self.ports, link)
    }

    /// For how many messages memory is set aside at its ports.
    pub fn messages_due(&self) -> usize
        requires { ports_due self.now.ports < 2 ^ 64 }
        ensures { result ≡ ports_due self.now.ports }
    {
        ports_due(&self.ports)
    }
}

/// Whether the end at this place is the one that its link names, and one more message may cross there.
fn carries(ends: &[OutEnd], place: usize) -> bool
    requires { place < length ends.now }
    ensures { result ≡ carries place ends.now }
{
    let end = ends[place];
    place_out(ends, end.rule.id) == place && end.has_room()
}

/// The place of a link's end out of a block; where there is none, behind the last.
fn place_out(ends: &[OutEnd], link: LinkId) -> usize
    ensures { result ≡ place_of link ends.now }
{
    first_out(ends, link).unwrap_or(ends.len())
}

fn first_out(ends: &[OutEnd], link: LinkId) -> Option<usize>
    ensures { result ≡ position (λ (end : OutEnd). end.rule.id == link) ends.now }
{
    ends.iter().position(|end| end.rule.id == link)
}

/// Whether the end at this place is the one that its link names, and the element may cross there.
fn carries_copy(ends: &[CopyEnd], place: usize) -> bool
    requires { place < length ends.now }
    ensures { result ≡ carries_copy place ends.now }
{
    let end = &ends[place].link;
    place_of_copy(ends, end.rule.id) == place && end.has_room()
}

/// The place of a link's end over which a block copies; where there is none, behind the last.
fn place_of_copy(ends: &[CopyEnd], link: LinkId) -> usize
    ensures { result ≡ copy_place link ends.now }
{
    first_copy(ends, link).unwrap_or(ends.len())
}

fn first_copy(ends: &[CopyEnd], link: LinkId) -> Option<usize>
    ensures { result ≡ position (λ (end : CopyEnd). end.link.rule.id == link) ends.now }
{
    ends.iter().position(|end| end.link.rule.id == link)
}

/// The port into which a link leads: the first that has an end of it. A link that is new leads into the first port.
pub(crate) fn port_into(ports: &[Intake], link: LinkId) -> usize
    ensures port { result ≡ port_into link ports.now }
    ensures there { 0 < length ports.now → result < length ports.now }
{
    for port in 0..ports.len() {
        if place_in(&ports[port], link).is_some() {
            return port;
        }
    }
    0
}

/// The place of a link's end at a port.
fn place_in(port: &Intake, link: LinkId) -> Option<usize>
    ensures { result ≡ port_place link port.now.ends }
{
    for place in 0..port.link_count() {
        if port.link(place) == link {
            return Some(place);
        }
    }
    None
}

/// The first port that would consume an offer which it postponed.
pub(crate) fn wishing_port(ports: &[Intake]) -> Option<usize>
    ensures port { result ≡ wishing_port ports.now }
    ensures there { IfSome result (λ p. p < length ports.now) }
{
    for port in 0..ports.len() {
        if wishes_at(ports, port) {
            return Some(port);
        }
    }
    None
}

/// Whether this port would consume an offer that it postponed, over a link that leads into it and whose own end it is.
fn wishes_at(ports: &[Intake], port: usize) -> bool
    requires { port < length ports.now }
    ensures { result ≡ wishes_at ports.now port }
{
    match ports[port].next_place() {
        Some(place) if place < ports[port].link_count() => {
            let link = ports[port].link(place);
            place_in(&ports[port], link) == Some(place)
                && matches!(ports[port].stage(place), TargetStage::Postponed(_))
                && port_into(ports, link) == port
        }
        Some(_) | None => false,
    }
}

/// The message over this link, which the port asked for, is kept for it.
pub(crate) fn hold(port: &mut Intake, link: LinkId)
    requires { MayNote Held (port_shown (port_place link port.old.ends) port.old) }
    ensures { port.new ≡ holds_at (port_place link port.old.ends) port.old }
{
    if let Some(place) = place_in(port, link)
        && let TargetStage::Asking(header) = port.stage(place)
    {
        port.look_in(place, Phase::Held(header));
    }
}
