//! The source's ends of links.
ghost use Rattle.std.specs.Prelude.{◌≡◌, ◌+◌, ◌≤◌, ◌<◌, ◌==◌, ◌||◌, length, drop, map, position};
ghost use Rattle.flow_outlet.specs.declared.ends.OutEnd.{OutEnd};
ghost use Rattle.std.specs.Option.{option_copied};
ghost use Rattle.flow_outlet.specs.End.{is_cut, is_passed, id_of, speaks_of, is_free, is_over};
ghost use Rattle.flow_outlet.specs.End.{is_away, is_waiting, is_out, is_spoken_for, waits_with};
ghost use Rattle.flow_link.specs.LinkOk.{HasRoom};
ghost use Rattle.flow_outlet.specs.ByLink.{answer_stage, answer_declined, place_of, forgotten, forgotten_for};
ghost use Rattle.flow_outlet.specs.ByLink.{is_offered, is_waiting_for, is_kept_for, is_taken, has_room};
ghost use Rattle.flow_outlet.specs.Outlet.{given_end, end_of};
ghost use Rattle.flow_outlet.specs.End.{fresh_end, place_in, cursor_after};
ghost use Rattle.flow_outlet.specs.Sends.{sent_end};

use flow_link::{LinkEnd, LinkId, Outcome, SourceStage};
use flow_value::{MessageHeader, MessageStatus, Value, When};

/// What the plan says of a link that leads out of a block.
#[derive(Clone, Copy, PartialEq, Eq)]
pub struct LinkRule {
    /// The link.
    pub id: LinkId,
    /// Which messages it carries.
    pub when: When,
    /// How many messages it carries at most.
    pub max: Option<u32>,
    /// It passes its source's end on to its target.
    pub passes: bool,
    /// Its target takes each offer at once: it has no capacity, keeps no single element and does not reserve.
    pub steady: bool,
    /// No other link leads into its target, which does not reserve.
    pub sole: bool,
}

/// The source's end of a link: what the plan says of the link, and how far the source has come.
#[derive(Clone, Copy, PartialEq, Eq)]
pub struct OutEnd {
    /// What the plan says.
    pub rule: LinkRule,
    /// How many messages it gave, counted only where there is a limit.
    pub given: u32,
    /// The id of the message that it gave last, or 0.
    pub last: u64,
    /// The id of the message that was offered over it last and is not offered again, or 0.
    pub declined: u64,
    /// Where it stands.
    pub stage: SourceStage,
}

impl OutEnd {
    /// The end of a link over which nothing has gone yet.
    pub fn new(rule: LinkRule) -> OutEnd
        ensures { result ≡ fresh_end rule }
    {
        OutEnd {
            rule,
            given: 0,
            last: 0,
            declined: 0,
            stage: SourceStage::Free,
        }
    }

    /// Whether it gave as many messages as the plan lets cross.
    #[inline]
    pub fn is_cut(&self) -> bool
        ensures { result ≡ is_cut self.now }
    {
        match self.rule.max {
            Some(max) => self.given == max,
            None => false,
        }
    }

    /// How the link ends, if it ends now: a link that is cut passes nothing on.
    pub fn ending(&self, stopped: Option<Outcome>) -> Option<LinkEnd>
        ensures { result ≡ end_of self.now stopped }
    {
        if self.is_cut() {
            return Some(LinkEnd::Plain);
        }
        let outcome = stopped?;
        Some(match (self.rule.passes, outcome) {
            (false, _) => LinkEnd::Plain,
            (true, Outcome::Done) => LinkEnd::Complete,
            (true, Outcome::Faulted(number)) => LinkEnd::Fault(number),
        })
    }

    /// The message of which its stage speaks.
    pub fn id(&self) -> Option<MessageHeader>
        ensures { result ≡ id_of self.now.stage }
    {
        match self.stage {
            SourceStage::Posted(header)
            | SourceStage::Out(header)
            | SourceStage::Waiting(header)
            | SourceStage::Accepted(header)
            | SourceStage::Wished(header)
            | SourceStage::AskedBy(header)
            | SourceStage::Reserved(header)
            | SourceStage::Claimed(header) => Some(header),
            SourceStage::Free
            | SourceStage::Crossing
            | SourceStage::Refused
            | SourceStage::Ended(_) => None,
        }
    }

    /// Whether its stage speaks of the message with this id.
    pub fn speaks_of(&self, id: u64) -> bool
        ensures { result ≡ speaks_of id self.now.stage }
    {
        match self.id() {
            Some(header) => header.id() == id,
            None => false,
        }
    }

    /// Whether nothing is under way over it, and something may be offered.
    #[inline]
    pub fn is_free(&self) -> bool
        ensures { result ≡ is_free self.now.stage }
    {
        matches!(self.stage, SourceStage::Free)
    }

    /// Whether its target takes no more, or nothing more is offered over it.
    pub fn is_over(&self) -> bool
        ensures { result ≡ is_over self.now.stage }
    {
        matches!(self.stage, SourceStage::Refused | SourceStage::Ended(_))
    }

    /// Whether an offer is out over it: not answered yet, or accepted and not given yet.
    #[inline]
    pub fn is_out(&self) -> bool
        ensures { result ≡ is_out self.now.stage }
    {
        matches!(self.stage, SourceStage::Out(_) | SourceStage::Accepted(_))
    }

    /// Whether the head is spoken for over it: its offer is out, or it is kept for the target, which may claim it.
    #[inline]
    pub fn is_spoken_for(&self) -> bool
        ensures { result ≡ is_spoken_for self.now.stage }
    {
        matches!(
            self.stage,
            SourceStage::Out(_)
                | SourceStage::Accepted(_)
                | SourceStage::Reserved(_)
                | SourceStage::Claimed(_)
        )
    }

    /// Whether the message with this id waits over it.
    pub fn waits_with(&self, id: u64) -> bool
        ensures { result ≡ waits_with id self.now }
    {
        self.is_waiting() && self.speaks_of(id)
    }

    /// Whether an offer over it was postponed, as far as the source has seen.
    #[inline]
    pub fn is_waiting(&self) -> bool
        ensures { result ≡ is_waiting self.now.stage }
    {
        matches!(self.stage, SourceStage::Waiting(_))
    }

    /// Whether something is under way over it, or waits there.
    #[inline]
    pub fn is_away(&self) -> bool
        ensures { result ≡ is_away self.now.stage }
    {
        !matches!(
            self.stage,
            SourceStage::Free | SourceStage::Refused | SourceStage::Ended(_)
        )
    }

    /// Whether an offer of this message is out over it, and not answered.
    pub fn is_offered(&self, header: MessageHeader) -> bool
        ensures { result ≡ is_offered header self.now.stage }
    {
        match self.stage {
            SourceStage::Out(offered) => offered.id() == header.id(),
            _ => false,
        }
    }

    /// Whether the offer of this message that was made over it was postponed, as far as the source has seen.
    pub fn is_waiting_for(&self, header: MessageHeader) -> bool
        ensures { result ≡ is_waiting_for header self.now.stage }
    {
        match self.stage {
            SourceStage::Waiting(waiting) => waiting.id() == header.id(),
            _ => false,
        }
    }

    /// Whether this message is kept for its target.
    pub fn is_kept_for(&self, header: MessageHeader) -> bool
        ensures { result ≡ is_kept_for header self.now.stage }
    {
        match self.stage {
            SourceStage::Reserved(kept) => kept.id() == header.id(),
            _ => false,
        }
    }

    /// Whether its target may take the message with this id, while another offer is out or none: it accepted it, or it
    /// postponed it or wishes for it and none is out.
    pub fn is_taken(&self, id: u64, is_out: bool) -> bool
        ensures { result ≡ is_taken id is_out self.now.stage }
    {
        match self.stage {
            SourceStage::Accepted(header) | SourceStage::Reserved(header) => header.id() == id,
            SourceStage::Waiting(header) | SourceStage::Wished(header) => header.id() == id
                && !is_out,
            _ => false,
        }
    }

    /// Whether one more message may cross.
    pub fn has_room(&self) -> bool
        ensures { result ≡ has_room self.now.rule.max self.now.given }
    {
        match self.rule.max {
            Some(max) => self.given < max,
            None => true,
        }
    }

    /// The end after it gave the message with this id.
    #[inline(always)]
    pub fn gave(self, id: u64) -> OutEnd
        requires { HasRoom self.rule.max self.given }
        ensures { result ≡ given_end id self }
    {
        let given = match self.rule.max {
            Some(_) => self.given + 1,
            None => self.given,
        };
        OutEnd {
            given,
            last: id,
            stage: SourceStage::Crossing,
            ..self
        }
    }

    /// Notes that the message with this id went over it, to a target that took it at once.
    #[inline]
    pub fn note_sent(&mut self, id: u64)
        requires { HasRoom self.old.rule.max self.old.given }
        ensures { self.new ≡ sent_end id self.old }
    {
        if self.rule.max.is_some() {
            self.given += 1;
        }
        self.last = id;
        self.stage = SourceStage::Free;
    }

    /// The stage after the target answered the offer of this message, and what is then not offered again.
    pub fn answered(&self, header: MessageHeader, status: MessageStatus) -> (SourceStage, u64)
        ensures stage { result.0 ≡ answer_stage status header }
        ensures declined { result.1 ≡ answer_declined status header self.now.declined }
    {
        match status {
            MessageStatus::Accepted => (SourceStage::Accepted(header), self.declined),
            MessageStatus::Postponed => (SourceStage::Waiting(header), self.declined),
            MessageStatus::Declined | MessageStatus::NotAvailable => (
                SourceStage::Free,
                header.id(),
            ),
            MessageStatus::DecliningPermanently => (SourceStage::Refused, self.declined),
        }
    }

    /// The end after it forgot that an offer was postponed.
    pub fn forgotten(self) -> OutEnd
        ensures { result ≡ forgotten self }
    {
        match self.stage {
            SourceStage::Waiting(_) => OutEnd {
                stage: SourceStage::Free,
                ..self
            },
            _ => self,
        }
    }

    /// The end where it is forgotten what was answered for the message with this id.
    pub fn forgotten_for(self, id: u64) -> OutEnd
        ensures { result ≡ forgotten_for id self }
    {
        let declined = if self.declined == id {
            0
        } else {
            self.declined
        };
        let before = self.forgotten();
        OutEnd { declined, ..before }
    }

    // whether a message goes past it by its stage alone
    #[inline]
    fn stage_passes(&self, next: u64) -> bool
        ensures { result ≡ (is_over self.now.stage || speaks_of next self.now.stage) }
    {
        match self.stage {
            SourceStage::Free | SourceStage::Crossing => false,
            SourceStage::Refused | SourceStage::Ended(_) => true,
            SourceStage::Posted(header)
            | SourceStage::Out(header)
            | SourceStage::Waiting(header)
            | SourceStage::Accepted(header)
            | SourceStage::Wished(header)
            | SourceStage::AskedBy(header)
            | SourceStage::Reserved(header)
            | SourceStage::Claimed(header) => header.id() == next,
        }
    }

    /// Whether a message goes past it: no message is offered over it any more, this one was offered over it before, or
    /// its predicate turns this one away.
    #[inline(always)]
    pub fn is_passed(&self, next: u64, head: Option<&Value>) -> bool
        ensures { result ≡ is_passed next (option_copied head.entry) self.now }
    {
        if self.stage_passes(next) || self.declined == next || self.is_cut() {
            return true;
        }
        match head {
            Some(value) => !self.rule.when.admits(value),
            None => false,
        }
    }
}

/// The first place, from one on, that the message does not go past.
#[inline(always)]
pub(crate) fn first_from(ends: &[OutEnd], from: usize, next: u64, head: Option<&Value>) -> usize
    requires { from ≤ length ends.now }
    ensures { result ≡ from + place_in next (option_copied head.entry) (drop from ends.now) }
{
    for place in from..ends.len() {
        if !ends[place].is_passed(next, head) {
            return place;
        }
    }
    ends.len()
}

/// The first place that the message does not go past, where it was `cursor` before the end at a place changed.
pub(crate) fn cursor_after(
    ends: &[OutEnd],
    place: usize,
    cursor: usize,
    next: u64,
    head: Option<&Value>,
) -> usize
    requires { place < length ends.now }
    ensures { result ≡ cursor_after place cursor next (option_copied head.entry) ends.now }
{
    if cursor < place {
        return cursor;
    }
    if !ends[place].is_passed(next, head) {
        return place;
    }
    if place < cursor {
        return cursor;
    }
    first_from(ends, place + 1, next, head)
}

/// The place of the end of a link; where there is none, behind the last.
pub(crate) fn place_of(ends: &[OutEnd], link: LinkId) -> usize
    ensures { result ≡ place_of link ends.now }
{
    found(ends, link).unwrap_or(ends.len())
}

fn found(ends: &[OutEnd], link: LinkId) -> Option<usize>
    ensures { result ≡ position (λ (end : OutEnd). end.rule.id == link) ends.now }
{
    ends.iter().position(|end| end.rule.id == link)
}

/// Forgets that offers were postponed.
pub(crate) fn forget_waiting(ends: &mut Vec<OutEnd>)
    ensures { ends.new.items ≡ map forgotten ends.old.items }
{
    for place in 0..ends.len() {
        let end = ends[place].forgotten();
        ends[place] = end;
    }
}

/// Forgets all answers for the message with this id.
pub(crate) fn forget_answers(ends: &mut Vec<OutEnd>, id: u64)
    ensures { ends.new.items ≡ map (forgotten_for id) ends.old.items }
{
    for place in 0..ends.len() {
        let end = ends[place].forgotten_for(id);
        ends[place] = end;
    }
}
