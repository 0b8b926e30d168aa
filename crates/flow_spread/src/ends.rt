//! The ends of all links over which a block copies, by their places, with counts of them.
ghost use Rattle.std.specs.Prelude.{◌≡◌, ◌<◌, ◌≤◌, ◌+◌, ◌^◌, ◌==◌, cond, drop, map, set, length, position, true, Some, OnOk};
ghost use Rattle.std.specs.Prelude.{OnErr, IfOk, is_some, None};
ghost use Rattle.flow_spread.specs.ByLink.{place_of};
ghost use Rattle.flow_spread.specs.End.{fresh_end, end_in, first_open, moved, takes_up, count_of, owes_it};
ghost use Rattle.flow_link.specs.LinkOk.{HasRoom};
ghost use Rattle.flow_link.specs.declared.stage.SourceStage.TheVariants.{Out};
ghost use Rattle.flow_spread.specs.Sends.{sent_end};
ghost use Rattle.flow_spread.specs.End.{is_away_at, is_waiting_at, is_busy_at};
ghost use Rattle.flow_spread.specs.declared.end.CopyEnd.{CopyEnd};

use crate::end::{CopyEnd, is_busy};
use crate::share::Share;
use flow_link::LinkId;
use flow_outlet::{LinkRule, OutEnd};
use flow_value::Value;
use std::alloc::{AllocError, Global};
use std::marker::Model;

/// Ends of links. Contracts see the list of them.
#[derive(Drop)]
pub(crate) struct Ends {
    ends: Vec<CopyEnd>,
    // how many owe, at how many something is under way, how many of these only wait, and how many are busy
    owing: usize,
    away: usize,
    waiting: usize,
    busy: usize,
}

impl Model for Ends {
    ghost use Rattle.std.specs.Coded.{codes};
    ghost use Rattle.std.specs.Prelude.{List, ◌≡◌};
    ghost use Rattle.flow_value.specs.contracts.value.Value as content;
    ghost use Rattle.flow_spread.specs.End.{count_of, owes_it, is_away_at, is_waiting_at, is_busy_at};
    ghost use Rattle.flow_spread.specs.declared.end.CopyEnd.{CopyEnd};

    ghost Value = { List CopyEnd };

    ghost coded = { Prim.hlevel (codes, content.the_row.coded) };

    ghost view = { λ e. e.ends.items };

    ghost invariant = { λ e. (e.owing ≡ count_of owes_it e.ends.items) ×
        (e.away ≡ count_of is_away_at e.ends.items) ×
        (e.waiting ≡ count_of is_waiting_at e.ends.items) ×
        (e.busy ≡ count_of is_busy_at e.ends.items) };
}

impl Ends {
    /// The ends of these links.
    pub(crate) fn new(alloc: Global, rules: &[LinkRule]) -> Result<Ends, AllocError>
        ensures ends { IfOk result (λ ends. ends ≡ map fresh_end rules.now) }
    {
        Ok(Ends {
            ends: fresh_ends(alloc, rules)?,
            owing: 0,
            away: 0,
            waiting: 0,
            busy: 0,
        })
    }

    /// All of them.
    pub(crate) fn all(&self) -> &[CopyEnd]
        ensures all { result.now ≡ self.now }
        ensures few { length self.now < 2 ^ 63 }
    {
        self.ends.as_slice()
    }

    /// How many owe.
    #[inline]
    pub(crate) fn owing(&self) -> usize
        ensures { result ≡ count_of owes_it self.now }
    {
        self.owing
    }

    /// At how many something is under way, or waits.
    #[inline]
    pub(crate) fn away(&self) -> usize
        ensures { result ≡ count_of is_away_at self.now }
    {
        self.away
    }

    /// At how many an offer waits.
    #[inline]
    pub(crate) fn waiting(&self) -> usize
        ensures { result ≡ count_of is_waiting_at self.now }
    {
        self.waiting
    }

    /// At how many the target has to be given the element, or to say more.
    #[inline]
    pub(crate) fn busy(&self) -> usize
        ensures { result ≡ count_of is_busy_at self.now }
    {
        self.busy
    }

    /// The end at this place.
    #[inline]
    pub(crate) fn at(&self, place: usize) -> &CopyEnd
        requires { place < length self.now }
        ensures { result.now ≡ end_in self.now place }
    {
        &self.ends[place]
    }

    /// The link of the end at this place stands elsewhere from now on.
    #[inline(always)]
    pub(crate) fn go_to(&mut self, place: usize, link: OutEnd, owes: bool)
        requires { place < length self.old }
        ensures { self.new ≡ set self.old place (moved link owes (end_in self.old place)) }
    {
        let end = self.at(place);
        let (before, owed) = (end.link, end.owes);
        self.ends[place].go_to(link, owes);
        self.owing = recounted(self.owing, owed, owes);
        self.away = recounted(self.away, before.is_away(), link.is_away());
        self.waiting = recounted(self.waiting, before.is_waiting(), link.is_waiting());
        self.busy = recounted(self.busy, is_busy(before.stage), is_busy(link.stage));
    }

    /// The link of the end at this place, over which the element with this id is offered, sends it to a target that takes
    /// it at once: this is what it was to have. It stands where it stood before the offer, and owes nothing.
    #[inline(always)]
    pub(crate) fn send(&mut self, place: usize, id: u64) -> Option<Share>
        requires there { place < length self.old }
        requires offered { (end_in self.old place).link.stage ≡ Out id }
        requires room { HasRoom (end_in self.old place).link.rule.max (end_in self.old place).link.given }
        ensures share { result ≡ (end_in self.old place).share }
        ensures sent { self.new ≡ set self.old place (sent_end id (end_in self.old place)) }
    {
        let owed = self.at(place).owes;
        let share = self.ends[place].send(id);
        self.owing = recounted(self.owing, owed, false);
        self.away = recounted(self.away, true, false);
        self.busy = recounted(self.busy, true, false);
        share
    }

    /// Makes what the link of the end at this place is to have of the element.
    #[inline(always)]
    pub(crate) fn prepare(
        &mut self,
        alloc: Global,
        place: usize,
        value: &Value,
    ) -> Result<(), AllocError>
        requires { place < length self.old }
        ensures done { OnOk result (self.new ≡ set self.old place (record (end_in self.old place) { share = Some value.now })) }
        ensures kept { OnErr result (self.new ≡ self.old) }
    {
        let share = Share::of(alloc, value)?;
        self.ends[place].put_share(share);
        Ok(())
    }

    /// What the link of the end at this place is to have. Nothing of it stays.
    #[inline(always)]
    pub(crate) fn take_share(&mut self, place: usize) -> Option<Share>
        requires { place < length self.old }
        ensures share { result ≡ (end_in self.old place).share }
        ensures taken { self.new ≡ set self.old place (record (end_in self.old place) { share = None }) }
    {
        self.ends[place].share.take()
    }

    /// Each end takes up this element.
    pub(crate) fn take_up(&mut self, value: &Value)
        ensures { self.new ≡ map (takes_up value.now) self.old }
    {
        take_up(&mut self.ends, value);
        self.owing = owing_in(&self.ends);
        self.away -= self.waiting;
        self.waiting = 0;
    }

    /// The first place, from one on, whose end may be offered the element with this id.
    pub(crate) fn first_open(&self, from: usize, id: u64) -> usize
        requires { from ≤ length self.now }
        ensures { result ≡ from + first_open id (drop from self.now) }
    {
        first_open(&self.ends, from, id)
    }

    /// The place of the end of a link; where there is none, behind the last.
    pub(crate) fn place_of(&self, link: LinkId) -> usize
        ensures { result ≡ place_of link self.now }
    {
        self.found(link).unwrap_or(self.ends.len())
    }

    fn found(&self, link: LinkId) -> Option<usize>
        ensures { result ≡ position (λ (end : CopyEnd). end.link.rule.id == link) self.now }
    {
        self.ends.iter().position(|end| end.link.rule.id == link)
    }
}

fn fresh_ends(alloc: Global, rules: &[LinkRule]) -> Result<Vec<CopyEnd>, AllocError>
    ensures { IfOk result (λ ends. ends.items ≡ map fresh_end rules.now) }
{
    rules.iter().map(|rule| CopyEnd::new(*rule)).collect(alloc)
}

fn first_open(ends: &[CopyEnd], from: usize, id: u64) -> usize
    requires { from ≤ length ends.now }
    ensures { result ≡ from + first_open id (drop from ends.now) }
{
    for place in from..ends.len() {
        if ends[place].is_open(id) {
            return place;
        }
    }
    ends.len()
}

fn take_up(ends: &mut Vec<CopyEnd>, value: &Value)
    ensures { ends.new.items ≡ map (takes_up value.now) ends.old.items }
{
    for place in 0..ends.len() {
        ends[place].take_up(value);
    }
}

fn owing_in(ends: &[CopyEnd]) -> usize
    ensures { result ≡ count_of owes_it ends.now }
{
    let mut owing = 0;
    for place in 0..ends.len() {
        if ends[place].owes {
            owing += 1;
        }
    }
    owing
}

/// The count when one of those counted may have gone and one may have come.
fn recounted(count: usize, before: bool, after: bool) -> usize
    requires there { cond before 1 0 ≤ count }
    requires small { count < 2 ^ 63 }
    ensures { result + cond before 1 0 ≡ count + cond after 1 0 }
{
    count - usize::from(before) + usize::from(after)
}
