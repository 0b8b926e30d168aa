//! What a block works on: a slot for each message, in which its result waits until the results before it have come out.
ghost use Rattle.std.specs.Prelude.{◌≡◌, ℕ, ◌+◌, ◌-◌, ◌^◌, ◌<◌, ◌==◌, true, false, [], ◌∷◌, length, drop, min};
ghost use Rattle.std.specs.Prelude.{is_some, Some, Ok, Err, IfSome, OnOk, OnErr};
ghost use Rattle.std.specs.Option.{IfNone};
ghost use Rattle.flow_link.specs.Making.{result_of};
ghost use Rattle.flow_block.specs.Jobs.{fresh_jobs, begins, has_ticket, works_off, is_out, place_of, brings};
ghost use Rattle.flow_block.specs.Jobs.{faults_at_once, comes_out, out_count};
ghost use Rattle.flow_block.specs.JobsOut.{is_front_made, front_fault};

use flow_link::BlockKind;
use flow_value::Value;
use std::alloc::{AllocError, Global};
use std::collections::VecDeque;
use std::marker::Model;

/// The fault of a transform whose function gives another number of values than one.
const NOT_ONE: u32 = 7;

/// What a function made of a message: its results, or the number of its fault.
#[derive(Drop)]
pub struct Answer {
    pub(crate) made: Result<Vec<Value>, u32>,
}

impl Model for Answer {
    ghost use Rattle.std.specs.Coded.{codes};
    ghost use Rattle.std.specs.Prelude.{ℕ, List, Result};
    ghost use Rattle.flow_value.specs.contracts.value.Value as content;
    ghost use Rattle.flow_value.specs.declared.value.Value.{Value as Content};
    ghost use Rattle.flow_block.specs.Jobs.{made_in};

    ghost Value = { Result (List Content) ℕ };

    ghost coded = { Prim.hlevel (codes, content.the_row.coded) };

    ghost view = { λ a. made_in a.made };
}

impl Answer {
    /// The results of a message.
    pub fn of(values: Vec<Value>) -> Answer
        ensures { result ≡ Ok values.items }
    {
        Answer { made: Ok(values) }
    }

    /// The number of the fault on a message.
    pub fn fault(number: u32) -> Answer
        ensures { result ≡ Err number }
    {
        Answer { made: Err(number) }
    }

    /// What a block of this kind makes of these results: for a transform, any other number of them than one is a fault.
    pub fn shaped(kind: BlockKind, values: Vec<Value>) -> Answer
        ensures { result ≡ result_of kind (Ok values.items) }
    {
        if kind == BlockKind::Transform && values.len() != 1 {
            Answer::fault(NOT_ONE)
        } else {
            Answer::of(values)
        }
    }

    /// How many values it has, if it is no fault.
    fn count(&self) -> Option<usize>
        ensures made { is_some result ≡ is_front_made (Some self.now ∷ []) }
        ensures count { IfSome result (λ count. count ≡ length (comes_out (Some self.now ∷ []))) }
    {
        match &self.made {
            Ok(values) => Some(values.len()),
            Err(_) => None,
        }
    }

    /// The number of the fault, if it is one.
    fn fault_number(&self) -> Option<u32>
        ensures { result ≡ front_fault (Some self.now ∷ []) }
    {
        match &self.made {
            Ok(_) => None,
            Err(number) => Some(*number),
        }
    }
}

/// The messages that a block works on, oldest first. Contracts see a `JobsState`.
#[derive(Drop)]
pub(crate) struct Jobs {
    lanes: usize,
    /// The ticket of the message that is held first.
    first: u64,
    slots: VecDeque<Option<Answer>>,
    /// How many tickets are out: of how many slots the result has not come back.
    out: usize,
}

impl Model for Jobs {
    ghost use Rattle.std.specs.Coded.{codes};
    ghost use Rattle.std.specs.Prelude.{◌<◌, ◌+◌, ◌^◌, length};
    ghost use Rattle.flow_value.specs.contracts.value.Value as content;
    ghost use Rattle.std.specs.Prelude.{◌≡◌};
    ghost use Rattle.flow_block.specs.Jobs.{JobsState, out_count};

    ghost Value = { JobsState };

    ghost coded = { Prim.hlevel (codes, content.the_row.coded) };

    ghost view = { λ j. record { lanes = j.lanes; first = j.first; slots = j.slots.items } };

    ghost invariant = { λ j. (j.first + length j.slots.items < 2 ^ 64) × (j.out ≡ out_count j.slots.items) };
}

impl Jobs {
    /// Nothing is worked on, by so many lanes.
    pub(crate) fn new(alloc: Global, lanes: usize) -> Jobs
        ensures { result ≡ fresh_jobs lanes }
    {
        Jobs {
            lanes,
            first: 0,
            slots: VecDeque::new(alloc),
            out: 0,
        }
    }

    /// How many messages are worked on, or have results that wait for those before them.
    pub(crate) fn len(&self) -> usize
        ensures { result ≡ length self.now.slots }
    {
        self.slots.len()
    }

    /// How many tickets are out: each keeps a lane busy.
    pub(crate) fn out_count(&self) -> usize
        ensures { result ≡ out_count self.now.slots }
    {
        self.out
    }

    /// How many may be out at once.
    pub(crate) fn lanes(&self) -> usize
        ensures { result ≡ self.now.lanes }
    {
        self.lanes
    }

    /// One message more is worked on. It is refused too where tickets are used up, after 2^64 - 1 of them.
    #[tactic(auto, using(crate::proofs::LanesBusy::out_at_most, crate::proofs::LanesBusy::out_begun))]
    pub(crate) fn begin(&mut self) -> Result<(), AllocError>
        ensures done { OnOk result (self.new ≡ begins self.old) }
        ensures kept { OnErr result (self.new ≡ self.old) }
    {
        if !self.has_ticket() {
            return Err(AllocError);
        }
        self.slots.reserve(1)?;
        self.slots.push_back_reserved(None);
        self.out += 1;
        Ok(())
    }

    /// Whether there is a ticket for one message more.
    pub(crate) fn has_ticket(&self) -> bool
        ensures { result ≡ has_ticket self.now }
    {
        self.first + (self.slots.len() as u64) < u64::MAX
    }

    /// A message is done with that was worked on at once, while nothing else was.
    pub(crate) fn work_off(&mut self)
        requires none { self.old.slots ≡ [] }
        requires ticket { has_ticket self.old ≡ true }
        ensures { self.new ≡ works_off self.old }
    {
        self.first += 1;
    }

    /// Whether the message with this ticket is worked on, and its result has not come back.
    pub(crate) fn is_out(&self, ticket: u64) -> bool
        ensures { result ≡ is_out ticket self.now }
    {
        if ticket < self.first {
            return false;
        }
        let place = ticket - self.first;
        place < self.slots.len() as u64 && self.slots[place as usize].is_none()
    }

    /// The ticket of the message that is worked on next.
    pub(crate) fn next_ticket(&self) -> u64
        requires { has_ticket self.now ≡ true }
        ensures { result ≡ self.now.first + length self.now.slots }
    {
        self.first + self.slots.len() as u64
    }

    /// The ticket of the oldest message that is worked on, and whose result has not come back.
    pub(crate) fn find_out(&self) -> Option<u64>
        ensures is { IfSome result (λ ticket. is_out ticket self.now ≡ true) }
        ensures oldest { IfSome result (λ ticket. (t : ℕ) → t < ticket → is_out t self.now ≡ false) }
        ensures none { IfNone result ((t : ℕ) → is_out t self.now ≡ false) }
    {
        for place in 0..self.slots.len() {
            if self.slots[place].is_none() {
                return Some(self.first + place as u64);
            }
        }
        None
    }

    /// The place among the messages that are held, of one whose result has not come back.
    pub(crate) fn place(&self, ticket: u64) -> usize
        requires { is_out ticket self.now ≡ true }
        ensures place { result ≡ place_of ticket self.now }
        ensures there { result < length self.now.slots }
    {
        (ticket - self.first) as usize
    }

    /// The result of a message comes back.
    #[tactic(auto, using(crate::proofs::LanesBusy::out_back))]
    pub(crate) fn bring(&mut self, ticket: u64, answer: Answer)
        requires { is_out ticket self.old ≡ true }
        ensures { self.new ≡ brings ticket answer self.old }
    {
        let place = self.place(ticket);
        self.slots[place] = Some(answer);
        self.out -= 1;
    }

    /// How many values come out where this is the result of the message that is held first; 2^64 - 1 of them stand for
    /// more too.
    #[tactic(auto, using(crate::proofs::JobsCount::stops_here, crate::proofs::JobsCount::goes_on_here))]
    pub(crate) fn count_out(&self, answer: &Answer) -> usize
        ensures { result ≡ min (length (comes_out (Some answer.now ∷ drop 1 self.now.slots))) (2 ^ 64 - 1) }
    {
        let Some(mut total) = answer.count() else {
            return 0;
        };
        for place in 1..self.slots.len() {
            let Some(more) = count_in(&self.slots[place]) else {
                return total;
            };
            total = total.saturating_add(more);
        }
        total
    }

    /// The results that are there first come out of their slot, unless they are a fault.
    #[tactic(auto, using(crate::proofs::LanesBusy::out_behind))]
    pub(crate) fn pop_out(&mut self) -> Option<Vec<Value>>
        ensures none { IfNone result (is_front_made self.old.slots ≡ false) }
        ensures kept { IfNone result (self.new ≡ self.old) }
        ensures first { IfSome result (λ values. self.old.slots ≡ Some (Ok values.items) ∷ drop 1 self.old.slots) }
        ensures done { IfSome result (λ values. self.new ≡ works_off self.old) }
    {
        if !self.is_front_made() {
            return None;
        }
        let Some(Some(Answer { made: Ok(values) })) = self.slots.pop_front() else {
            unreachable!()
        };
        self.first += 1;
        Some(values)
    }

    fn is_front_made(&self) -> bool
        ensures { result ≡ is_front_made self.now.slots }
    {
        match self.slots.front() {
            Some(Some(answer)) => answer.made.is_ok(),
            Some(None) | None => false,
        }
    }

    /// The number of the fault that is there first.
    pub(crate) fn front_fault(&self) -> Option<u32>
        ensures { result ≡ front_fault self.now.slots }
    {
        match self.slots.front() {
            Some(Some(answer)) => answer.fault_number(),
            Some(None) | None => None,
        }
    }

    /// Whether this is the ticket of the message that is held first.
    pub(crate) fn is_first(&self, ticket: u64) -> bool
        ensures { result ≡ (ticket == self.now.first) }
    {
        ticket == self.first
    }

    /// The message that is held first was worked on at once, and faulted. It is refused where there is no memory for
    /// that, and where tickets are used up, after 2^64 - 1 of them.
    pub(crate) fn fault_at_once(&mut self, number: u32) -> Result<(), AllocError>
        requires { self.old.slots ≡ [] }
        ensures done { OnOk result (self.new ≡ faults_at_once number self.old) }
        ensures kept { OnErr result (self.new ≡ self.old) }
    {
        if !self.has_ticket() {
            return Err(AllocError);
        }
        self.slots.reserve(1)?;
        self.slots.push_back_reserved(Some(Answer::fault(number)));
        Ok(())
    }
}

/// How many values are in this slot, if a result is there and is no fault.
fn count_in(slot: &Option<Answer>) -> Option<usize>
    ensures made { is_some result ≡ is_front_made (slot.now ∷ []) }
    ensures count { IfSome result (λ count. count ≡ length (comes_out (slot.now ∷ []))) }
{
    match slot {
        Some(answer) => answer.count(),
        None => None,
    }
}
