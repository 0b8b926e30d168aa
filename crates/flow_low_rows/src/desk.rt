//! A way in, in memory.
ghost use Rattle.std.specs.Prelude.{◌≡◌, refl};
ghost use Rattle.std.proofs.Common.{◌∙◌};
ghost use Rattle.flow_low_rows.specs.Desk.{begun_of};

use flow_poll::{SendFault, SendPort, Sent};
use flow_value::Value;
use std::alloc::{AllocError, Global};
use std::process::Abort;

/// What all desks of a house have in common.
#[derive(Drop)]
pub(crate) struct House {
    is_closed: bool,
    has_ids: bool,
}

/// A house that takes values.
pub(crate) const OPEN: House = House {
    is_closed: false,
    has_ids: true,
};

/// The house that these words name.
pub(crate) fn house_named(rt: &(impl Abort + Print), words: &str) -> House {
    match words {
        "open" => OPEN,
        "closed" => House {
            is_closed: true,
            has_ids: true,
        },
        "without ids" => House {
            is_closed: false,
            has_ids: false,
        },
        _ => panic!(rt; "no such house: {words}"),
    }
}

/// Takes a value after so many looks for which there was no room.
#[derive(Drop)]
pub(crate) struct Desk<'a> {
    house: &'a House,
    pub(crate) accepted: Vec<Value>,
    begun: Option<Value>,
    may_postpone: bool,
    /// How many looks come before there is room.
    full_for: u32,
    /// How many calls come before memory is out.
    memory_for: u32,
}

impl<'a> Desk<'a> {
    /// A desk without a value, which has no room for so many looks, and memory for so many calls.
    pub(crate) fn new(alloc: Global, house: &'a House, full_for: u32, memory_for: u32) -> Desk<'a> {
        Desk {
            house,
            accepted: Vec::new(alloc),
            begun: None,
            may_postpone: false,
            full_for,
            memory_for,
        }
    }

    /// Whether it has taken so many values, and this was the last.
    pub(crate) fn has_taken(&self, count: usize, number: i64) -> bool {
        self.accepted.len() == count
            && match self.accepted.last() {
                Some(value) => value.as_int() == Some(number),
                None => false,
            }
    }

    /// Uses up one of the calls for which there is memory.
    fn takes_memory(&mut self) -> bool
        ensures house { self.new.house ≡ self.old.house }
        ensures accepted { self.new.accepted ≡ self.old.accepted }
        ensures begun { self.new.begun ≡ self.old.begun }
        ensures may_postpone { self.new.may_postpone ≡ self.old.may_postpone }
    {
        if self.memory_for == 0 {
            return false;
        }
        self.memory_for -= 1;
        true
    }
}

impl SendPort for Desk<'_> {
    ghost sends = { λ d. record { accepted = d.accepted.items; begun = begun_of d.begun d.may_postpone } };

    ghost has_id = { λ d. d.house.now.has_ids };

    ghost goes_on = { λ old new. new.house ≡ old.house };

    ghost stays = { λ _. refl };

    ghost goes_further = { λ _ _ _ head tail. tail ∙ head };

    fn begin(
        &mut self,
        _alloc: Global,
        value: Value,
        may_postpone: bool,
    ) -> Result<(), (Value, SendFault)> {
        if self.begun.is_some() {
            return Err((value, SendFault::Busy));
        }
        if !self.house.has_ids {
            return Err((value, SendFault::Ids));
        }
        if !self.takes_memory() {
            return Err((value, SendFault::Memory));
        }
        self.begun = Some(value);
        self.may_postpone = may_postpone;
        Ok(())
    }

    fn look(&mut self, _alloc: Global) -> Result<Sent, AllocError> {
        if !self.takes_memory() {
            return Err(AllocError);
        }
        let Some(value) = self.begun.take() else {
            return Ok(Sent::Idle);
        };
        if self.house.is_closed {
            return Ok(Sent::Permanently(value));
        }
        if self.full_for > 0 {
            self.full_for -= 1;
            if self.may_postpone {
                self.begun = Some(value);
                return Ok(Sent::Waiting);
            }
            return Ok(Sent::Declined(value));
        }
        match self.accepted.push(value) {
            Ok(()) => Ok(Sent::Accepted),
            Err(failed) => {
                self.begun = Some(failed.value);
                Err(AllocError)
            }
        }
    }
}
