//! Actors of the tests.
ghost use Rattle.std.specs.Prelude.{[], ⊤};

use crate::check::count;
use flow_poll::{Actor, TurnState, Turned};
use std::alloc::{AllocError, Global};
use std::process::Abort;

/// A number that falls to nought: a turn takes the budget off it, or what there is.
#[derive(Drop)]
pub(crate) struct Counter {
    pub(crate) left: u32,
    pub(crate) has_memory: bool,
}

impl Actor for Counter {
    ghost journal = { λ _. [] };

    ghost acts = { λ _ _ _ _. ⊤ };

    ghost goes_on = { λ _ _. ⊤ };

    ghost stays = { λ _. tt };

    ghost goes_further = { λ _ _ _ _ _. tt };

    fn turn(&mut self, _alloc: Global, budget: u32) -> Result<Turned, AllocError> {
        if !self.has_memory {
            return Err(AllocError);
        }
        let events = self.left.min(budget);
        self.left -= events;
        let state = if events > 0 {
            TurnState::Moved
        } else if self.left == 0 {
            TurnState::Ended
        } else {
            TurnState::Idle
        };
        Ok(Turned { events, state })
    }
}

/// Counters at the numbers that these words are. The one at this place has no memory.
pub(crate) fn counters(
    rt: &(impl Abort + Print),
    alloc: Global,
    words: &str,
    without_memory: Option<usize>,
) -> Vec<Counter> {
    let mut all = Vec::new(alloc);
    for digits in words.split(" ") {
        let counter = Counter {
            left: count(rt, digits),
            has_memory: without_memory != Some(all.len()),
        };
        assert!(rt; all.push(counter).is_ok(), "out of memory");
    }
    all
}

/// The number at which the counter at this place stands, and -1 where there is none.
pub(crate) fn left(all: &[Counter], place: usize) -> i64 {
    match all.get(place) {
        Some(counter) => i64::from(counter.left),
        None => -1,
    }
}
