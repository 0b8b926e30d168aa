//! When a network that is run open has come to rest. It is a hint, of which no contract speaks: where it errs, a run ends with something left
//! to do.
//!
//! word       what it says                                                       who writes it
//! news       how often something moved                                          each of the three
//! sent       up to which news no sender moved, counted from 1                   the thread that sends
//! received   the same of the receivers                                          the thread that receives
//! over       1 once the run is over                                             the thread that turns the tasks

use std::hint::spin_loop;
use std::sync::atomic::{AtomicU64, Ordering};
use std::thread::{sleep, yield_now};
use std::time::{Clock, Duration};

/// How often a thread looks again at once, how often once other threads had their turn, and how often after a short sleep, before it
/// sleeps for long.
const AT_ONCE: u32 = 16;

const YIELDS: u32 = 16;

const SHORT_SLEEPS: u32 = 64;

/// How long it sleeps, in microseconds.
const SHORT: u64 = 50;

const LONG: u64 = 1_000;

#[derive(Drop)]
pub(crate) struct Calm {
    news: AtomicU64,
    sent: AtomicU64,
    received: AtomicU64,
    over: AtomicU64,
}

impl Calm {
    /// Nothing has moved yet, and nobody has looked.
    pub(crate) fn new() -> Calm {
        Calm {
            news: AtomicU64::new(1),
            sent: AtomicU64::new(0),
            received: AtomicU64::new(0),
            over: AtomicU64::new(0),
        }
    }

    /// How often something moved.
    pub(crate) fn news(&self) -> u64 {
        self.news.load(Ordering::SeqCst)
    }

    /// Something moved.
    pub(crate) fn moved(&self) {
        self.news.fetch_add(1, Ordering::SeqCst);
    }

    /// No sender moved since these news.
    pub(crate) fn senders_rest(&self, news: u64) {
        self.sent.store(news, Ordering::SeqCst);
    }

    /// No receiver moved since these news.
    pub(crate) fn receivers_rest(&self, news: u64) {
        self.received.store(news, Ordering::SeqCst);
    }

    /// Whether neither senders nor receivers moved since these news.
    pub(crate) fn is_calm(&self, news: u64) -> bool {
        self.sent.load(Ordering::SeqCst) >= news && self.received.load(Ordering::SeqCst) >= news
    }

    /// The run is over.
    pub(crate) fn end(&self) {
        self.over.store(1, Ordering::SeqCst);
    }

    pub(crate) fn is_over(&self) -> bool {
        self.over.load(Ordering::SeqCst) != 0
    }
}

/// A thread found so often that nothing is to do: it lets others go on, the longer the oftener it did.
pub(crate) fn give_way(rt: &impl Clock, tries: u32) {
    if tries < AT_ONCE {
        spin_loop();
    } else if tries < AT_ONCE + YIELDS {
        yield_now();
    } else if tries < AT_ONCE + YIELDS + SHORT_SLEEPS {
        sleep(rt, Duration::from_micros(SHORT));
    } else {
        sleep(rt, Duration::from_micros(LONG));
    }
}

/// A round of the crew found so often that nothing is to do: the next one begins after a sleep, since a round begins threads.
pub(crate) fn rest_between(rt: &impl Clock, rounds: u32) {
    give_way(rt, rounds.saturating_add(AT_ONCE + YIELDS));
}
