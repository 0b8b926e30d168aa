//! Where workers sleep that find nothing to do. It is a hint, of which no contract speaks: a ring that is lost costs a millisecond.
//!
//! word      what it counts                                                   who writes it
//! rings     how often there was news: tasks moved, one left, all is over     any worker
//! here      the workers that came and have not left                          each worker, of itself
//! idle      those of them that wait                                          each worker, of itself
//! over      1 once the round is over                                         who finds all idle, or memory refused
use std::hint::spin_loop;
use std::sync::Wait;
use std::sync::atomic::{AtomicU64, Ordering};
use std::thread::yield_now;
use std::time::Duration;

/// How often a worker looks before it sleeps: for about a microsecond.
const LOOKS: u32 = 200;

/// How long it sleeps at most, in milliseconds.
const SLEEP: u64 = 1;

/// How often a put that another thread is in the way of is tried again at once, and how often once other threads had their turn, before
/// the worker sleeps between two tries.
const AT_ONCE: u32 = 8;

const YIELDS: u32 = 8;

#[derive(Drop)]
pub(crate) struct Bell {
    rings: AtomicU64,
    here: AtomicU64,
    idle: AtomicU64,
    over: AtomicU64,
}

impl Bell {
    /// A bell that nobody has come to.
    pub(crate) fn new() -> Bell {
        Bell {
            rings: AtomicU64::new(0),
            here: AtomicU64::new(0),
            idle: AtomicU64::new(0),
            over: AtomicU64::new(0),
        }
    }

    /// A worker comes. Only those that came are waited for, since a worker may begin when others have left.
    pub(crate) fn come(&self) {
        self.here.fetch_add(1, Ordering::SeqCst);
    }

    /// A worker leaves: the others look again.
    pub(crate) fn leave(&self) {
        self.here.fetch_sub(1, Ordering::SeqCst);
        self.ring_all();
    }

    /// How often there was news.
    pub(crate) fn rings(&self) -> u64 {
        self.rings.load(Ordering::SeqCst)
    }

    /// Whether the round is over.
    pub(crate) fn is_over(&self) -> bool {
        self.over.load(Ordering::SeqCst) != 0
    }

    /// The round is over.
    pub(crate) fn end(&self) {
        self.over.store(1, Ordering::SeqCst);
        self.ring_all();
    }

    /// Tasks that moved were put back: one worker that waits looks again.
    pub(crate) fn ring(&self) {
        self.rings.fetch_add(1, Ordering::SeqCst);
        if self.idle.load(Ordering::SeqCst) > 0 {
            self.rings.wake_one();
        }
    }

    fn ring_all(&self) {
        self.rings.fetch_add(1, Ordering::SeqCst);
        self.rings.wake_all();
    }

    /// Waits for a ring behind those that were heard, a millisecond at most. Where all that are here wait, and none rang, the round is
    /// over.
    pub(crate) fn wait<R: Wait>(&self, rt: &R, heard: u64) {
        let idle = self.idle.fetch_add(1, Ordering::SeqCst);
        if idle.wrapping_add(1) >= self.here.load(Ordering::SeqCst) && self.rings() == heard {
            self.end();
        }
        for _ in 0..LOOKS {
            if self.rings() != heard {
                break;
            }
            spin_loop();
        }
        self.sleep(rt, heard);
        self.idle.fetch_sub(1, Ordering::SeqCst);
    }

    /// Sleeps for a millisecond at most, or until a ring behind those that were heard.
    fn sleep<R: Wait>(&self, rt: &R, heard: u64) {
        if self.rings() == heard {
            let word = (heard % (1 << 32)) as u32;
            self.rings
                .park_timeout(rt, word, Duration::from_millis(SLEEP));
        }
    }

    /// Another thread was in the way of a put so often: this one lets it go on, the longer the oftener it was.
    pub(crate) fn give_way<R: Wait>(&self, rt: &R, tries: u32) {
        if tries < AT_ONCE {
            spin_loop();
        } else if tries < AT_ONCE + YIELDS {
            yield_now();
        } else {
            self.sleep(rt, self.rings());
        }
    }
}

/// What one worker has heard, and how many tasks lay still since.
#[derive(Drop)]
pub(crate) struct Lull {
    heard: u64,
    still: usize,
}

impl Lull {
    /// Nothing has lain still yet.
    pub(crate) fn new(bell: &Bell) -> Lull {
        Lull {
            heard: bell.rings(),
            still: 0,
        }
    }

    /// Where there is news, the count begins anew.
    pub(crate) fn listen(&mut self, bell: &Bell) {
        let rings = bell.rings();
        if rings != self.heard {
            self.heard = rings;
            self.still = 0;
        }
    }

    /// Tasks that moved were put back.
    pub(crate) fn moved(&mut self, bell: &Bell) {
        self.still = 0;
        bell.ring();
    }

    /// So many tasks were taken and lay still. Where there was none to take, or as many as there are lay still without news, it waits.
    pub(crate) fn lay_still<R: Wait>(&mut self, rt: &R, bell: &Bell, taken: usize, tasks: usize) {
        self.still = self.still.saturating_add(taken);
        if taken == 0 || self.still >= tasks {
            self.still = 0;
            bell.wait(rt, self.heard);
        }
    }
}
