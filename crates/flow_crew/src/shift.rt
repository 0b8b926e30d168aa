//! How long a crew goes on before its owner looks at the events again. It is a hint, of which no contract speaks.
use std::sync::atomic::{AtomicU64, Ordering};
use std::time::{Clock, Duration, Instant};

/// How long a crew goes on: it does so many events at least, and then it goes on until so much time has passed since it began.
#[derive(Clone, Copy)]
pub struct Shift {
    pub events: u64,
    pub time: Duration,
}

/// A shift that has begun, and how many events were done in it; or none, and that has no end.
#[derive(Drop)]
pub(crate) struct Hours {
    shift: Option<Shift>,
    /// When it began, where the clock could be read.
    begun: Option<Instant>,
    done: AtomicU64,
}

impl Hours {
    pub(crate) fn begin<R: Clock>(rt: &R, shift: Option<Shift>) -> Hours {
        Hours {
            shift,
            begun: Instant::now(rt).ok(),
            done: AtomicU64::new(0),
        }
    }

    /// So many events more were done.
    pub(crate) fn count(&self, events: u64) {
        self.done.fetch_add(events, Ordering::SeqCst);
    }

    /// Whether it is over, with so many events that are not counted yet. Where the clock can't be read, the time has passed.
    pub(crate) fn is_over<R: Clock>(&self, rt: &R, more: u64) -> bool {
        let Some(shift) = self.shift else {
            return false;
        };
        if self.done.load(Ordering::SeqCst).saturating_add(more) < shift.events {
            return false;
        }
        match self.begun {
            Some(begun) => match begun.elapsed(rt) {
                Ok(time) => time >= shift.time,
                Err(_) => true,
            },
            None => true,
        }
    }
}
