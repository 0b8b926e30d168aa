//! How many records are run together next.

/// Goes by how many passed since one did not: where most records fault, few are run together.
#[derive(Clone, Copy)]
pub(crate) struct Pace {
    most: usize,
    next: usize,
    since: usize,
}

impl Pace {
    /// Begins with as many as may be run together.
    pub fn new(most: usize) -> Pace {
        Pace {
            most,
            next: most,
            since: 0,
        }
    }

    /// How many to run together next.
    pub fn next_count(&self) -> usize {
        self.next
    }

    /// Counts so many records that passed.
    pub fn pass(&mut self, count: usize) {
        self.since = self.since.saturating_add(count);
    }

    /// All that were run together passed: it is twice as many then.
    pub fn grow(&mut self) {
        self.next = self.next.saturating_mul(2).min(self.most);
    }

    /// A record did not pass, or was looked for in vain: it is as many as passed since the last time.
    pub fn stop(&mut self) {
        self.next = self.since.min(self.most).max(1);
        self.since = 0;
    }
}
