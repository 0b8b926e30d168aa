//! Numbers that look like chance, the same at each run.

#[derive(Drop)]
pub(crate) struct Chance {
    state: u64,
}

impl Chance {
    pub(crate) fn new(seed: u64) -> Chance {
        Chance { state: seed }
    }

    /// True about once in so many times, by the multiplier and increment of Knuth's MMIX.
    pub(crate) fn is_one_in(&mut self, many: u64) -> bool {
        self.state = self
            .state
            .wrapping_mul(6364136223846793005)
            .wrapping_add(1442695040888963407);
        (self.state >> 33).checked_rem(many) == Some(0)
    }
}
