//! How an end waits for the other one: it looks again and again, with a pause after each look.

use std::hint::spin_loop;
use std::thread::yield_now;

/// More looks than an end needs, also where the other thread waits long for a processor.
pub(crate) const LOOKS: u64 = 1_000_000_000;

/// The looks between two yields. On a busy machine a yield gives a whole time slice away, so an end mostly spins.
const LOOKS_A_YIELD: u64 = 1_000;

/// Lets a moment pass after the look of this number.
pub(crate) fn pause(look: u64) {
    if look % LOOKS_A_YIELD == LOOKS_A_YIELD - 1 {
        yield_now();
    } else {
        spin_loop();
    }
}
