//! What a case came to.

use std::time::Duration;

/// How many messages came in their turn, and how long they took all together.
#[derive(Drop)]
pub(crate) struct Timed {
    pub(crate) in_turn: u64,
    pub(crate) taken: Duration,
}
