//! What a block's side knows of its lane at run time.
ghost use Rattle.std.specs.Prelude.{◌≡◌};
ghost use Rattle.flow_lane.specs.Standing.{looked_at, number_of, stands_ended, stands_free, stands_ready, stands_sent};

use crate::phase::LanePhase;

/// Where a lane stands, as far as its block knows, with the ticket of the job that was put.
#[derive(Clone, Copy, PartialEq, Eq)]
pub enum Standing {
    /// Nothing is in it.
    Free,
    /// A job was put, and the block has not seen its result.
    Sent(u64),
    /// The block has seen the result.
    Ready(u64),
    /// The block has the result in hand.
    InHand(u64),
    /// No job comes any more.
    Ended,
}

impl Standing {
    /// The ticket of the job that was put and has not come back.
    pub fn ticket(self) -> Option<u64>
        ensures { result ≡ number_of self }
    {
        match self {
            Standing::Sent(ticket) | Standing::Ready(ticket) | Standing::InHand(ticket) => {
                Some(ticket)
            }
            Standing::Free | Standing::Ended => None,
        }
    }

    /// Whether nothing is in the lane.
    pub(crate) fn is_free(self) -> bool
        ensures { result ≡ stands_free self }
    {
        match self {
            Standing::Free => true,
            Standing::Sent(_) | Standing::Ready(_) | Standing::InHand(_) | Standing::Ended => false,
        }
    }

    /// Whether a job was put whose result was not seen yet.
    pub(crate) fn is_sent(self) -> bool
        ensures { result ≡ stands_sent self }
    {
        match self {
            Standing::Sent(_) => true,
            Standing::Free | Standing::Ready(_) | Standing::InHand(_) | Standing::Ended => false,
        }
    }

    /// Whether the result was seen and not fetched yet.
    pub(crate) fn is_ready(self) -> bool
        ensures { result ≡ stands_ready self }
    {
        match self {
            Standing::Ready(_) => true,
            Standing::Free | Standing::Sent(_) | Standing::InHand(_) | Standing::Ended => false,
        }
    }

    /// Whether no job comes any more.
    pub(crate) fn is_ended(self) -> bool
        ensures { result ≡ stands_ended self }
    {
        match self {
            Standing::Ended => true,
            Standing::Free | Standing::Sent(_) | Standing::Ready(_) | Standing::InHand(_) => false,
        }
    }

    /// Where it stands after a look that found this phase.
    pub(crate) fn looked_at(self, phase: LanePhase) -> Standing
        ensures { result ≡ looked_at self phase }
    {
        match self {
            Standing::Sent(ticket) if phase == LanePhase::Result => Standing::Ready(ticket),
            Standing::Sent(_)
            | Standing::Free
            | Standing::Ready(_)
            | Standing::InHand(_)
            | Standing::Ended => self,
        }
    }
}
