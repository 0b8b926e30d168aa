//! The phase of a lane, and the word of its table that stores it.
ghost use Rattle.std.specs.Prelude.{◌≡◌};
ghost use Rattle.flow_lane.specs.Phase.{word_of_phase, IsWord};

/// Where a lane stands.
#[derive(Clone, Copy, Debug, PartialEq, Eq)]
pub enum LanePhase {
    /// Nothing is in it.
    Free,
    /// A job waits in it.
    Job,
    /// The lane works on the job.
    Working,
    /// The result waits in it.
    Result,
    /// The block takes the result back.
    Fetching,
    /// No job comes any more.
    Ended,
}

/// The word that stores a phase.
pub(crate) fn word_of(phase: LanePhase) -> u64
    ensures { result ≡ word_of_phase phase }
{
    match phase {
        LanePhase::Free => 0,
        LanePhase::Job => 1,
        LanePhase::Working => 2,
        LanePhase::Result => 3,
        LanePhase::Fetching => 4,
        LanePhase::Ended => 5,
    }
}

/// The phase that a word stores.
pub(crate) fn phase_of(word: u64) -> LanePhase
    requires { IsWord word }
    ensures { word ≡ word_of_phase result }
{
    match word {
        0 => LanePhase::Free,
        1 => LanePhase::Job,
        2 => LanePhase::Working,
        3 => LanePhase::Result,
        4 => LanePhase::Fetching,
        5 => LanePhase::Ended,
        _ => unreachable!(),
    }
}
