//! What goes on by turns.
ghost use Rattle.std.specs.Prelude.{◌≡◌};
ghost use Rattle.flow_poll.specs.Turns.{joint_state};

use std::alloc::{AllocError, Global};

/// What came of a turn.
#[derive(Clone, Copy, Debug, PartialEq, Eq)]
pub enum TurnState {
    /// Something was done.
    Moved,
    /// There is nothing to do for now.
    Idle,
    /// There will never be anything to do again.
    Ended,
}

impl TurnState {
    /// The state of two together, where this is the state of one, and that of the other.
    pub fn joint(self, other: TurnState) -> TurnState
        ensures { result ≡ joint_state self other }
    {
        match (self, other) {
            (TurnState::Moved, _) | (TurnState::Idle, TurnState::Moved) => TurnState::Moved,
            (TurnState::Idle, TurnState::Idle | TurnState::Ended) => TurnState::Idle,
            (TurnState::Ended, other) => other,
        }
    }
}

/// A turn that was taken.
#[derive(Clone, Copy, Debug, PartialEq, Eq)]
pub struct Turned {
    /// How many events were done.
    pub events: u32,
    pub state: TurnState,
}

/// What goes on by turns.
pub trait Actor: Drop {
    ghost use Rattle.std.specs.Prelude.{◌≡◌, ◌≤◌, ℕ, List, Result, IfOk, OnErr};
    ghost use Rattle.std.specs.declared.alloc.AllocError.{AllocError};
    ghost use Rattle.flow_link.specs.declared.trace.Mark.{Mark};
    ghost use Rattle.flow_poll.specs.declared.actor.Turned.{Turned};
    ghost use Rattle.flow_poll.specs.Turns.{Extends};

    /// What it has done so far.
    ghost journal: { Self → List Mark };

    /// What a turn does: the actor before, the budget, the answer, the actor after.
    ghost acts: { Self → ℕ → Result Turned AllocError → Self → Type 0 };

    /// It is the same one, later.
    ghost goes_on: { Self → Self → Type 0 };

    /// Does at most as many events as the budget, and with none it does nothing.
    fn turn(&mut self, alloc: Global, budget: u32) -> Result<Turned, AllocError>
        ensures acts { acts self.old budget result self.new }
        ensures within { IfOk result (λ turned. turned.events ≤ budget) }
        ensures extends { Extends (journal self.old) (journal self.new) }
        ensures kept { OnErr result (journal self.new ≡ journal self.old) }
        ensures still { budget ≡ 0 → journal self.new ≡ journal self.old }
        ensures goes_on { goes_on self.old self.new };

    ghost stays: { (actor : Self) → goes_on actor actor };

    ghost goes_further: { (first mid last : Self) → goes_on first mid → goes_on mid last → goes_on first last };
}
