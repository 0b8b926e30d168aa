//! What a block does with a message: a function from a value to values, which may fault.
ghost use Rattle.std.specs.Prelude.{◌≡◌, IsTrue, IfOk};
ghost use Rattle.flow_value.specs.Fault.{number_of};

use crate::value::Value;
use std::alloc::{AllocError, AllocFailed, Global};
use thiserror::Error;

/// Why a work gave no values.
///
/// Each fault but out of memory has a number; 7 is not among them, since a transform gives it to a result that is not
/// one value.
#[derive(Clone, Copy, Debug, PartialEq, Eq, Error)]
pub enum WorkFault {
    #[error("not a number")]
    NotInt,
    #[error("not a text")]
    NotText,
    #[error("not a row")]
    NotRow,
    #[error("no such field")]
    NoField,
    #[error("out of range")]
    Range,
    #[error("rejected")]
    Rejected,
    #[error("out of memory")]
    Memory,
}

impl WorkFault {
    /// The number by which a report names the fault: 1 to 6, and none for out of memory.
    pub fn number(self) -> Option<u32>
        ensures { result ≡ number_of self }
    {
        match self {
            WorkFault::NotInt => Some(1),
            WorkFault::NotText => Some(2),
            WorkFault::NotRow => Some(3),
            WorkFault::NoField => Some(4),
            WorkFault::Range => Some(5),
            WorkFault::Rejected => Some(6),
            WorkFault::Memory => None,
        }
    }
}

impl From<AllocError> for WorkFault {
    ghost use Rattle.std.specs.Prelude.{◌≡◌};
    ghost use Rattle.flow_value.specs.declared.work.WorkFault.TheVariants.{Memory};

    ghost from_gives = { λ _ fault. fault ≡ Memory };

    fn from(_error: AllocError) -> WorkFault {
        WorkFault::Memory
    }
}

impl<T: Drop> From<AllocFailed<T>> for WorkFault {
    ghost use Rattle.std.specs.Prelude.{◌≡◌};
    ghost use Rattle.flow_value.specs.declared.work.WorkFault.TheVariants.{Memory};

    ghost from_gives = { λ _ fault. fault ≡ Memory };

    fn from(_error: AllocFailed<T>) -> WorkFault {
        WorkFault::Memory
    }
}

/// A function that a block applies to each message.
///
/// Microsoft: the delegate that an execution block is made with; here it is a value, so that it can be copied to other
/// threads and compared.
pub trait Work: Eq + Send + Sync + Drop {
    ghost use Rattle.std.specs.Prelude.{◌≡◌, ◌≢◌, true, List, [], ◌∷◌, Result, Ok, Err};
    ghost use Rattle.flow_value.specs.declared.value.Value.{Value};
    ghost use Rattle.flow_value.specs.declared.work.WorkFault.{WorkFault};
    ghost use Rattle.flow_value.specs.declared.work.WorkFault.TheVariants.{Memory};
    ghost use Rattle.flow_value.specs.Meaning.{RunsAs, RunsOneAs};

    /// The values that it gives for a value, or its fault. It holds whatever memory there is, so its fault is never
    /// out of memory.
    ghost meaning: { Self → Value → Result (List Value) WorkFault };

    /// Applies it to a value. Unless memory is out, the answer is its meaning.
    fn run(&self, alloc: Global, value: &Value) -> Result<Vec<Value>, WorkFault>
        ensures { RunsAs (meaning self.now value.now) result };

    /// The value that it gives for a value, where it gives one and finds that one without a list. No value says nothing
    /// of the meaning, and so does out of memory: what `run` answers stands.
    ///
    /// A work of one's own may leave it out. A block asks it first, so that a work which mostly gives one value spares
    /// the memory of a list.
    fn run_one(&self, alloc: Global, value: &Value) -> Result<Option<Value>, WorkFault>
        ensures { RunsOneAs (meaning self.now value.now) result }
    {
        Ok(None)
    }

    /// Whether it gives each value itself, and nothing else. A block then moves its messages on instead of copying them. No says
    /// nothing of the meaning.
    ///
    /// A work of one's own may leave it out.
    fn is_identity(&self) -> bool
        ensures { result ≡ true → (value : Value) → meaning self.now value ≡ Ok (value ∷ []) }
    {
        false
    }

    /// A second work that is equal to this one.
    fn copy(&self, alloc: Global) -> Result<Self, AllocError>
        ensures { IfOk result (λ work. IsTrue (Self.eq self.now work)) };

    ghost same_meaning: { (first second : Self) → Self.eq first second ≡ true → (value : Value) → meaning first value
        ≡ meaning second value };

    ghost never_memory: { (work : Self) (value : Value) → meaning work value ≢ Err Memory };
}

/// A function that a block applies to each message, as a network asks for it.
///
/// It asks for no leave to go to another thread. So it is for a port that owns a network on one thread: a method of the
/// port's own trait may call what is generic over it, as it may not call what is generic over `Work`. Each `Work` is one.
pub trait Runs: Eq + Drop {
    ghost use Rattle.std.specs.Prelude.{◌≡◌, ◌≢◌, true, List, [], ◌∷◌, Result, Ok, Err};
    ghost use Rattle.flow_value.specs.declared.value.Value.{Value};
    ghost use Rattle.flow_value.specs.declared.work.WorkFault.{WorkFault};
    ghost use Rattle.flow_value.specs.declared.work.WorkFault.TheVariants.{Memory};
    ghost use Rattle.flow_value.specs.Meaning.{RunsAs, RunsOneAs};

    /// The values that it gives for a value, or its fault. It holds whatever memory there is, so its fault is never
    /// out of memory.
    ghost meaning: { Self → Value → Result (List Value) WorkFault };

    /// Applies it to a value on this thread. Unless memory is out, the answer is its meaning.
    fn run_here(&self, alloc: Global, value: &Value) -> Result<Vec<Value>, WorkFault>
        ensures { RunsAs (meaning self.now value.now) result };

    /// The value that it gives for a value, where it gives one and finds that one on this thread without a list. No value
    /// says nothing of the meaning, and so does out of memory.
    fn run_one_here(&self, alloc: Global, value: &Value) -> Result<Option<Value>, WorkFault>
        ensures { RunsOneAs (meaning self.now value.now) result }
    {
        Ok(None)
    }

    /// Whether it gives each value itself, and nothing else. No says nothing of the meaning.
    fn is_identity_here(&self) -> bool
        ensures { result ≡ true → (value : Value) → meaning self.now value ≡ Ok (value ∷ []) }
    {
        false
    }

    /// A second one that is equal to this one, for this thread.
    fn copy_here(&self, alloc: Global) -> Result<Self, AllocError>
        ensures { IfOk result (λ work. IsTrue (Self.eq self.now work)) };

    ghost same_meaning: { (first second : Self) → Self.eq first second ≡ true → (value : Value) → meaning first value
        ≡ meaning second value };

    ghost never_memory: { (work : Self) (value : Value) → meaning work value ≢ Err Memory };
}

impl<W: Work> Runs for W {
    ghost meaning = { W.meaning };

    ghost same_meaning = { W.same_meaning };

    ghost never_memory = { W.never_memory };

    fn run_here(&self, alloc: Global, value: &Value) -> Result<Vec<Value>, WorkFault> {
        self.run(alloc, value)
    }

    fn run_one_here(&self, alloc: Global, value: &Value) -> Result<Option<Value>, WorkFault> {
        self.run_one(alloc, value)
    }

    fn is_identity_here(&self) -> bool {
        self.is_identity()
    }

    fn copy_here(&self, alloc: Global) -> Result<W, AllocError> {
        self.copy(alloc)
    }
}
