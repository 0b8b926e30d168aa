//! Why records can't be cut or dealt out.
use crate::differ::Difference;
use std::alloc::{AllocError, AllocFailed};

/// Why records can't be cut into parts.
#[derive(Clone, Copy, Debug, PartialEq, Eq, thiserror::Error)]
pub enum PieceFault {
    /// This record, from 1, hasn't exactly three fields.
    #[error("record {0} is not a key, an input and a value")]
    Fields(u64),
    /// The records could not be read.
    #[error("the records cannot be read")]
    Read,
    /// There was no memory for it.
    #[error("out of memory")]
    Memory,
}

impl From<AllocError> for PieceFault {
    ghost use Rattle.flow_split.specs.declared.fault.PieceFault.TheVariants.{Memory};
    ghost use Rattle.std.specs.Prelude.{◌≡◌};

    ghost from_gives = { λ _ fault. fault ≡ Memory };

    fn from(_error: AllocError) -> PieceFault {
        PieceFault::Memory
    }
}

impl<T: Drop> From<AllocFailed<T>> for PieceFault {
    ghost use Rattle.flow_split.specs.declared.fault.PieceFault.TheVariants.{Memory};
    ghost use Rattle.std.specs.Prelude.{◌≡◌};

    ghost from_gives = { λ _ fault. fault ≡ Memory };

    fn from(_error: AllocFailed<T>) -> PieceFault {
        PieceFault::Memory
    }
}

/// Why numbered records are not dealt out.
#[derive(Clone, Copy)]
pub enum DealFault {
    /// Two inputs of a part do not have the same keys in the same order.
    Differ(Difference),
    /// There was no memory for it.
    Memory,
}

impl From<AllocError> for DealFault {
    ghost use Rattle.flow_split.specs.declared.fault.DealFault.TheVariants.{Memory};
    ghost use Rattle.std.specs.Prelude.{◌≡◌};

    ghost from_gives = { λ _ fault. fault ≡ Memory };

    fn from(_error: AllocError) -> DealFault {
        DealFault::Memory
    }
}

impl<T: Drop> From<AllocFailed<T>> for DealFault {
    ghost use Rattle.flow_split.specs.declared.fault.DealFault.TheVariants.{Memory};
    ghost use Rattle.std.specs.Prelude.{◌≡◌};

    ghost from_gives = { λ _ fault. fault ≡ Memory };

    fn from(_error: AllocFailed<T>) -> DealFault {
        DealFault::Memory
    }
}
