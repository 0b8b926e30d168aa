//! Why nothing is posted to an input, and why its end is not changed.
use flow_value::Value;
use thiserror::Error;

/// Why the end of an input is not changed.
#[derive(Clone, Copy, Debug, PartialEq, Eq, Error)]
pub enum EndRefused {
    /// No block that is an input has this name.
    #[error("no input has this name")]
    NoInput,
    /// It is fault 0, and the faults are numbered from 1.
    #[error("a fault's number is at least 1")]
    FaultZero,
}

/// Why a value is not posted. It holds the value.
#[derive(Debug, Drop, Error)]
pub enum PostRefused {
    /// No block that is an input has this name.
    #[error("no input has this name")]
    NoInput(Value),
    /// There is no memory for one value more.
    #[error("out of memory")]
    Memory(Value),
}
