//! Why a text is no report.
use std::alloc::{AllocError, AllocFailed};
use thiserror::Error;

/// What is wrong with a line of a text that should be a report.
#[derive(Clone, Copy, Debug, Error)]
pub enum ReportFault {
    /// The line is no UTF-8.
    #[error("the line is no UTF-8")]
    NotUtf8,
    /// A line that can't stand here, as a `left` before the ports of its block.
    #[error("a report has no such line here")]
    Line,
    /// The name of a block is not of 1 to 64 of the characters that names have.
    #[error("this is no name of a block")]
    Name,
    /// The state is none of `open`, `completing`, `done` and `faulted N`.
    #[error("this is no state of a block")]
    State,
    /// A port or a link has another number than it should here.
    #[error("this is not the number that comes next")]
    Number,
    /// The list is not written as reports write lists, or has an integer outside of 64 bits.
    #[error("this is no list of values")]
    List,
    /// The text ends before the last line of a report.
    #[error("the report is cut off: its last line is `quiet` or `stopped`")]
    End,
    /// Something follows the last line.
    #[error("the report ends before this line")]
    Behind,
}

/// Why a report can't be read.
#[derive(Clone, Copy, Debug, Error)]
pub enum ReadError {
    /// This line, from 1, has a fault.
    #[error("line {line}: {fault}")]
    Fault { line: usize, fault: ReportFault },
    /// There was no memory for it.
    #[error("memory")]
    Memory,
}

impl From<AllocError> for ReadError {
    ghost use Rattle.flow_reading.specs.declared.fault.ReadError.TheVariants.{Memory};
    ghost use Rattle.std.specs.Prelude.{◌≡◌};

    ghost from_gives = { λ _ error. error ≡ Memory };

    fn from(_error: AllocError) -> ReadError {
        ReadError::Memory
    }
}

impl<T: Drop> From<AllocFailed<T>> for ReadError {
    ghost use Rattle.flow_reading.specs.declared.fault.ReadError.TheVariants.{Memory};
    ghost use Rattle.std.specs.Prelude.{◌≡◌};

    ghost from_gives = { λ _ error. error ≡ Memory };

    fn from(_error: AllocFailed<T>) -> ReadError {
        ReadError::Memory
    }
}
