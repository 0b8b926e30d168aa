//! Why there are no results.
use flow_reading::ReadError;
use std::alloc::{AllocError, AllocFailed};
use std::{fmt, io};

/// Why results can't be written.
#[derive(Clone, Copy)]
pub enum ResultsError<'a> {
    /// The text is no report.
    Report(ReadError),
    /// The block with this name was asked for, and is not in the report.
    NoBlock(&'a str),
    /// The block with this name was asked for, and is no action, so it records nothing.
    NoAction(&'a str),
    /// The writer failed.
    Write,
    /// There was no memory for it.
    Memory,
}

impl fmt::Display for ResultsError<'_> {
    fn fmt<W: fmt::Write>(&self, f: &mut fmt::Formatter<W>) -> fmt::Result {
        match *self {
            ResultsError::Report(error) => write!(f, "{error}"),
            ResultsError::NoBlock(name) => write!(f, "the report has no block {name:?}"),
            ResultsError::NoAction(name) => {
                write!(f, "block {name} is no action, so it has no results")
            }
            ResultsError::Write => f.write_str("the results can't be written"),
            ResultsError::Memory => f.write_str("memory"),
        }
    }
}

impl From<AllocError> for ResultsError<'_> {
    fn from(_error: AllocError) -> Self {
        ResultsError::Memory
    }
}

impl<T: Drop> From<AllocFailed<T>> for ResultsError<'_> {
    fn from(_error: AllocFailed<T>) -> Self {
        ResultsError::Memory
    }
}

impl From<io::Error> for ResultsError<'_> {
    fn from(error: io::Error) -> Self {
        if error.kind() == io::ErrorKind::OutOfMemory {
            ResultsError::Memory
        } else {
            ResultsError::Write
        }
    }
}

impl From<csv::Error> for ResultsError<'_> {
    fn from(error: csv::Error) -> Self {
        match error.kind() {
            csv::ErrorKind::OutOfMemory => ResultsError::Memory,
            _ => ResultsError::Write,
        }
    }
}
