//! Why nothing is told of a network and a report.
use crate::fit::Misfit;
use std::io;

/// Why nothing is told of a network and a report.
#[derive(Clone, Copy)]
pub enum TellFault {
    /// The report is of another network.
    Misfit(Misfit),
    /// The writer failed.
    Write,
}

impl From<Misfit> for TellFault {
    fn from(misfit: Misfit) -> TellFault {
        TellFault::Misfit(misfit)
    }
}

impl From<io::Error> for TellFault {
    fn from(_error: io::Error) -> TellFault {
        TellFault::Write
    }
}
