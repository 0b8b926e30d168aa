//! Why there is no page.
use flow_outcome::{Misfit, TellFault};
use std::alloc::{AllocError, AllocFailed};
use std::io;

/// Why a page can't be written.
#[derive(Clone, Copy)]
pub enum PageFault {
    /// The report is of another network.
    Misfit(Misfit),
    /// The writer failed.
    Write,
    /// There was no memory for it.
    Memory,
}

impl From<Misfit> for PageFault {
    fn from(misfit: Misfit) -> PageFault {
        PageFault::Misfit(misfit)
    }
}

impl From<TellFault> for PageFault {
    fn from(fault: TellFault) -> PageFault {
        match fault {
            TellFault::Misfit(misfit) => PageFault::Misfit(misfit),
            TellFault::Write => PageFault::Write,
        }
    }
}

impl From<AllocError> for PageFault {
    fn from(_error: AllocError) -> PageFault {
        PageFault::Memory
    }
}

impl<T: Drop> From<AllocFailed<T>> for PageFault {
    fn from(_error: AllocFailed<T>) -> PageFault {
        PageFault::Memory
    }
}

impl From<io::Error> for PageFault {
    fn from(error: io::Error) -> PageFault {
        if error.kind() == io::ErrorKind::OutOfMemory {
            PageFault::Memory
        } else {
            PageFault::Write
        }
    }
}
