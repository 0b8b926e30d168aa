//! Why a stream ends before its records do.
use flow_text::{TextFault, TextRefusal};
use std::alloc::{AllocError, AllocFailed};
use std::{fmt, io};

/// Records by their numbers, which count from 1: from the first to the last, these among them.
#[derive(Clone, Copy, Debug, PartialEq, Eq)]
pub struct Span {
    pub first: u64,
    pub last: u64,
}

/// Why nothing of a chunk was written.
#[derive(Clone, Copy, Debug, PartialEq, Eq)]
pub enum ChunkFault {
    /// A record is refused, or the reader failed. Records are counted from the first of all.
    Text(TextFault),
    /// Something is left: a block is not done, or a value waits at an input.
    Incomplete,
    /// A block has no id left for its next message.
    Ids,
    /// There was no memory for it.
    Memory,
}

/// Why a stream ends before its records do. All records before these are written, and none of these.
#[derive(Clone, Copy, Debug, PartialEq, Eq)]
pub enum StreamFault {
    /// For this fault of the chunk with these records.
    Chunk(Span, ChunkFault),
    /// Nobody takes any more what is written. Of these records some may be written.
    Closed(Span),
    /// The writer failed. Of these records some may be written.
    Write(Span),
}

impl ChunkFault {
    /// The status that a run ends with for this fault.
    pub fn status(self) -> u8 {
        match self {
            ChunkFault::Text(TextFault::Read | TextFault::Write) => 5,
            ChunkFault::Text(_) => 2,
            ChunkFault::Incomplete => 1,
            ChunkFault::Ids => 3,
            ChunkFault::Memory => 4,
        }
    }
}

impl From<AllocError> for ChunkFault {
    ghost use Rattle.flow_stream.specs.declared.fault.ChunkFault.TheVariants.{Memory};
    ghost use Rattle.std.specs.Prelude.{◌≡◌};

    ghost from_gives = { λ _ fault. fault ≡ Memory };

    fn from(_error: AllocError) -> ChunkFault {
        ChunkFault::Memory
    }
}

impl<T: Drop> From<AllocFailed<T>> for ChunkFault {
    ghost use Rattle.flow_stream.specs.declared.fault.ChunkFault.TheVariants.{Memory};
    ghost use Rattle.std.specs.Prelude.{◌≡◌};

    ghost from_gives = { λ _ fault. fault ≡ Memory };

    fn from(_error: AllocFailed<T>) -> ChunkFault {
        ChunkFault::Memory
    }
}

impl From<csv::Error> for ChunkFault {
    /// A page takes all that is written, as long as there is memory.
    fn from(_error: csv::Error) -> ChunkFault {
        ChunkFault::Memory
    }
}

/// What a refusal comes to of the records behind so many.
pub(crate) fn refused_behind(before: u64, refusal: TextRefusal) -> ChunkFault {
    match refusal {
        TextRefusal::Fault(fault) => ChunkFault::Text(fault_behind(before, fault)),
        TextRefusal::Memory => ChunkFault::Memory,
    }
}

/// A fault of records behind so many, which counts these too.
fn fault_behind(before: u64, fault: TextFault) -> TextFault {
    match fault {
        TextFault::Csv(number) => TextFault::Csv(before.saturating_add(number)),
        TextFault::NotUtf8(number) => TextFault::NotUtf8(before.saturating_add(number)),
        TextFault::UnknownInput(number) => TextFault::UnknownInput(before.saturating_add(number)),
        TextFault::Syntax
        | TextFault::UnknownKey(_)
        | TextFault::MissingKey(_)
        | TextFault::WrongType(_)
        | TextFault::BadWork(_)
        | TextFault::BadWhen(_)
        | TextFault::BadFormat
        | TextFault::Plan(_)
        | TextFault::Read
        | TextFault::Write => fault,
    }
}

/// What a failure of the reader comes to.
pub(crate) fn unread(error: &io::Error) -> ChunkFault {
    if error.kind() == io::ErrorKind::OutOfMemory {
        ChunkFault::Memory
    } else {
        ChunkFault::Text(TextFault::Read)
    }
}

/// What a failure of the writer comes to, while these records were written.
pub(crate) fn unwritten(span: Span, error: &io::Error) -> StreamFault {
    match error.kind() {
        io::ErrorKind::BrokenPipe => StreamFault::Closed(span),
        io::ErrorKind::OutOfMemory => StreamFault::Chunk(span, ChunkFault::Memory),
        _ => StreamFault::Write(span),
    }
}

impl fmt::Display for Span {
    fn fmt<W: fmt::Write>(&self, f: &mut fmt::Formatter<W>) -> fmt::Result {
        let (first, last) = (self.first, self.last);
        write!(f, "records {first} to {last}")
    }
}

impl fmt::Display for ChunkFault {
    fn fmt<W: fmt::Write>(&self, f: &mut fmt::Formatter<W>) -> fmt::Result {
        match *self {
            ChunkFault::Text(fault) => write!(f, "{fault}"),
            ChunkFault::Incomplete => f.write_str("their run ends with status 1"),
            ChunkFault::Ids => f.write_str("ids"),
            ChunkFault::Memory => f.write_str("memory"),
        }
    }
}
