//! What can be wrong with a network's text and with records.
ghost use Rattle.std.specs.Prelude.{Some};
ghost use Rattle.flow_fault_text.specs.FaultText.{place_text, fault_text};

use crate::plan_line::PlanLine;
use flow_link::PlanFault;
use std::alloc::{AllocError, AllocFailed};
use std::fmt;

/// Where in a network's text a fault stands.
#[derive(Clone, Copy, Debug, PartialEq, Eq)]
pub enum TextPlace {
    /// Outside the blocks and links.
    Top,
    /// In this block, from 0.
    Block(usize),
    /// In this link, from 0.
    Link(usize),
}

/// Why a network or its records can't be read, or its report can't be written.
#[derive(Clone, Copy, Debug, PartialEq, Eq, thiserror::Error)]
pub enum TextFault {
    /// The network is no TOML.
    Syntax,
    /// A key that networks don't have.
    UnknownKey(TextPlace),
    /// A required key is absent.
    MissingKey(TextPlace),
    /// A value of another type, or out of the range of its type.
    WrongType(TextPlace),
    /// A step that there isn't, or more than 16.
    BadWork(TextPlace),
    /// A predicate that there isn't.
    BadWhen(TextPlace),
    /// A format other than 1.
    BadFormat,
    /// What was read is no plan.
    Plan(PlanFault),
    /// This record, from 1, hasn't exactly two fields.
    Csv(u64),
    /// A field of this record is no UTF-8.
    NotUtf8(u64),
    /// The first field of this record names no block that is an input.
    UnknownInput(u64),
    /// The reader failed.
    Read,
    /// The writer failed.
    Write,
}

/// Why a text was refused.
#[derive(Clone, Copy, Debug, PartialEq, Eq, thiserror::Error)]
pub enum TextRefusal {
    /// For this fault.
    #[error(transparent)]
    Fault(TextFault),
    /// There was no memory for it.
    #[error("memory")]
    Memory,
}

impl From<AllocError> for TextRefusal {
    ghost use Rattle.flow_fault_text.specs.declared.fault.TextRefusal.TheVariants.{Memory};
    ghost use Rattle.std.specs.Prelude.{◌≡◌};

    ghost from_gives = { λ _ refusal. refusal ≡ Memory };

    fn from(_error: AllocError) -> TextRefusal {
        TextRefusal::Memory
    }
}

impl<T: Drop> From<AllocFailed<T>> for TextRefusal {
    ghost use Rattle.flow_fault_text.specs.declared.fault.TextRefusal.TheVariants.{Memory};
    ghost use Rattle.std.specs.Prelude.{◌≡◌};

    ghost from_gives = { λ _ refusal. refusal ≡ Memory };

    fn from(_error: AllocFailed<T>) -> TextRefusal {
        TextRefusal::Memory
    }
}

impl fmt::Display for TextPlace {
    ghost output = { λ place. Some (place_text place) };

    fn fmt<W: fmt::Write>(&self, f: &mut fmt::Formatter<W>) -> fmt::Result {
        match *self {
            TextPlace::Top => f.write_str("top"),
            TextPlace::Block(number) => write!(f, "block {number}"),
            TextPlace::Link(number) => write!(f, "link {number}"),
        }
    }
}

impl fmt::Display for TextFault {
    ghost output = { λ fault. Some (fault_text fault) };

    fn fmt<W: fmt::Write>(&self, f: &mut fmt::Formatter<W>) -> fmt::Result {
        match *self {
            TextFault::Syntax => f.write_str("1 Syntax"),
            TextFault::UnknownKey(place) => write!(f, "2 UnknownKey {place}"),
            TextFault::MissingKey(place) => write!(f, "3 MissingKey {place}"),
            TextFault::WrongType(place) => write!(f, "4 WrongType {place}"),
            TextFault::BadWork(place) => write!(f, "5 BadWork {place}"),
            TextFault::BadWhen(place) => write!(f, "6 BadWhen {place}"),
            TextFault::BadFormat => f.write_str("7 BadFormat"),
            TextFault::Plan(fault) => {
                let fault = PlanLine(fault);
                write!(f, "8 Plan {fault}")
            }
            TextFault::Csv(record) => write!(f, "9 Csv record {record}"),
            TextFault::NotUtf8(record) => write!(f, "10 NotUtf8 record {record}"),
            TextFault::UnknownInput(record) => write!(f, "11 UnknownInput record {record}"),
            TextFault::Read => f.write_str("12 Read"),
            TextFault::Write => f.write_str("13 Write"),
        }
    }
}
