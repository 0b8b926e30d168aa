//! Why a call does not do what it is for.
ghost use Rattle.std.specs.Prelude.{◌≡◌, Some};
ghost use Rattle.bevelrose_c.specs.Refusal.{refusal_of, refusal_status, refusal_text};

use flow_text::{TextFault, TextRefusal};
use std::fmt;

/// Why a text is no network, or there is no report.
#[derive(Clone, Copy)]
pub enum Refusal {
    /// A text was refused.
    Text(TextFault),
    /// A block has no id left for its next message.
    Ids,
    /// There was no memory for it.
    Memory,
    /// The handle holds no network.
    Closed,
}

impl Refusal {
    pub fn of(refusal: TextRefusal) -> Refusal
        ensures { result ≡ refusal_of refusal }
    {
        match refusal {
            TextRefusal::Fault(fault) => Refusal::Text(fault),
            TextRefusal::Memory => Refusal::Memory,
        }
    }

    /// The status that tells of it, as that of the program `flow_run`.
    pub fn status(self) -> u8
        ensures { result ≡ refusal_status self }
    {
        match self {
            Refusal::Text(TextFault::Read | TextFault::Write) => 5,
            Refusal::Text(_) => 2,
            Refusal::Ids => 3,
            Refusal::Memory => 4,
            Refusal::Closed => 2,
        }
    }
}

impl fmt::Display for Refusal {
    ghost output = { λ refusal. Some (refusal_text refusal) };

    fn fmt<W: fmt::Write>(&self, f: &mut fmt::Formatter<W>) -> fmt::Result {
        match *self {
            Refusal::Text(fault) => write!(f, "{fault}"),
            Refusal::Ids => f.write_str("ids"),
            Refusal::Memory => f.write_str("memory"),
            Refusal::Closed => f.write_str("closed"),
        }
    }
}
