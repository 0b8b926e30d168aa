//! A way in: values are begun there, one at a time, and what became of each is told.
//!
//! begin      none is begun      the value is begun, or comes back: Ids, Memory
//!            one is begun       the value comes back: Busy
//! look       none is begun      Idle
//!            one is begun       Waiting, or what became of the first: it is told once
ghost use Rattle.std.specs.Prelude.{◌≡◌};
ghost use Rattle.flow_poll.specs.Fault.{send_fault_number};

use flow_value::Value;
use std::alloc::{AllocError, Global};
use thiserror::Error;

/// Why a value is not begun.
#[derive(Clone, Copy, Debug, PartialEq, Eq, Error)]
pub enum SendFault {
    /// A value waits there, is under way, or what became of it is not told yet.
    #[error("a value is under way")]
    Busy,
    /// The value would need an id above 2^59 - 1.
    #[error("message ids are used up")]
    Ids,
    /// There is no memory for it.
    #[error("out of memory")]
    Memory,
}

impl SendFault {
    /// The number by which a report names the fault, and none for out of memory.
    pub fn number(self) -> Option<u32>
        ensures { result ≡ send_fault_number self }
    {
        match self {
            SendFault::Busy => Some(1),
            SendFault::Ids => Some(2),
            SendFault::Memory => None,
        }
    }
}

/// What a look at a way in tells.
#[derive(Debug, Drop)]
pub enum Sent {
    /// No value is under way.
    Idle,
    /// The value is under way.
    Waiting,
    /// The value was taken.
    Accepted,
    /// The value was not taken, and could not be put off; a later one may be taken.
    Declined(Value),
    /// No value is taken any more.
    Permanently(Value),
}

/// What became of a value that was begun.
#[derive(Debug, Drop)]
pub enum Delivery {
    /// It was taken.
    Accepted,
    /// It was not taken, and could not be put off; a later one may be taken. So this is no answer to `SendAsync`.
    Declined(Value),
    /// No value is taken any more.
    Permanently(Value),
}

/// Why nothing is known of what became of a value.
#[derive(Debug, Drop)]
pub enum SendRefusal {
    /// It was not begun.
    NotBegun(Value, SendFault),
    /// There was no memory when the port was looked at. The value is under way, and a later look tells what became of it.
    Memory,
}

/// A way in.
///
/// Microsoft: `ITargetBlock<TInput>`, as `DataflowBlock.Post` and `DataflowBlock.SendAsync` use it.
pub trait SendPort: Drop {
    ghost use Rattle.std.specs.Prelude.{◌≡◌, Bool, IfOk, IfErr, OnOk, OnErr};
    ghost use Rattle.flow_poll.specs.Sends.{SendView, Begins, IsUnbegunFor, Tells};

    /// The values that it told as accepted, and those that are begun.
    ghost sends: { Self → SendView };

    /// There is an id for one more value.
    ghost has_id: { Self → Bool };

    /// It is the same way in, later.
    ghost goes_on: { Self → Self → Type 0 };

    /// Begins to send this value, which whoever is to take it may put off, or may not.
    fn begin(
        &mut self,
        alloc: Global,
        value: Value,
        may_postpone: bool,
    ) -> Result<(), (Value, SendFault)>
        ensures begins { OnOk result (Begins (record { value = value; may_postpone = may_postpone }) (has_id self.old)
            (sends self.old) (sends self.new)) }
        ensures kept { OnErr result (sends self.new ≡ sends self.old) }
        ensures back { IfErr result (λ refused. refused.0 ≡ value) }
        ensures why { IfErr result (λ refused. IsUnbegunFor refused.1 (has_id self.old) (sends self.old)) }
        ensures goes_on { goes_on self.old self.new };

    /// Tells what became of the value that was begun first, if that is known by now.
    fn look(&mut self, alloc: Global) -> Result<Sent, AllocError>
        ensures tells { IfOk result (λ sent. Tells sent (sends self.old) (sends self.new)) }
        ensures kept { OnErr result (sends self.new ≡ sends self.old) }
        ensures goes_on { goes_on self.old self.new };

    ghost stays: { (port : Self) → goes_on port port };

    ghost goes_further: { (first mid last : Self) → goes_on first mid → goes_on mid last → goes_on first last };
}
