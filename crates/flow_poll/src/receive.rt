//! A way out: messages are received there, one at a time.
//!
//! in sight     try_receive            available
//! nothing      Waiting                None
//! a message    Message, or Waiting    Some(true)
//! the end      Ended                  Some(false)
use flow_link::Outcome;
use flow_value::Value;
use std::alloc::{AllocError, Global};

/// What a receive answers.
#[derive(Debug, Drop)]
pub enum Received {
    /// There is no message yet.
    Waiting,
    Message(Value),
    /// There is none any more.
    Ended(Outcome),
}

/// What comes of waiting for a message.
#[derive(Debug, Drop)]
pub enum Receipt {
    Message(Value),
    /// There is none any more.
    Ended(Outcome),
}

/// A way out.
///
/// Microsoft: `IReceivableSourceBlock<TOutput>`, as `DataflowBlock.ReceiveAsync` and
/// `DataflowBlock.OutputAvailableAsync` use it.
pub trait ReceivePort: Drop {
    ghost use Rattle.std.specs.Prelude.{◌≡◌, IfOk, OnErr};
    ghost use Rattle.flow_poll.specs.Receives.{ReceiveView, Gives, StaysOver, is_in_sight};

    /// The values that were received, and what is in sight.
    ghost receives: { Self → ReceiveView };

    /// It is the same way out, later.
    ghost goes_on: { Self → Self → Type 0 };

    /// Takes the next message, if there is one by now.
    fn try_receive(&mut self, alloc: Global) -> Result<Received, AllocError>
        ensures gives { IfOk result (λ received. Gives received (receives self.old) (receives self.new)) }
        ensures kept { OnErr result ((receives self.new).received ≡ (receives self.old).received) }
        ensures goes_on { goes_on self.old self.new };

    /// Whether there is a message, if that is known by now. Where it answers false, none will come.
    fn available(&mut self, alloc: Global) -> Result<Option<bool>, AllocError>
        ensures told { IfOk result (λ told. told ≡ is_in_sight (receives self.new).sight) }
        ensures kept { (receives self.new).received ≡ (receives self.old).received }
        ensures goes_on { goes_on self.old self.new };

    ghost stays: { (port : Self) → goes_on port port };

    ghost goes_further: { (first mid last : Self) → goes_on first mid → goes_on mid last → goes_on first last };

    /// What is over stays over.
    ghost over: { (first last : Self) → goes_on first last → StaysOver (receives first).sight (receives last).sight };
}
