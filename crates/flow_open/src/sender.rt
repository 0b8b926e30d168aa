//! Where the values come from that are sent into an input.
ghost use Rattle.std.specs.Prelude.{◌≡◌};
ghost use Rattle.flow_open.specs.Senders.{is_sending};
ghost use Rattle.flow_open.specs.declared.sender.SenderState.TheVariants.{Sending};

use flow_poll::SendFault;
use flow_value::Value;

/// How far a sender has come.
#[derive(Drop)]
pub enum SenderState {
    /// It sends on. Its last value may be under way.
    Sending,
    /// Each value that it gave was accepted, it has none any more, and its input was told so.
    Through,
    /// This value came back, since its block takes none any more. None is sent after it.
    Refused(Value),
    /// This value could not be begun, and came back. None is sent after it, and its input stays open.
    NotBegun(Value, SendFault),
}

/// Sends values into an input. Behind the last one the input completes.
#[derive(Drop)]
pub struct Sender<S> {
    /// The values for which it was not asked yet.
    pub values: S,
    pub state: SenderState,
}

impl<S> Sender<S> {
    /// Sends these values, in order.
    pub fn new(values: S) -> Sender<S>
        ensures values { result.values ≡ values }
        ensures sending { result.state ≡ Sending }
    {
        Sender {
            values,
            state: SenderState::Sending,
        }
    }

    /// Whether it sends on.
    pub(crate) fn is_sending(&self) -> bool
        ensures { result ≡ is_sending self.now.state }
    {
        match &self.state {
            SenderState::Sending => true,
            SenderState::Through | SenderState::Refused(_) | SenderState::NotBegun(_, _) => false,
        }
    }
}
