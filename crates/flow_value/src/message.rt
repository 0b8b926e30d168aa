//! What a source and a target say to one another about one message: its header, and the answer to an offer.
ghost use Rattle.std.specs.Prelude.{◌≡◌, ℕ, ◌^◌, ◌<◌, ◌≤◌, ◌↔◌, IsSome, IfSome};

use std::marker::Model;

/// The greatest id that a message can have.
pub const MAX_ID: u64 = 0x07ff_ffff_ffff_ffff;

/// A message's number among the outputs of its source: 1 to [`MAX_ID`].
///
/// Microsoft: `DataflowMessageHeader`, whose id 0 is no valid header.
#[derive(Clone, Copy, Debug, PartialEq, Eq, PartialOrd, Ord, Hash)]
pub struct MessageHeader {
    id: u64,
}

impl Model for MessageHeader {
    ghost Value = { ℕ };

    ghost view = { λ h. h.id };

    ghost invariant = { λ h. (1 ≤ h.id) × (h.id < 2 ^ 59) };

    ghost inverse = { λ n. record { id = n } };
}

impl MessageHeader {
    /// The header with this id, if it is one.
    pub fn new(id: u64) -> Option<MessageHeader>
        ensures valid { IsSome result ↔ ((1 ≤ id) × (id < 2 ^ 59)) }
        ensures value { IfSome result (λ header. header ≡ id) }
    {
        if id >= 1 && id <= MAX_ID {
            Some(MessageHeader { id })
        } else {
            None
        }
    }

    /// The number that this header carries.
    pub fn id(self) -> u64
        ensures value { result ≡ self }
        ensures low { 1 ≤ self }
        ensures high { self < 2 ^ 59 }
    {
        self.id
    }
}

/// A target's answer to an offer, or a source's to a wish.
///
/// Microsoft: `DataflowMessageStatus`, with the same numbers.
#[derive(Clone, Copy, Debug, PartialEq, Eq)]
pub enum MessageStatus {
    /// The target takes the message.
    Accepted = 0,
    /// The target does not take this message; it may take a later one.
    Declined = 1,
    /// The target may ask for the message later.
    Postponed = 2,
    /// The message has gone elsewhere meanwhile.
    NotAvailable = 3,
    /// The target takes no message any more.
    DecliningPermanently = 4,
}

impl MessageStatus {
    ghost use Rattle.flow_value.specs.Status.{status_number};

    /// The number of the status.
    pub fn number(self) -> u8
        ensures { result ≡ status_number self }
    {
        self as u8
    }
}
