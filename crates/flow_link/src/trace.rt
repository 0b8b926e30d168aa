//! What a run leaves behind: the marks of each block, and how its inputs and blocks end.
ghost use Rattle.std.specs.Prelude.{◌≡◌};
ghost use Rattle.flow_link.specs.Phase.{message_id};
ghost use Rattle.flow_link.specs.Posted.{is_numbered_ending};

use crate::phase::Phase;
use crate::plan::{LinkId, PortId};
use flow_value::{Kept, MessageHeader, Parcel};

/// One thing that happened to a block; its journal has them in order.
#[derive(Debug, Drop)]
pub enum Mark {
    /// At this port it took this value, which came over this link.
    Took(PortId, LinkId, Kept),
    /// Over this link it gave this value.
    Gave(LinkId, Kept),
    /// This port takes nothing any more.
    Complete(PortId),
    /// The block ended by a fault with this number.
    Fault(u32),
    /// The block ended, and has nothing left.
    Done,
}

/// How a block ended.
#[derive(Clone, Copy, Debug, PartialEq, Eq)]
pub enum Outcome {
    /// It worked on all that it took, and gave it all.
    Done,
    /// It faulted, with this number.
    Faulted(u32),
}

/// How the values of an input end.
#[derive(Clone, Copy, Debug, PartialEq, Eq)]
pub enum Ending {
    /// More may be posted.
    Open,
    /// There are no more.
    Complete,
    /// There are no more, by a fault with this number, which is at least 1.
    Fault(u32),
}

impl Ending {
    /// Whether it is no fault, or a fault with a number: 0 is none.
    pub fn is_numbered(self) -> bool
        ensures { result ≡ is_numbered_ending self }
    {
        match self {
            Ending::Open | Ending::Complete => true,
            Ending::Fault(number) => number > 0,
        }
    }
}

/// A link between two moves.
#[derive(Debug, Drop)]
pub struct LinkState {
    pub phase: Phase,
    /// The message that was given and is not yet taken out.
    pub slot: Option<Parcel>,
}

impl LinkState {
    /// The message that the link's phase speaks of, if it speaks of one.
    pub fn id(&self) -> Option<MessageHeader>
        ensures { result ≡ message_id self.now.phase }
    {
        self.phase.id()
    }
}
