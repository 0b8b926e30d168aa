//! Where each end of a link stands: what it last found or wrote there. The other end may have moved since, until this
//! end looks.
//!
//! A parcel that the target has in hand stands beside its stage, with the end that keeps it, so stages are plain words.
ghost use Rattle.std.specs.Prelude.{◌≡◌};
ghost use Rattle.flow_link.specs.Stage.{source_looks, source_is_released, target_looks, target_is_withdrawn};

use crate::phase::{LinkEnd, Phase};
use flow_value::MessageHeader;

/// Where the source's end of a link stands.
#[derive(Clone, Copy, Debug, PartialEq, Eq)]
pub enum SourceStage {
    /// Nothing is under way.
    Free,
    /// It posted a message, and has seen no answer.
    Posted(MessageHeader),
    /// It offered a message, and has seen no answer.
    Out(MessageHeader),
    /// It has seen that its offer was postponed.
    Waiting(MessageHeader),
    /// It has seen that its offer is wanted, and had seen no other answer.
    Accepted(MessageHeader),
    /// It has seen that its offer is wanted, after it had seen it postponed.
    Wished(MessageHeader),
    /// It has seen that the target asks to reserve the message.
    AskedBy(MessageHeader),
    /// It keeps the message for the target.
    Reserved(MessageHeader),
    /// It has seen that the target claims the message that is kept for it.
    Claimed(MessageHeader),
    /// It gave the message, and has not seen the target close.
    Crossing,
    /// It has seen that the target takes no message any more.
    Refused,
    /// It ended the link.
    Ended(LinkEnd),
}

/// Why a target takes no message any more.
#[derive(Clone, Copy, Debug, PartialEq, Eq)]
pub enum Refusal {
    /// The port has ended.
    PortEnded,
    /// The block's own fault stands.
    OwnFault,
}

/// Where the target's end of a link stands.
#[derive(Clone, Copy, Debug, PartialEq, Eq)]
pub enum TargetStage {
    /// Nothing is under way.
    Free,
    /// It has seen an offer, and not answered.
    Offered(MessageHeader),
    /// It has seen a message that was posted, and not answered.
    Posted(MessageHeader),
    /// It postponed an offer.
    Postponed(MessageHeader),
    /// It accepted an offer, or a message that was posted.
    Accepted(MessageHeader),
    /// It consumes an offer that it postponed.
    Consuming(MessageHeader),
    /// It asks to reserve an offer that it postponed.
    Asking(MessageHeader),
    /// The message is kept for it.
    Holding(MessageHeader),
    /// It claims the message that is kept for it.
    Claiming(MessageHeader),
    /// It has seen that the message lies in the slot.
    Arrived(MessageHeader),
    /// It has the message in hand.
    Hand(MessageHeader),
    /// It takes no message any more.
    Refused(Refusal),
    /// It has seen that the source ended the link.
    Ended(LinkEnd),
}

impl SourceStage {
    /// Where the source stands after a look that finds this phase.
    pub fn look(self, phase: Phase) -> SourceStage
        ensures { result ≡ source_looks self phase }
    {
        match self {
            SourceStage::Posted(header) => match phase {
                Phase::Wanted(_) => SourceStage::Accepted(header),
                Phase::Idle => SourceStage::Free,
                Phase::Refused => SourceStage::Refused,
                _ => self,
            },
            SourceStage::Out(header) => match phase {
                Phase::Wanted(_) => SourceStage::Accepted(header),
                Phase::Postponed(_) => SourceStage::Waiting(header),
                Phase::Asked(_) => SourceStage::AskedBy(header),
                Phase::Refused => SourceStage::Refused,
                _ => self,
            },
            SourceStage::Waiting(header) => match phase {
                Phase::Wanted(_) => SourceStage::Wished(header),
                Phase::Asked(_) => SourceStage::AskedBy(header),
                Phase::Refused => SourceStage::Refused,
                _ => self,
            },
            SourceStage::Reserved(header) => match phase {
                Phase::Wanted(_) => SourceStage::Claimed(header),
                Phase::Postponed(_) => SourceStage::Waiting(header),
                Phase::Asked(_) => SourceStage::AskedBy(header),
                Phase::Refused => SourceStage::Refused,
                _ => self,
            },
            SourceStage::Crossing => match phase {
                Phase::Idle => SourceStage::Free,
                _ => self,
            },
            stage => stage,
        }
    }

    /// Whether a look that finds this phase tells the source that the target released the message it kept.
    pub fn is_released_by(self, phase: Phase) -> bool
        ensures { result ≡ source_is_released self phase }
    {
        matches!(self, SourceStage::Reserved(_))
            && matches!(
                phase,
                Phase::Postponed(_) | Phase::Asked(_) | Phase::Refused
            )
    }
}

impl TargetStage {
    /// Where the target stands after a look that finds this phase. What it has in hand stays there.
    pub fn look(self, phase: Phase) -> TargetStage
        ensures { result ≡ target_looks self phase }
    {
        match self {
            TargetStage::Accepted(header)
            | TargetStage::Consuming(header)
            | TargetStage::Claiming(header)
                if matches!(phase, Phase::Given(_)) => { TargetStage::Arrived(header) }
            TargetStage::Asking(header) if matches!(phase, Phase::Held(_)) => {
                TargetStage::Holding(header)
            }
            TargetStage::Free
            | TargetStage::Postponed(_)
            | TargetStage::Consuming(_)
            | TargetStage::Asking(_) => match phase {
                Phase::Idle => TargetStage::Free,
                Phase::Posted(header) => TargetStage::Posted(header),
                Phase::Offered(header) => TargetStage::Offered(header),
                Phase::Ended(how) => TargetStage::Ended(how),
                _ => self,
            },
            TargetStage::Refused(why) => TargetStage::Refused(why),
            _ => self,
        }
    }

    /// Whether a look that finds this phase tells the target that its wish stands no more: the source withdrew the
    /// offer, or denied the wish.
    pub fn is_withdrawn_by(self, phase: Phase) -> bool
        ensures { result ≡ target_is_withdrawn self phase }
    {
        match self {
            TargetStage::Postponed(_) => !matches!(phase, Phase::Postponed(_)),
            TargetStage::Consuming(_) => !matches!(phase, Phase::Wanted(_) | Phase::Given(_)),
            TargetStage::Asking(_) => !matches!(phase, Phase::Asked(_) | Phase::Held(_)),
            _ => false,
        }
    }
}
