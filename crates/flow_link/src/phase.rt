//! How far the hand-over of a message over a link has come, and the moves that take it on.
//!
//! phase            who leaves it, and how
//! Idle             the source offers, posts or ends
//! Posted           the target wants, turns down or refuses
//! Offered          the target wants, postpones or refuses
//! Postponed        the target consumes, asks or refuses, unless the source withdraws first
//! Wanted           the source gives; after a consume it may deny
//! Given            the target opens
//! Opened           the target closes
//! Asked            the source holds or denies
//! Held             the target claims or releases
//! Refused, Ended   nobody
//!
//! At Postponed both ends may move, so there each move is a compare and exchange, and one end wins.
ghost use Rattle.std.specs.Prelude.{◌≡◌, ◌≤◌, ◌<◌, ◌^◌, true, Some, IfSome};
ghost use Rattle.flow_link.specs.declared.phase.Phase.TheVariants.{Idle, Posted, Offered, Postponed, Wanted, Asked};
ghost use Rattle.flow_link.specs.declared.phase.Phase.TheVariants.{Held};
ghost use Rattle.flow_link.specs.Phase.{phase_after, message_id, code_of, id_of, word_of_phase, is_numbered, IsPhase};

use flow_value::{MAX_ID, MessageHeader};

/// How a link ended.
#[derive(Clone, Copy, Debug, PartialEq, Eq)]
pub enum LinkEnd {
    /// Nothing is passed on: the link has carried all that it may, or it does not propagate.
    Plain,
    /// The source has completed, and completes the target's port.
    ///
    /// Microsoft: `IDataflowBlock.Complete`, over a link with `DataflowLinkOptions.PropagateCompletion`.
    Complete,
    /// The source has faulted, and faults the target; the fault's number is at least 1.
    ///
    /// Microsoft: `IDataflowBlock.Fault`, over a link with `DataflowLinkOptions.PropagateCompletion`.
    Fault(u32),
}

/// How far the hand-over of a message over one link has come.
#[derive(Clone, Copy, Debug, PartialEq, Eq)]
pub enum Phase {
    /// Nothing is under way.
    Idle,
    /// The source offers a message that the target may not postpone.
    Posted(MessageHeader),
    /// The source offers a message.
    Offered(MessageHeader),
    /// The target may come back for the message.
    ///
    /// Microsoft: `DataflowMessageStatus.Postponed`.
    Postponed(MessageHeader),
    /// The target waits for the message: it accepted an offer, or consumes one that it postponed or reserved.
    Wanted(MessageHeader),
    /// The message lies in the link's slot.
    Given(MessageHeader),
    /// The target has the message in hand.
    Opened(MessageHeader),
    /// The target asks to reserve a message that it postponed.
    Asked(MessageHeader),
    /// The source keeps the message for the target.
    Held(MessageHeader),
    /// The target takes no message any more.
    ///
    /// Microsoft: `DataflowMessageStatus.DecliningPermanently`.
    Refused,
    /// The source offers no message any more.
    Ended(LinkEnd),
}

/// What an end of a link does to its phase.
#[derive(Clone, Copy, Debug, PartialEq, Eq)]
pub enum Move {
    /// The source offers a message, which the target may postpone.
    ///
    /// Microsoft: `ITargetBlock<TInput>.OfferMessage` with a source to come back to.
    Offer(MessageHeader),
    /// The source offers a message, which the target takes now or not at all.
    ///
    /// Microsoft: `ITargetBlock<TInput>.OfferMessage` without a source, as `DataflowBlock.Post` calls it.
    Post(MessageHeader),
    /// The target accepts the offer.
    ///
    /// Microsoft: `DataflowMessageStatus.Accepted`.
    Want,
    /// The target does not take this message; it may take a later one.
    ///
    /// Microsoft: `DataflowMessageStatus.Declined`.
    TurnDown,
    /// The target takes no message any more.
    ///
    /// Microsoft: `DataflowMessageStatus.DecliningPermanently`.
    Refuse,
    /// The target may come back for the message.
    ///
    /// Microsoft: `DataflowMessageStatus.Postponed`.
    Postpone,
    /// The target comes back for a message that it postponed.
    ///
    /// Microsoft: `ISourceBlock<TOutput>.ConsumeMessage`.
    Consume,
    /// The source takes back an offer that was postponed.
    Withdraw,
    /// The source has given the message elsewhere, and answers a wish for it so.
    ///
    /// Microsoft: `DataflowMessageStatus.NotAvailable`.
    Deny,
    /// The source lays the message into the link's slot.
    Give,
    /// The target takes the message out of the slot.
    Open,
    /// The target has made the message its own.
    Close,
    /// The source ends the link.
    End(LinkEnd),
    /// The target asks to reserve a message that it postponed.
    ///
    /// Microsoft: `ISourceBlock<TOutput>.ReserveMessage`.
    Ask,
    /// The source keeps the message for the target.
    ///
    /// Microsoft: `ISourceBlock<TOutput>.ReserveMessage` that answers true.
    Hold,
    /// The target wants the message that is kept for it, and this is never denied.
    ///
    /// Microsoft: `ISourceBlock<TOutput>.ConsumeMessage` of a reserved message.
    Claim,
    /// The target gives the message up that is kept for it, and may ask for it again.
    ///
    /// Microsoft: `ISourceBlock<TOutput>.ReleaseReservation`.
    Release,
}

/// The phase after a move, or none where the phase does not allow it.
///
/// A deny is allowed from each wanted message; that it comes after a consume alone is the source's to keep.
pub fn step_of(phase: Phase, step: Move) -> Option<Phase>
    ensures { result ≡ phase_after phase step }
{
    match phase {
        Phase::Idle => from_idle(step),
        Phase::Posted(header) => from_posted(header, step),
        Phase::Offered(header) => from_offered(header, step),
        Phase::Postponed(header) => from_postponed(header, step),
        Phase::Wanted(header) => from_wanted(header, step),
        Phase::Given(header) => match step {
            Move::Open => Some(Phase::Opened(header)),
            _ => None,
        },
        Phase::Opened(_) => match step {
            Move::Close => Some(Phase::Idle),
            _ => None,
        },
        Phase::Asked(header) => from_asked(header, step),
        Phase::Held(header) => from_held(header, step),
        Phase::Refused | Phase::Ended(_) => None,
    }
}

fn from_idle(step: Move) -> Option<Phase>
    ensures { result ≡ phase_after Idle step }
{
    match step {
        Move::Offer(header) => Some(Phase::Offered(header)),
        Move::Post(header) => Some(Phase::Posted(header)),
        Move::End(how) => Some(Phase::Ended(how)),
        _ => None,
    }
}

fn from_posted(header: MessageHeader, step: Move) -> Option<Phase>
    ensures { result ≡ phase_after (Posted header) step }
{
    match step {
        Move::Want => Some(Phase::Wanted(header)),
        Move::TurnDown => Some(Phase::Idle),
        Move::Refuse => Some(Phase::Refused),
        _ => None,
    }
}

fn from_offered(header: MessageHeader, step: Move) -> Option<Phase>
    ensures { result ≡ phase_after (Offered header) step }
{
    match step {
        Move::Want => Some(Phase::Wanted(header)),
        Move::Postpone => Some(Phase::Postponed(header)),
        Move::Refuse => Some(Phase::Refused),
        _ => None,
    }
}

fn from_postponed(header: MessageHeader, step: Move) -> Option<Phase>
    ensures { result ≡ phase_after (Postponed header) step }
{
    match step {
        Move::Consume => Some(Phase::Wanted(header)),
        Move::Ask => Some(Phase::Asked(header)),
        Move::Refuse => Some(Phase::Refused),
        Move::Withdraw => Some(Phase::Idle),
        _ => None,
    }
}

fn from_wanted(header: MessageHeader, step: Move) -> Option<Phase>
    ensures { result ≡ phase_after (Wanted header) step }
{
    match step {
        Move::Give => Some(Phase::Given(header)),
        Move::Deny => Some(Phase::Idle),
        _ => None,
    }
}

fn from_asked(header: MessageHeader, step: Move) -> Option<Phase>
    ensures { result ≡ phase_after (Asked header) step }
{
    match step {
        Move::Hold => Some(Phase::Held(header)),
        Move::Deny => Some(Phase::Idle),
        _ => None,
    }
}

fn from_held(header: MessageHeader, step: Move) -> Option<Phase>
    ensures { result ≡ phase_after (Held header) step }
{
    match step {
        Move::Claim => Some(Phase::Wanted(header)),
        Move::Release => Some(Phase::Postponed(header)),
        _ => None,
    }
}

impl Phase {
    /// The message that the phase speaks of, if it speaks of one.
    pub fn id(self) -> Option<MessageHeader>
        ensures { result ≡ message_id self }
    {
        match self {
            Phase::Posted(header)
            | Phase::Offered(header)
            | Phase::Postponed(header)
            | Phase::Wanted(header)
            | Phase::Given(header)
            | Phase::Opened(header)
            | Phase::Asked(header)
            | Phase::Held(header) => Some(header),
            Phase::Idle | Phase::Refused | Phase::Ended(_) => None,
        }
    }

    // which of the kinds of phase it is
    fn code(&self) -> u64
        ensures value { result ≡ code_of self.now }
        ensures high { result ≤ 12 }
    {
        match self {
            Phase::Idle => 0,
            Phase::Posted(_) => 1,
            Phase::Offered(_) => 2,
            Phase::Postponed(_) => 3,
            Phase::Wanted(_) => 4,
            Phase::Given(_) => 5,
            Phase::Opened(_) => 6,
            Phase::Asked(_) => 7,
            Phase::Held(_) => 8,
            Phase::Refused => 9,
            Phase::Ended(LinkEnd::Plain) => 10,
            Phase::Ended(LinkEnd::Complete) => 11,
            Phase::Ended(LinkEnd::Fault(_)) => 12,
        }
    }

    // the message's id or the fault's number
    fn number(&self) -> u64
        ensures value { result ≡ id_of self.now }
        ensures high { result < 2 ^ 59 }
        ensures fits { is_numbered self.now ≡ true → IsPhase self.now }
    {
        match self {
            Phase::Posted(header)
            | Phase::Offered(header)
            | Phase::Postponed(header)
            | Phase::Wanted(header)
            | Phase::Given(header)
            | Phase::Opened(header)
            | Phase::Asked(header)
            | Phase::Held(header) => header.id(),
            Phase::Ended(LinkEnd::Fault(number)) => u64::from(*number),
            Phase::Idle
            | Phase::Refused
            | Phase::Ended(LinkEnd::Plain)
            | Phase::Ended(LinkEnd::Complete) => 0,
        }
    }
}

// how many words each kind of phase has
const WORDS_OF_A_KIND: u64 = MAX_ID + 1;

/// The word that stores a phase: its kind's number from bit 59 on, and below it the message's id or the fault's number.
pub fn word_of(phase: Phase) -> u64
    ensures word { result ≡ word_of_phase phase }
    ensures fits { is_numbered phase ≡ true → IsPhase phase }
{
    phase.code() * WORDS_OF_A_KIND + phase.number()
}

/// The phase that a word stores, or none where the word stores no phase.
pub fn phase_of(word: u64) -> Option<Phase>
    ensures stored { IfSome result (λ phase. IsPhase phase) }
    ensures its_word { IfSome result (λ phase. word_of_phase phase ≡ word) }
    ensures inverse { (phase : Phase) → IsPhase phase → word_of_phase phase ≡ word → result ≡ Some phase }
{
    let code = word / WORDS_OF_A_KIND;
    let number = word % WORDS_OF_A_KIND;
    match MessageHeader::new(number) {
        Some(header) => match code {
            1 => Some(Phase::Posted(header)),
            2 => Some(Phase::Offered(header)),
            3 => Some(Phase::Postponed(header)),
            4 => Some(Phase::Wanted(header)),
            5 => Some(Phase::Given(header)),
            6 => Some(Phase::Opened(header)),
            7 => Some(Phase::Asked(header)),
            8 => Some(Phase::Held(header)),
            12 if number <= u64::from(u32::MAX) => Some(Phase::Ended(LinkEnd::Fault(
                number as u32,
            ))),
            _ => None,
        },
        None => match code {
            0 => Some(Phase::Idle),
            9 => Some(Phase::Refused),
            10 => Some(Phase::Ended(LinkEnd::Plain)),
            11 => Some(Phase::Ended(LinkEnd::Complete)),
            _ => None,
        },
    }
}
