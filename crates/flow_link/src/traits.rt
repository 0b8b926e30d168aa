//! What the blocks have in common: each completes, a source gives messages, a target takes them.
//!
//! Whoever drives a source and a target calls them in turn, and carries what each says to the other. A block stands at
//! each link at a stage, and a call says from which stage to which it leads: so it can be read off what was answered
//! before what may be called next.
//!
//! at the source      at the target     and then
//! next_offer         offer_message     note_answer with the status
//! consume_message    hand_over         where the target accepted
//!                    next_wish         where it postponed, and comes back by itself
//! consume_message    hand_over         where the message is still there
//!                    note_wish         where it is not available any more
//! reserve_message    note_wish         where it asks: Held, or not available
//! consume_message    hand_over         where it claims what is kept for it
//! release_reservation                  where it gives up what is kept for it
ghost use Rattle.std.specs.Prelude.{◌≡◌};
ghost use Rattle.flow_link.specs.Fault.{make_fault_number};

use crate::plan::{LinkId, PortId};
use crate::trace::Outcome;
use flow_value::{MessageHeader, MessageStatus, Parcel};
use std::alloc::{AllocError, Global};
use thiserror::Error;

/// Why a block made nothing.
#[derive(Clone, Copy, Debug, PartialEq, Eq, Error)]
pub enum MakeFault {
    /// Its messages have no more ids.
    #[error("out of ids")]
    Ids,
    #[error("out of memory")]
    Memory,
}

impl MakeFault {
    /// The number by which a report names the fault, and none for out of memory.
    pub fn number(self) -> Option<u32>
        ensures { result ≡ make_fault_number self }
    {
        match self {
            MakeFault::Ids => Some(1),
            MakeFault::Memory => None,
        }
    }
}

impl From<AllocError> for MakeFault {
    ghost use Rattle.std.specs.Prelude.{◌≡◌};
    ghost use Rattle.flow_link.specs.declared.traits.MakeFault.TheVariants.{Memory};

    ghost from_gives = { λ _ fault. fault ≡ Memory };

    fn from(_error: AllocError) -> MakeFault {
        MakeFault::Memory
    }
}

/// What a target would do next about the messages that it put off, by link.
#[derive(Clone, Copy, Debug, PartialEq, Eq)]
pub enum Wish {
    /// It consumes the message that it postponed.
    Consume(LinkId),
    /// It asks to reserve the message that it postponed.
    Ask(LinkId),
    /// It consumes the message that is kept for it.
    Claim(LinkId),
    /// It gives up the message that is kept for it.
    Release(LinkId),
    /// It waits for others.
    None,
}

/// What comes of a wish.
#[derive(Clone, Copy, Debug, PartialEq, Eq)]
pub enum WishAnswer {
    /// The message will be handed over.
    Coming,
    /// The message is kept for the target.
    Held,
    /// The message has gone elsewhere.
    NotAvailable,
    /// The source took the offer back.
    Withdrawn,
}

/// Something that ends once, done or by a fault.
pub trait Completing {
    ghost use Rattle.std.specs.Prelude.{◌≡◌, Option};
    ghost use Rattle.flow_link.specs.declared.trace.Outcome.{Outcome};
    ghost use Rattle.flow_link.specs.BlockCalls.{Stays};

    /// How it has ended, as far as it knows.
    ghost outcome: { Self → Option Outcome };

    /// What it learns when it is asked: before, after. A block that has nothing left to do notes then that it is done, and
    /// whoever watches another thread's block may learn of its end.
    ghost learns: { Self → Self → Type 0 };

    /// How it has ended, if it has. What was answered once is answered ever after.
    ///
    /// Microsoft: `IDataflowBlock.Completion`.
    fn completion(&mut self) -> Option<Outcome>
        ensures told { result ≡ outcome self.new }
        ensures learns { learns self.old self.new }
        ensures stays { Stays (outcome self.old) result };
}

/// What each block does besides the hand-over of messages.
pub trait DataflowBlock: Completing {
    ghost use Rattle.std.specs.Prelude.{◌≡◌, ◌≤◌, ℕ, Ok, false, OnErr};
    ghost use Rattle.flow_link.specs.declared.trace.Outcome.TheVariants.{Faulted};
    ghost use Rattle.flow_link.specs.BlockCalls.{BlockCall, Stays, ends_as};

    /// There is such a port, and no message into it is wanted, asked for or reserved.
    ghost may_complete: { Self → ℕ → Type 0 };

    /// No message into the block is wanted, asked for or reserved.
    ghost may_fault: { Self → Type 0 };

    /// What its calls do: the block before, the call with its answer, the block after.
    ghost acts: { Self → BlockCall → Self → Type 0 };

    /// Takes no more messages at this port, and comes back for none that it postponed there. What it holds is still
    /// worked on.
    ///
    /// Microsoft: `IDataflowBlock.Complete`, for one port.
    fn complete(&mut self, port: PortId)
        requires { may_complete self.old port }
        ensures acts { acts self.old (BlockCall.completed port) self.new }
        ensures stays { Stays (Self.outcome self.old) (Self.outcome self.new) };

    /// Ends at once, by a fault with this number. A block that has told its end stays as it is.
    ///
    /// Microsoft: `IDataflowBlock.Fault`, with a number in place of the exception.
    fn fault(&mut self, number: u32)
        requires is_fault { 1 ≤ number }
        requires rests { may_fault self.old }
        ensures acts { acts self.old (BlockCall.faulted number) self.new }
        ensures ends { Self.outcome self.new ≡ ends_as (Faulted number) (Self.outcome self.old) };

    /// Turns the next message that it took, or the next group of them, into outputs, where that needs no function.
    /// Answers whether there was one.
    ///
    /// Microsoft: what a block does on its own between its targets' calls and its sources'.
    fn make(&mut self, alloc: Global) -> Result<bool, MakeFault>
        ensures acts { acts self.old (BlockCall.made result) self.new }
        ensures nothing { (result ≡ Ok false) → self.new ≡ self.old }
        ensures kept { OnErr result (self.new ≡ self.old) }
        ensures stays { Stays (Self.outcome self.old) (Self.outcome self.new) };
}

/// A block that gives messages to others.
///
/// Microsoft: `ISourceBlock<TOutput>`.
pub trait SourceBlock: DataflowBlock {
    ghost use Rattle.std.specs.Prelude.{◌≡◌, ℕ, Bool, false, Ok, None, IfOk, IfSome, IfNone, IsSome, OnErr};
    ghost use Rattle.std.specs.Bool.{OnTrue};
    ghost use Rattle.flow_link.specs.declared.stage.SourceStage.{SourceStage};
    ghost use Rattle.flow_link.specs.declared.stage.SourceStage.TheVariants.{Out, Reserved};
    ghost use Rattle.flow_link.specs.BlockCalls.{Stays};
    ghost use Rattle.flow_link.specs.StagesMove.{MovesTo};
    ghost use Rattle.flow_link.specs.SourceCalls.{SourceCall, Offers, stage_answered, MayConsume, is_promised};
    ghost use Rattle.flow_link.specs.SourceCalls.{GivesOver, NothingOut, MayReserve, GivesUp};

    /// Where it stands at each link.
    ghost source_stage: { Self → ℕ → SourceStage };

    /// An offer is out, so wishes for postponed messages wait.
    ghost is_busy: { Self → Bool };

    /// What its calls do: the source before, the call with its answer, the source after.
    ghost gives: { Self → SourceCall → Self → Type 0 };

    /// The link and the message to offer next, if there is one; then this offer is out. All that the message will need
    /// when it is consumed is set aside here.
    ///
    /// Microsoft: a source that calls `ITargetBlock<TInput>.OfferMessage`, with `consumeToAccept`.
    fn next_offer(&mut self, alloc: Global) -> Result<Option<(LinkId, MessageHeader)>, AllocError>
        ensures gives { IfOk result (λ offer. gives self.old (SourceCall.offered offer) self.new) }
        ensures moves { IfOk result (λ offer. Offers offer (source_stage self.old) (source_stage self.new)) }
        ensures nothing { (result ≡ Ok None) → self.new ≡ self.old }
        ensures kept { OnErr result (self.new ≡ self.old) }
        ensures outcome_stays { Stays (Self.outcome self.old) (Self.outcome self.new) };

    /// Notes what the target answered to the offer that is out over this link.
    ///
    /// Microsoft: the answer of `ITargetBlock<TInput>.OfferMessage`.
    fn note_answer(&mut self, link: LinkId, header: MessageHeader, status: MessageStatus)
        requires { source_stage self.old link ≡ Out header }
        ensures gives { gives self.old (SourceCall.noted link header status) self.new }
        ensures moves { MovesTo (stage_answered status header) link (source_stage self.old) (source_stage self.new) }
        ensures outcome_stays { Stays (Self.outcome self.old) (Self.outcome self.new) };

    /// Gives the message over this link, unless it has gone elsewhere. What was accepted or reserved is there. Once a
    /// message is given, no link waits for it any more.
    ///
    /// Microsoft: `ISourceBlock<TOutput>.ConsumeMessage`.
    fn consume_message(&mut self, link: LinkId, header: MessageHeader) -> Option<Parcel>
        requires { MayConsume header (is_busy self.old) (source_stage self.old link) }
        ensures gives { gives self.old (SourceCall.consumed link header result) self.new }
        ensures moves { IfSome result (λ _. GivesOver link header (source_stage self.old) (source_stage self.new)) }
        ensures kept { IfNone result (self.new ≡ self.old) }
        ensures promised { OnTrue (is_promised (source_stage self.old link)) (IsSome result) }
        ensures outcome_stays { Stays (Self.outcome self.old) (Self.outcome self.new) };

    /// Keeps the message, which the target at this link put off, for that target: until it is consumed over this link or
    /// given up, it stays there. False, where the message has gone elsewhere, or is kept for another.
    ///
    /// Microsoft: `ISourceBlock<TOutput>.ReserveMessage`.
    fn reserve_message(&mut self, link: LinkId, header: MessageHeader) -> bool
        requires { MayReserve header (is_busy self.old) (source_stage self.old link) }
        ensures gives { gives self.old (SourceCall.reserved link header result) self.new }
        ensures moves { OnTrue result (MovesTo (Reserved header) link (source_stage self.old) (source_stage self.new)) }
        ensures kept { (result ≡ false) → self.new ≡ self.old }
        ensures outcome_stays { Stays (Self.outcome self.old) (Self.outcome self.new) };

    /// Gives up the message that is kept for the target at this link. Where the source has one message for all its links, it
    /// forgets all answers for it, and offers it anew; where each link has its own copy, this link waits on.
    ///
    /// Microsoft: `ISourceBlock<TOutput>.ReleaseReservation`.
    fn release_reservation(&mut self, link: LinkId, header: MessageHeader)
        requires { source_stage self.old link ≡ Reserved header }
        ensures gives { gives self.old (SourceCall.released link header) self.new }
        ensures moves { GivesUp link header (source_stage self.old) (source_stage self.new) }
        ensures outcome_stays { Stays (Self.outcome self.old) (Self.outcome self.new) };

    /// Without an offer out or accepted, wishes are answered.
    ghost rests: { (source : Self) → NothingOut (source_stage source) → is_busy source ≡ false };
}

/// A block that takes messages from others.
///
/// Microsoft: `ITargetBlock<TInput>`.
pub trait TargetBlock: DataflowBlock {
    ghost use Rattle.std.specs.Prelude.{◌≡◌, ℕ, ◌<◌, false, IfOk, OnErr};
    ghost use Rattle.flow_link.specs.declared.stage.TargetStage.{TargetStage};
    ghost use Rattle.flow_link.specs.declared.stage.TargetStage.TheVariants.{Free};
    ghost use Rattle.flow_link.specs.BlockCalls.{Stays};
    ghost use Rattle.flow_link.specs.StagesMove.{MovesBy, MovesTo};
    ghost use Rattle.flow_link.specs.TargetCalls.{TargetCall, StandsAfter, Wants, Wishes, MayNote, stage_noted};
    ghost use Rattle.flow_link.specs.TargetCalls.{is_awaited};

    /// Where it stands at each link.
    ghost target_stage: { Self → ℕ → TargetStage };

    /// How many ports it has, and into which of them a link leads.
    ghost port_count: { Self → ℕ };

    ghost port_into: { Self → ℕ → ℕ };

    /// What its calls do: the target before, the call with its answer, the target after.
    ghost takes: { Self → TargetCall → Self → Type 0 };

    /// Answers an offer. All that the message will need when it is handed over is set aside here.
    ///
    /// Microsoft: `ITargetBlock<TInput>.OfferMessage`, with `consumeToAccept`; without a source where the message may
    /// not be postponed.
    fn offer_message(
        &mut self,
        alloc: Global,
        origin: LinkId,
        header: MessageHeader,
        may_postpone: bool,
    ) -> Result<MessageStatus, AllocError>
        requires { target_stage self.old origin ≡ Free }
        ensures takes { IfOk result (λ status. takes self.old (TargetCall.offered origin header may_postpone status)
            self.new) }
        ensures moves { IfOk result (λ status. MovesBy (λ _ stage. StandsAfter may_postpone status header stage) origin
            (target_stage self.old) (target_stage self.new)) }
        ensures kept { OnErr result (self.new ≡ self.old) }
        ensures outcome_stays { Stays (Self.outcome self.old) (Self.outcome self.new) };

    /// Takes the message that it wants.
    ///
    /// Microsoft: the value that `ISourceBlock<TOutput>.ConsumeMessage` gives.
    fn hand_over(&mut self, origin: LinkId, header: MessageHeader, parcel: Parcel)
        requires { Wants header (target_stage self.old origin) }
        ensures takes { takes self.old (TargetCall.handed origin header parcel) self.new }
        ensures moves { MovesTo Free origin (target_stage self.old) (target_stage self.new) }
        ensures outcome_stays { Stays (Self.outcome self.old) (Self.outcome self.new) };

    /// What it would do next about the messages that it put off; then it waits for the answer.
    ///
    /// Microsoft: a target that calls `ISourceBlock<TOutput>.ConsumeMessage`, `ReserveMessage` or `ReleaseReservation`.
    fn next_wish(&mut self) -> Wish
        ensures takes { takes self.old (TargetCall.wished result) self.new }
        ensures moves { Wishes result (target_stage self.old) (target_stage self.new) }
        ensures nothing { (result ≡ Wish.None) → self.new ≡ self.old }
        ensures outcome_stays { Stays (Self.outcome self.old) (Self.outcome self.new) };

    /// Notes what came of its wish, or that an offer which it postponed is withdrawn.
    ///
    /// Microsoft: the answer of `ISourceBlock<TOutput>.ConsumeMessage` or `ReserveMessage`.
    fn note_wish(&mut self, origin: LinkId, answer: WishAnswer)
        requires { MayNote answer (target_stage self.old origin) }
        ensures takes { takes self.old (TargetCall.noted origin answer) self.new }
        ensures moves { MovesTo (stage_noted answer (target_stage self.old origin)) origin (target_stage self.old)
            (target_stage self.new) }
        ensures outcome_stays { Stays (Self.outcome self.old) (Self.outcome self.new) };

    /// A port may complete while no message into it is awaited.
    ghost may_complete_at_rest: { (target : Self) (port : ℕ) → port < port_count target
        → ((link : ℕ) → port_into target link ≡ port → is_awaited (target_stage target link) ≡ false)
        → Self.may_complete target port };

    /// The block may fault while no message into it is awaited.
    ghost may_fault_at_rest: { (target : Self)
        → ((link : ℕ) → is_awaited (target_stage target link) ≡ false) → Self.may_fault target };
}
