//! The target's side of a link out of a network, and its caller's side.
ghost use Rattle.std.specs.Prelude.{◌≡◌, true, false, None, IfOk, OnOk, OnErr};
ghost use Rattle.std.specs.Option.{option_copied};
ghost use Rattle.flow_exit.specs.Exit.{ExitCall, after_exit, exit_move, exit_outcome, fresh_exit, wants_one};
ghost use Rattle.flow_intake.specs.Calls.{is_arrived, is_offered, is_posted, is_postponed};
ghost use Rattle.flow_intake.specs.Port.{is_hand, is_offer};

use flow_link::{LinkEnd, Move, Outcome, Phase, TargetStage};
use flow_value::{Parcel, Value};
use std::alloc::{AllocError, Global};
use std::marker::Model;

/// The end of a link that leads out of a network. Contracts see an `ExitState`.
#[derive(Drop)]
pub struct ExitEnd {
    // What the link moves.
    stage: TargetStage,
    hand: Option<Parcel>,
    /// What came in last, until it is received.
    kept: Option<Parcel>,
    // What the caller moves.
    received: Vec<Value>,
    /// A receive waits.
    asked: bool,
}

impl Model for ExitEnd {
    ghost use Rattle.std.specs.Coded.{codes};
    ghost use Rattle.flow_value.specs.contracts.value.Value as content;
    ghost use Rattle.flow_exit.specs.Exit.{ExitState};

    ghost Value = { ExitState };

    ghost coded = { Prim.hlevel (codes, content.the_row.coded) };

    ghost view = { λ e. record {
      stage = e.stage;
      hand = e.hand;
      received = e.received.items;
      kept = e.kept;
      asked = e.asked;
    } };
}

impl ExitEnd {
    /// An end at which nothing has arrived, and for which no receive waits.
    pub fn new(alloc: Global) -> ExitEnd
        ensures { result ≡ fresh_exit }
    {
        ExitEnd {
            stage: TargetStage::Free,
            hand: None,
            kept: None,
            received: Vec::new(alloc),
            asked: false,
        }
    }

    /// Where it stands.
    pub fn stage(&self) -> TargetStage
        ensures { result ≡ self.now.stage }
    {
        self.stage
    }

    /// The values that were received, in order.
    pub fn received(&self) -> &[Value]
        ensures { result.now ≡ self.now.received }
    {
        self.received.as_slice()
    }

    /// The message that the next receive gets, if it is there.
    pub fn kept(&self) -> Option<&Value>
        ensures { option_copied result ≡ self.now.kept }
    {
        self.kept.as_ref().map(Parcel::value)
    }

    /// How the block ended, once the end has seen it. A link out of a network never ends plainly, so this is exact.
    pub fn outcome(&self) -> Option<Outcome>
        ensures { result ≡ exit_outcome self.now }
    {
        match self.stage {
            TargetStage::Ended(LinkEnd::Fault(number)) => Some(Outcome::Faulted(number)),
            TargetStage::Ended(LinkEnd::Complete | LinkEnd::Plain) => Some(Outcome::Done),
            TargetStage::Free
            | TargetStage::Offered(_)
            | TargetStage::Posted(_)
            | TargetStage::Postponed(_)
            | TargetStage::Accepted(_)
            | TargetStage::Consuming(_)
            | TargetStage::Asking(_)
            | TargetStage::Holding(_)
            | TargetStage::Claiming(_)
            | TargetStage::Arrived(_)
            | TargetStage::Hand(_)
            | TargetStage::Refused(_) => None,
        }
    }

    fn wants_one(&self) -> bool
        ensures { result ≡ wants_one self.now }
    {
        self.asked && self.kept.is_none()
    }

    /// What it does next by itself, if anything.
    pub fn next_move(&self) -> Option<Move>
        ensures { result ≡ exit_move self.now }
    {
        let wants = self.wants_one();
        match self.stage {
            TargetStage::Offered(_) => Some(if wants { Move::Want } else { Move::Postpone }),
            TargetStage::Posted(_) => Some(if wants { Move::Want } else { Move::TurnDown }),
            TargetStage::Postponed(_) if wants => Some(Move::Consume),
            TargetStage::Arrived(_) => Some(Move::Open),
            TargetStage::Hand(_) => Some(Move::Close),
            TargetStage::Free
            | TargetStage::Postponed(_)
            | TargetStage::Accepted(_)
            | TargetStage::Consuming(_)
            | TargetStage::Asking(_)
            | TargetStage::Holding(_)
            | TargetStage::Claiming(_)
            | TargetStage::Refused(_)
            | TargetStage::Ended(_) => None,
        }
    }

    /// Wants the message that is offered or was posted.
    pub fn want(&mut self)
        requires there { is_offer self.old.stage ≡ true }
        requires none_kept { self.old.kept ≡ None }
        ensures { self.new ≡ after_exit ExitCall.want self.old }
    {
        if let TargetStage::Offered(header) | TargetStage::Posted(header) = self.stage() {
            self.stage = TargetStage::Accepted(header);
        }
    }

    /// Does not take the message that was posted.
    pub fn turn_down(&mut self)
        requires posted { is_posted self.old.stage ≡ true }
        ensures { self.new ≡ after_exit ExitCall.turn_down self.old }
    {
        self.stage = TargetStage::Free;
    }

    /// Comes back for the message later.
    pub fn postpone(&mut self)
        requires offered { is_offered self.old.stage ≡ true }
        ensures { self.new ≡ after_exit ExitCall.postpone self.old }
    {
        if let TargetStage::Offered(header) = self.stage() {
            self.stage = TargetStage::Postponed(header);
        }
    }

    /// Comes back for the message that it postponed.
    pub fn consume(&mut self)
        requires postponed { is_postponed self.old.stage ≡ true }
        requires none_kept { self.old.kept ≡ None }
        ensures { self.new ≡ after_exit ExitCall.consume self.old }
    {
        if let TargetStage::Postponed(header) = self.stage() {
            self.stage = TargetStage::Consuming(header);
        }
    }

    /// Takes the message out of the slot.
    pub fn open(&mut self, parcel: Parcel)
        requires arrived { is_arrived self.old.stage ≡ true }
        ensures { self.new ≡ after_exit (ExitCall.open_with parcel) self.old }
    {
        if let TargetStage::Arrived(header) = self.stage() {
            self.stage = TargetStage::Hand(header);
            self.hand = Some(parcel);
        }
    }

    /// Keeps the message that it has in hand, until it is received.
    pub fn close(&mut self)
        requires in_hand { is_hand self.old.stage ≡ true }
        ensures { self.new ≡ after_exit ExitCall.close self.old }
    {
        self.stage = TargetStage::Free;
        self.kept = self.hand.take();
    }

    /// Looks at the phase of its link.
    pub fn look(&mut self, phase: Phase)
        ensures { self.new ≡ after_exit (ExitCall.look phase) self.old }
    {
        self.stage = self.stage.look(phase);
    }

    /// A receive waits: what is offered next is wanted.
    pub fn ask(&mut self)
        ensures { self.new ≡ after_exit (ExitCall.ask true) self.old }
    {
        self.asked = true;
    }

    /// No receive waits any more.
    pub fn ask_no_more(&mut self)
        ensures { self.new ≡ after_exit (ExitCall.ask false) self.old }
    {
        self.asked = false;
    }

    /// Hands out the message that is kept, if any, and keeps an equal one among those that were received.
    ///
    /// Microsoft: `IReceivableSourceBlock<TOutput>.TryReceive`.
    pub fn receive(&mut self) -> Result<Option<Value>, AllocError>
        ensures gives { IfOk result (λ value. value ≡ self.old.kept) }
        ensures done { OnOk result (self.new ≡ after_exit ExitCall.receive self.old) }
        ensures kept { OnErr result (self.new ≡ self.old) }
    {
        if self.kept.is_none() {
            return Ok(None);
        }
        self.received.reserve(1)?;
        let Some(parcel) = self.kept.take() else {
            return Ok(None);
        };
        let (value, spare) = parcel.into_parts();
        self.received.push_reserved(spare);
        Ok(Some(value))
    }
}
