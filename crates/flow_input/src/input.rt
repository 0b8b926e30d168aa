//! The values that are posted to a block from outside, given in order over one link: the link's side.
ghost use Rattle.std.specs.Prelude.{◌≡◌, ◌<◌, ◌^◌, ◌&&◌, not, ltb, cond, drop, is_some, true, Some, None};
ghost use Rattle.std.specs.Prelude.{OnOk, OnErr, IfOk};
ghost use Rattle.std.specs.Option.{option_copied};
ghost use Rattle.flow_intake.specs.Calls.{first_of};
ghost use Rattle.flow_outlet.specs.End.{is_free};
ghost use Rattle.flow_input.specs.Input.{InputCall, after_input, end_by, fresh_input, has_next, input_move, input_sends, is_wanted, next_id, next_value, takes_back};

use flow_link::{Ending, LinkEnd, Move, Phase, SourceStage};
use flow_value::{MAX_ID, MessageHeader, Parcel, Value};
use std::alloc::{AllocError, Global};
use std::marker::Model;

/// What is posted to a block: values, which it gives over one link, and how they end.
///
/// Contracts see an `InputState`.
#[derive(Drop)]
pub struct Input {
    pub(crate) posted: Vec<Value>,
    /// How many of them it gave.
    pub(crate) sent: usize,
    pub(crate) ending: Ending,
    pub(crate) stage: SourceStage,
    /// The parcel of the next one.
    pub(crate) parcel: Option<Parcel>,
    // What its caller is to be told.
    /// How many of those that were taken were told as accepted.
    pub(crate) told: usize,
    /// A value that goes back to the caller.
    pub(crate) back: Option<Value>,
    /// What is begun is to be taken at once.
    pub(crate) at_once: bool,
}

impl Model for Input {
    ghost use Rattle.std.specs.Coded.{codes};
    ghost use Rattle.std.specs.Prelude.{◌≡◌, ◌≤◌, length, drop, Some};
    ghost use Rattle.std.specs.Option.{ForSome};
    ghost use Rattle.flow_value.specs.contracts.value.Value as content;
    ghost use Rattle.flow_intake.specs.Calls.{first_of};
    ghost use Rattle.flow_input.specs.Input.{InputState};

    ghost Value = { InputState };

    ghost coded = { Prim.hlevel (codes, content.the_row.coded) };

    ghost view = { λ i. record {
      posted = i.posted.items;
      sent = i.sent;
      ending = i.ending;
      stage = i.stage;
      parcel = i.parcel;
      told = i.told;
      back = i.back;
      at_once = i.at_once;
    } };

    ghost invariant = { λ i. (i.sent ≤ length i.posted.items) ×
        ForSome i.parcel (λ value. first_of (drop i.sent i.posted.items) ≡ Some value) };
}

impl Input {
    /// An input with these values, which ends so when they are all given.
    pub fn new(posted: Vec<Value>, ending: Ending) -> Input
        ensures { result ≡ fresh_input (record { posted = posted.items; ending = ending }) }
    {
        Input {
            posted,
            sent: 0,
            ending,
            stage: SourceStage::Free,
            parcel: None,
            told: 0,
            back: None,
            at_once: false,
        }
    }

    /// The values, those that it gave among them.
    pub fn posted(&self) -> &[Value]
        ensures { result.now ≡ self.now.posted }
    {
        self.posted.as_slice()
    }

    /// How many of them it gave.
    pub fn sent(&self) -> usize
        ensures { result ≡ self.now.sent }
    {
        self.sent
    }

    /// How it ends.
    pub fn ending(&self) -> Ending
        ensures { result ≡ self.now.ending }
    {
        self.ending
    }

    /// Where its end of the link stands.
    pub fn stage(&self) -> SourceStage
        ensures { result ≡ self.now.stage }
    {
        self.stage
    }

    /// Whether there is a next value.
    pub(crate) fn has_next(&self) -> bool
        ensures { result ≡ has_next self.now }
    {
        self.sent < self.posted.len()
    }

    /// Whether there is a next value, which would need an id above 2^59 - 1.
    pub fn lacks_id(&self) -> bool
        ensures { result ≡ (has_next self.now && not (ltb (next_id self.now) (2 ^ 59))) }
    {
        self.has_next() && self.sent as u64 >= MAX_ID
    }

    /// What it does next by itself, if anything. Past the last id it makes no offer.
    #[inline(always)]
    pub fn next_move(&self) -> Option<Move>
        ensures { result ≡ cond (is_free self.now.stage && has_next self.now && not (ltb (next_id self.now) (2 ^ 59)))
            None (input_move self.now) }
    {
        match self.stage {
            SourceStage::Free if self.has_next() => {
                MessageHeader::new(self.sent as u64 + 1).map(Move::Offer)
            }
            SourceStage::Free => link_end(self.ending).map(Move::End),
            SourceStage::Accepted(_) | SourceStage::Wished(_) => Some(Move::Give),
            SourceStage::Posted(_)
            | SourceStage::Out(_)
            | SourceStage::Waiting(_)
            | SourceStage::AskedBy(_)
            | SourceStage::Reserved(_)
            | SourceStage::Claimed(_)
            | SourceStage::Crossing
            | SourceStage::Refused
            | SourceStage::Ended(_) => None,
        }
    }

    /// Makes the parcel of the next value, unless it is made.
    #[inline(always)]
    pub fn prepare(&mut self, alloc: Global) -> Result<(), AllocError>
        ensures done { OnOk result (self.new ≡ record self.old { parcel = next_value self.old }) }
        ensures kept { OnErr result (self.new ≡ self.old) }
    {
        if self.parcel.is_some() {
            return Ok(());
        }
        if let Some(value) = value_at(&self.posted, self.sent) {
            self.parcel = Some(Parcel::of(alloc, value)?);
        }
        Ok(())
    }

    /// Keeps this parcel of the next value, which was made before.
    pub fn put_parcel(&mut self, parcel: Parcel)
        requires { next_value self.old ≡ Some parcel }
        ensures { self.new ≡ record self.old { parcel = next_value self.old } }
    {
        self.parcel = Some(parcel);
    }

    /// Offers the next value, and tells its header.
    pub fn offer(&mut self) -> MessageHeader
        requires free { is_free self.old.stage ≡ true }
        requires ready { is_some self.old.parcel ≡ true }
        requires id { next_id self.old < 2 ^ 59 }
        ensures header { result ≡ next_id self.old }
        ensures out { self.new ≡ after_input InputCall.offer self.old }
    {
        let Some(header) = MessageHeader::new(self.sent as u64 + 1) else {
            unreachable!()
        };
        self.stage = SourceStage::Out(header);
        header
    }

    /// Gives the next value, which is wanted.
    pub fn give(&mut self) -> Parcel
        requires wanted { is_wanted self.old.stage ≡ true }
        requires ready { is_some self.old.parcel ≡ true }
        ensures value { next_value self.old ≡ Some result }
        ensures given { self.new ≡ after_input InputCall.give self.old }
    {
        let Some(parcel) = self.parcel.take() else {
            unreachable!()
        };
        self.sent += 1;
        self.stage = SourceStage::Crossing;
        parcel
    }

    /// Sends the next value to a target that takes it at once: this is its parcel, which is made first. It comes to what an
    /// offer, a gift and the looks between them come to. Where memory is out, nothing has changed.
    #[inline(always)]
    pub fn send(&mut self, alloc: Global) -> Result<Parcel, AllocError>
        requires free { is_free self.old.stage ≡ true }
        requires there { is_some (next_value self.old) ≡ true }
        requires id { next_id self.old < 2 ^ 59 }
        ensures value { IfOk result (λ parcel. next_value self.old ≡ Some parcel) }
        ensures sent { OnOk result (self.new ≡ input_sends (next_id self.old) self.old) }
        ensures kept { OnErr result (self.new ≡ self.old) }
    {
        if self.parcel.is_some() {
            return Ok(self.send_made());
        }
        let Some(value) = value_at(&self.posted, self.sent) else {
            unreachable!()
        };
        let parcel = Parcel::of(alloc, value)?;
        self.sent += 1;
        Ok(parcel)
    }

    // The same, where the parcel was made before.
    #[cold]
    #[inline(never)]
    fn send_made(&mut self) -> Parcel
        requires free { is_free self.old.stage ≡ true }
        requires ready { is_some self.old.parcel ≡ true }
        ensures value { next_value self.old ≡ Some result }
        ensures sent { self.new ≡ input_sends (next_id self.old) self.old }
    {
        let Some(parcel) = self.parcel.take() else {
            unreachable!()
        };
        self.sent += 1;
        parcel
    }

    /// Ends its link.
    pub fn end(&mut self, how: LinkEnd)
        requires { is_free self.old.stage ≡ true }
        ensures { self.new ≡ after_input (InputCall.end_link how) self.old }
    {
        self.stage = SourceStage::Ended(how);
    }

    /// Looks at the phase of its link. A value that was posted and that the target turned down goes back.
    pub fn look(&mut self, phase: Phase)
        ensures { self.new ≡ after_input (InputCall.look phase) self.old }
    {
        match (self.stage(), phase) {
            (SourceStage::Posted(_), Phase::Idle) => self.take_back(),
            (stage, phase) => self.stage = stage.look(phase),
        }
    }

    /// Takes back the value that was posted and not taken.
    fn take_back(&mut self)
        ensures { self.new ≡ takes_back self.old }
    {
        self.stage = SourceStage::Free;
        self.parcel = None;
        self.back = if self.has_next() {
            Some(self.posted.remove(self.sent))
        } else {
            None
        };
        self.posted.truncate(self.sent);
    }
}

/// How the link ends when all is given.
fn link_end(ending: Ending) -> Option<LinkEnd>
    ensures { result ≡ end_by ending }
{
    match ending {
        Ending::Open => None,
        Ending::Complete => Some(LinkEnd::Complete),
        Ending::Fault(number) => Some(LinkEnd::Fault(number)),
    }
}

fn value_at(values: &[Value], place: usize) -> Option<&Value>
    ensures { option_copied result ≡ first_of (drop place values.now) }
{
    values.get(place)
}
