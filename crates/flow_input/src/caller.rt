//! What the caller of an input does: it begins values, one at a time, and is told what became of each.
ghost use Rattle.std.specs.Prelude.{◌≡◌, ◌+◌, ◌<◌, ◌^◌, true, false, length, take, None, IfErr, IfOk, OnOk, OnErr};
ghost use Rattle.flow_lawful.specs.Quiet.{is_open};
ghost use Rattle.flow_input.specs.Input.{InputCall, after_input, end_by, next_id};
ghost use Rattle.flow_input.specs.Sends.{after_told, has_answer, has_id, is_idle, settled, takes_more, told_next, tells_rest};

use crate::input::Input;
use flow_link::{Ending, SourceStage};
use flow_poll::Sent;
use flow_value::{MAX_ID, MessageHeader, Parcel, Value};
use std::alloc::{AllocError, Global};

impl Input {
    /// The values that were told as accepted, in order.
    pub fn accepted(&self) -> &[Value]
        ensures { result.now ≡ take self.now.told self.now.posted }
    {
        match self.posted.get(..self.told) {
            Some(accepted) => accepted,
            None => self.posted.as_slice(),
        }
    }

    /// Whether no value is begun of which the caller was not told.
    pub fn is_idle(&self) -> bool
        ensures { result ≡ is_idle self.now }
    {
        self.told == self.posted.len() && self.back.is_none()
    }

    /// Whether there is an id for one more value.
    pub fn has_id(&self) -> bool
        ensures { result ≡ has_id self.now }
    {
        (self.posted.len() as u64) < MAX_ID
    }

    /// Whether values may come: the input is not to end.
    pub fn is_open(&self) -> bool
        ensures { result ≡ is_open self.now.ending }
    {
        match self.ending {
            Ending::Open => true,
            Ending::Complete | Ending::Fault(_) => false,
        }
    }

    /// Whether a value may go to the target: it has not refused, and the input is not to end.
    pub fn takes_more(&self) -> bool
        ensures { result ≡ takes_more self.now }
    {
        self.stage == SourceStage::Free && self.ending == Ending::Open
    }

    /// Posts a value to the target, which takes it at once or turns it down, and tells its header.
    pub fn post(&mut self, alloc: Global, value: Value) -> Result<MessageHeader, Value>
        requires all { length self.old.posted ≡ self.old.sent }
        requires id { next_id self.old < 2 ^ 59 }
        ensures header { IfOk result (λ header. header ≡ next_id self.old) }
        ensures posted { OnOk result (self.new ≡ after_input (InputCall.post value) self.old) }
        ensures kept { OnErr result (self.new ≡ self.old) }
        ensures back { IfErr result (λ back. back ≡ value) }
    {
        let Some(header) = MessageHeader::new(self.sent as u64 + 1) else {
            unreachable!()
        };
        let Ok(parcel) = Parcel::of(alloc, &value) else {
            return Err(value);
        };
        match self.posted.push(value) {
            Ok(()) => {
                self.stage = SourceStage::Posted(header);
                self.parcel = Some(parcel);
                self.at_once = true;
                Ok(header)
            }
            Err(failed) => Err(failed.value),
        }
    }

    /// Begins a value, which the target may put off.
    pub fn begin(&mut self, value: Value) -> Result<(), Value>
        ensures begun { OnOk result (self.new ≡ after_input (InputCall.begin value) self.old) }
        ensures kept { OnErr result (self.new ≡ self.old) }
        ensures back { IfErr result (λ back. back ≡ value) }
    {
        match self.posted.push(value) {
            Ok(()) => {
                self.at_once = false;
                Ok(())
            }
            Err(failed) => Err(failed.value),
        }
    }

    /// Keeps a value that goes back to the caller, since none is taken any more.
    pub fn send_back(&mut self, value: Value, at_once: bool)
        ensures { self.new ≡ after_input (InputCall.send_back value at_once) self.old }
    {
        self.back = Some(value);
        self.at_once = at_once;
    }

    /// No value comes any more: when all is given, the link ends so.
    pub fn finish(&mut self, how: Ending)
        ensures { self.new ≡ after_input (InputCall.finish how) self.old }
    {
        self.ending = how;
    }

    /// How many of the values that it gave were taken.
    fn settled(&self) -> usize
        ensures { result ≡ settled self.now }
    {
        if self.stage == SourceStage::Crossing {
            self.sent.saturating_sub(1)
        } else {
            self.sent
        }
    }

    /// Passes over the values that were taken up to now: its caller is told only of what is taken later.
    pub fn pass_taken(&mut self)
        ensures { self.new ≡ record self.old { told = settled self.old } }
    {
        self.told = self.settled();
    }

    /// Whether it is known what became of the first value that was begun.
    pub fn has_answer(&self) -> bool
        ensures { result ≡ has_answer self.now }
    {
        self.told < self.settled()
            || self.back.is_some()
            || (self.stage == SourceStage::Refused && self.has_next())
    }

    /// Tells what became of the first value that was begun, if that is known.
    pub fn tell(&mut self) -> Sent
        ensures told { result ≡ (told_next self.old).answer }
        ensures done { self.new ≡ after_told (told_next self.old).call self.old }
    {
        if self.told < self.settled() {
            self.told += 1;
            return Sent::Accepted;
        }
        let more = self.takes_more();
        match self.back.take() {
            Some(value) if more => Sent::Declined(value),
            Some(value) => Sent::Permanently(value),
            None => self.tell_rest(),
        }
    }

    /// Tells whether a value is under way, or was not given before the target refused.
    fn tell_rest(&mut self) -> Sent
        requires { self.old.back ≡ None }
        ensures told { result ≡ (tells_rest self.old None).answer }
        ensures done { self.new ≡ after_told (tells_rest self.old None).call self.old }
    {
        match self.stage {
            SourceStage::Refused if self.has_next() => {
                self.parcel = None;
                Sent::Permanently(self.posted.remove(self.sent))
            }
            SourceStage::Refused => Sent::Idle,
            SourceStage::Crossing => Sent::Waiting,
            SourceStage::Free
            | SourceStage::Posted(_)
            | SourceStage::Out(_)
            | SourceStage::Waiting(_)
            | SourceStage::Accepted(_)
            | SourceStage::Wished(_)
            | SourceStage::AskedBy(_)
            | SourceStage::Reserved(_)
            | SourceStage::Claimed(_)
            | SourceStage::Ended(_) => {
                if self.has_next() {
                    Sent::Waiting
                } else {
                    Sent::Idle
                }
            }
        }
    }
}
