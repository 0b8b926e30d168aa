//! What the caller of an input does, in a network.
ghost use Rattle.std.specs.Prelude.{◌≡◌, ℕ, ◌<◌, ◌^◌, length, List, Result, OnOk, OnErr, IfErr};
ghost use Rattle.flow_value.specs.declared.value.Value.{Value};
ghost use Rattle.flow_input.specs.Input.{InputCall, after_input, next_id};
ghost use Rattle.flow_input.specs.Sends.{after_told, told_next};
ghost use Rattle.flow_moves.specs.Ready.{TargetIsThere};
ghost use Rattle.flow_moves.specs.Ways.{input_in, posted_along, with_input_in};

use crate::parts::Parts;
use flow_block::Route;
use flow_link::{Ending, LinkId, Phase};
use flow_poll::Sent;
use flow_value::Value;
use std::alloc::Global;

impl Parts {
    /// The caller of the input from which this link comes posts a value, and the target looks. Where memory is out, the
    /// value comes back, and nothing has changed.
    pub fn post_over(
        &mut self,
        alloc: Global,
        id: LinkId,
        route: &Route,
        value: Value,
    ) -> Result<(), Value>
        requires line { id < length self.old.lines }
        requires source { route.now.source_place < length self.old.inputs }
        requires target { TargetIsThere self.old route.now.target route.now.target_place }
        requires all { length (input_in self.old route.now.source_place).posted ≡ (input_in self.old route.now.source_place).sent }
        requires id { next_id (input_in self.old route.now.source_place) < 2 ^ 59 }
        ensures posted { OnOk result ((makes : ℕ → Value → Result (List Value) ℕ) →
            self.new ≡ posted_along makes id value route.now self.old) }
        ensures kept { OnErr result (self.new ≡ self.old) }
        ensures back { IfErr result (λ back. back ≡ value) }
    {
        let header = self.inputs[route.source_place].post(alloc, value)?;
        self.lines[id as usize].phase = Phase::Posted(header);
        self.target_looks(route, Phase::Posted(header));
        Ok(())
    }

    /// The caller of the input at this place begins a value, which the target may put off. Where memory is out, the value
    /// comes back, and nothing has changed.
    pub fn begin_at(&mut self, place: usize, value: Value) -> Result<(), Value>
        requires { place < length self.old.inputs }
        ensures begun { OnOk result (self.new ≡ with_input_in place (after_input (InputCall.begin value)) self.old) }
        ensures kept { OnErr result (self.new ≡ self.old) }
        ensures back { IfErr result (λ back. back ≡ value) }
    {
        self.inputs[place].begin(value)
    }

    /// A value that its caller begins at the input at this place goes back, since none is taken any more.
    pub fn send_back_at(&mut self, place: usize, value: Value, at_once: bool)
        requires { place < length self.old.inputs }
        ensures { self.new ≡ with_input_in place (after_input (InputCall.send_back value at_once)) self.old }
    {
        self.inputs[place].send_back(value, at_once);
    }

    /// Tells the caller of the input at this place what became of the first value that it began, if that is known.
    pub fn tell_at(&mut self, place: usize) -> Sent
        requires { place < length self.old.inputs }
        ensures told { result ≡ (told_next (input_in self.old place)).answer }
        ensures done { self.new ≡ with_input_in place (after_told (told_next (input_in self.old place)).call) self.old }
    {
        self.inputs[place].tell()
    }

    /// The input at this place gets no more values, and ends so.
    pub fn finish_at(&mut self, place: usize, how: Ending)
        requires { place < length self.old.inputs }
        ensures { self.new ≡ with_input_in place (after_input (InputCall.finish how)) self.old }
    {
        self.inputs[place].finish(how);
    }
}
