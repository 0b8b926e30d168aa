//! What the caller of an entry does to its input.
ghost use Rattle.std.specs.Prelude.{◌≡◌, ◌+◌, true, drop, is_some, Some, IfErr, OnErr, OnOk};
ghost use Rattle.flow_core.specs.Events.{input_after, input_call};
ghost use Rattle.flow_input.specs.Input.{InputCall, after_input, has_next, input_move, next_value};
ghost use Rattle.flow_input.specs.InputKeeps.{MayCallInput};
ghost use Rattle.flow_input.specs.Sends.{after_told, has_id, settled, told_next};
ghost use Rattle.flow_moves.specs.Calls.{handed};
ghost use Rattle.flow_moves.specs.Ready.{InputIsReady};
ghost use Rattle.flow_task.specs.Entries.{with_parcel};
ghost use Rattle.flow_task.specs.Inputs.{HasId};

use crate::board::Board;
use crate::input_task::InputTask;
use crate::words::{header_out, post, write_source};
use flow_input::Input;
use flow_link::{Ending, Move};
use flow_poll::Sent;
use flow_value::{Parcel, Runs, Value};
use std::alloc::Global;
use std::collections::VecDeque;

impl<W: Runs> InputTask<W> {
    /// Begins a value that the target may put off, with its parcel.
    pub(crate) fn begin(&mut self, alloc: Global, value: Value) -> Result<(), Value>
        requires { MayCallInput (InputCall.begin value) self.old.input }
        ensures of { self.new.of.value ≡ self.old.of.value }
        ensures link { self.new.link ≡ self.old.link }
        ensures begun { OnOk result (self.new.input ≡ with_parcel (after_input (InputCall.begin value) self.old.input)) }
        ensures kept { OnErr result (self.new.input ≡ self.old.input) }
        ensures back { IfErr result (λ back. back ≡ value) }
    {
        let Ok(parcel) = Parcel::of(alloc, &value) else {
            return Err(value);
        };
        match self.input.begin(value) {
            Ok(()) => {
                self.input.put_parcel(parcel);
                Ok(())
            }
            Err(value) => Err(value),
        }
    }

    /// Posts a value, which the target takes at once or turns down.
    pub(crate) fn post(
        &mut self,
        alloc: Global,
        board: &Board<W>,
        value: Value,
    ) -> Result<(), Value>
        requires of { self.old.of.value ≡ board.now }
        requires may { MayCallInput (InputCall.post value) self.old.input }
        requires id { has_id self.old.input ≡ true }
        ensures of { self.new.of.value ≡ self.old.of.value }
        ensures link { self.new.link ≡ self.old.link }
        ensures posted { OnOk result (self.new.input ≡ after_input (InputCall.post value) self.old.input) }
        ensures kept { OnErr result (self.new.input ≡ self.old.input) }
        ensures back { IfErr result (λ back. back ≡ value) }
    {
        match self.input.post(alloc, value) {
            Ok(header) => {
                let wire = &board.wires[self.link as usize];
                post(&mut self.out, wire, header);
                Ok(())
            }
            Err(value) => Err(value),
        }
    }

    /// Keeps a value that goes back, since none is taken any more.
    pub(crate) fn send_back(&mut self, value: Value, at_once: bool)
        requires { MayCallInput (InputCall.send_back value at_once) self.old.input }
        ensures of { self.new.of.value ≡ self.old.of.value }
        ensures link { self.new.link ≡ self.old.link }
        ensures back { self.new.input ≡ after_input (InputCall.send_back value at_once) self.old.input }
    {
        self.input.send_back(value, at_once);
    }

    /// No value comes any more: when all is given, the link ends so.
    pub(crate) fn finish(&mut self, how: Ending)
        requires { MayCallInput (InputCall.finish how) self.old.input }
        ensures of { self.new.of.value ≡ self.old.of.value }
        ensures link { self.new.link ≡ self.old.link }
        ensures finished { self.new.input ≡ after_input (InputCall.finish how) self.old.input }
    {
        self.input.finish(how);
    }

    /// Tells what became of the first value that was begun, as far as its end has seen.
    pub(crate) fn tell(&mut self) -> Sent
        ensures of { self.new.of.value ≡ self.old.of.value }
        ensures link { self.new.link ≡ self.old.link }
        ensures told { result ≡ (told_next self.old.input).answer }
        ensures done { self.new.input ≡ after_told (told_next self.old.input).call self.old.input }
    {
        self.input.tell()
    }

    /// Passes over what was taken up to now: its caller is told of what is taken later.
    pub(crate) fn pass_taken(&mut self)
        ensures of { self.new.of.value ≡ self.old.of.value }
        ensures link { self.new.link ≡ self.old.link }
        ensures passed { self.new.input ≡ record self.old.input { told = settled self.old.input } }
    {
        self.input.pass_taken();
    }

    /// Keeps this parcel of the next value.
    pub(crate) fn put_parcel(&mut self, parcel: Parcel)
        requires { next_value self.old.input ≡ Some parcel }
        ensures of { self.new.of.value ≡ self.old.of.value }
        ensures link { self.new.link ≡ self.old.link }
        ensures put { self.new.input ≡ with_parcel self.old.input }
    {
        self.input.put_parcel(parcel);
    }

    /// Takes the parcel of the next value from these, which are of all values that wait, if one waits.
    pub(crate) fn put_first(&mut self, ready: &mut VecDeque<Parcel>)
        requires { ready.old.items ≡ drop self.old.input.sent self.old.input.posted }
        ensures of { self.new.of.value ≡ self.old.of.value }
        ensures link { self.new.link ≡ self.old.link }
        ensures same { with_parcel self.new.input ≡ with_parcel self.old.input }
        ensures first { has_next self.new.input ≡ true → is_some self.new.input.parcel ≡ true }
        ensures rest { ready.new.items ≡ drop (self.old.input.sent + 1) self.old.input.posted }
    {
        if let Some(parcel) = ready.pop_front() {
            self.put_parcel(parcel);
        }
    }

    /// Its end makes the move that comes next; what it offers is ready, so it takes no memory.
    pub(crate) fn go_ready(&mut self, board: &Board<W>, next: Move)
        requires of { self.old.of.value ≡ board.now }
        requires next { input_move self.old.input ≡ Some next }
        requires id { HasId next }
        requires ready { has_next self.old.input ≡ true → is_some self.old.input.parcel ≡ true }
        ensures of { self.new.of.value ≡ self.old.of.value }
        ensures link { self.new.link ≡ self.old.link }
        ensures done { self.new.input ≡ input_after (input_call next) self.old.input }
    {
        let header = header_out(self.input.stage());
        let wire = &board.wires[self.link as usize];
        let made = next;
        let given = move_ready(&mut self.input, made);
        write_source(&mut self.out, wire, next, header, given);
    }
}

/// The end of an input makes a move, with a parcel that is made: it is what the end hands over, if it does.
fn move_ready(input: &mut Input, next: Move) -> Option<Parcel>
    requires may { InputIsReady next input.old }
    requires ready { has_next input.old ≡ true → is_some input.old.parcel ≡ true }
    ensures done { input.new ≡ input_after (input_call next) input.old }
    ensures given { result ≡ handed next (next_value input.old) }
{
    match next {
        Move::Offer(_) => {
            input.offer();
            None
        }
        Move::Give => Some(input.give()),
        Move::End(how) => {
            input.end(how);
            None
        }
        Move::Post(_)
        | Move::Withdraw
        | Move::Deny
        | Move::Hold
        | Move::Want
        | Move::TurnDown
        | Move::Refuse
        | Move::Postpone
        | Move::Consume
        | Move::Ask
        | Move::Claim
        | Move::Release
        | Move::Open
        | Move::Close => unreachable!(),
    }
}
