//! An input that is turned apart from the blocks of its network, with its end of its link.
ghost use Rattle.std.specs.Prelude.{◌≡◌, ◌≤◌, ◌<◌, ◌^◌, true, false, length, Some, IfOk, OnOk, OnErr};
ghost use Rattle.std.specs.Coded.{codes};
ghost use Rattle.atomic_table.specs.Seated.{table_id_coded};
ghost use Rattle.flow_value.specs.contracts.value.Value as content;
ghost use Rattle.flow_link.specs.Planned.{layout_of};
ghost use Rattle.flow_link.specs.declared.phase.Phase.{Phase};
ghost use Rattle.flow_core.specs.Events.{input_after, input_call};
ghost use Rattle.flow_input.specs.Input.{InputCall, after_input, input_move};
ghost use Rattle.flow_input.specs.InputKeeps.{InputLaw};
ghost use Rattle.flow_outlet.specs.End.{is_over};
ghost use Rattle.flow_poll.specs.declared.actor.TurnState.TheVariants.{Ended};
ghost use Rattle.flow_task.specs.Events.{HasLooked, InputHappens, InputLooks, StepsBy, TurnsBy};
ghost use Rattle.flow_task.specs.Inputs.{begins_at_input, input_due, state_after, HasId, InputIsStill};
ghost use Rattle.flow_task.specs.Known.{out_known};

use crate::board::Board;
use crate::over::is_out_over;
use crate::words::{header_out, write_source};
use flow_input::Input;
use flow_link::{LinkId, Move};
use flow_moves::move_input;
use flow_poll::{TurnState, Turned};
use flow_value::Runs;
use flow_wire::SourceEnd;
use std::alloc::{AllocError, Global};
use std::snapshot::Snapshot;

/// An input of a board, with its end of the link that begins there.
#[derive(Drop)]
pub struct InputTask<W: Runs> {
    pub(crate) of: Snapshot<Board<W>>,
    pub(crate) link: LinkId,
    pub(crate) input: Input,
    pub(crate) out: SourceEnd,
    ghost there: { link < length (layout_of of.value.rest.plan).links },
    ghost begins: { begins_at_input (layout_of of.value.rest.plan) link ≡ true },
    ghost law: { ∥ InputLaw input ∥₁ },
    ghost knows: { out_known out ≡ input_due (layout_of of.value.rest.plan) of.value.wires.items link input } by { Prim.hlevel (codes, table_id_coded, content.the_row.coded) },
}

impl<W: Runs> InputTask<W> {
    /// Turns the input: its end looks, it offers and gives its values, and ends its link after them, by at most so many events. Where memory is out
    /// before the first event, nothing was given; later, the turn ends with the events that are done. A value for which no message id
    /// is left is not offered. It has ended once its link is refused or ended.
    pub fn turn(
        &mut self,
        alloc: Global,
        board: &Board<W>,
        budget: u32,
    ) -> Result<Turned, AllocError>
        requires of { self.old.of.value ≡ board.now }
        ensures of { self.new.of.value ≡ self.old.of.value }
        ensures link { self.new.link ≡ self.old.link }
        ensures within { IfOk result (λ turned. turned.events ≤ budget) }
        ensures state { IfOk result (λ turned. turned.state ≡ state_after turned.events self.new.input) }
        ensures ended { IfOk result (λ turned. turned.state ≡ Ended → is_over self.new.input.stage ≡ true) }
        ensures still { IfOk result (λ turned. 0 < budget → turned.events ≡ 0 → InputIsStill self.new.input) }
        ensures happens { IfOk result (λ turned. ∥ TurnsBy InputLooks InputHappens turned.events self.old.input self.new.input ∥₁) }
        ensures all_look { IfOk result (λ turned. turned.events ≡ 0 → InputLooks self.old.input self.new.input) }
        ensures looked { OnErr result (∥ HasLooked InputLooks self.old.input self.new.input ∥₁) }
        ensures kept { OnErr result (self.new.input.sent ≡ self.old.input.sent) }
    {
        self.look(board);
        for events in 0..budget {
            match self.step(alloc, board) {
                Ok(true) => {}
                Ok(false) => return Ok(self.turned(events)),
                Err(fault) => {
                    if events == 0 {
                        return Err(fault);
                    }
                    return Ok(self.turned(events));
                }
            }
        }
        Ok(self.turned(budget))
    }

    /// What comes of a turn in which so many events were done.
    fn turned(&self, events: u32) -> Turned
        ensures events { result.events ≡ events }
        ensures state { result.state ≡ state_after result.events self.now.input }
        ensures ended { result.state ≡ Ended → is_over self.now.input.stage ≡ true }
    {
        if events > 0 {
            return Turned {
                events,
                state: TurnState::Moved,
            };
        }
        if is_out_over(self.input.stage()) {
            return Turned {
                events,
                state: TurnState::Ended,
            };
        }
        Turned {
            events,
            state: TurnState::Idle,
        }
    }

    /// Its end makes its move, if it has one. False where it has none.
    fn step(&mut self, alloc: Global, board: &Board<W>) -> Result<bool, AllocError>
        requires of { self.old.of.value ≡ board.now }
        ensures of { self.new.of.value ≡ self.old.of.value }
        ensures link { self.new.link ≡ self.old.link }
        ensures still { IfOk result (λ did. did ≡ false → InputIsStill self.new.input) }
        ensures none { IfOk result (λ did. did ≡ false → self.new.input ≡ self.old.input) }
        ensures steps { StepsBy InputLooks InputHappens result self.old.input self.new.input }
        ensures kept { OnErr result (self.new.input.sent ≡ self.old.input.sent) }
    {
        match self.input.next_move() {
            Some(next) => {
                self.go(alloc, board, next)?;
                Ok(true)
            }
            None => Ok(false),
        }
    }

    /// Its end looks.
    pub(crate) fn look(&mut self, board: &Board<W>)
        requires of { self.old.of.value ≡ board.now }
        ensures of { self.new.of.value ≡ self.old.of.value }
        ensures link { self.new.link ≡ self.old.link }
        ensures looked { (phase : Phase) × (self.new.input ≡ after_input (InputCall.look phase) self.old.input) }
    {
        let wire = &board.wires[self.link as usize];
        let phase = self.out.look(wire);
        self.input.look(phase);
    }

    /// Its end makes the move that comes next. Where memory is out, nothing has changed.
    fn go(&mut self, alloc: Global, board: &Board<W>, next: Move) -> Result<(), AllocError>
        requires of { self.old.of.value ≡ board.now }
        requires next { input_move self.old.input ≡ Some next }
        requires id { HasId next }
        ensures of { self.new.of.value ≡ self.old.of.value }
        ensures link { self.new.link ≡ self.old.link }
        ensures done { OnOk result (self.new.input ≡ input_after (input_call next) self.old.input) }
        ensures kept { OnErr result (self.new.input ≡ self.old.input) }
    {
        let header = header_out(self.input.stage());
        let wire = &board.wires[self.link as usize];
        let answer = next;
        let given = move_input(&mut self.input, alloc, answer)?;
        write_source(&mut self.out, wire, next, header, given);
        Ok(())
    }
}
