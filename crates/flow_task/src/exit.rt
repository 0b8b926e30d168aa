//! What is received over a link that leads out of a network, apart from the block that gives it.
ghost use Rattle.std.specs.Prelude.{◌≡◌, true, false, IfOk, OnOk, OnErr, Some, None};
ghost use Rattle.flow_value.specs.declared.value.Value.{Value};
ghost use Rattle.flow_link.specs.declared.phase.Phase.{Phase};
ghost use Rattle.flow_link.specs.declared.phase.Move.TheVariants.{Consume, Open};
ghost use Rattle.flow_task.specs.Exits.{ExitGoes, StepsBy, answers_plainly};
ghost use Rattle.flow_exit.specs.Exit.{ExitCall, after_exit, exit_after, exit_call, exit_move};
ghost use Rattle.flow_exit.specs.ExitKeeps.{MayMoveExit};
ghost use Rattle.flow_poll.specs.Receives.{Gives, StaysOver, is_in_sight};
ghost use Rattle.flow_moves.specs.Sights.{comes_near, exit_seen, sight_of};
ghost use Rattle.flow_task.specs.Parts.{exit_board, exit_number, exit_state};

use crate::board::Board;
use crate::numbered::Exit;
use crate::words::{header_in, open, take_up, write_target};
use flow_exit::ExitEnd;
use flow_link::{Move, Refusal, TargetStage};
use flow_poll::Received;
use flow_value::{Runs, Value};
use std::alloc::{AllocError, Global};

impl<W: Runs> Exit<W> {
    /// The values that were received there, in order.
    pub fn received(&self) -> &[Value]
        ensures { result.now ≡ (exit_state self.now).received }
    {
        self.exit.received()
    }

    /// Receives the next message, if it has come. One that is offered is wanted for that, and comes when its block gives it. Where memory
    /// is out, nothing is received.
    ///
    /// Microsoft: `IReceivableSourceBlock<TOutput>.TryReceive`.
    pub fn try_receive(&mut self, _alloc: Global, board: &Board<W>) -> Result<Received, AllocError>
        requires of { exit_board self.old ≡ board.now }
        ensures of { exit_board self.new ≡ exit_board self.old }
        ensures number { exit_number self.new ≡ exit_number self.old }
        ensures gives { IfOk result (λ answer. Gives answer (exit_seen (exit_state self.old)) (exit_seen (exit_state self.new))) }
        ensures kept { OnErr result ((exit_state self.new).received ≡ (exit_state self.old).received) }
        ensures over { StaysOver (sight_of (exit_state self.old)) (sight_of (exit_state self.new)) }
    {
        if self.exit.kept().is_some() {
            return self.take();
        }
        self.go_on(board, true);
        self.take()
    }

    /// Hands out the message that is kept; where there is none, it tells whether one may come.
    fn take(&mut self) -> Result<Received, AllocError>
        ensures of { exit_board self.new ≡ exit_board self.old }
        ensures number { exit_number self.new ≡ exit_number self.old }
        ensures gives { IfOk result (λ answer. Gives answer (exit_seen (exit_state self.old)) (exit_seen (exit_state self.new))) }
        ensures kept { OnErr result ((exit_state self.new).received ≡ (exit_state self.old).received) }
        ensures over { StaysOver (sight_of (exit_state self.old)) (sight_of (exit_state self.new)) }
    {
        match self.receive()? {
            Some(value) => Ok(Received::Message(value)),
            None => Ok(match self.exit.outcome() {
                Some(how) => Received::Ended(how),
                None => Received::Waiting,
            }),
        }
    }

    /// The message that is kept is received, if one is.
    fn receive(&mut self) -> Result<Option<Value>, AllocError>
        ensures of { exit_board self.new ≡ exit_board self.old }
        ensures number { exit_number self.new ≡ exit_number self.old }
        ensures gives { IfOk result (λ value. value ≡ (exit_state self.old).kept) }
        ensures done { OnOk result (exit_state self.new ≡ after_exit ExitCall.receive (exit_state self.old)) }
        ensures kept { OnErr result (exit_state self.new ≡ exit_state self.old) }
    {
        self.exit.receive()
    }

    /// A receive waits from now on, or none does.
    fn ask(&mut self, waits: bool)
        ensures of { exit_board self.new ≡ exit_board self.old }
        ensures number { exit_number self.new ≡ exit_number self.old }
        ensures asked { exit_state self.new ≡ after_exit (ExitCall.ask waits) (exit_state self.old) }
    {
        if waits {
            self.exit.ask();
        } else {
            self.exit.ask_no_more();
        }
    }

    /// Whether a message is there: true where one is offered, comes or has come, false where none will come any more, and none where one
    /// may come yet. It takes no memory now, so none is refused.
    ///
    /// Microsoft: `DataflowBlock.OutputAvailableAsync`.
    pub fn available(
        &mut self,
        _alloc: Global,
        board: &Board<W>,
    ) -> Result<Option<bool>, AllocError>
        requires of { exit_board self.old ≡ board.now }
        ensures of { exit_board self.new ≡ exit_board self.old }
        ensures number { exit_number self.new ≡ exit_number self.old }
        ensures sight { IfOk result (λ there. there ≡ is_in_sight (sight_of (exit_state self.new))) }
        ensures received { (exit_state self.new).received ≡ (exit_state self.old).received }
        ensures over { StaysOver (sight_of (exit_state self.old)) (sight_of (exit_state self.new)) }
    {
        self.go_on(board, false);
        Ok(in_sight(&self.exit))
    }

    /// Its end looks, and moves as far as it may, while a receive waits or while none does. What it has wanted it takes and keeps.
    fn go_on(&mut self, board: &Board<W>, waits: bool)
        requires of { exit_board self.old ≡ board.now }
        ensures of { exit_board self.new ≡ exit_board self.old }
        ensures number { exit_number self.new ≡ exit_number self.old }
        ensures goes { ExitGoes (exit_state self.old) (exit_state self.new) }
    {
        self.look(board);
        self.ask(waits);
        self.step(board);
        self.step(board);
        self.ask(false);
    }

    /// Its end looks.
    fn look(&mut self, board: &Board<W>)
        requires of { exit_board self.old ≡ board.now }
        ensures of { exit_board self.new ≡ exit_board self.old }
        ensures number { exit_number self.new ≡ exit_number self.old }
        ensures looked { (phase : Phase) × (exit_state self.new ≡ after_exit (ExitCall.look phase) (exit_state self.old)) }
    {
        let wire = &board.wires[self.link as usize];
        let phase = self.end.look(wire);
        self.exit.look(phase);
    }

    /// Its end makes its move, if it has one. False where it has none, or the block moved first.
    fn step(&mut self, board: &Board<W>) -> bool
        requires of { exit_board self.old ≡ board.now }
        ensures of { exit_board self.new ≡ exit_board self.old }
        ensures number { exit_number self.new ≡ exit_number self.old }
        ensures steps { StepsBy result (exit_state self.old) (exit_state self.new) }
    {
        match self.exit.next_move() {
            Some(Move::Open) => {
                self.open(board);
                true
            }
            Some(Move::Consume) => self.consume(board),
            Some(next) => {
                self.answer(board, next);
                true
            }
            None => false,
        }
    }

    /// Its end takes the message out of the slot.
    fn open(&mut self, board: &Board<W>)
        requires of { exit_board self.old ≡ board.now }
        requires next { exit_move (exit_state self.old) ≡ Some Open }
        ensures of { exit_board self.new ≡ exit_board self.old }
        ensures number { exit_number self.new ≡ exit_number self.old }
        ensures opened { (slot : Value) × (exit_state self.new ≡ after_exit (ExitCall.open_with slot) (exit_state self.old)) }
    {
        let header = header_in(self.exit.stage());
        let wire = &board.wires[self.link as usize];
        let parcel = open(&mut self.end, wire, header);
        self.exit.open(parcel);
    }

    /// Its end comes back for the message that it postponed. False where the block moved first: then nothing has changed.
    fn consume(&mut self, board: &Board<W>) -> bool
        requires of { exit_board self.old ≡ board.now }
        requires next { exit_move (exit_state self.old) ≡ Some Consume }
        ensures of { exit_board self.new ≡ exit_board self.old }
        ensures number { exit_number self.new ≡ exit_number self.old }
        ensures won { result ≡ true → exit_state self.new ≡ after_exit ExitCall.consume (exit_state self.old) }
        ensures lost { result ≡ false → exit_state self.new ≡ exit_state self.old }
    {
        let header = header_in(self.exit.stage());
        let wire = &board.wires[self.link as usize];
        let won = take_up(
            &mut self.end,
            wire,
            Move::Consume,
            header,
            Refusal::PortEnded,
        );
        if won {
            self.exit.consume();
        }
        won
    }

    /// Its end makes a move that the block cannot forestall, and opens nothing.
    fn answer(&mut self, board: &Board<W>, next: Move)
        requires of { exit_board self.old ≡ board.now }
        requires next { exit_move (exit_state self.old) ≡ Some next }
        requires plain { answers_plainly next ≡ true }
        ensures of { exit_board self.new ≡ exit_board self.old }
        ensures number { exit_number self.new ≡ exit_number self.old }
        ensures moved { exit_state self.new ≡ exit_after (exit_call None next) (exit_state self.old) }
    {
        let header = header_in(self.exit.stage());
        let wire = &board.wires[self.link as usize];
        let answer = next;
        write_target(&mut self.end, wire, next, header, Refusal::PortEnded);
        answer_at(&mut self.exit, answer);
    }
}

/// The end of an exit makes a move, with nothing in its hands.
fn answer_at(exit: &mut ExitEnd, next: Move)
    requires may { MayMoveExit exit.old next }
    requires plain { answers_plainly next ≡ true }
    ensures { exit.new ≡ exit_after (exit_call None next) exit.old }
{
    match next {
        Move::Want => exit.want(),
        Move::TurnDown => exit.turn_down(),
        Move::Postpone => exit.postpone(),
        Move::Close => exit.close(),
        Move::Offer(_)
        | Move::Post(_)
        | Move::Withdraw
        | Move::Deny
        | Move::Hold
        | Move::Give
        | Move::End(_)
        | Move::Refuse
        | Move::Consume
        | Move::Ask
        | Move::Claim
        | Move::Release
        | Move::Open => unreachable!(),
    }
}

/// Whether there is a message at an exit, where that is known.
fn in_sight(exit: &ExitEnd) -> Option<bool>
    ensures { result ≡ is_in_sight (sight_of exit.now) }
{
    if exit.kept().is_some() {
        return Some(true);
    }
    match exit.outcome() {
        Some(_) => Some(false),
        None if comes_near(exit.stage()) => Some(true),
        None => None,
    }
}

/// Whether a message is offered to an end that stands so, or comes.
fn comes_near(stage: TargetStage) -> bool
    ensures { result ≡ comes_near stage }
{
    match stage {
        TargetStage::Offered(_)
        | TargetStage::Posted(_)
        | TargetStage::Postponed(_)
        | TargetStage::Accepted(_)
        | TargetStage::Consuming(_)
        | TargetStage::Arrived(_)
        | TargetStage::Hand(_) => true,
        TargetStage::Free
        | TargetStage::Asking(_)
        | TargetStage::Holding(_)
        | TargetStage::Claiming(_)
        | TargetStage::Refused(_)
        | TargetStage::Ended(_) => false,
    }
}
