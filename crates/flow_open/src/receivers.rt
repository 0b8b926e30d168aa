//! Messages go from the exits of a network to receivers.
ghost use Rattle.std.specs.Prelude.{◌≡◌, map};
ghost use Rattle.flow_value.specs.declared.value.Value.{Value};
ghost use Rattle.flow_board.specs.Parts.{AllExitsOf, exit_board, exit_number, exit_state};
ghost use Rattle.flow_open.specs.Takes.{EachTakes, Takes};

use crate::calm::{Calm, give_way};
use flow_board::{Board, Exit};
use flow_poll::Received;
use flow_value::{Runs, Value};
use std::alloc::Global;
use std::sync::Wait;
use std::time::Clock;

/// All receivers are given what comes at their exits, in order, until the run is over.
pub(crate) fn receive_all<W: Runs, F: FnMut(Value), R: Wait + Clock>(
    rt: &R,
    alloc: Global,
    board: &Board<W>,
    exits: &mut Vec<Exit<W>>,
    receivers: &mut Vec<F>,
    calm: &Calm,
)
    requires of { AllExitsOf board.now exits.old.items }
    requires can { (state : F) (value : Value) → F.pre state value }
    ensures of { AllExitsOf board.now exits.new.items }
    ensures numbers { map exit_number exits.new.items ≡ map exit_number exits.old.items }
    ensures takes { EachTakes (λ state value next. F.step state value tt next) exits.old.items receivers.old.items exits.new.items
        receivers.new.items }
{
    let mut tries = 0;
    for _ in rt.forever() {
        if calm.is_over() {
            break;
        }
        let news = calm.news();
        if receive_round(alloc, board, exits, receivers) {
            calm.moved();
            tries = 0;
        } else {
            calm.receivers_rest(news);
            give_way(rt, tries);
            tries = tries.saturating_add(1);
        }
    }
}

/// Each receiver is given the message that has come, if one has. False where none had.
fn receive_round<W: Runs, F: FnMut(Value)>(
    alloc: Global,
    board: &Board<W>,
    exits: &mut Vec<Exit<W>>,
    receivers: &mut Vec<F>,
) -> bool
    requires of { AllExitsOf board.now exits.old.items }
    requires can { (state : F) (value : Value) → F.pre state value }
    ensures of { AllExitsOf board.now exits.new.items }
    ensures numbers { map exit_number exits.new.items ≡ map exit_number exits.old.items }
    ensures takes { EachTakes (λ state value next. F.step state value tt next) exits.old.items receivers.old.items exits.new.items
        receivers.new.items }
{
    let mut moved = false;
    for place in 0..exits.len().min(receivers.len()) {
        if receive(alloc, board, &mut exits[place], &mut receivers[place]) {
            moved = true;
        }
    }
    moved
}

/// Gives the message that has come to the receiver, if one has. Where memory is out, it comes later.
fn receive<W: Runs, F: FnMut(Value)>(
    alloc: Global,
    board: &Board<W>,
    exit: &mut Exit<W>,
    take: &mut F,
) -> bool
    requires of { exit_board exit.old ≡ board.now }
    requires can { (state : F) (value : Value) → F.pre state value }
    ensures of { exit_board exit.new ≡ exit_board exit.old }
    ensures number { exit_number exit.new ≡ exit_number exit.old }
    ensures takes { Takes (λ state value next. F.step state value tt next) (exit_state exit.old).received take.old
        (exit_state exit.new).received take.new }
{
    match exit.try_receive(alloc, board) {
        Ok(Received::Message(value)) => {
            take(value);
            true
        }
        Ok(Received::Waiting) => false,
        Ok(Received::Ended(_)) => false,
        Err(_) => false,
    }
}
