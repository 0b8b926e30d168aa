//! Values go from senders into the entries of a network.
ghost use Rattle.std.specs.Prelude.{◌≡◌, true, [], map};
ghost use Rattle.flow_input.specs.Sends.{sends_of};
ghost use Rattle.flow_board.specs.Parts.{AllEntriesOf, entry_board, entry_number, entry_state};
ghost use Rattle.flow_open.specs.Senders.{is_sending};
ghost use Rattle.flow_open.specs.Sends.{EachSends, Sends};

use crate::calm::{Calm, give_way};
use crate::sender::{Sender, SenderState};
use flow_board::{Board, Entry};
use flow_link::Ending;
use flow_poll::Sent;
use flow_value::{Runs, Value};
use std::alloc::Global;
use std::sync::Wait;
use std::time::Clock;

/// All senders go on at their entries, in order, until the run is over.
pub(crate) fn send_all<W: Runs, S: Iterator<Item = Value>, R: Wait + Clock>(
    rt: &R,
    alloc: Global,
    board: &Board<W>,
    entries: &mut Vec<Entry<W>>,
    senders: &mut Vec<Sender<S>>,
    calm: &Calm,
)
    requires of { AllEntriesOf board.now entries.old.items }
    requires can { (state : S) → S.can_next state }
    ensures of { AllEntriesOf board.now entries.new.items }
    ensures numbers { map entry_number entries.new.items ≡ map entry_number entries.old.items }
    ensures sends { EachSends S.next_gives entries.old.items senders.old.items entries.new.items senders.new.items }
{
    let mut tries = 0;
    for _ in rt.forever() {
        if calm.is_over() {
            break;
        }
        let news = calm.news();
        if send_round(alloc, board, entries, senders) {
            calm.moved();
            tries = 0;
        } else {
            calm.senders_rest(news);
            give_way(rt, tries);
            tries = tries.saturating_add(1);
        }
    }
}

/// Each sender goes on by one call. False where none had anything to do.
fn send_round<W: Runs, S: Iterator<Item = Value>>(
    alloc: Global,
    board: &Board<W>,
    entries: &mut Vec<Entry<W>>,
    senders: &mut Vec<Sender<S>>,
) -> bool
    requires of { AllEntriesOf board.now entries.old.items }
    requires can { (state : S) → S.can_next state }
    ensures of { AllEntriesOf board.now entries.new.items }
    ensures numbers { map entry_number entries.new.items ≡ map entry_number entries.old.items }
    ensures sends { EachSends S.next_gives entries.old.items senders.old.items entries.new.items senders.new.items }
{
    let mut moved = false;
    for place in 0..entries.len().min(senders.len()) {
        if go_on(alloc, board, &mut entries[place], &mut senders[place]) {
            moved = true;
        }
    }
    moved
}

/// A sender goes on by one call of its entry. False where nothing is to do for now.
fn go_on<W: Runs, S: Iterator<Item = Value>>(
    alloc: Global,
    board: &Board<W>,
    entry: &mut Entry<W>,
    sender: &mut Sender<S>,
) -> bool
    requires of { entry_board entry.old ≡ board.now }
    requires can { (state : S) → S.can_next state }
    ensures of { entry_board entry.new ≡ entry_board entry.old }
    ensures number { entry_number entry.new ≡ entry_number entry.old }
    ensures sends { Sends S.next_gives (entry_state entry.old) sender.old (entry_state entry.new) sender.new }
{
    if !sender.is_sending() {
        return false;
    }
    match entry.look(board) {
        Sent::Accepted => true,
        Sent::Waiting => false,
        Sent::Declined(value) => {
            sender.state = SenderState::Refused(value);
            true
        }
        Sent::Permanently(value) => {
            sender.state = SenderState::Refused(value);
            true
        }
        Sent::Idle => {
            send_next(alloc, board, entry, sender);
            true
        }
    }
}

/// Sends the next value; where there is none, none comes any more.
fn send_next<W: Runs, S: Iterator<Item = Value>>(
    alloc: Global,
    board: &Board<W>,
    entry: &mut Entry<W>,
    sender: &mut Sender<S>,
)
    requires of { entry_board entry.old ≡ board.now }
    requires can { (state : S) → S.can_next state }
    requires idle { (sends_of (entry_state entry.old)).begun ≡ [] }
    requires sending { is_sending sender.old.state ≡ true }
    ensures of { entry_board entry.new ≡ entry_board entry.old }
    ensures number { entry_number entry.new ≡ entry_number entry.old }
    ensures sends { Sends S.next_gives (entry_state entry.old) sender.old (entry_state entry.new) sender.new }
{
    match sender.values.next() {
        Some(value) => match entry.begin_send(alloc, board, value) {
            Ok(()) => {}
            Err((value, fault)) => sender.state = SenderState::NotBegun(value, fault),
        },
        None => match entry.finish(board, Ending::Complete) {
            Ok(()) => sender.state = SenderState::Through,
            // nothing is begun
            Err(_) => unreachable!(),
        },
    }
}
