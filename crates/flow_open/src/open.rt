//! A network is scattered, run open, and gathered.
ghost use Rattle.std.specs.Prelude.{◌≡◌, ◌≢◌, ◌↔◌, ◌<◌, ◌≤◌, IfErr, IfOk, map};
ghost use Rattle.flow_value.specs.declared.value.Value.{Value};
ghost use Rattle.flow_lawful.specs.Lawful.{Lawful};
ghost use Rattle.flow_net.specs.Net.{layout_in, parts_of, run_of};
ghost use Rattle.flow_board.specs.Begun.{JournalsExtend};
ghost use Rattle.flow_board.specs.Parts.{AllEntriesOf, AllExitsOf, AllTasksOf, entry_number, exit_number};
ghost use Rattle.flow_crew.specs.Rounds.{ComeBack};
ghost use Rattle.flow_open.specs.Opened.{AreMatched, AreWhole, IsBack, IsLeftOf, IsOpened, IsRunOf};
ghost use Rattle.flow_open.specs.Sends.{EachSends};
ghost use Rattle.flow_open.specs.Takes.{EachTakes};
ghost use Rattle.flow_open.specs.declared.fault.Ended.TheVariants.{Unmatched};

use crate::calm::Calm;
use crate::fault::{Ended, OpenFault, Opened};
use crate::receivers::receive_all;
use crate::sender::Sender;
use crate::senders::send_all;
use crate::tasks::turn_all;
use flow_board::{
    Board, Entry, Exit, GatherFault, Parts, Scattered, Task, boards_are_shared, exits_cross,
    gather, scatter, tasks_cross,
};
use flow_net::Net;
use flow_value::{Runs, Value};
use std::alloc::{AllocError, Global};
use std::sync::Wait;
use std::thread::{Threads, join_mut};
use std::time::Clock;

/// Runs a network on so many threads, 1 to 64, while this thread sends into its inputs and another receives at its exits, until nothing
/// moves any more. There is a sender for each input that stays open, in the order of their blocks, and a receiver for each exit.
///
/// A sender whose values are long in coming holds up the other senders, and a receiver that takes long the other receivers.
///
/// Where memory is out, the network comes back, or its parts do, with all senders and receivers.
///
/// It waits for its threads. Where no thread can be made, it waits for ever.
///
/// Microsoft: `DataflowBlock.SendAsync` in one task, and `OutputAvailableAsync` with `ReceiveAsync` in another.
pub fn run_open<
    W: Runs + Send + Sync,
    S: Iterator<Item = Value>,
    F: FnMut(Value) + Send + Drop,
    R: Threads + Wait + Clock + Sync,
>(
    rt: &R,
    alloc: Global,
    net: Net<W>,
    workers: usize,
    senders: Vec<Sender<S>>,
    receivers: Vec<F>,
) -> Result<Opened<W, S, F>, OpenFault<W, S, F>>
    requires workers { (0 < workers) × (workers ≤ 64) }
    requires can_next { (state : S) → S.can_next state }
    requires can_take { (state : F) (value : Value) → F.pre state value }
    ensures same_layout { IfOk result (λ opened. layout_in opened.net ≡ layout_in net) }
    ensures lawful { IfOk result (λ opened. Lawful (run_of W.meaning opened.net)) }
    ensures extends { IfOk result (λ opened. JournalsExtend (layout_in net) (parts_of net) (parts_of opened.net)) }
    ensures ran { IfOk result (λ opened.
        IsOpened W.meaning S.next_gives (λ state value next. F.step state value tt next) net senders.items receivers.items opened) }
    ensures back { IfErr result (λ fault.
        IsBack W.meaning S.next_gives (λ state value next. F.step state value tt next) net senders.items receivers.items fault) }
{
    match scatter(alloc, net) {
        Ok(scattered) => {
            let Scattered {
                board,
                tasks,
                entries,
                exits,
                watches,
            } = scattered;
            drop(watches);
            let parts = Parts {
                board,
                tasks,
                entries,
                exits,
            };
            run_and_gather(rt, alloc, parts, workers, senders, receivers)
        }
        Err((net, AllocError)) => Err(OpenFault::Net(net, senders, receivers)),
    }
}

/// Runs the parts of a network, and puts them together again.
fn run_and_gather<
    W: Runs + Send + Sync,
    S: Iterator<Item = Value>,
    F: FnMut(Value) + Send + Drop,
    R: Threads + Wait + Clock + Sync,
>(
    rt: &R,
    alloc: Global,
    parts: Parts<W>,
    workers: usize,
    mut senders: Vec<Sender<S>>,
    mut receivers: Vec<F>,
) -> Result<Opened<W, S, F>, OpenFault<W, S, F>>
    requires workers { (0 < workers) × (workers ≤ 64) }
    requires can_next { (state : S) → S.can_next state }
    requires can_take { (state : F) (value : Value) → F.pre state value }
    requires whole { AreWhole parts }
    ensures ran { IfOk result (λ opened.
        IsRunOf W.meaning S.next_gives (λ state value next. F.step state value tt next) parts senders.items receivers.items opened) }
    ensures left { IfErr result (λ fault.
        IsLeftOf S.next_gives (λ state value next. F.step state value tt next) parts senders.items receivers.items fault) }
{
    let Parts {
        board,
        mut tasks,
        mut entries,
        mut exits,
    } = parts;
    let ended = run_parts(
        rt,
        alloc,
        &board,
        &mut tasks,
        workers,
        &mut entries,
        &mut senders,
        &mut exits,
        &mut receivers,
    );
    let parts = Parts {
        board,
        tasks,
        entries,
        exits,
    };
    match gather(alloc, parts) {
        Ok(net) => Ok(Opened {
            net,
            ended,
            senders,
            receivers,
        }),
        Err((parts, fault)) => match fault {
            GatherFault::Memory => Err(OpenFault::Parts(parts, senders, receivers)),
            // each task comes back, and so do entries and exits
            GatherFault::Missing(_) => unreachable!(),
        },
    }
}

/// Has so many threads turn the tasks, one send, and one receive, if there are as many senders as entries, and receivers as exits.
fn run_parts<
    'a,
    W: Runs + Send + Sync,
    S: Iterator<Item = Value>,
    F: FnMut(Value) + Send + Drop,
    R: Threads + Wait + Clock + Sync,
>(
    rt: &'a R,
    alloc: Global,
    board: &'a Board<W>,
    tasks: &mut Vec<Task<W>>,
    workers: usize,
    entries: &mut Vec<Entry<W>>,
    senders: &mut Vec<Sender<S>>,
    exits: &mut Vec<Exit<W>>,
    receivers: &mut Vec<F>,
) -> Ended
    requires workers { (0 < workers) × (workers ≤ 64) }
    requires can_next { (state : S) → S.can_next state }
    requires can_take { (state : F) (value : Value) → F.pre state value }
    requires tasks_of { AllTasksOf board.now tasks.old.items }
    requires entries_of { AllEntriesOf board.now entries.old.items }
    requires exits_of { AllExitsOf board.now exits.old.items }
    ensures tasks_back { ComeBack board.now tasks.old.items tasks.new.items }
    ensures entries_of { AllEntriesOf board.now entries.new.items }
    ensures exits_of { AllExitsOf board.now exits.new.items }
    ensures entries_are { map entry_number entries.new.items ≡ map entry_number entries.old.items }
    ensures exits_are { map exit_number exits.new.items ≡ map exit_number exits.old.items }
    ensures sends { EachSends S.next_gives entries.old.items senders.old.items entries.new.items senders.new.items }
    ensures takes { EachTakes (λ state value next. F.step state value tt next) exits.old.items receivers.old.items exits.new.items
        receivers.new.items }
    ensures matched { (result ≢ Unmatched) ↔ AreMatched entries.old.items senders.old.items exits.old.items receivers.old.items }
    ensures unmatched { (AreMatched entries.old.items senders.old.items exits.old.items receivers.old.items → ⊥)
        → (entries.new.items ≡ entries.old.items) × (senders.new.items ≡ senders.old.items)
        × (exits.new.items ≡ exits.old.items) × (receivers.new.items ≡ receivers.old.items) }
{
    let are_matched = entries.len() == senders.len() && exits.len() == receivers.len();
    if !are_matched {
        return Ended::Unmatched;
    }
    match turn_and_call(
        rt, alloc, board, tasks, workers, entries, senders, exits, receivers,
    ) {
        Ok(()) => Ended::AtRest,
        Err(AllocError) => Ended::OutOfMemory,
    }
}

/// Turns the tasks on so many threads, and calls entries and exits meanwhile.
fn turn_and_call<
    'a,
    W: Runs + Send + Sync,
    S: Iterator<Item = Value>,
    F: FnMut(Value) + Send + Drop,
    R: Threads + Wait + Clock + Sync,
>(
    rt: &'a R,
    alloc: Global,
    board: &'a Board<W>,
    tasks: &mut Vec<Task<W>>,
    workers: usize,
    entries: &mut Vec<Entry<W>>,
    senders: &mut Vec<Sender<S>>,
    exits: &mut Vec<Exit<W>>,
    receivers: &mut Vec<F>,
) -> Result<(), AllocError>
    requires workers { (0 < workers) × (workers ≤ 64) }
    requires can_next { (state : S) → S.can_next state }
    requires can_take { (state : F) (value : Value) → F.pre state value }
    requires tasks_of { AllTasksOf board.now tasks.old.items }
    requires entries_of { AllEntriesOf board.now entries.old.items }
    requires exits_of { AllExitsOf board.now exits.old.items }
    ensures tasks_back { ComeBack board.now tasks.old.items tasks.new.items }
    ensures entries_of { AllEntriesOf board.now entries.new.items }
    ensures exits_of { AllExitsOf board.now exits.new.items }
    ensures entries_are { map entry_number entries.new.items ≡ map entry_number entries.old.items }
    ensures exits_are { map exit_number exits.new.items ≡ map exit_number exits.old.items }
    ensures sends { EachSends S.next_gives entries.old.items senders.old.items entries.new.items senders.new.items }
    ensures takes { EachTakes (λ state value next. F.step state value tt next) exits.old.items receivers.old.items exits.new.items
        receivers.new.items }
{
    let calm = &Calm::new();
    tasks_cross::<W>();
    boards_are_shared::<W>();
    let (went, ()) = join_mut(
        rt,
        &mut ||
            requires { (0 < workers) × (workers ≤ 64) × AllTasksOf board.now tasks.now.items }
        { turn_all(rt, alloc, board, tasks, workers, calm) },
        &mut ||
            requires { AllEntriesOf board.now entries.now.items × AllExitsOf board.now exits.now.items
                × ((state : S) → S.can_next state) × ((state : F) (value : Value) → F.pre state value) }
            ensures { AllEntriesOf board.entry.now entries.exit.now.items × AllExitsOf board.entry.now exits.exit.now.items
                × (map entry_number entries.exit.now.items ≡ map entry_number entries.entry.now.items)
                × (map exit_number exits.exit.now.items ≡ map exit_number exits.entry.now.items)
                × EachSends S.next_gives entries.entry.now.items senders.entry.now.items entries.exit.now.items senders.exit.now.items
                × EachTakes (λ state value next. F.step state value tt next) exits.entry.now.items receivers.entry.now.items
                exits.exit.now.items receivers.exit.now.items }
        { call_all(rt, alloc, board, entries, senders, exits, receivers, calm) },
    );
    went
}

/// Receives in a thread, and sends in this one.
fn call_all<
    'a,
    W: Runs + Send + Sync,
    S: Iterator<Item = Value>,
    F: FnMut(Value) + Send + Drop,
    R: Threads + Wait + Clock + Sync,
>(
    rt: &'a R,
    alloc: Global,
    board: &'a Board<W>,
    entries: &mut Vec<Entry<W>>,
    senders: &mut Vec<Sender<S>>,
    exits: &mut Vec<Exit<W>>,
    receivers: &mut Vec<F>,
    calm: &'a Calm,
)
    requires can_next { (state : S) → S.can_next state }
    requires can_take { (state : F) (value : Value) → F.pre state value }
    requires entries_of { AllEntriesOf board.now entries.old.items }
    requires exits_of { AllExitsOf board.now exits.old.items }
    ensures entries_of { AllEntriesOf board.now entries.new.items }
    ensures exits_of { AllExitsOf board.now exits.new.items }
    ensures entries_are { map entry_number entries.new.items ≡ map entry_number entries.old.items }
    ensures exits_are { map exit_number exits.new.items ≡ map exit_number exits.old.items }
    ensures sends { EachSends S.next_gives entries.old.items senders.old.items entries.new.items senders.new.items }
    ensures takes { EachTakes (λ state value next. F.step state value tt next) exits.old.items receivers.old.items exits.new.items
        receivers.new.items }
{
    exits_cross::<W>();
    boards_are_shared::<W>();
    join_mut(
        rt,
        &mut ||
            requires { AllExitsOf board.now exits.now.items × ((state : F) (value : Value) → F.pre state value) }
            ensures { AllExitsOf board.entry.now exits.exit.now.items × (map exit_number exits.exit.now.items ≡ map exit_number exits.entry.now.items)
                × EachTakes (λ state value next. F.step state value tt next) exits.entry.now.items receivers.entry.now.items
                exits.exit.now.items receivers.exit.now.items }
        { receive_all(rt, alloc, board, exits, receivers, calm) },
        &mut ||
            requires { AllEntriesOf board.now entries.now.items × ((state : S) → S.can_next state) }
        { send_all(rt, alloc, board, entries, senders, calm) },
    );
}
