//! One thread sends values to a network while another turns its tasks.
ghost use Rattle.std.specs.Prelude.{◌≡◌};
ghost use Rattle.flow_board.specs.At.{sending_board};
ghost use Rattle.flow_board.specs.Parts.{AllEntriesOf, AllTasksOf, entry_board};

use crate::ends::has_ended;
use crate::networks::{named, network};
use crate::rounds::turn_each;
use flow_board::{
    Board, Entry, EntryAt, Parts, Scattered, Task, boards_are_shared, entries_cross, gather,
    scatter,
};
use flow_link::Ending;
use flow_net::Net;
use flow_poll::{Delivery, SendAsync, TurnState};
use flow_trial::{Case, SHARED};
use flow_value::{Steps, Text, Value};
use futures::Future;
use futures::task::{Doorbell, Poll, Solo};
use std::alloc::{AllocGlobal, Global};
use std::process::Abort;
use std::random::RandomSource;
use std::thread::{Threads, join, yield_now};

/// What is sent to the first input while tasks are turned.
const SENT: &[&str] = &["a1", "a2", "a3", "a4", "a5"];

/// The first input stays open, and these are posted to the second before.
const POSTED: &str = "a? b,b1 b,b2 b,b3 b,b4 b,b5";

/// How often a thread asks whether there is something to do before it gives up. It yields where there is nothing.
const ENOUGH: u32 = 10_000_000;

/// The most events of a task in a round.
const BUDGET: u32 = 64;

/// The value of a text.
fn value(rt: &impl Abort, alloc: Global, text: &str) -> Value {
    let Ok(text) = Text::from_str(alloc, text) else {
        panic!(rt; "out of memory");
    };
    Value::Text(text)
}

/// The run of two joins.
fn two_joins(rt: &impl Abort) -> Case<'static> {
    named(rt, SHARED, "two joins share sources")
}

/// What a future gives, which is polled again and again; between two polls the thread yields.
fn ready<F: Future, R: Abort + RandomSource + AllocGlobal>(rt: &R, mut future: F) -> F::Output
    requires can { F.can_poll future }
    ensures gives { F.gives future result }
{
    let Ok(task) = Solo::new(rt, Doorbell::spinning()) else {
        panic!(rt; "out of memory");
    };
    for _ in 0..ENOUGH {
        let mut cx = task.begin();
        let polled = future.poll(&mut cx);
        cx.end(&polled);
        if let Poll::Ready(output) = polled {
            return output;
        }
        yield_now();
    }
    panic!(rt; "it waits too long");
}

/// Sends a value, which is taken in the end.
fn send<'b>(
    rt: &(impl Abort + RandomSource + AllocGlobal),
    alloc: Global,
    port: EntryAt<'b, Steps>,
    value: Value,
) -> EntryAt<'b, Steps>
    ensures of { sending_board result ≡ sending_board port.entry }
{
    let (port, answer) = ready(rt, SendAsync::new(alloc, port, value));
    assert!(rt; matches!(answer, Ok(Delivery::Accepted)));
    port
}

/// Sends these texts one after another, and then none comes any more.
fn send_all(
    rt: &(impl Abort + RandomSource + AllocGlobal),
    alloc: Global,
    board: &Board<Steps>,
    entry: Entry<Steps>,
    texts: &[&str],
) -> Entry<Steps>
    requires of { entry_board entry ≡ board.now }
    ensures of { entry_board result ≡ board.now }
{
    let mut port = EntryAt::new(board, entry);
    for text in texts {
        port = send(rt, alloc, port, value(rt, alloc, text));
    }
    let mut entry = port.into_entry();
    assert!(rt; entry.finish(board, Ending::Complete).is_ok());
    entry
}

/// Turns tasks in rounds until all have ended; after a round in which none moved the thread yields.
fn turn_to_end(
    rt: &impl Abort,
    alloc: Global,
    board: &Board<Steps>,
    tasks: Vec<Task<Steps>>,
) -> Vec<Task<Steps>>
    requires of { AllTasksOf board.now tasks.items }
    ensures of { AllTasksOf board.now result.items }
{
    let mut tasks = tasks;
    for _ in 0..ENOUGH {
        match turn_each(alloc, board, &mut tasks, BUDGET) {
            Ok(TurnState::Ended) => return tasks,
            Ok(TurnState::Idle) => yield_now(),
            Ok(TurnState::Moved) => {}
            Err(_) => panic!(rt; "out of memory"),
        }
    }
    panic!(rt; "the tasks do not end");
}

/// Sends all texts in one thread, and turns the tasks in another.
fn send_while_turning<R: Abort + Threads + RandomSource + AllocGlobal + Sync>(
    rt: &R,
    alloc: Global,
    board: &Board<Steps>,
    entry: Entry<Steps>,
    tasks: Vec<Task<Steps>>,
) -> (Entry<Steps>, Vec<Task<Steps>>)
    requires entry_of { entry_board entry ≡ board.now }
    requires of { AllTasksOf board.now tasks.items }
    ensures entry_of { entry_board result.0 ≡ board.now }
    ensures of { AllTasksOf board.now result.1.items }
{
    entries_cross::<Steps>();
    boards_are_shared::<Steps>();
    join(
        rt,
        move || -> Entry<Steps>
            requires { entry_board entry ≡ board.now }
            ensures { entry_board result ≡ board.entry.now }
        { send_all(rt, alloc, board, entry, SENT) },
        move || -> Vec<Task<Steps>>
            requires { AllTasksOf board.now tasks.items }
            ensures { AllTasksOf board.entry.now result.items }
        { turn_to_end(rt, alloc, board, tasks) },
    )
}

/// The only entry of these.
fn only(rt: &impl Abort, board: &Board<Steps>, entries: Vec<Entry<Steps>>) -> Entry<Steps>
    requires of { AllEntriesOf board.now entries.items }
    ensures of { entry_board result ≡ board.now }
{
    let _ = board;
    let Some(entry) = entries.into_iter().next() else {
        panic!(rt; "no entry");
    };
    entry
}

/// This entry alone.
fn alone(
    rt: &impl Abort,
    alloc: Global,
    board: &Board<Steps>,
    entry: Entry<Steps>,
) -> Vec<Entry<Steps>>
    requires of { entry_board entry ≡ board.now }
    ensures of { AllEntriesOf board.now result.items }
{
    let _ = board;
    let mut entries = Vec::new(alloc);
    let Ok(()) = entries.push(entry) else {
        panic!(rt; "out of memory");
    };
    entries
}

/// The network after it was scattered, all texts were sent to it while its tasks were turned, and the parts were gathered.
fn sent_through(
    rt: &(impl Abort + Threads + RandomSource + AllocGlobal + Sync),
    alloc: Global,
    net: Net<Steps>,
) -> Net<Steps> {
    let Ok(scattered) = scatter(alloc, net) else {
        panic!(rt; "out of memory");
    };
    let Scattered {
        board,
        tasks,
        entries,
        exits,
        ..
    } = scattered;
    let entry = only(rt, &board, entries);
    let (entry, tasks) = send_while_turning(rt, alloc, &board, entry, tasks);
    let entries = alone(rt, alloc, &board, entry);
    let parts = Parts {
        board,
        tasks,
        entries,
        exits,
    };
    let Ok(net) = gather(alloc, parts) else {
        panic!(rt; "the parts are not gathered");
    };
    net
}

/// Asserts that all texts are the posted values of the first input, in order.
fn has_posted(rt: &impl Abort, net: &Net<Steps>) {
    let Some(block) = net.plan().find("a") else {
        panic!(rt; "no block");
    };
    let posted = net.posted(block);
    assert!(rt; posted.len() == SENT.len());
    for (value, sent) in posted.iter().zip(SENT) {
        assert!(rt; value.as_str() == Some(*sent));
    }
}

#[test]
fn values_are_sent_while_tasks_are_turned(rt: HostRuntime) {
    let alloc = rt.alloc();
    let case = two_joins(&rt);
    let net = sent_through(&rt, alloc, network(&rt, alloc, case.drawn, POSTED));
    has_posted(&rt, &net);
    has_ended(&rt, alloc, &net, &case);
}
