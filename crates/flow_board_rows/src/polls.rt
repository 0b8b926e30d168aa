//! Futures that are polled by hand, while tasks are turned between two polls.
ghost use Rattle.futures.specs.Poll.{IfReady, OnPending};
ghost use Rattle.flow_board.specs.Parts.{AllTasksOf};

use crate::rounds::{ALL, turn};
use flow_board::{Board, Task};
use flow_poll::{Delivery, OutputAvailable, Receive, ReceivePort, SendAsync, SendPort};
use flow_value::{Steps, Value};
use futures::Future;
use futures::task::{Doorbell, Poll, Solo};
use std::alloc::{AllocGlobal, Global};
use std::process::Abort;
use std::random::RandomSource;

/// Polls a future once. Where it is pending, it gives no more than it might have given before.
fn poll<F: Future, R: Abort + RandomSource + AllocGlobal>(rt: &R, future: &mut F) -> Poll<F::Output>
    requires { F.can_poll future.old }
    ensures value { IfReady result (F.gives future.old) }
    ensures again { OnPending result (F.can_poll future.new) }
    ensures same { OnPending result ((x : _) → F.gives future.new x → F.gives future.old x) }
{
    let Ok(task) = Solo::new(rt, Doorbell::spinning()) else {
        panic!(rt; "out of memory");
    };
    let mut cx = task.begin();
    let polled = future.poll(&mut cx);
    cx.end(&polled);
    polled
}

/// Polls a future that is pending then.
fn wait<F: Future, R: Abort + RandomSource + AllocGlobal>(rt: &R, future: &mut F)
where
    F::Output: Drop,
    requires { F.can_poll future.old }
    ensures again { F.can_poll future.new }
    ensures same { (x : _) → F.gives future.new x → F.gives future.old x }
{
    let Poll::Pending = poll(rt, future) else {
        panic!(rt; "it does not wait");
    };
}

/// What a future gives, where the tasks are turned until none moves between two polls, of which there are at most ten.
pub(crate) fn ready<F: Future, R: Abort + RandomSource + AllocGlobal>(
    rt: &R,
    alloc: Global,
    board: &Board<Steps>,
    tasks: &mut Vec<Task<Steps>>,
    mut future: F,
) -> F::Output
    requires of { AllTasksOf board.now tasks.old.items }
    requires can { F.can_poll future }
    ensures of { AllTasksOf board.now tasks.new.items }
    ensures gives { F.gives future result }
{
    for _ in 0..10 {
        if let Poll::Ready(output) = poll(rt, &mut future) {
            return output;
        }
        turn(rt, alloc, board, tasks, ALL, 64, 10);
    }
    panic!(rt; "it waits too long");
}

/// A way in at which a value was sent and taken.
pub(crate) fn send<P: SendPort, R: Abort + RandomSource + AllocGlobal>(
    rt: &R,
    alloc: Global,
    board: &Board<Steps>,
    tasks: &mut Vec<Task<Steps>>,
    port: P,
    value: Value,
) -> P
    requires of { AllTasksOf board.now tasks.old.items }
    ensures of { AllTasksOf board.now tasks.new.items }
    ensures goes_on { P.goes_on port result }
{
    let sending = SendAsync::new(alloc, port, value);
    let (port, answer) = ready(rt, alloc, board, tasks, sending);
    assert!(rt; matches!(answer, Ok(Delivery::Accepted)));
    port
}

/// A way in at which a value is sent that is not taken yet: its future is let go of once it waits.
pub(crate) fn send_later<P: SendPort, R: Abort + RandomSource + AllocGlobal>(
    rt: &R,
    alloc: Global,
    port: P,
    value: Value,
) -> P
    ensures { P.goes_on port result }
{
    let mut sending = SendAsync::new(alloc, port, value);
    wait(rt, &mut sending);
    sending.into_port()
}

/// Nothing is to be received at a way out, nor is there output, as its futures tell by waiting.
pub(crate) fn gives_nothing<P: ReceivePort, R: Abort + RandomSource + AllocGlobal>(
    rt: &R,
    alloc: Global,
    port: P,
) {
    let mut receiving = Receive::new(alloc, port);
    wait(rt, &mut receiving);
    let mut watching = OutputAvailable::new(alloc, receiving.into_port());
    wait(rt, &mut watching);
}
