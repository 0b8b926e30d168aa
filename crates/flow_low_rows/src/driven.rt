//! Polls by hand, and futures that are driven to their ends together.
use crate::check::check;
use crate::counter::{counters, left};
use crate::desk::{Desk, OPEN};
use flow_poll::{Crew, Delivery, SendAsync, TurnState};
use flow_value::Value;
use futures::Future;
use futures::executor::block_on;
use futures::future::join;
use futures::task::Poll;
use futures::test::MockTask;
use std::alloc::AllocGlobal;
use std::process::Abort;
use std::random::RandomSource;

/// What a future gives that is ready at its next poll; the name is that of the call.
pub(crate) fn ready<F: Future, R: Abort + Print + RandomSource + AllocGlobal>(
    rt: &R,
    name: &str,
    mut future: F,
) -> F::Output
    requires { F.can_poll future }
{
    let Ok(task) = MockTask::new(rt) else {
        panic!(rt; "no task");
    };
    let Poll::Ready(output) = task.poll(&mut future) else {
        panic!(rt; "{name}: pending");
    };
    output
}

/// Polls a future that is pending then, and has yielded.
pub(crate) fn wait<F: Future, R: Abort + Print + RandomSource + AllocGlobal>(
    rt: &R,
    name: &str,
    future: &mut F,
)
where
    F::Output: Drop,
    requires { F.can_poll future.old }
    ensures { F.can_poll future.new }
{
    let Ok(task) = MockTask::new(rt) else {
        panic!(rt; "no task");
    };
    let Poll::Pending = task.poll(future) else {
        panic!(rt; "{name}: ready");
    };
    assert!(rt; task.is_woken(), "{name}: it has not yielded");
}

/// What a future gives that is pending at so many polls, and ready at the next.
pub(crate) fn after<F: Future, R: Abort + Print + RandomSource + AllocGlobal>(
    rt: &R,
    name: &str,
    mut future: F,
    waits: u32,
) -> F::Output
where
    F::Output: Drop,
    requires { F.can_poll future }
{
    for poll in 0..waits {
        wait(rt, name, &mut future);
    }
    ready(rt, name, future)
}

#[test]
fn a_send_waits_while_a_crew_goes_on(rt: HostRuntime) {
    let alloc = rt.alloc();
    let open = OPEN;
    let send = SendAsync::new(alloc, Desk::new(alloc, &open, 4, 9), Value::Int(1));
    let crew = Crew::new(alloc, counters(&rt, alloc, "3 0 5", None), 1, 8);
    let Ok(((desk, answer), (all, state))) = block_on(&rt, join(send, crew)) else {
        panic!(rt; "not driven");
    };
    check(
        &rt,
        "it is accepted",
        matches!(answer, Ok(Delivery::Accepted)),
    );
    check(&rt, "it is taken", desk.has_taken(1, 1));
    check(&rt, "three counters", all.len() == 3);
    for place in 0..3 {
        check(&rt, "a counter is at its end", left(&all, place) == 0);
    }
    check(
        &rt,
        "the crew has ended",
        matches!(state, Ok(TurnState::Ended)),
    );
}
