//! A network is scattered, turned and gathered.
use crate::networks::{BUFFER, CHAIN, NUMBERS, gathered, journal, scattered, settle};
use crate::rounds::{ALL, turn, turned};
use crate::told::{Told, all_told, begins, has_recorded, is_done, is_told};
use flow_board::Task;
use flow_link::Mark;
use flow_poll::TurnState;
use flow_value::Steps;
use std::alloc::Global;
use std::process::Abort;

/// The marks of the task at this place.
fn marks<'a>(rt: &impl Abort, tasks: &'a Vec<Task<Steps>>, place: usize) -> &'a [Mark] {
    let Some(task) = tasks.get(place) else {
        panic!(rt; "no task");
    };
    task.journal()
}

/// Asserts that the tasks of the chain are done with 1, 2 and 3.
fn are_done(rt: &impl Abort, tasks: &Vec<Task<Steps>>) {
    assert!(rt; tasks.len() == 4);
    is_done(rt, marks(rt, tasks, 0), &[1, 2, 3], &[1, 2, 3]);
    is_done(rt, marks(rt, tasks, 1), &[1, 2, 3], &[2, 4, 6]);
    let all = [
        Told::Took(2),
        Told::Took(4),
        Told::Took(6),
        Told::Complete,
        Told::Done,
    ];
    is_told(rt, marks(rt, tasks, 2), &all);
    assert!(rt; marks(rt, tasks, 3).is_empty());
}

#[test]
fn turned_tasks_end_and_are_gathered(rt: HostRuntime) {
    let alloc = rt.alloc();
    let mut parts = scattered(&rt, alloc, CHAIN, NUMBERS);
    let state = turn(&rt, alloc, &parts.board, &mut parts.tasks, ALL, 64, 100);
    assert!(rt; state == TurnState::Ended);
    are_done(&rt, &parts.tasks);
    let net = gathered(&rt, alloc, parts);
    is_done(&rt, journal(&rt, &net, "double"), &[1, 2, 3], &[2, 4, 6]);
    has_recorded(&rt, &net);
}

/// Asserts that a chain that is gathered after so many rounds of one event for each task, where its buffer has begun or not, and
/// its action is not done, goes on to the same end.
fn goes_on(rt: &impl Abort, alloc: Global, rounds: usize, has_begun: bool) {
    let (mut net, _) = turned(
        rt,
        alloc,
        scattered(rt, alloc, CHAIN, NUMBERS),
        ALL,
        1,
        rounds,
    );
    let first = all_told(rt, alloc, journal(rt, &net, "in"));
    let second = all_told(rt, alloc, journal(rt, &net, "double"));
    let third = all_told(rt, alloc, journal(rt, &net, "out"));
    assert!(rt; first.is_empty() != has_begun);
    assert!(rt; third.len() < 5);
    settle(rt, alloc, &mut net);
    begins(rt, journal(rt, &net, "in"), &first);
    begins(rt, journal(rt, &net, "double"), &second);
    begins(rt, journal(rt, &net, "out"), &third);
    is_done(rt, journal(rt, &net, "in"), &[1, 2, 3], &[1, 2, 3]);
    is_done(rt, journal(rt, &net, "double"), &[1, 2, 3], &[2, 4, 6]);
    has_recorded(rt, &net);
}

#[test]
fn turns_may_stop_anywhere(rt: HostRuntime) {
    let alloc = rt.alloc();
    goes_on(&rt, alloc, 0, false);
    goes_on(&rt, alloc, 1, false);
    goes_on(&rt, alloc, 2, false);
    goes_on(&rt, alloc, 5, true);
}

#[test]
fn an_open_input_is_an_entry(rt: HostRuntime) {
    let alloc = rt.alloc();
    let parts = scattered(&rt, alloc, BUFFER, "b?");
    assert!(rt; parts.tasks.len() == 1);
    assert!(rt; parts.entries.len() == 1);
    assert!(rt; parts.exits.len() == 1);
    assert!(rt; gathered(&rt, alloc, parts).entry(0, 100).is_ok());
}
