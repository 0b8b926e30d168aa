//! `Running` and `Crew` over counters.
use crate::check::{Came, check, comes, count, has_cases};
use crate::counter::{Counter, counters, left};
use crate::driven::{after, wait};
use flow_poll::{Crew, Running, TurnState};
use flow_words::cells;
use futures::executor::block_on;
use std::alloc::{AllocError, AllocGlobal, Global};
use std::process::Abort;
use std::random::RandomSource;
use std::sync::Wait;

/// Behind the name of a case stand the counters, and which of them has no memory. A call has the budget and the turns of the
/// last counter alone, or of all of them as a crew, and is pending at as many polls as stand behind `after`. What is left
/// is pending at one poll; what is driven is polled to its end.
const TURNS: &str = "
case a counter falls until it ends | 3 | none
run 2 9 after 2 = ended
left 0 = count 0
case a counter stops where its turns are used up | 3 | none
run 2 1 after 1 = moved
left 0 = count 1
run 1 9 left = waits
run 0 9 after 0 = ended
left 0 = count 0
case a counter without memory comes back | 3 | 0
run 1 8 after 0 = memory
left 0 = count 3
case a crew of counters | 3 0 5 | none
crew 1 8 driven = ended
left 0 = count 0
left 1 = count 0
left 2 = count 0
left 3 = count -1
case a crew stops where its turns are used up | 3 0 5 | none
crew 1 2 after 2 = moved
left 0 = count 1
left 1 = count 0
left 2 = count 3
left 3 = count -1
case a crew that is pending gives its counters back | 3 0 5 | none
crew 2 8 left = waits
crew 0 8 after 0 = idle
left 0 = count 1
left 1 = count 0
left 2 = count 3
left 3 = count -1
case where one has no memory those behind it wait | 3 4 5 | 1
crew 1 8 after 0 = memory
left 0 = count 2
left 1 = count 4
left 2 = count 5
left 3 = count -1
";

#[test]
fn counters_are_turned(rt: HostRuntime) {
    has_cases(&rt, TURNS, 7);
    for case in TURNS.split("\ncase ").skip(1) {
        run_case(&rt, rt.alloc(), case);
    }
}

/// Does the calls of a case, each with the counters that the one before gave back.
fn run_case<R: Abort + Wait + Print + RandomSource + AllocGlobal>(
    rt: &R,
    alloc: Global,
    case: &str,
) {
    let Some((head, lines)) = case.split_once("\n") else {
        panic!(rt; "no case: {case}");
    };
    let Some((_, numbers, place)) = cells(head) else {
        panic!(rt; "no case: {head}");
    };
    let mut all = counters(rt, alloc, numbers, place.parse::<usize>().ok());
    for line in lines.lines() {
        let Some((call, wanted)) = line.split_once(" = ") else {
            panic!(rt; "no call: {line}");
        };
        let (next, came) = called(rt, alloc, all, call);
        all = next;
        comes(rt, head, call, wanted, came);
    }
}

/// The counters after a call, and what came of it.
fn called<R: Abort + Wait + Print + RandomSource + AllocGlobal>(
    rt: &R,
    alloc: Global,
    mut all: Vec<Counter>,
    call: &str,
) -> (Vec<Counter>, Came) {
    if let Some(digits) = call.strip_prefix("left ") {
        let left = left(&all, count(rt, digits) as usize);
        (all, ("count", left))
    } else if let Some(words) = call.strip_prefix("run ") {
        let Some(counter) = all.pop() else {
            panic!(rt; "no counter: {call}");
        };
        let (counter, came) = run(rt, alloc, counter, words);
        assert!(rt; all.push(counter).is_ok(), "out of memory");
        (all, came)
    } else if let Some(words) = call.strip_prefix("crew ") {
        crew(rt, alloc, all, words)
    } else {
        panic!(rt; "no such call: {call}");
    }
}

/// The budget and the turns that these words begin with, and the words behind them.
fn limits<'a>(rt: &(impl Abort + Print), words: &'a str) -> (u32, u32, &'a str) {
    let (budget, others) = words.split_once(" ").unwrap_or((words, ""));
    let (turns, others) = others.split_once(" ").unwrap_or((others, ""));
    (count(rt, budget), count(rt, turns), others)
}

/// How many polls are pending, where these words say so.
fn waits(rt: &(impl Abort + Print), words: &str) -> u32 {
    count(rt, words.strip_prefix("after ").unwrap_or(""))
}

fn run<R: Abort + Print + RandomSource + AllocGlobal>(
    rt: &R,
    alloc: Global,
    counter: Counter,
    words: &str,
) -> (Counter, Came) {
    let (budget, turns, others) = limits(rt, words);
    let mut running = Running::new(alloc, counter, budget, turns);
    if others == "left" {
        wait(rt, words, &mut running);
        return (running.into_actor(), ("waits", 0));
    }
    let (counter, state) = after(rt, words, running, waits(rt, others));
    (counter, state_of(state))
}

fn crew<R: Abort + Wait + Print + RandomSource + AllocGlobal>(
    rt: &R,
    alloc: Global,
    all: Vec<Counter>,
    words: &str,
) -> (Vec<Counter>, Came) {
    let (budget, turns, others) = limits(rt, words);
    let mut crew = Crew::new(alloc, all, budget, turns);
    if others == "left" {
        wait(rt, words, &mut crew);
        return (crew.into_actors(), ("waits", 0));
    }
    if others == "driven" {
        let Ok((all, state)) = block_on(rt, crew) else {
            panic!(rt; "not driven");
        };
        return (all, state_of(state));
    }
    let (all, state) = after(rt, words, crew, waits(rt, others));
    (all, state_of(state))
}

fn state_of(state: Result<TurnState, AllocError>) -> Came {
    match state {
        Ok(TurnState::Moved) => ("moved", 0),
        Ok(TurnState::Idle) => ("idle", 0),
        Ok(TurnState::Ended) => ("ended", 0),
        Err(_) => ("memory", 0),
    }
}

#[test]
fn the_state_of_two_is_that_of_the_busier(rt: HostRuntime) {
    let states = [TurnState::Ended, TurnState::Idle, TurnState::Moved];
    for first in 0..3 {
        for second in 0..3 {
            let joint = states[first].joint(states[second]);
            check(&rt, "two states", joint == states[first.max(second)]);
        }
    }
}
