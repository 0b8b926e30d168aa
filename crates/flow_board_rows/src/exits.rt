//! What is received at an exit while tasks are turned.

use crate::networks::{BUFFER, gathered, scattered};
use crate::polls::gives_nothing;
use crate::ports::{exit_alone, only_exit, receive};
use crate::rounds::{ALL, turn};
use flow_board::{ExitAt, Parts};
use flow_link::Outcome;
use flow_poll::Received;
use flow_value::Value;

#[test]
fn what_leads_out_is_received(rt: HostRuntime) {
    let alloc = rt.alloc();
    let Parts {
        board,
        mut tasks,
        entries,
        exits,
    } = scattered(&rt, alloc, BUFFER, "b=1 b=2");
    let mut exit = only_exit(&rt, &board, exits);
    assert!(rt; matches!(exit.available(alloc, &board), Ok(None)));
    let received = receive(&rt, alloc, &board, &mut tasks, &mut exit);
    assert!(rt; matches!(received, Received::Message(Value::Int(1))));
    turn(&rt, alloc, &board, &mut tasks, ALL, 64, 10);
    assert!(rt; matches!(exit.available(alloc, &board), Ok(Some(true))));
    let received = receive(&rt, alloc, &board, &mut tasks, &mut exit);
    assert!(rt; matches!(received, Received::Message(Value::Int(2))));
    let received = receive(&rt, alloc, &board, &mut tasks, &mut exit);
    assert!(rt; matches!(received, Received::Ended(Outcome::Done)));
    assert!(rt; matches!(exit.available(alloc, &board), Ok(Some(false))));
    assert!(rt; matches!(exit.received(), [Value::Int(1), Value::Int(2)]));
    let exits = exit_alone(&rt, alloc, &board, exit);
    let parts = Parts {
        board,
        tasks,
        entries,
        exits,
    };
    drop(gathered(&rt, alloc, parts));
}

#[test]
fn nothing_comes_while_the_input_stays_open(rt: HostRuntime) {
    let alloc = rt.alloc();
    let Parts { board, exits, .. } = scattered(&rt, alloc, BUFFER, "b?");
    let exit = only_exit(&rt, &board, exits);
    gives_nothing(&rt, alloc, ExitAt::new(&board, exit));
}
