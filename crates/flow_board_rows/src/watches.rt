//! Watches of a block whose task is turned.
ghost use Rattle.std.specs.Prelude.{◌≡◌};
ghost use Rattle.flow_board.specs.Parts.{watched_board};

use crate::networks::{CHAIN, NUMBERS, gathered, watched};
use crate::rounds::{ALL, turn};
use flow_board::{Board, Watch, WatchAt, watches_agree};
use flow_link::Outcome;
use flow_poll::{Completion, TurnState};
use flow_value::Steps;
use futures::executor::block_on;
use std::alloc::{AllocGlobal, Global};
use std::process::Abort;
use std::random::RandomSource;
use std::sync::Wait;

/// Asserts that a watch tells that its block is done, and another of that block, and a future that waits for it.
fn knows_done(
    rt: &(impl Abort + Wait + RandomSource + AllocGlobal),
    alloc: Global,
    board: &Board<Steps>,
    mut watch: Watch<Steps>,
)
    requires of { watched_board watch ≡ board.now }
{
    assert!(rt; watch.read(board) == Some(Outcome::Done));
    let mut other = watch.again(board);
    assert!(rt; other.read(board) == Some(Outcome::Done));
    watches_agree(&mut watch, &mut other);
    let waits = Completion::new(alloc, WatchAt::new(board, other));
    let Ok((at, outcome)) = block_on(rt, waits) else {
        panic!(rt; "not driven");
    };
    assert!(rt; outcome == Outcome::Done);
    assert!(rt; at.into_watch().block() == watch.block());
}

// In the first round the block has nothing yet, and so it has not ended.
#[test]
fn a_watch_learns_how_its_block_has_ended(rt: HostRuntime) {
    let alloc = rt.alloc();
    let (mut parts, mut watch) = watched(&rt, alloc, CHAIN, NUMBERS);
    turn(&rt, alloc, &parts.board, &mut parts.tasks, ALL, 64, 1);
    assert!(rt; watch.read(&parts.board).is_none());
    let state = turn(&rt, alloc, &parts.board, &mut parts.tasks, ALL, 64, 100);
    assert!(rt; state == TurnState::Ended);
    knows_done(&rt, alloc, &parts.board, watch);
    drop(gathered(&rt, alloc, parts));
}
