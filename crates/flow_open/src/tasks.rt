//! A crew turns the tasks of a network round by round, until it has come to rest.
ghost use Rattle.std.specs.Prelude.{◌<◌, ◌≤◌};
ghost use Rattle.flow_board.specs.Parts.{AllTasksOf};
ghost use Rattle.flow_crew.specs.Rounds.{ComeBack};

use crate::calm::{Calm, rest_between};
use flow_board::{Board, OpenGate, Task};
use flow_crew::turn_round;
use flow_value::Runs;
use std::alloc::{AllocError, Global};
use std::mem::replace;
use std::sync::Wait;
use std::thread::Threads;
use std::time::Clock;

/// The most events of a round.
const EVENTS: u64 = 1 << 32;

/// Turns the tasks on so many threads, until a round finds nothing to do and no sender and no receiver has moved either. Then the run is
/// over, and so it is where memory is out.
pub(crate) fn turn_all<W: Runs + Send + Sync, R: Threads + Wait + Clock + Sync>(
    rt: &R,
    alloc: Global,
    board: &Board<W>,
    tasks: &mut Vec<Task<W>>,
    workers: usize,
    calm: &Calm,
) -> Result<(), AllocError>
    requires workers { (0 < workers) × (workers ≤ 64) }
    requires of { AllTasksOf board.now tasks.old.items }
    ensures back { ComeBack board.now tasks.old.items tasks.new.items }
{
    let mut went = Ok(());
    let mut tries = 0;
    for _ in rt.forever() {
        let news = calm.news();
        let was_calm = calm.is_calm(news);
        match turn_once(rt, alloc, board, tasks, workers) {
            Ok(0) => {
                if was_calm && calm.news() == news {
                    break;
                }
                rest_between(rt, tries);
                tries = tries.saturating_add(1);
            }
            Ok(_) => {
                calm.moved();
                tries = 0;
            }
            Err(AllocError) => {
                went = Err(AllocError);
                break;
            }
        }
    }
    calm.end();
    went
}

/// Has a crew turn the tasks for a round, and answers how many events it did.
fn turn_once<W: Runs + Send + Sync, R: Threads + Wait + Clock + Sync>(
    rt: &R,
    alloc: Global,
    board: &Board<W>,
    tasks: &mut Vec<Task<W>>,
    workers: usize,
) -> Result<u64, AllocError>
    requires workers { (0 < workers) × (workers ≤ 64) }
    requires of { AllTasksOf board.now tasks.old.items }
    ensures back { ComeBack board.now tasks.old.items tasks.new.items }
{
    let all = replace(tasks, Vec::new(alloc));
    match turn_round(rt, alloc, board, all, workers, &OpenGate, EVENTS) {
        Ok((back, events)) => {
            *tasks = back;
            Ok(events)
        }
        Err((back, AllocError)) => {
            *tasks = back;
            Err(AllocError)
        }
    }
}
