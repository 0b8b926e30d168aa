//! Networks are scattered, turned and gathered.
ghost use Rattle.flow_board.specs.Parts.{AllTasksOf};

use crate::halves::turn_by_two;
use crate::rounds::{Pace, turn_chosen, turn_in_rounds, turn_singly};
use flow_board::{Board, Parts, Scattered, Task, gather, scatter};
use flow_net::Net;
use flow_value::Steps;
use std::alloc::Global;
use std::process::Abort;
use std::thread::Threads;

/// How the tasks of a network are turned.
#[derive(Clone, Copy)]
pub(crate) enum Way {
    /// By one thread in rounds, with this budget, until none moves.
    Alone(u32),
    /// By one thread, one task after another and one event each, so many times in all.
    Singly(usize),
    /// By one thread, of these tasks one after another and one event each, so many times in all.
    Chosen(&'static [usize], usize),
    /// By two threads in rounds, with this budget, until none moves.
    Both(u32),
    /// By two threads in so many rounds, one event each; both meet before each round.
    BothFor(u32),
}

/// More rounds than any run here has.
const ENOUGH: u32 = 100_000;

/// In how many rounds a thread finds nothing to do before it stops, since the other may go on.
const PATIENCE: u32 = 50;

/// Turns all tasks.
fn turn_all(
    rt: &(impl Abort + Threads + Sync),
    alloc: Global,
    board: &Board<Steps>,
    tasks: Vec<Task<Steps>>,
    way: Way,
) -> Vec<Task<Steps>>
    requires of { AllTasksOf board.now tasks.items }
    ensures of { AllTasksOf board.now result.items }
{
    let mut tasks = tasks;
    match way {
        Way::Alone(budget) => {
            let pace = Pace {
                budget,
                rounds: ENOUGH,
                patience: 1,
            };
            assert!(rt; turn_in_rounds(alloc, board, &mut tasks, pace).is_ok());
            tasks
        }
        Way::Singly(turns) => {
            assert!(rt; turn_singly(alloc, board, &mut tasks, turns).is_ok());
            tasks
        }
        Way::Chosen(chosen, turns) => {
            assert!(rt; turn_chosen(alloc, board, &mut tasks, chosen, turns).is_ok());
            tasks
        }
        Way::Both(budget) => {
            let pace = Pace {
                budget,
                rounds: ENOUGH,
                patience: PATIENCE,
            };
            turn_by_two(rt, alloc, board, tasks, pace, ENOUGH)
        }
        Way::BothFor(rounds) => {
            let pace = Pace {
                budget: 1,
                rounds: 1,
                patience: 1,
            };
            turn_by_two(rt, alloc, board, tasks, pace, rounds)
        }
    }
}

/// The network after it was scattered, its tasks were turned, and the parts were gathered.
pub(crate) fn turned(
    rt: &(impl Abort + Threads + Sync),
    alloc: Global,
    net: Net<Steps>,
    way: Way,
) -> Net<Steps> {
    let Ok(scattered) = scatter(alloc, net) else {
        panic!(rt; "out of memory");
    };
    let Scattered {
        board,
        tasks,
        entries,
        exits,
        ..
    } = scattered;
    let tasks = turn_all(rt, alloc, &board, tasks, way);
    let parts = Parts {
        board,
        tasks,
        entries,
        exits,
    };
    let Ok(net) = gather(alloc, parts) else {
        panic!(rt; "the parts are not gathered");
    };
    net
}
