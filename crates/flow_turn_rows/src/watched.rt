//! A block is watched by one thread while another turns its task.
ghost use Rattle.std.specs.Prelude.{◌≡◌};
ghost use Rattle.flow_board.specs.Parts.{AllTasksOf, board_of, task_number, watched_block, watched_board};

use crate::networks::network;
use crate::rounds::turn_each;
use flow_board::{
    Board, Scattered, Task, Watch, boards_are_shared, same_end, scatter, tasks_cross, watches_cross,
};
use flow_link::{Mark, Outcome};
use flow_poll::TurnState;
use flow_value::Steps;
use std::alloc::Global;
use std::process::Abort;
use std::thread::{Threads, join, yield_now};

/// A block that reads numbers.
const READER: &str = "b* action(int)";

/// How often a thread asks whether the block has ended before it gives up. It yields where it has not.
const ENOUGH: u32 = 10_000_000;

/// The most events of a task in a round.
const BUDGET: u32 = 64;

/// A block on a board: its task, the other tasks, and a watch of it.
#[derive(Drop)]
struct Watched {
    board: Board<Steps>,
    task: Task<Steps>,
    others: Vec<Task<Steps>>,
    watch: Watch<Steps>,
}

/// The block that reads numbers, to which these records are posted.
fn scattered(rt: &impl Abort, alloc: Global, records: &str) -> Watched
    ensures task_of { board_of result.task ≡ result.board }
    ensures others_of { AllTasksOf result.board result.others.items }
    ensures watch_of { watched_board result.watch ≡ result.board }
    ensures block { watched_block result.watch ≡ task_number result.task }
{
    let Ok(scattered) = scatter(alloc, network(rt, alloc, READER, records)) else {
        panic!(rt; "out of memory");
    };
    let Scattered {
        board,
        mut tasks,
        mut watches,
        ..
    } = scattered;
    assert!(rt; tasks.len() == 2);
    assert!(rt; watches.len() == 1);
    let task = tasks.remove(0);
    let watch = watches.remove(0);
    Watched {
        board,
        task,
        others: tasks,
        watch,
    }
}

/// How a block has ended by its marks, if it has.
fn end_in(marks: &[Mark]) -> Option<Outcome> {
    match marks.last() {
        Some(Mark::Done) => Some(Outcome::Done),
        Some(Mark::Fault(number)) => Some(Outcome::Faulted(*number)),
        Some(Mark::Took(..) | Mark::Gave(..) | Mark::Complete(_)) | None => None,
    }
}

/// Asserts that a task and a watch of its block tell this end, or that it has not ended, also once they were compared.
fn agree(
    rt: &impl Abort,
    board: &Board<Steps>,
    task: Task<Steps>,
    watch: Watch<Steps>,
    end: Option<Outcome>,
)
    requires task_of { board_of task ≡ board.now }
    requires watch_of { watched_board watch ≡ board.now }
    requires block { watched_block watch ≡ task_number task }
{
    let mut task = task;
    let mut watch = watch;
    assert!(rt; watch.read(board) == end && end_in(task.journal()) == end);
    same_end(&mut watch, &mut task);
    assert!(rt; watch.read(board) == end && end_in(task.journal()) == end);
}

/// Reads a watch until it tells how its block has ended.
fn read_to_end(
    rt: &impl Abort,
    board: &Board<Steps>,
    watch: Watch<Steps>,
    block: usize,
) -> Watch<Steps>
    requires of { watched_board watch ≡ board.now }
    requires number { watched_block watch ≡ block }
    ensures of { watched_board result ≡ board.now }
    ensures number { watched_block result ≡ block }
{
    let mut watch = watch;
    for _ in 0..ENOUGH {
        if watch.read(board).is_some() {
            return watch;
        }
        yield_now();
    }
    panic!(rt; "the watch learns nothing")
}

/// Turns a task, and others beside it, until it has ended.
fn turn_to_end(
    rt: &impl Abort,
    alloc: Global,
    board: &Board<Steps>,
    task: Task<Steps>,
    others: Vec<Task<Steps>>,
    block: usize,
) -> Task<Steps>
    requires of { board_of task ≡ board.now }
    requires others_of { AllTasksOf board.now others.items }
    requires number { task_number task ≡ block }
    ensures of { board_of result ≡ board.now }
    ensures number { task_number result ≡ block }
{
    let mut task = task;
    let mut others = others;
    for _ in 0..ENOUGH {
        let Ok(turned) = task.turn(alloc, board, BUDGET) else {
            panic!(rt; "out of memory");
        };
        if turned.state == TurnState::Ended {
            return task;
        }
        assert!(rt; turn_each(alloc, board, &mut others, BUDGET).is_ok());
        yield_now();
    }
    panic!(rt; "the task does not end")
}

/// Asserts that a watch that is read in one thread, while another turns the tasks, tells this end of its block, as its task does.
fn ends_so(rt: &(impl Abort + Threads + Sync), alloc: Global, watched: Watched, end: Outcome)
    requires task_of { board_of watched.task ≡ watched.board }
    requires others_of { AllTasksOf watched.board watched.others.items }
    requires watch_of { watched_board watched.watch ≡ watched.board }
    requires block { watched_block watched.watch ≡ task_number watched.task }
{
    let Watched {
        board,
        task,
        others,
        watch,
    } = watched;
    let block = watch.block();
    let board = &board;
    tasks_cross::<Steps>();
    watches_cross::<Steps>();
    boards_are_shared::<Steps>();
    let (watch, task) = join(
        rt,
        move || -> Watch<Steps>
            requires { (watched_board watch ≡ board.now) × (watched_block watch ≡ block) }
            ensures { (watched_board result ≡ board.entry.now) × (watched_block result ≡ block) }
        { read_to_end(rt, board, watch, block) },
        move || -> Task<Steps>
            requires { (board_of task ≡ board.now) × (AllTasksOf board.now others.items × (task_number task ≡ block)) }
            ensures { (board_of result ≡ board.entry.now) × (task_number result ≡ block) }
        { turn_to_end(rt, alloc, board, task, others, block) },
    );
    agree(rt, board, task, watch, Some(end));
}

#[test]
fn a_watch_and_its_task_tell_the_same_end(rt: HostRuntime) {
    let alloc = rt.alloc();
    let Watched {
        board,
        task,
        watch,
        ..
    } = scattered(&rt, alloc, "b,1");
    agree(&rt, &board, task, watch, None);
    ends_so(&rt, alloc, scattered(&rt, alloc, "b,1"), Outcome::Done);
    ends_so(
        &rt,
        alloc,
        scattered(&rt, alloc, "b,x"),
        Outcome::Faulted(1),
    );
}
