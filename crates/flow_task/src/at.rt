//! A task, a watch, an entry and an exit, beside their board.
ghost use Rattle.std.specs.Prelude.{◌≡◌};
ghost use Rattle.flow_input.specs.Sends.{has_id, sends_of};
ghost use Rattle.flow_task.specs.Parts.{board_of, entry_board, entry_state, exit_board, exit_state, watched_board};
ghost use Rattle.flow_moves.specs.Sights.{exit_seen};

use crate::board::Board;
use crate::numbered::{Entry, Exit, Task, Watch};
use flow_link::{Completing, Outcome};
use flow_poll::{Actor, ReceivePort, Received, SendFault, SendPort, Sent, Turned};
use flow_value::{Runs, Value};
use std::alloc::{AllocError, Global};

/// A task with the board that it is of: it goes on by turns without being told the board each time. So one is turned by a `Running`,
/// and several by a `Crew`.
#[derive(Drop)]
pub struct TaskAt<'b, W: Runs> {
    board: &'b Board<W>,
    task: Task<W>,
    ghost its: { board_of task ≡ board.now },
}

impl<'b, W: Runs> TaskAt<'b, W> {
    ghost use Rattle.flow_task.specs.At.{board_at, task_at};

    /// This task, at its board.
    pub fn new(board: &'b Board<W>, task: Task<W>) -> TaskAt<'b, W>
        requires its { board_of task ≡ board.now }
        ensures board { board_at result ≡ board.now }
        ensures task { task_at result ≡ task }
    {
        TaskAt { board, task }
    }

    /// The task alone.
    pub fn into_task(self) -> Task<W>
        ensures task { result ≡ task_at self.entry }
        ensures of { board_of result ≡ board_at self.entry }
    {
        let TaskAt { task, .. } = self;
        task
    }
}

impl<W: Runs> Actor for TaskAt<'_, W> {
    ghost use Rattle.std.specs.Prelude.{IfOk};
    ghost use Rattle.flow_task.specs.Parts.{marks_in};
    ghost use Rattle.flow_task.specs.At.{task_at, same_further, stays_same, IsSame, Tells};

    ghost journal = { λ at. marks_in (task_at at) };

    ghost acts = { λ old budget result new. IfOk result (λ turned. Tells W.meaning (task_at old) budget turned (task_at new)) };

    ghost goes_on = { IsSame };

    ghost stays = { stays_same };

    ghost goes_further = { same_further };

    fn turn(&mut self, alloc: Global, budget: u32) -> Result<Turned, AllocError> {
        self.task.turn(alloc, self.board, budget)
    }
}

/// A watch with the board that it is of. So a `Completion` waits for the end of its block.
#[derive(Drop)]
pub struct WatchAt<'b, W: Runs> {
    board: &'b Board<W>,
    watch: Watch<W>,
    ghost its: { watched_board watch ≡ board.now },
}

impl<'b, W: Runs> WatchAt<'b, W> {
    ghost use Rattle.flow_task.specs.At.{watch_at, watching_board};

    /// This watch, at its board.
    pub fn new(board: &'b Board<W>, watch: Watch<W>) -> WatchAt<'b, W>
        requires its { watched_board watch ≡ board.now }
        ensures board { watching_board result ≡ board.now }
        ensures watch { watch_at result ≡ watch }
    {
        WatchAt { board, watch }
    }

    /// The watch alone.
    pub fn into_watch(self) -> Watch<W>
        ensures watch { result ≡ watch_at self.entry }
        ensures of { watched_board result ≡ watching_board self.entry }
    {
        let WatchAt { watch, .. } = self;
        watch
    }
}

impl<W: Runs> Completing for WatchAt<'_, W> {
    ghost use Rattle.flow_task.specs.At.{IsSameWatch, watch_at};
    ghost use Rattle.flow_task.specs.Parts.{watched_outcome};

    ghost outcome = { λ at. watched_outcome (watch_at at) };

    ghost learns = { λ old new. IsSameWatch old new };

    fn completion(&mut self) -> Option<Outcome> {
        self.watch.read(self.board)
    }
}

/// An entry with the board that it is of. So a `Post` or a `SendAsync` waits for what becomes of a value there.
#[derive(Drop)]
pub struct EntryAt<'b, W: Runs> {
    board: &'b Board<W>,
    way_in: Entry<W>,
    ghost its: { entry_board way_in ≡ board.now },
}

impl<'b, W: Runs> EntryAt<'b, W> {
    ghost use Rattle.flow_task.specs.At.{entry_in, sending_board};

    /// This entry, at its board.
    pub fn new(board: &'b Board<W>, entry: Entry<W>) -> EntryAt<'b, W>
        requires its { entry_board entry ≡ board.now }
        ensures board { sending_board result ≡ board.now }
        ensures entry { entry_in result ≡ entry }
    {
        EntryAt {
            board,
            way_in: entry,
        }
    }

    /// The entry alone.
    pub fn into_entry(self) -> Entry<W>
        ensures entry { result ≡ entry_in self.entry }
        ensures of { entry_board result ≡ sending_board self.entry }
    {
        let EntryAt { way_in, .. } = self;
        way_in
    }
}

impl<W: Runs> SendPort for EntryAt<'_, W> {
    ghost use Rattle.flow_task.specs.At.{IsSameEntry, entry_further, entry_in, entry_same};

    ghost sends = { λ port. sends_of (entry_state (entry_in port)) };

    ghost has_id = { λ port. has_id (entry_state (entry_in port)) };

    ghost goes_on = { λ old new. IsSameEntry old new };

    ghost stays = { λ port. entry_same port };

    ghost goes_further = { λ first mid last head tail. entry_further first mid last head tail };

    fn begin(
        &mut self,
        alloc: Global,
        value: Value,
        may_postpone: bool,
    ) -> Result<(), (Value, SendFault)> {
        if may_postpone {
            self.way_in.begin_send(alloc, self.board, value)
        } else {
            self.way_in.begin_post(alloc, self.board, value)
        }
    }

    fn look(&mut self, _alloc: Global) -> Result<Sent, AllocError> {
        Ok(self.way_in.look(self.board))
    }
}

/// An exit with the board that it is of. So a `Receive` waits for a message there, and an `OutputAvailable` until one is in sight.
#[derive(Drop)]
pub struct ExitAt<'b, W: Runs> {
    board: &'b Board<W>,
    exit: Exit<W>,
    ghost its: { exit_board exit ≡ board.now },
}

impl<'b, W: Runs> ExitAt<'b, W> {
    ghost use Rattle.flow_task.specs.At.{exit_in, receiving_board};

    /// This exit, at its board.
    pub fn new(board: &'b Board<W>, exit: Exit<W>) -> ExitAt<'b, W>
        requires its { exit_board exit ≡ board.now }
        ensures board { receiving_board result ≡ board.now }
        ensures exit { exit_in result ≡ exit }
    {
        ExitAt { board, exit }
    }

    /// The exit alone.
    pub fn into_exit(self) -> Exit<W>
        ensures exit { result ≡ exit_in self.entry }
        ensures of { exit_board result ≡ receiving_board self.entry }
    {
        let ExitAt { exit, .. } = self;
        exit
    }
}

impl<W: Runs> ReceivePort for ExitAt<'_, W> {
    ghost use Rattle.flow_task.specs.At.{IsSameExit, exit_further, exit_in, exit_same};

    ghost receives = { λ port. exit_seen (exit_state (exit_in port)) };

    ghost goes_on = { λ old new. IsSameExit old new };

    ghost stays = { λ port. exit_same port };

    ghost goes_further = { λ first mid last head tail. exit_further first mid last head tail };

    ghost over = { λ first last goes. goes.over };

    fn try_receive(&mut self, alloc: Global) -> Result<Received, AllocError> {
        self.exit.try_receive(alloc, self.board)
    }

    fn available(&mut self, alloc: Global) -> Result<Option<bool>, AllocError> {
        self.exit.available(alloc, self.board)
    }
}
