//! What goes through the queue: a task of this round.
ghost use Rattle.std.specs.Prelude.{◌≡◌, ◌≤◌, IfOk, Some};
ghost use Rattle.flow_board.specs.Parts.{task_number};
ghost use Rattle.flow_crew.specs.Rounds.{IsIn};

use flow_board::{Board, Gate, Task};
use flow_poll::Turned;
use flow_value::Runs;
use std::alloc::{AllocError, Global};
use std::marker::{Brand, Model, PhantomData};

/// A round: its board, the numbers of its tasks, and the numbers and journals with which they came. Each call picks it.
pub trait Round<W> {
    ghost use Rattle.std.specs.Prelude.{List, Option, ℕ};
    ghost use Rattle.flow_link.specs.declared.trace.Mark.{Mark};
    ghost use Rattle.flow_task.specs.declared.board.Board.{Board};

    ghost board: { Option (Board W) };

    ghost all: { List ℕ };

    ghost came: { List (ℕ × List Mark) };
}

impl<W> Round<W> for Brand {
    ghost use Rattle.std.specs.Prelude.{[], None};

    ghost board = { None };

    ghost all = { [] };

    ghost came = { [] };
}

/// A task of this round: of its board, with a journal that goes on from what its number came with. Contracts see its number.
#[derive(Drop)]
pub struct Item<W: Runs, J: Round<W>> {
    task: Task<W>,
    of: PhantomData<J>,
}

impl<W: Runs, J: Round<W>> Model for Item<W, J> {
    ghost use Rattle.std.specs.Prelude.{ℕ};
    ghost use Rattle.flow_board.specs.Parts.{task_number};
    ghost use Rattle.flow_crew.specs.Rounds.{IsIn};

    ghost Value = { ℕ };

    ghost view = { λ item. task_number item.task };

    ghost invariant = { λ item. IsIn J.board J.came item.task };
}

impl<W: Runs, J: Round<W>> Item<W, J> {
    pub(crate) fn new(task: Task<W>) -> Item<W, J>
        requires in_round { IsIn J.board J.came task }
        ensures number { result ≡ task_number task }
    {
        Item {
            task,
            of: PhantomData,
        }
    }

    pub(crate) fn into_task(self) -> Task<W>
        ensures in_round { IsIn J.board J.came result }
        ensures number { task_number result ≡ self }
    {
        self.task
    }

    /// Whether it is a lane to which a job has come.
    pub(crate) fn has_job(&mut self) -> bool
        ensures same { self.new ≡ self.old }
    {
        self.task.job().is_some()
    }

    /// Turns it for at most so many events; each job goes through the gate.
    pub(crate) fn turn<G: Gate>(
        &mut self,
        alloc: Global,
        board: &Board<W>,
        budget: u32,
        gate: &G,
    ) -> Result<Turned, AllocError>
        requires board { J.board ≡ Some board.now }
        ensures same { self.new ≡ self.old }
        ensures within { IfOk result (λ turned. turned.events ≤ budget) }
    {
        self.task.turn_through(alloc, board, budget, gate)
    }
}
