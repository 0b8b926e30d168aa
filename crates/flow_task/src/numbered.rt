//! The parts of a scattered network, each with its number.
ghost use Rattle.std.specs.Prelude.{◌≡◌, ◌<◌, true, length};
ghost use Rattle.std.specs.Coded.{codes};
ghost use Rattle.atomic_table.specs.Seated.{table_id_coded};
ghost use Rattle.flow_value.specs.contracts.value.Value as content;
ghost use Rattle.flow_link.specs.Planned.{layout_of};
ghost use Rattle.flow_block.specs.Planned.{leads_out};
ghost use Rattle.flow_exit.specs.ExitKeeps.{ExitLaw};
ghost use Rattle.flow_task.specs.Begun.{begun_input};
ghost use Rattle.flow_task.specs.Cells.{IsNoteOf};
ghost use Rattle.flow_task.specs.Entries.{EntryLaw};
ghost use Rattle.flow_task.specs.Exits.{exit_due};
ghost use Rattle.flow_task.specs.Known.{in_known};
ghost use Rattle.flow_task.specs.Numbers.{is_entry_number, is_exit_number};
ghost use Rattle.flow_task.specs.Kinds.{BeginsBy, is_task_number};

use crate::board::Board;
use crate::gate::{Gate, OpenGate};
use crate::input_task::InputTask;
use crate::lane_task::LaneTask;
use crate::laned::LanedTask;
use flow_exit::ExitEnd;
use flow_link::{LinkId, Mark, Outcome};
use flow_poll::Turned;
use flow_value::{Parcel, Runs};
use flow_wire::TargetEnd;
use once_cell::race::Note;
use std::alloc::{AllocError, Global};
use std::collections::VecDeque;
use std::snapshot::Snapshot;

/// What a thread turns: a block, an input that posts what it has and ends, or a lane of a block, where its jobs are done.
#[derive(Drop)]
pub struct Task<W: Runs> {
    pub(crate) number: usize,
    pub(crate) kind: Kind<W>,
    ghost numbered: { is_task_number kind number ≡ true },
    ghost begins: { ∥ BeginsBy kind ∥₁ },
}

#[derive(Drop)]
pub(crate) enum Kind<W: Runs> {
    Block(LanedTask<W>),
    Input(InputTask<W>),
    Lane(LaneTask<W>),
}

impl<W: Runs> Task<W> {
    ghost use Rattle.std.specs.Prelude.{◌≤◌, IfOk, OnErr};
    ghost use Rattle.flow_poll.specs.Turns.{Extends};
    ghost use Rattle.flow_poll.specs.declared.actor.TurnState.TheVariants.{Ended};
    ghost use Rattle.flow_task.specs.Parts.{board_of, job_in, marks_in, task_number};
    ghost use Rattle.flow_task.specs.Ended.{HasEnded};
    ghost use Rattle.flow_task.specs.Rests.{HasState, Rests};
    ghost use Rattle.flow_task.specs.TaskTurns.{HasLookedAll, HasTurned, LanesOnlyEnd};

    /// The marks of its block, in order; an input has none, nor has a lane.
    pub fn journal(&self) -> &[Mark]
        ensures { result.now ≡ marks_in self.now }
    {
        match &self.kind {
            Kind::Block(task) => task.block.journal(),
            Kind::Input(_) | Kind::Lane(_) => &[],
        }
    }

    /// Turns it: what comes next is done, at most so many events, and all its ends of links look before the answer is that nothing
    /// is to do. Where memory is out before the first event, nothing is changed but what its ends know; later, the turn ends with
    /// the events that are done. An event that needs a message id where none is left is not done, and the rest goes on.
    ///
    /// A block has ended once its last mark is Done or a fault, all its links are refused or ended, its watches can know how it has ended,
    /// and its lanes are ended; an input once its link is; a lane once its block has ended it.
    ///
    /// What takes no event is done with a budget of 0, too: a block tells how it has ended and ends its lanes, and a lane does the job that
    /// has come. A turn that did this has moved.
    pub fn turn(
        &mut self,
        alloc: Global,
        board: &Board<W>,
        budget: u32,
    ) -> Result<Turned, AllocError>
        requires of { board_of self.old ≡ board.now }
        ensures of { board_of self.new ≡ board_of self.old }
        ensures number { task_number self.new ≡ task_number self.old }
        ensures within { IfOk result (λ turned. turned.events ≤ budget) }
        ensures happens { IfOk result (λ turned. HasTurned W.meaning turned.events self.old self.new) }
        ensures state { IfOk result (λ turned. HasState turned.events turned.state self.old self.new) }
        ensures all_look { IfOk result (λ turned. turned.events ≡ 0 → HasLookedAll self.old self.new) }
        ensures still { IfOk result (λ turned. 0 < budget → turned.events ≡ 0 → Rests W.meaning self.new) }
        ensures extends { Extends (marks_in self.old) (marks_in self.new) }
        ensures nothing { budget ≡ 0 → marks_in self.new ≡ marks_in self.old }
        ensures lanes { budget ≡ 0 → LanesOnlyEnd self.old self.new }
        ensures looked { OnErr result (HasTurned W.meaning 0 self.old self.new) }
        ensures kept { OnErr result (marks_in self.new ≡ marks_in self.old) }
        ensures ended { IfOk result (λ turned. turned.state ≡ Ended → HasEnded self.new) }
    {
        self.turn_through(alloc, board, budget, &OpenGate)
    }

    /// The same, where each job goes through this gate.
    pub fn turn_through<G: Gate>(
        &mut self,
        alloc: Global,
        board: &Board<W>,
        budget: u32,
        gate: &G,
    ) -> Result<Turned, AllocError>
        requires of { board_of self.old ≡ board.now }
        ensures of { board_of self.new ≡ board_of self.old }
        ensures number { task_number self.new ≡ task_number self.old }
        ensures within { IfOk result (λ turned. turned.events ≤ budget) }
        ensures happens { IfOk result (λ turned. HasTurned W.meaning turned.events self.old self.new) }
        ensures state { IfOk result (λ turned. HasState turned.events turned.state self.old self.new) }
        ensures all_look { IfOk result (λ turned. turned.events ≡ 0 → HasLookedAll self.old self.new) }
        ensures still { IfOk result (λ turned. 0 < budget → turned.events ≡ 0 → Rests W.meaning self.new) }
        ensures extends { Extends (marks_in self.old) (marks_in self.new) }
        ensures nothing { budget ≡ 0 → marks_in self.new ≡ marks_in self.old }
        ensures lanes { budget ≡ 0 → LanesOnlyEnd self.old self.new }
        ensures looked { OnErr result (HasTurned W.meaning 0 self.old self.new) }
        ensures kept { OnErr result (marks_in self.new ≡ marks_in self.old) }
        ensures ended { IfOk result (λ turned. turned.state ≡ Ended → HasEnded self.new) }
    {
        match &mut self.kind {
            Kind::Block(task) => task.turn(alloc, board, budget, gate),
            Kind::Input(task) => task.turn(alloc, board, budget),
            Kind::Lane(task) => task.turn(alloc, gate),
        }
    }

    /// Of a lane, the number of its block and the ticket of the job that its next turn does, if one has come. None of a block or an
    /// input.
    pub fn job(&mut self) -> Option<(usize, u64)>
        ensures of { board_of self.new ≡ board_of self.old }
        ensures number { task_number self.new ≡ task_number self.old }
        ensures marks { marks_in self.new ≡ marks_in self.old }
        ensures job { result ≡ job_in self.new }
    {
        match &mut self.kind {
            Kind::Lane(task) => task.job(),
            Kind::Block(_) | Kind::Input(_) => None,
        }
    }
}

/// An input that stays open: callers post into it.
#[derive(Drop)]
pub struct Entry<W: Runs> {
    pub(crate) number: usize,
    pub(crate) input: InputTask<W>,
    /// The parcels of the values that wait behind the next one, since before the network was scattered.
    pub(crate) ready: VecDeque<Parcel>,
    ghost numbered: { is_entry_number (layout_of input.of.value.rest.plan) input.of.value.opens.items input.link number ≡ true },
    ghost law: { ∥ EntryLaw (begun_input input.of.value input.link) input.input ready.items ∥₁ },
}

/// The end of a link that leads out of the network: callers receive what comes there.
#[derive(Drop)]
pub struct Exit<W: Runs> {
    pub(crate) number: usize,
    pub(crate) of: Snapshot<Board<W>>,
    pub(crate) link: LinkId,
    pub(crate) exit: ExitEnd,
    pub(crate) end: TargetEnd,
    ghost there: { link < length (layout_of of.value.rest.plan).links },
    ghost leads: { leads_out (layout_of of.value.rest.plan) link ≡ true },
    ghost law: { ∥ ExitLaw exit ∥₁ },
    ghost knows: { in_known end ≡ exit_due (layout_of of.value.rest.plan) of.value.wires.items link exit } by { Prim.hlevel (codes, table_id_coded, content.the_row.coded) },
    ghost numbered: { is_exit_number (layout_of of.value.rest.plan) of.value.opens.items link number ≡ true },
}

/// A block of a scattered network, for a caller that wants to know how it ends.
///
/// Microsoft: `IDataflowBlock.Completion`.
#[derive(Drop)]
pub struct Watch<W: Runs> {
    pub(crate) of: Snapshot<Board<W>>,
    pub(crate) block: usize,
    /// What it knows of the cell in which the block's task tells how the block has ended.
    pub(crate) note: Note<Outcome>,
    ghost there: { block < length (layout_of of.value.rest.plan).blocks },
    ghost noted: { IsNoteOf of.value block note.cell },
}

impl<W: Runs> Watch<W> {
    ghost use Rattle.flow_link.specs.BlockCalls.{Stays};
    ghost use Rattle.flow_task.specs.Parts.{IsWatchOf, watched_block, watched_board, watched_outcome};

    /// The number of its block.
    pub fn block(&self) -> usize
        ensures { result ≡ watched_block self.now }
    {
        self.block
    }

    /// How the block has ended, if its task has told that by now. What was answered once is answered ever after. A task tells it at the
    /// end of the turn in which its block ends, or later, where there was no memory for it then.
    pub fn read(&mut self, board: &Board<W>) -> Option<Outcome>
        requires of { watched_board self.old ≡ board.now }
        ensures of { watched_board self.new ≡ watched_board self.old }
        ensures block { watched_block self.new ≡ watched_block self.old }
        ensures told { result ≡ watched_outcome self.new }
        ensures stays { Stays (watched_outcome self.old) result }
    {
        match board.cells[self.block].get_as(&mut self.note) {
            Some(outcome) => Some(*outcome),
            None => None,
        }
    }

    /// Another watch of the block, which knows what this one knows.
    pub fn again(&mut self, board: &Board<W>) -> Watch<W>
        requires of { watched_board self.old ≡ board.now }
        ensures stays { IsWatchOf self.old self.new }
        ensures again { IsWatchOf self.old result }
    {
        Watch {
            of: Snapshot::of(board),
            block: self.block,
            note: self.note.again(),
        }
    }
}

/// A network that is scattered: what its parts share, what threads turn, what callers post to and receive from, and a watch of each
/// block.
#[derive(Drop)]
pub struct Scattered<W: Runs> {
    pub board: Board<W>,
    pub tasks: Vec<Task<W>>,
    pub entries: Vec<Entry<W>>,
    pub exits: Vec<Exit<W>>,
    pub watches: Vec<Watch<W>>,
}

impl<W: Runs> Scattered<W> {
    /// Its parts, and its watches.
    pub fn into_parts(self) -> (Parts<W>, Vec<Watch<W>>)
        ensures board { result.0.board ≡ self.board }
        ensures tasks { result.0.tasks ≡ self.tasks }
        ensures entries { result.0.entries ≡ self.entries }
        ensures exits { result.0.exits ≡ self.exits }
        ensures watches { result.1 ≡ self.watches }
    {
        let Scattered {
            board,
            tasks,
            entries,
            exits,
            watches,
        } = self;
        let parts = Parts {
            board,
            tasks,
            entries,
            exits,
        };
        (parts, watches)
    }
}

/// All parts of a scattered network, to be put together again.
#[derive(Drop)]
pub struct Parts<W: Runs> {
    pub board: Board<W>,
    pub tasks: Vec<Task<W>>,
    pub entries: Vec<Entry<W>>,
    pub exits: Vec<Exit<W>>,
}
