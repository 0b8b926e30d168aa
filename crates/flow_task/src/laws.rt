//! What may go to another thread. Each law stands on a function that does nothing: whoever calls it has the whole law.
ghost use Rattle.std.specs.Prelude.{◌≡◌, Some};
ghost use Rattle.std.specs.Thread.{IsSend};
ghost use Rattle.flow_value.specs.contracts.parcel.Parcel as parcel;
ghost use Rattle.flow_value.specs.contracts.value.Value as content;
ghost use Rattle.flow_link.specs.contracts.trace.Mark as mark;
ghost use Rattle.flow_link.specs.contracts.trace.Outcome as outcome;
ghost use Rattle.once_cell.specs.contracts.race.note.Note as note;
ghost use Rattle.flow_link.specs.declared.trace.Outcome.{Outcome};
ghost use Rattle.flow_intake.specs.contracts.intake.Intake as intake;
ghost use Rattle.flow_outlet.specs.contracts.outlet.Outlet as outlet;
ghost use Rattle.flow_spread.specs.contracts.spread.Spread as spread;
ghost use Rattle.flow_block.specs.contracts.node.Node as node;
ghost use Rattle.flow_exit.specs.contracts.exit_end.ExitEnd as exit_end;
ghost use Rattle.flow_input.specs.contracts.input.Input as input;
ghost use Rattle.flow_wire.specs.contracts.source.SourceEnd as source;
ghost use Rattle.flow_wire.specs.contracts.target.TargetEnd as target;
ghost use Rattle.flow_task.specs.Cells.{last_outcome};
ghost use Rattle.flow_task.specs.Ended.{HasEnded, StaysSo};
ghost use Rattle.flow_task.specs.Parts.{IsWatchOf, board_of, marks_in, task_number, watched_block, watched_board, watched_outcome};
ghost use Rattle.flow_task.specs.contracts.numbered.Entry as entry;
ghost use Rattle.flow_task.specs.contracts.numbered.Exit as exit;
ghost use Rattle.flow_task.specs.contracts.numbered.Task as task;
ghost use Rattle.flow_task.specs.contracts.numbered.Watch as watch;

use crate::numbered::{Kind, Task, Watch};
use flow_exit::ExitEnd;
use flow_input::Input;
use flow_intake::Intake;
use flow_lane::job_lanes_cross;
use flow_link::{Mark, Outcome};
use flow_outlet::Outlet;
use flow_spread::Spread;
use flow_value::{Parcel, Runs, Value};
use flow_wire::{SourceEnd, TargetEnd};
use once_cell::race::Note;

/// A type whose values may go to another thread.
fn crosses<T: Send>()
    ensures { IsSend T.row }
{}

/// A value may.
pub fn values_cross()
    ensures { IsSend content.the_row }
{
    crosses::<Value>();
}

/// A mark of a journal may.
pub fn marks_cross()
    ensures { IsSend mark.the_row }
{
    crosses::<Mark>();
}

/// A port may.
pub fn intakes_cross()
    ensures { IsSend intake.the_row }
{
    crosses::<Intake>();
}

/// What a block has to give over its links may.
pub fn outlets_cross()
    ensures { IsSend outlet.the_row }
{
    crosses::<Outlet>();
}

/// What a block that copies has to give may.
pub fn spreads_cross()
    ensures { IsSend spread.the_row }
{
    crosses::<Spread>();
}

/// So a block with its journal may.
pub fn nodes_cross()
    ensures { IsSend node.the_row }
{
    values_cross();
    marks_cross();
    intakes_cross();
    outlets_cross();
    spreads_cross();
}

/// What is posted from outside may.
pub fn inputs_cross()
    ensures { IsSend input.the_row }
{
    crosses::<Input>();
}

/// What is received outside may.
pub fn exit_ends_cross()
    ensures { IsSend exit_end.the_row }
{
    crosses::<ExitEnd>();
}

/// An end of a link may.
pub fn link_ends_cross()
    ensures source { IsSend source.the_row }
    ensures target { IsSend target.the_row }
{
    crosses::<SourceEnd>();
    crosses::<TargetEnd>();
}

/// What is known of the end of a block may.
fn notes_cross()
    ensures { IsSend (note.the_row outcome.the_row) }
{
    crosses::<Note<Outcome>>();
}

/// So a task may go to another thread, where a work may go there and threads may share it: the jobs of lanes have shares of works. Call
/// it before a task is sent there.
pub fn tasks_cross<W: Runs + Send + Sync>()
    ensures { IsSend (task.the_row W.row (record { meaning = W.meaning }) (record { eq = W.eq }) (record {})) }
{
    nodes_cross();
    inputs_cross();
    link_ends_cross();
    notes_cross();
    job_lanes_cross::<W>();
}

/// So may an entry.
pub fn entries_cross<W: Runs>()
    ensures { IsSend (entry.the_row W.row (record { meaning = W.meaning }) (record { eq = W.eq })) }
{
    inputs_cross();
    link_ends_cross();
    parcels_cross();
}

/// A value that is ready to be given may.
fn parcels_cross()
    ensures { IsSend parcel.the_row }
{
    crosses::<Parcel>();
}

/// So may an exit.
pub fn exits_cross<W: Runs>()
    ensures { IsSend (exit.the_row W.row (record { meaning = W.meaning }) (record { eq = W.eq })) }
{
    exit_ends_cross();
    link_ends_cross();
}

/// So may a watch.
pub fn watches_cross<W: Runs>()
    ensures { IsSend (watch.the_row W.row (record { meaning = W.meaning }) (record { eq = W.eq })) }
{
    notes_cross();
}

/// Where a task of a block has ended, a watch of that block that knows how it ended knows what the last mark of the task says.
pub fn same_end<W: Runs>(watch: &mut Watch<W>, task: &mut Task<W>)
    requires board { watched_board watch.old ≡ board_of task.old }
    requires block { watched_block watch.old ≡ task_number task.old }
    ensures watch { IsWatchOf watch.old watch.new }
    ensures task { StaysSo task.old task.new }
    ensures agrees { HasEnded task.old → (how : Outcome) → watched_outcome watch.old ≡ Some how →
        last_outcome (marks_in task.old) ≡ Some how }
{
    match &mut task.kind {
        Kind::Block(task) => watch.note.compare(task.block.note.again()),
        Kind::Input(_) | Kind::Lane(_) => {}
    }
}

/// Two watches of a block that know how it has ended know the same.
pub fn watches_agree<W: Runs>(one: &mut Watch<W>, other: &mut Watch<W>)
    requires board { watched_board one.old ≡ watched_board other.old }
    requires block { watched_block one.old ≡ watched_block other.old }
    ensures one { IsWatchOf one.old one.new }
    ensures other { IsWatchOf other.old other.new }
    ensures agrees { (how so : Outcome) → watched_outcome one.old ≡ Some how → watched_outcome other.old ≡ Some so → how ≡ so }
{
    one.note.compare(other.note.again());
}
