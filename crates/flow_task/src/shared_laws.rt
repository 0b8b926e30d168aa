//! What several threads may share. Each law stands on a function that does nothing: whoever calls it has the whole law.
ghost use Rattle.std.specs.Thread.{IsSync};
ghost use Rattle.flow_value.specs.contracts.value.Value as content;
ghost use Rattle.once_cell.specs.contracts.race.once_box.OnceBox as once_box;
ghost use Rattle.flow_link.specs.contracts.plan.Plan as plan;
ghost use Rattle.flow_link.specs.contracts.trace.LinkState as line;
ghost use Rattle.flow_link.specs.contracts.trace.Mark as mark;
ghost use Rattle.flow_link.specs.contracts.trace.Outcome as outcome;
ghost use Rattle.flow_intake.specs.contracts.intake.Intake as intake;
ghost use Rattle.flow_outlet.specs.contracts.outlet.Outlet as outlet;
ghost use Rattle.flow_spread.specs.contracts.spread.Spread as spread;
ghost use Rattle.flow_block.specs.contracts.node.Node as node;
ghost use Rattle.flow_block.specs.contracts.planned.Route as route;
ghost use Rattle.flow_exit.specs.contracts.exit_end.ExitEnd as exit_end;
ghost use Rattle.flow_input.specs.contracts.input.Input as input;
ghost use Rattle.flow_wire.specs.contracts.table.Wire as wire;
ghost use Rattle.flow_task.specs.contracts.board.Board as board;

use flow_block::Route;
use flow_exit::ExitEnd;
use flow_input::Input;
use flow_intake::Intake;
use flow_link::{LinkState, Mark, Outcome, Plan};
use flow_outlet::Outlet;
use flow_spread::Spread;
use flow_value::Value;
use flow_wire::Wire;
use once_cell::race::OnceBox;

/// A type whose values threads may share.
fn is_shared<T: Sync>()
    ensures { IsSync T.row }
{}

/// They may share a value.
fn values_are_shared()
    ensures { IsSync content.the_row }
{
    is_shared::<Value>();
}

/// They may share a mark of a journal.
fn marks_are_shared()
    ensures { IsSync mark.the_row }
{
    is_shared::<Mark>();
}

/// They may share a port.
fn intakes_are_shared()
    ensures { IsSync intake.the_row }
{
    is_shared::<Intake>();
}

/// They may share what a block has to give over its links.
fn outlets_are_shared()
    ensures { IsSync outlet.the_row }
{
    is_shared::<Outlet>();
}

/// They may share what a block that copies has to give.
fn spreads_are_shared()
    ensures { IsSync spread.the_row }
{
    is_shared::<Spread>();
}

/// So they may share a block with its journal.
fn nodes_are_shared()
    ensures { IsSync node.the_row }
{
    values_are_shared();
    marks_are_shared();
    intakes_are_shared();
    outlets_are_shared();
    spreads_are_shared();
}

/// They may share what is posted from outside.
fn inputs_are_shared()
    ensures { IsSync input.the_row }
{
    is_shared::<Input>();
}

/// They may share what is received outside.
fn exit_ends_are_shared()
    ensures { IsSync exit_end.the_row }
{
    is_shared::<ExitEnd>();
}

/// They may share the state of a link.
fn lines_are_shared()
    ensures { IsSync line.the_row }
{
    is_shared::<LinkState>();
}

/// They may share the way of a link.
fn routes_are_shared()
    ensures { IsSync route.the_row }
{
    is_shared::<Route>();
}

/// They may share a wire.
fn wires_are_shared()
    ensures { IsSync wire.the_row }
{
    is_shared::<Wire>();
}

/// They may share the cell in which it is told how a block has ended.
fn cells_are_shared()
    ensures { IsSync (once_box.the_row outcome.the_row) }
{
    is_shared::<OnceBox<Outcome>>();
}

/// They may share a plan, where they may share its works.
fn plans_are_shared<W: Sync>()
    ensures { IsSync (plan.the_row W.row) }
{
    is_shared::<Plan<W>>();
}

/// So they may share a board. Call it before one is shared.
pub fn boards_are_shared<W: Sync>()
    ensures { IsSync (board.the_row W.row) }
{
    plans_are_shared::<W>();
    nodes_are_shared();
    inputs_are_shared();
    exit_ends_are_shared();
    lines_are_shared();
    routes_are_shared();
    wires_are_shared();
    cells_are_shared();
}
