//! Room for the parts of a network, before anything is changed.
ghost use Rattle.std.specs.Prelude.{◌≡◌, IfOk, length, map, take};
ghost use Rattle.flow_link.specs.Planned.{layout_of};
ghost use Rattle.flow_block.specs.Planned.{links_out};
ghost use Rattle.flow_task.specs.Entries.{waits_in};
ghost use Rattle.flow_task.specs.Frames.{IsRoomFor};
ghost use Rattle.flow_task.specs.Inputs.{links_of_inputs, stays_open};
ghost use Rattle.flow_link.specs.Lists.{below};
ghost use Rattle.flow_core.specs.State.{NetState};
ghost use Rattle.flow_exec.specs.Works.{works_of};
ghost use Rattle.flow_task.specs.Absent.{AllThere};
ghost use Rattle.flow_task.specs.Orders.{AreInOrder};
ghost use Rattle.flow_task.specs.Parts.{AllEntriesOf, AllExitsOf, AllTasksOf, AllWatchesOf, board_begun, board_lines, board_plan, exit_state, marks_in, watched_block};
ghost use Rattle.flow_task.specs.Untouched.{AllUntouched};
ghost use Rattle.flow_task.specs.Wired.{AreWired, starts_of};

use crate::board::Board;
use crate::lane_rows::LaneRows;
use crate::make::{Lists, Room};
use crate::numbered::{Entry, Exit, Scattered, Task, Watch};
use crate::sources::Sources;
use crate::targets::Targets;
use crate::wires::Wired;
use flow_input::Input;
use flow_link::{Ending, LinkId, LinkSource, LinkTarget, Outcome, Plan};
use flow_moves::NetParts;
use flow_value::{Parcel, Runs, Value};
use once_cell::race::OnceBox;
use std::alloc::{AllocError, Global};
use std::collections::VecDeque;
use std::mem::replace;
use std::snapshot::Snapshot;

/// The lanes of all blocks, and room for the ends of all links and for all parts; which links are of inputs and which of exits; and
/// which inputs stay open, with the parcels of what waits there.
#[derive(Drop)]
pub struct Frame<W: Runs> {
    pub(crate) sources: Sources,
    pub(crate) targets: Targets,
    pub(crate) lanes: LaneRows<W>,
    pub(crate) tasks: Vec<Task<W>>,
    pub(crate) entries: Vec<Entry<W>>,
    pub(crate) exits: Vec<Exit<W>>,
    pub(crate) watches: Vec<Watch<W>>,
    pub(crate) inputs: Vec<LinkId>,
    pub(crate) outs: Vec<LinkId>,
    pub(crate) opens: Vec<bool>,
    /// Of each input the parcels of what waits there, if it stays open.
    pub(crate) waiting: Vec<VecDeque<Parcel>>,
    pub(crate) cells: Vec<OnceBox<Outcome>>,
}

impl<W: Runs> Frame<W> {
    /// Room for the parts of this network.
    pub fn new(alloc: Global, apart: &NetParts<W>) -> Result<Frame<W>, AllocError>
        requires { length apart.now.nodes.items ≡ length (layout_of apart.now.plan).blocks }
        ensures { IfOk result (λ frame. IsRoomFor (layout_of apart.now.plan) apart.now.nodes.items apart.now.inputs.items apart.now.exits.items frame) }
    {
        let blocks = apart.nodes.len();
        let inputs = apart.inputs.len();
        let exits = apart.exits.len();
        let lanes = LaneRows::new(alloc, &apart.plan)?;
        let tasks = blocks + inputs + lanes.lanes.len();
        Ok(Frame {
            sources: Sources::with_room(alloc, &apart.nodes, inputs)?,
            targets: Targets::with_room(alloc, &apart.nodes, exits)?,
            tasks: Vec::with_capacity(alloc, tasks)?,
            entries: Vec::with_capacity(alloc, inputs)?,
            exits: Vec::with_capacity(alloc, exits)?,
            watches: Vec::with_capacity(alloc, blocks)?,
            lanes,
            inputs: input_links(alloc, &apart.plan)?,
            outs: exit_links(alloc, &apart.plan)?,
            opens: open_inputs(alloc, &apart.inputs)?,
            waiting: waiting_parcels(alloc, &apart.inputs)?,
            cells: empty_cells(alloc, blocks)?,
        })
    }
}

impl<W: Runs> Frame<W> {
    /// The parts of the network for which this is the room, with the wires of its links. It was scattered as it was then.
    pub fn fill(
        self,
        alloc: Global,
        mut apart: NetParts<W>,
        wired: Wired,
        begun: Snapshot<NetParts<W>>,
    ) -> Scattered<W>
        ghost net: { NetState }
        requires nodes { net.nodes ≡ apart.nodes.items }
        requires inputs { net.inputs ≡ apart.inputs.items }
        requires exits { net.exits ≡ apart.exits.items }
        requires lines { length apart.lines.items ≡ length (layout_of apart.plan).links }
        requires room { IsRoomFor (layout_of apart.plan) net.nodes net.inputs net.exits self }
        requires in_order { AreInOrder (layout_of apart.plan) (works_of W.meaning (layout_of apart.plan)) net.nodes net.inputs net.exits }
        requires wired { AreWired (starts_of (layout_of apart.plan) net) (length (layout_of apart.plan).links) wired.wires.items
            wired.sources.items wired.targets.items }
        requires nodes_begun { begun.value.nodes.items ≡ net.nodes }
        requires inputs_begun { begun.value.inputs.items ≡ net.inputs }
        requires exits_begun { begun.value.exits.items ≡ net.exits }
        ensures plan { board_plan result.board ≡ apart.plan }
        ensures begun { board_begun result.board ≡ begun }
        ensures lines { board_lines result.board ≡ apart.lines.items }
        ensures tasks_of { AllTasksOf result.board result.tasks.items }
        ensures entries_of { AllEntriesOf result.board result.entries.items }
        ensures exits_of { AllExitsOf result.board result.exits.items }
        ensures there { AllThere result.board result.tasks.items result.entries.items result.exits.items }
        ensures watches_of { AllWatchesOf result.board result.watches.items }
        ensures watched { map watched_block result.watches.items ≡ below (length (layout_of apart.plan).blocks) }
        ensures journals { map marks_in (take (length net.nodes) result.tasks.items) ≡ map (λ node. node.journal) net.nodes }
        ensures received { map exit_state result.exits.items ≡ net.exits }
        ensures untouched { AllUntouched result.board result.entries.items }
    {
        let Frame {
            mut sources,
            mut targets,
            lanes,
            tasks,
            entries,
            exits,
            watches,
            inputs,
            outs,
            opens,
            waiting,
            cells,
        } = self;
        let Wired {
            wires,
            sources: source_ends,
            targets: target_ends,
        } = wired;
        sources.deal(&apart.plan, source_ends);
        targets.deal(&apart.plan, target_ends);
        let lists = take_lists(alloc, &mut apart);
        let board = Board {
            rest: apart,
            begun,
            wires,
            inputs,
            exits: outs,
            opens,
            cells,
        };
        let room = Room {
            tasks,
            entries,
            exits,
            watches,
        };
        board.make_parts(lists, sources, targets, waiting, lanes, room)
    }
}

/// The links of inputs.
fn input_links<W>(alloc: Global, plan: &Plan<W>) -> Result<Vec<LinkId>, AllocError>
    ensures { IfOk result (λ links. links.items ≡ links_of_inputs (layout_of plan.now)) }
{
    let mut links = Vec::new(alloc);
    for id in 0..plan.link_count() {
        match plan.link(id).source {
            LinkSource::Input(_) => links.push(id)?,
            LinkSource::Block(_) => {}
        }
    }
    Ok(links)
}

/// The links that lead out of the network.
fn exit_links<W>(alloc: Global, plan: &Plan<W>) -> Result<Vec<LinkId>, AllocError>
    ensures { IfOk result (λ links. links.items ≡ links_out (layout_of plan.now)) }
{
    let mut links = Vec::new(alloc);
    for id in 0..plan.link_count() {
        match plan.link(id).target {
            LinkTarget::Exit => links.push(id)?,
            LinkTarget::Port(..) => {}
        }
    }
    Ok(links)
}

/// Of each input, whether it stays open.
fn open_inputs(alloc: Global, inputs: &[Input]) -> Result<Vec<bool>, AllocError>
    ensures { IfOk result (λ opens. opens.items ≡ map stays_open inputs.now) }
{
    let mut opens = Vec::with_capacity(alloc, inputs.len())?;
    for input in inputs {
        opens.push_reserved(input.ending() == Ending::Open);
    }
    Ok(opens)
}

/// Of each input, the parcels of the values that wait there, if it stays open.
fn waiting_parcels(alloc: Global, inputs: &[Input]) -> Result<Vec<VecDeque<Parcel>>, AllocError>
    ensures { IfOk result (λ waiting. map (λ row. row.items) waiting.items ≡ map waits_in inputs.now) }
{
    let mut waiting = Vec::with_capacity(alloc, inputs.len())?;
    for input in inputs {
        waiting.push_reserved(parcels_of(alloc, waiting_in(input))?);
    }
    Ok(waiting)
}

/// The values that wait at an input, if it stays open.
fn waiting_in(input: &Input) -> &[Value]
    ensures { result.now ≡ waits_in input.now }
{
    if input.ending() != Ending::Open {
        return &[];
    }
    match input.posted().get(input.sent()..) {
        Some(values) => values,
        None => &[],
    }
}

/// A parcel of each of these values.
fn parcels_of(alloc: Global, values: &[Value]) -> Result<VecDeque<Parcel>, AllocError>
    ensures { IfOk result (λ parcels. parcels.items ≡ values.now) }
{
    let mut parcels = Vec::with_capacity(alloc, values.len())?;
    for value in values {
        parcels.push_reserved(Parcel::of(alloc, value)?);
    }
    Ok(VecDeque::from_vec(parcels))
}

/// Cells in which nothing is told yet.
fn empty_cells(alloc: Global, count: usize) -> Result<Vec<OnceBox<Outcome>>, AllocError>
    ensures { IfOk result (λ cells. length cells.items ≡ count) }
{
    let mut cells = Vec::with_capacity(alloc, count)?;
    for place in 0..count {
        cells.push_reserved(OnceBox::new(alloc));
    }
    Ok(cells)
}

/// Takes the blocks, inputs and exits out of a network that is apart.
fn take_lists<W>(alloc: Global, apart: &mut NetParts<W>) -> Lists
    ensures nodes { result.nodes.items ≡ apart.old.nodes.items }
    ensures inputs { result.inputs.items ≡ apart.old.inputs.items }
    ensures exits { result.exits.items ≡ apart.old.exits.items }
    ensures plan { apart.new.plan ≡ apart.old.plan }
    ensures lines { apart.new.lines ≡ apart.old.lines }
{
    Lists {
        nodes: replace(&mut apart.nodes, Vec::new(alloc)),
        inputs: replace(&mut apart.inputs, Vec::new(alloc)),
        exits: replace(&mut apart.exits, Vec::new(alloc)),
    }
}
