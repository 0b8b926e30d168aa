//! The parts of a scattered network are made, each with its number.
ghost use Rattle.std.specs.Prelude.{◌≡◌, ℕ, ◌<◌, ◌≤◌, ◌+◌, true, [], length, map, get_or, drop, take, vec_capacity};
ghost use Rattle.flow_link.specs.Lists.{below, numbers_from};
ghost use Rattle.flow_link.specs.Planned.{layout_of};
ghost use Rattle.flow_block_law.specs.NodeLaw.{NodeLaw};
ghost use Rattle.flow_core.specs.Inputs.{input_of};
ghost use Rattle.flow_core.specs.State.{no_node, node_at};
ghost use Rattle.flow_exec.specs.Works.{works_of};
ghost use Rattle.flow_block.specs.Planned.{leads_out, links_out};
ghost use Rattle.flow_exit.specs.Exit.{fresh_exit};
ghost use Rattle.flow_exit.specs.ExitKeeps.{ExitLaw};
ghost use Rattle.flow_input.specs.Input.{no_input};
ghost use Rattle.flow_input.specs.InputKeeps.{InputLaw};
ghost use Rattle.flow_task.specs.Begun.{begun_in, begun_input};
ghost use Rattle.flow_task.specs.Entries.{waits_in};
ghost use Rattle.flow_task.specs.Exits.{exit_due};
ghost use Rattle.flow_task.specs.Inputs.{begins_at_input, input_due, links_of_inputs, stays_open};
ghost use Rattle.flow_task.specs.Lanes.{lane_count};
ghost use Rattle.flow_task.specs.Known.{in_known, ins_due, out_known, outs_due};
ghost use Rattle.flow_task.specs.Makes.{InputsMade};
ghost use Rattle.flow_task.specs.Numbers.{entry_count, is_entry_number, is_exit_number, is_input_number, is_lane_number, task_count, turned_count};
ghost use Rattle.flow_task.specs.Parts.{AllEntriesOf, AllExitsOf, AllTasksOf, AllWatchesOf, board_of, entry_board, entry_number, exit_number, exit_state, marks_in, task_number, watched_block};
ghost use Rattle.flow_task.specs.Untouched.{AllUntouched, IsUntouched};
ghost use Rattle.flow_task.specs.Orders.{AreInOrder};
ghost use Rattle.flow_task.specs.Absent.{AllThere};

use crate::board::Board;
use crate::input_task::InputTask;
use crate::lane_rows::{FreeLanes, LaneRows, lanes_in};
use crate::lane_task::{BlockLane, LaneTask};
use crate::laned::LanedTask;
use crate::numbered::{Entry, Exit, Kind, Scattered, Task, Watch};
use crate::sources::Sources;
use crate::targets::Targets;
use crate::task::BlockTask;
use crate::turn::Station;
use flow_block::Node;
use flow_exit::ExitEnd;
use flow_input::Input;
use flow_link::LinkId;
use flow_value::{Parcel, Runs};
use flow_wire::{SourceEnd, TargetEnd};
use std::collections::VecDeque;
use std::snapshot::Snapshot;

/// Room for all parts of a network.
#[derive(Drop)]
pub(crate) struct Room<W: Runs> {
    pub(crate) tasks: Vec<Task<W>>,
    pub(crate) entries: Vec<Entry<W>>,
    pub(crate) exits: Vec<Exit<W>>,
    pub(crate) watches: Vec<Watch<W>>,
}

/// The blocks, inputs and exits of a network.
#[derive(Drop)]
pub(crate) struct Lists {
    pub(crate) nodes: Vec<Node>,
    pub(crate) inputs: Vec<Input>,
    pub(crate) exits: Vec<ExitEnd>,
}

impl<W: Runs> Board<W> {
    /// Makes the tasks of the blocks, for which there is room.
    pub(crate) fn make_blocks(
        &self,
        nodes: Vec<Node>,
        outs: Vec<Vec<SourceEnd>>,
        ins: Vec<Vec<Vec<TargetEnd>>>,
        rows: Vec<Option<FreeLanes<W>>>,
        tasks: &mut Vec<Task<W>>,
    )
        requires count { length nodes.items ≡ length (layout_of self.now.rest.plan).blocks }
        requires begun { nodes.items ≡ (begun_in self.now).nodes }
        requires laws { (b : ℕ) → b < length (layout_of self.now.rest.plan).blocks → ∥ NodeLaw (layout_of self.now.rest.plan)
            (works_of W.meaning (layout_of self.now.rest.plan)) b (get_or nodes.items b no_node) ∥₁ }
        requires outs { map (λ row. map out_known row.items) outs.items ≡ map (λ b. outs_due (layout_of self.now.rest.plan)
            self.now.wires.items b (get_or nodes.items b no_node)) (below (length (layout_of self.now.rest.plan).blocks)) }
        requires ins { map (λ ports. map (λ row. map in_known row.items) ports.items) ins.items ≡ map (λ b. ins_due
            (layout_of self.now.rest.plan) self.now.wires.items b (get_or nodes.items b no_node))
            (below (length (layout_of self.now.rest.plan).blocks)) }
        requires rows { length rows.items ≡ length (layout_of self.now.rest.plan).blocks }
        requires none { tasks.old.items ≡ [] }
        requires room { length (layout_of self.now.rest.plan).blocks ≤ vec_capacity tasks.old }
        ensures of { AllTasksOf self.now tasks.new.items }
        ensures numbers { map task_number tasks.new.items ≡ below (length (layout_of self.now.rest.plan).blocks) }
        ensures journals { map marks_in tasks.new.items ≡ map (λ node. node.journal) nodes.items }
        ensures room { vec_capacity tasks.new ≡ vec_capacity tasks.old }
    {
        let mut outs = VecDeque::from_vec(outs);
        let mut ins = VecDeque::from_vec(ins);
        let mut rows = VecDeque::from_vec(rows);
        let mut number = 0;
        for node in nodes {
            let Some(outs) = outs.pop_front() else {
                unreachable!()
            };
            let Some(ins) = ins.pop_front() else {
                unreachable!()
            };
            let Some(lanes) = rows.pop_front() else {
                unreachable!()
            };
            tasks.push_reserved(self.make_block(number, node, outs, ins, lanes));
            number += 1;
        }
    }

    /// Makes the task of a block.
    fn make_block(
        &self,
        number: usize,
        node: Node,
        outs: Vec<SourceEnd>,
        ins: Vec<Vec<TargetEnd>>,
        lanes: Option<FreeLanes<W>>,
    ) -> Task<W>
        requires there { number < length (layout_of self.now.rest.plan).blocks }
        requires law { ∥ NodeLaw (layout_of self.now.rest.plan) (works_of W.meaning (layout_of self.now.rest.plan)) number node ∥₁ }
        requires outs { map out_known outs.items ≡ outs_due (layout_of self.now.rest.plan) self.now.wires.items number node }
        requires ins { map (λ row. map in_known row.items) ins.items ≡
            ins_due (layout_of self.now.rest.plan) self.now.wires.items number node }
        requires begun { node ≡ node_at (begun_in self.now) number }
        ensures of { board_of result ≡ self.now }
        ensures number { task_number result ≡ number }
        ensures journal { marks_in result ≡ node.journal }
    {
        let block = BlockTask {
            of: Snapshot::of(self),
            number,
            node,
            outs,
            ins,
            at: Station::In(0, 0),
            note: self.cells[number].note(),
            told: false,
        };
        Task {
            number,
            kind: Kind::Block(LanedTask {
                block,
                lanes: lanes_in(lanes),
            }),
        }
    }

    /// Makes the tasks of the inputs that are turned, and the entries, for which there is room. The first entry has this number.
    pub(crate) fn make_inputs(
        &self,
        inputs: Vec<Input>,
        ends: Vec<SourceEnd>,
        waiting: Vec<VecDeque<Parcel>>,
        first: usize,
        tasks: &mut Vec<Task<W>>,
        entries: &mut Vec<Entry<W>>,
    )
        requires first { first ≡ task_count (layout_of self.now.rest.plan) self.now.opens.items }
        requires waiting { map (λ row. row.items) waiting.items ≡ map waits_in inputs.items }
        requires count { length inputs.items ≡ length self.now.opens.items }
        requires begun { inputs.items ≡ (begun_in self.now).inputs }
        requires laws { (q : ℕ) → q < length self.now.opens.items → ∥ InputLaw (get_or inputs.items q no_input) ∥₁ }
        requires ends { map out_known ends.items ≡ map (λ q. input_due (layout_of self.now.rest.plan) self.now.wires.items
            (get_or (links_of_inputs (layout_of self.now.rest.plan)) q 0) (get_or inputs.items q no_input))
            (below (length self.now.opens.items)) }
        requires of { AllTasksOf self.now tasks.old.items }
        requires numbers { map task_number tasks.old.items ≡ below (length (layout_of self.now.rest.plan).blocks) }
        requires none { entries.old.items ≡ [] }
        requires room { task_count (layout_of self.now.rest.plan) self.now.opens.items ≤ vec_capacity tasks.old }
        requires entries_room { entry_count (layout_of self.now.rest.plan) self.now.opens.items ≤ vec_capacity entries.old }
        ensures of { AllTasksOf self.now tasks.new.items }
        ensures numbers { map task_number tasks.new.items ≡
            below (turned_count (layout_of self.now.rest.plan) self.now.opens.items) }
        ensures room { vec_capacity tasks.new ≡ vec_capacity tasks.old }
        ensures blocks { take (length tasks.old.items) tasks.new.items ≡ tasks.old.items }
        ensures entries_of { AllEntriesOf self.now entries.new.items }
        ensures entry_numbers { map entry_number entries.new.items ≡ numbers_from
            (task_count (layout_of self.now.rest.plan) self.now.opens.items) (entry_count (layout_of self.now.rest.plan) self.now.opens.items) }
        ensures untouched { AllUntouched self.now entries.new.items }
    {
        let mut ends = VecDeque::from_vec(ends);
        let mut waiting = VecDeque::from_vec(waiting);
        let mut place = 0;
        for input in inputs {
            let Some(end) = ends.pop_front() else {
                unreachable!()
            };
            let Some(ready) = waiting.pop_front() else {
                unreachable!()
            };
            let part = self.make_input(self.inputs[place], input, end);
            self.put_input(place, first, part, ready, tasks, entries);
            place += 1;
        }
    }

    /// What is turned of an input becomes a task, or with the parcels of what waits there an entry.
    fn put_input(
        &self,
        place: usize,
        first: usize,
        part: InputTask<W>,
        ready: VecDeque<Parcel>,
        tasks: &mut Vec<Task<W>>,
        entries: &mut Vec<Entry<W>>,
    )
        requires there { place < length self.now.opens.items }
        requires first { first ≡ task_count (layout_of self.now.rest.plan) self.now.opens.items }
        requires its { part.of.value ≡ self.now }
        requires link { part.link ≡ get_or (links_of_inputs (layout_of self.now.rest.plan)) place 0 }
        requires begun { part.input ≡ input_of (begun_in self.now) place }
        requires waiting { ready.items ≡ waits_in part.input }
        requires made { InputsMade self.now place tasks.old.items entries.old.items }
        requires room { task_count (layout_of self.now.rest.plan) self.now.opens.items ≤ vec_capacity tasks.old }
        requires entries_room { entry_count (layout_of self.now.rest.plan) self.now.opens.items ≤ vec_capacity entries.old }
        ensures made { InputsMade self.now (place + 1) tasks.new.items entries.new.items }
        ensures blocks { take (length tasks.old.items) tasks.new.items ≡ tasks.old.items }
        ensures room { vec_capacity tasks.new ≡ vec_capacity tasks.old }
        ensures entries_room { vec_capacity entries.new ≡ vec_capacity entries.old }
    {
        if self.opens[place] {
            let number = first + entries.len();
            entries.push_reserved(self.make_entry(number, part, ready));
        } else {
            tasks.push_reserved(self.make_turned(tasks.len(), part));
        }
    }

    /// An input as an entry: what was taken up to now is told no more, and these are the parcels of what waits there.
    fn make_entry(
        &self,
        number: usize,
        mut input: InputTask<W>,
        mut ready: VecDeque<Parcel>,
    ) -> Entry<W>
        requires its { input.of.value ≡ self.now }
        requires number { is_entry_number (layout_of self.now.rest.plan) self.now.opens.items input.link number ≡ true }
        requires begun { input.input ≡ begun_input self.now input.link }
        requires stays_open { stays_open input.input ≡ true }
        requires waiting { ready.items ≡ drop input.input.sent input.input.posted }
        ensures of { entry_board result ≡ self.now }
        ensures number { entry_number result ≡ number }
        ensures untouched { IsUntouched self.now result }
    {
        input.pass_taken();
        input.put_first(&mut ready);
        Entry {
            number,
            input,
            ready,
        }
    }

    /// An input as a task.
    fn make_turned(&self, number: usize, input: InputTask<W>) -> Task<W>
        requires its { input.of.value ≡ self.now }
        requires number { is_input_number (layout_of self.now.rest.plan) self.now.opens.items input.link number ≡ true }
        requires begun { input.input ≡ begun_input self.now input.link }
        ensures of { board_of result ≡ self.now }
        ensures number { task_number result ≡ number }
    {
        Task {
            number,
            kind: Kind::Input(input),
        }
    }

    /// Makes what is turned of an input.
    fn make_input(&self, link: LinkId, input: Input, out: SourceEnd) -> InputTask<W>
        requires there { link < length (layout_of self.now.rest.plan).links }
        requires begins { begins_at_input (layout_of self.now.rest.plan) link ≡ true }
        requires law { ∥ InputLaw input ∥₁ }
        requires known { out_known out ≡ input_due (layout_of self.now.rest.plan) self.now.wires.items link input }
        ensures of { result.of.value ≡ self.now }
        ensures link { result.link ≡ link }
        ensures input { result.input ≡ input }
    {
        InputTask {
            of: Snapshot::of(self),
            link,
            input,
            out,
        }
    }

    /// Makes the tasks of the lanes, behind the others. There is room for them.
    pub(crate) fn make_lanes(&self, lanes: Vec<BlockLane<W>>, tasks: &mut Vec<Task<W>>)
        requires count { length lanes.items ≡ lane_count (layout_of self.now.rest.plan) }
        requires of { AllTasksOf self.now tasks.old.items }
        requires numbers { map task_number tasks.old.items ≡
            below (turned_count (layout_of self.now.rest.plan) self.now.opens.items) }
        requires room { task_count (layout_of self.now.rest.plan) self.now.opens.items ≤ vec_capacity tasks.old }
        ensures of { AllTasksOf self.now tasks.new.items }
        ensures numbers { map task_number tasks.new.items ≡
            below (task_count (layout_of self.now.rest.plan) self.now.opens.items) }
        ensures others { take (length tasks.old.items) tasks.new.items ≡ tasks.old.items }
    {
        for lane in lanes {
            tasks.push_reserved(self.make_lane(tasks.len(), lane));
        }
    }

    /// A lane as a task.
    fn make_lane(&self, number: usize, its: BlockLane<W>) -> Task<W>
        requires { is_lane_number (layout_of self.now.rest.plan) self.now.opens.items number ≡ true }
        ensures of { board_of result ≡ self.now }
        ensures number { task_number result ≡ number }
    {
        Task {
            number,
            kind: Kind::Lane(LaneTask {
                of: Snapshot::of(self),
                its,
            }),
        }
    }

    /// Makes a watch of each block, for which there is room.
    pub(crate) fn make_watches(&self, watches: &mut Vec<Watch<W>>)
        requires none { watches.old.items ≡ [] }
        requires room { length (layout_of self.now.rest.plan).blocks ≤ vec_capacity watches.old }
        ensures of { AllWatchesOf self.now watches.new.items }
        ensures blocks { map watched_block watches.new.items ≡ below (length (layout_of self.now.rest.plan).blocks) }
    {
        for block in 0..self.rest.plan.block_count() {
            watches.push_reserved(self.make_watch(block));
        }
    }

    /// Makes a watch of a block.
    fn make_watch(&self, block: usize) -> Watch<W>
        requires { block < length (layout_of self.now.rest.plan).blocks }
        ensures of { result.of.value ≡ self.now }
        ensures block { watched_block result ≡ block }
    {
        Watch {
            of: Snapshot::of(self),
            block,
            note: self.cells[block].note(),
        }
    }

    /// Makes the exits, for which there is room. The first has this number.
    pub(crate) fn make_exits(
        &self,
        states: Vec<ExitEnd>,
        ends: Vec<TargetEnd>,
        first: usize,
        exits: &mut Vec<Exit<W>>,
    )
        requires first { first ≡ task_count (layout_of self.now.rest.plan) self.now.opens.items +
            entry_count (layout_of self.now.rest.plan) self.now.opens.items }
        requires count { length states.items ≡ length (links_out (layout_of self.now.rest.plan)) }
        requires laws { (k : ℕ) → k < length (links_out (layout_of self.now.rest.plan)) →
            ∥ ExitLaw (get_or states.items k fresh_exit) ∥₁ }
        requires ends { map in_known ends.items ≡ map (λ k. exit_due (layout_of self.now.rest.plan) self.now.wires.items
            (get_or (links_out (layout_of self.now.rest.plan)) k 0) (get_or states.items k fresh_exit))
            (below (length (links_out (layout_of self.now.rest.plan)))) }
        requires none { exits.old.items ≡ [] }
        requires room { length (links_out (layout_of self.now.rest.plan)) ≤ vec_capacity exits.old }
        ensures of { AllExitsOf self.now exits.new.items }
        ensures numbers { map exit_number exits.new.items ≡ numbers_from (task_count (layout_of self.now.rest.plan)
            self.now.opens.items + entry_count (layout_of self.now.rest.plan) self.now.opens.items)
            (length (links_out (layout_of self.now.rest.plan))) }
        ensures states { map exit_state exits.new.items ≡ states.items }
    {
        let mut ends = VecDeque::from_vec(ends);
        let mut place = 0;
        for state in states {
            let Some(end) = ends.pop_front() else {
                unreachable!()
            };
            exits.push_reserved(self.make_exit(first + place, self.exits[place], state, end));
            place += 1;
        }
    }

    /// Makes an exit.
    fn make_exit(&self, number: usize, link: LinkId, exit: ExitEnd, end: TargetEnd) -> Exit<W>
        requires there { link < length (layout_of self.now.rest.plan).links }
        requires leads { leads_out (layout_of self.now.rest.plan) link ≡ true }
        requires law { ∥ ExitLaw exit ∥₁ }
        requires known { in_known end ≡ exit_due (layout_of self.now.rest.plan) self.now.wires.items link exit }
        requires number { is_exit_number (layout_of self.now.rest.plan) self.now.opens.items link number ≡ true }
        ensures of { result.of.value ≡ self.now }
        ensures number { exit_number result ≡ number }
        ensures state { exit_state result ≡ exit }
    {
        Exit {
            number,
            of: Snapshot::of(self),
            link,
            exit,
            end,
        }
    }
}

impl<W: Runs> Board<W> {
    /// Makes all parts, with their ends.
    pub(crate) fn make_parts(
        self,
        lists: Lists,
        sources: Sources,
        targets: Targets,
        waiting: Vec<VecDeque<Parcel>>,
        lanes: LaneRows<W>,
        room: Room<W>,
    ) -> Scattered<W>
        requires in_order { AreInOrder (layout_of self.rest.plan) (works_of W.meaning (layout_of self.rest.plan)) lists.nodes.items
            lists.inputs.items lists.exits.items }
        requires outs { map (λ row. map out_known row.items) sources.outs.items ≡ map (λ b. outs_due (layout_of self.rest.plan)
            self.wires.items b (get_or lists.nodes.items b no_node)) (below (length (layout_of self.rest.plan).blocks)) }
        requires ins { map (λ ports. map (λ row. map in_known row.items) ports.items) targets.ins.items ≡ map (λ b. ins_due
            (layout_of self.rest.plan) self.wires.items b (get_or lists.nodes.items b no_node))
            (below (length (layout_of self.rest.plan).blocks)) }
        requires inputs { map out_known sources.inputs.items ≡ map (λ q. input_due (layout_of self.rest.plan) self.wires.items
            (get_or (links_of_inputs (layout_of self.rest.plan)) q 0) (get_or lists.inputs.items q no_input))
            (below (length (links_of_inputs (layout_of self.rest.plan)))) }
        requires exits { map in_known targets.exits.items ≡ map (λ k. exit_due (layout_of self.rest.plan) self.wires.items
            (get_or (links_out (layout_of self.rest.plan)) k 0) (get_or lists.exits.items k fresh_exit))
            (below (length (links_out (layout_of self.rest.plan)))) }
        requires waiting { map (λ row. row.items) waiting.items ≡ map waits_in lists.inputs.items }
        requires rows { length lanes.rows.items ≡ length (layout_of self.rest.plan).blocks }
        requires lanes { length lanes.lanes.items ≡ lane_count (layout_of self.rest.plan) }
        requires no_task { room.tasks.items ≡ [] }
        requires no_entry { room.entries.items ≡ [] }
        requires no_exit { room.exits.items ≡ [] }
        requires no_watch { room.watches.items ≡ [] }
        requires tasks_room { length lists.nodes.items + length lists.inputs.items + lane_count (layout_of self.rest.plan) ≤
            vec_capacity room.tasks }
        requires entries_room { length lists.inputs.items ≤ vec_capacity room.entries }
        requires exits_room { length lists.exits.items ≤ vec_capacity room.exits }
        requires watches_room { length lists.nodes.items ≤ vec_capacity room.watches }
        requires nodes_begun { lists.nodes.items ≡ (begun_in self).nodes }
        requires inputs_begun { lists.inputs.items ≡ (begun_in self).inputs }
        requires exits_begun { lists.exits.items ≡ (begun_in self).exits }
        ensures board { result.board ≡ self }
        ensures tasks_of { AllTasksOf self result.tasks.items }
        ensures entries_of { AllEntriesOf self result.entries.items }
        ensures exits_of { AllExitsOf self result.exits.items }
        ensures there { AllThere self result.tasks.items result.entries.items result.exits.items }
        ensures watches_of { AllWatchesOf self result.watches.items }
        ensures watched { map watched_block result.watches.items ≡ below (length (layout_of self.rest.plan).blocks) }
        ensures journals { map marks_in (take (length lists.nodes.items) result.tasks.items) ≡ map (λ node. node.journal) lists.nodes.items }
        ensures received { map exit_state result.exits.items ≡ (begun_in self).exits }
        ensures untouched { AllUntouched self result.entries.items }
    {
        let Room {
            mut tasks,
            mut entries,
            mut exits,
            mut watches,
        } = room;
        let first = self.rest.plan.block_count() + self.closed_count() + self.lane_count();
        let last = first + self.open_count();
        self.make_blocks(
            lists.nodes,
            sources.outs,
            targets.ins,
            lanes.rows,
            &mut tasks,
        );
        self.make_inputs(
            lists.inputs,
            sources.inputs,
            waiting,
            first,
            &mut tasks,
            &mut entries,
        );
        self.make_lanes(lanes.lanes, &mut tasks);
        self.make_exits(lists.exits, targets.exits, last, &mut exits);
        self.make_watches(&mut watches);
        Scattered {
            board: self,
            tasks,
            entries,
            exits,
            watches,
        }
    }
}
