//! The parts of a scattered network are taken apart, in the order of their numbers.
ghost use Rattle.std.specs.Prelude.{◌≡◌, ℕ, ◌<◌, ◌≤◌, ◌+◌, ◌-◌, false, All, [], length, map, drop, take, get_or, vec_capacity};
ghost use Rattle.flow_link.specs.Lists.{below, numbers_from};
ghost use Rattle.flow_block_law.specs.NodeLaw.{NodeLaw};
ghost use Rattle.flow_core.specs.Inputs.{input_of};
ghost use Rattle.flow_core.specs.State.{no_node};
ghost use Rattle.flow_exec.specs.Works.{works_of};
ghost use Rattle.flow_exit.specs.ExitKeeps.{ExitLaw};
ghost use Rattle.flow_exit.specs.Exit.{fresh_exit};
ghost use Rattle.flow_block.specs.Planned.{links_out};
ghost use Rattle.flow_input.specs.Input.{no_input};
ghost use Rattle.flow_input.specs.InputKeeps.{InputLaw, PostedStays};
ghost use Rattle.flow_task.specs.Begun.{begun_in};
ghost use Rattle.flow_task.specs.Exits.{exit_due};
ghost use Rattle.flow_task.specs.Inputs.{input_due, links_of_inputs};
ghost use Rattle.flow_task.specs.Known.{in_known, ins_due, out_known, outs_due};
ghost use Rattle.flow_task.specs.Lanes.{lane_count};
ghost use Rattle.flow_task.specs.Lefts.{EntryIsAt, ExitIsAt, InputsLeft, IsTakenFrom, StaysAt, TicketsAreOut};
ghost use Rattle.flow_task.specs.Numbers.{closed_before, entry_count, is_open, task_count};
ghost use Rattle.flow_task.specs.Parts.{AllEntriesOf, AllExitsOf, AllTasksOf, entry_number, exit_number, marks_in, task_number, board_layout, board_opens, board_wires};

use crate::board::Board;
use crate::input_task::InputTask;
use crate::numbered::{Entry, Exit, Kind, Task};
use crate::task::BlockTask;
use flow_block::Node;
use flow_exit::ExitEnd;
use flow_input::Input;
use flow_value::Runs;
use flow_wire::{SourceEnd, TargetEnd};
use std::collections::VecDeque;

/// Blocks by their numbers, and their ends of links.
#[derive(Drop)]
pub struct Blocks {
    pub nodes: Vec<Node>,
    pub outs: Vec<Vec<SourceEnd>>,
    pub ins: Vec<Vec<Vec<TargetEnd>>>,
}

impl Blocks {
    /// Takes all blocks, which are the first of these tasks. There is room for them. What stands in their lanes is let go: it is of messages
    /// that the blocks keep, whose tickets are out.
    pub fn take<W: Runs>(&mut self, board: &Board<W>, tasks: &mut VecDeque<Task<W>>)
        requires of { AllTasksOf board.now tasks.old.items }
        requires numbers { map task_number tasks.old.items ≡ below (task_count (board_layout board.now) (board_opens board.now)) }
        requires none { self.old.nodes.items ≡ [] }
        requires no_outs { self.old.outs.items ≡ [] }
        requires no_ins { self.old.ins.items ≡ [] }
        requires room { length (board_layout board.now).blocks ≤ vec_capacity self.old.nodes }
        requires outs_room { length (board_layout board.now).blocks ≤ vec_capacity self.old.outs }
        requires ins_room { length (board_layout board.now).blocks ≤ vec_capacity self.old.ins }
        ensures count { length self.new.nodes.items ≡ length (board_layout board.now).blocks }
        ensures laws { (b : ℕ) → b < length (board_layout board.now).blocks →
            ∥ NodeLaw (board_layout board.now) (works_of W.meaning (board_layout board.now)) b
            (get_or self.new.nodes.items b no_node) ∥₁ }
        ensures outs { map (λ row. map out_known row.items) self.new.outs.items ≡ map (λ b. outs_due (board_layout board.now)
            (board_wires board.now) b (get_or self.new.nodes.items b no_node)) (below (length (board_layout board.now).blocks)) }
        ensures ins { map (λ ports. map (λ row. map in_known row.items) ports.items) self.new.ins.items ≡ map (λ b. ins_due
            (board_layout board.now) (board_wires board.now) b (get_or self.new.nodes.items b no_node))
            (below (length (board_layout board.now).blocks)) }
        ensures journals { map (λ node. node.journal) self.new.nodes.items ≡
            map marks_in (take (length (board_layout board.now).blocks) tasks.old.items) }
        ensures out { All (λ task. TicketsAreOut self.new.nodes.items task) tasks.old.items }
        ensures others { tasks.new.items ≡ drop (length (board_layout board.now).blocks) tasks.old.items }
    {
        for _ in 0..board.rest.plan.block_count() {
            let Some(Task { kind, .. }) = tasks.pop_front() else {
                unreachable!()
            };
            let Kind::Block(task) = kind else {
                unreachable!()
            };
            let BlockTask {
                node,
                outs,
                ins,
                ..
            } = task.block;
            self.nodes.push_reserved(node);
            self.outs.push_reserved(outs);
            self.ins.push_reserved(ins);
        }
    }
}

/// Inputs in the order of their links, and the ends of these.
#[derive(Drop)]
pub struct Inputs {
    pub inputs: Vec<Input>,
    pub ends: Vec<SourceEnd>,
}

impl Inputs {
    /// Takes all inputs: what is left of the tasks but the lanes, and the entries. There is room for them.
    pub fn take<W: Runs>(
        &mut self,
        board: &Board<W>,
        tasks: &mut VecDeque<Task<W>>,
        entries: &mut VecDeque<Entry<W>>,
    )
        requires of { AllTasksOf board.now tasks.old.items }
        requires entries_of { AllEntriesOf board.now entries.old.items }
        requires numbers { map task_number tasks.old.items ≡ numbers_from (length (board_layout board.now).blocks)
            (closed_before (board_layout board.now) (board_opens board.now) (length (board_opens board.now))
            + lane_count (board_layout board.now)) }
        requires entry_numbers { map entry_number entries.old.items ≡ numbers_from (task_count (board_layout board.now)
            (board_opens board.now)) (entry_count (board_layout board.now) (board_opens board.now)) }
        requires none { self.old.inputs.items ≡ [] }
        requires no_ends { self.old.ends.items ≡ [] }
        requires room { length (board_opens board.now) ≤ vec_capacity self.old.inputs }
        requires ends_room { length (board_opens board.now) ≤ vec_capacity self.old.ends }
        ensures count { length self.new.inputs.items ≡ length (board_opens board.now) }
        ensures laws { (q : ℕ) → q < length (board_opens board.now) → ∥ InputLaw (get_or self.new.inputs.items q no_input) ∥₁ }
        ensures posted { (q : ℕ) → q < length (board_opens board.now) → StaysAt board.now entries.old.items q →
            ∥ PostedStays (input_of (begun_in board.now) q) (get_or self.new.inputs.items q no_input) ∥₁ }
        ensures entries { All (λ entry. EntryIsAt board.now self.new.inputs.items entry) entries.old.items }
        ensures ends { map out_known self.new.ends.items ≡ map (λ q. input_due (board_layout board.now) (board_wires board.now)
            (get_or (links_of_inputs (board_layout board.now)) q 0) (get_or self.new.inputs.items q no_input))
            (below (length (board_opens board.now))) }
    {
        for place in 0..board.opens.len() {
            let part = next_input(board, tasks, entries, place);
            self.inputs.push_reserved(part.input);
            self.ends.push_reserved(part.out);
        }
    }
}

/// The input at this place: the next entry, or the next task that is left.
fn next_input<W: Runs>(
    board: &Board<W>,
    tasks: &mut VecDeque<Task<W>>,
    entries: &mut VecDeque<Entry<W>>,
    place: usize,
) -> InputTask<W>
    requires there { place < length (board_opens board.now) }
    requires left { InputsLeft board.now place tasks.old.items entries.old.items }
    ensures of { result.of.value ≡ board.now }
    ensures link { result.link ≡ get_or (links_of_inputs (board_layout board.now)) place 0 }
    ensures left { InputsLeft board.now (place + 1) tasks.new.items entries.new.items }
    ensures from { IsTakenFrom (is_open (board_layout board.now) (board_opens board.now) place) result entries.old.items entries.new.items }
{
    if board.opens[place] {
        let Some(Entry { input, .. }) = entries.pop_front() else {
            unreachable!()
        };
        return input;
    }
    let Some(Task { kind, .. }) = tasks.pop_front() else {
        unreachable!()
    };
    let Kind::Input(input) = kind else {
        unreachable!()
    };
    input
}

/// Exits in the order of their links, and the ends of these.
#[derive(Drop)]
pub struct Exits {
    pub exits: Vec<ExitEnd>,
    pub ends: Vec<TargetEnd>,
}

impl Exits {
    /// Takes all exits. There is room for them.
    pub fn take<W: Runs>(&mut self, board: &Board<W>, exits: Vec<Exit<W>>)
        requires of { AllExitsOf board.now exits.items }
        requires numbers { map exit_number exits.items ≡ numbers_from (task_count (board_layout board.now) (board_opens board.now) +
            entry_count (board_layout board.now) (board_opens board.now)) (length (links_out (board_layout board.now))) }
        requires none { self.old.exits.items ≡ [] }
        requires no_ends { self.old.ends.items ≡ [] }
        requires room { length exits.items ≤ vec_capacity self.old.exits }
        requires ends_room { length exits.items ≤ vec_capacity self.old.ends }
        ensures count { length self.new.exits.items ≡ length (links_out (board_layout board.now)) }
        ensures laws { (k : ℕ) → k < length (links_out (board_layout board.now)) →
            ∥ ExitLaw (get_or self.new.exits.items k fresh_exit) ∥₁ }
        ensures ends { map in_known self.new.ends.items ≡ map (λ k. exit_due (board_layout board.now) (board_wires board.now)
            (get_or (links_out (board_layout board.now)) k 0) (get_or self.new.exits.items k fresh_exit))
            (below (length (links_out (board_layout board.now)))) }
        ensures exits { All (λ exit. ExitIsAt board.now self.new.exits.items exit) exits.items }
    {
        for Exit { exit, end, .. } in exits {
            self.exits.push_reserved(exit);
            self.ends.push_reserved(end);
        }
    }
}
