//! The parts of a scattered network are put together again.
ghost use Rattle.std.specs.Prelude.{◌≡◌, ◌<◌, true, false, All, get_or, length, map, take, IfErr, IfOk};
ghost use Rattle.flow_lawful.specs.Lawful.{Lawful};
ghost use Rattle.flow_link.specs.Lists.{below};
ghost use Rattle.flow_block.specs.Planned.{links_out};
ghost use Rattle.flow_core.specs.InOrder.{journals_of};
ghost use Rattle.flow_core.specs.Inputs.{InputsStay};
ghost use Rattle.flow_core.specs.State.{NetState, no_node};
ghost use Rattle.flow_exec.specs.Works.{works_of};
ghost use Rattle.flow_exit.specs.Exit.{ExitCall, after_exit, fresh_exit};
ghost use Rattle.flow_input.specs.Input.{no_input};
ghost use Rattle.flow_net.specs.Asked.{none_asked};
ghost use Rattle.flow_net.specs.Net.{layout_in, parts_of, run_of};
ghost use Rattle.flow_task.specs.Absent.{AllThere};
ghost use Rattle.flow_task.specs.Begun.{JournalsGoOn, ClosedInputsStay, begun_in};
ghost use Rattle.flow_task.specs.Exits.{exit_due};
ghost use Rattle.flow_board.specs.GatherRoom.{IsRoomToGather};
ghost use Rattle.flow_board.specs.Gathers.{AreBack, EntryIsKept, ExitIsKept, GathersFrom, IsWhyNot, gather_fault_number};
ghost use Rattle.flow_task.specs.Inputs.{input_due, links_of_inputs};
ghost use Rattle.flow_task.specs.Known.{in_known, ins_due, out_known, outs_due};
ghost use Rattle.flow_task.specs.Lefts.{TicketsAreOut};
ghost use Rattle.flow_task.specs.Orders.{AreInOrder, HasLookedAround};
ghost use Rattle.flow_task.specs.Parts.{AllEntriesOf, AllExitsOf, AllTasksOf, board_layout, board_wires, marks_in};
ghost use Rattle.flow_task.specs.Untouched.{AllUntouched};

use flow_exit::ExitEnd;
use flow_net::Net;
use flow_task::{Blocks, Board, Exits, Inputs, Parts};
use flow_value::Runs;
use std::alloc::{AllocError, Global};
use std::collections::VecDeque;

/// Why parts are not put together.
#[derive(Clone, Copy, Debug, PartialEq, Eq)]
pub enum GatherFault {
    /// The part with this number is not among them: tasks, entries and exits are numbered from 0, as they were scattered.
    Missing(usize),
    /// Memory is out.
    Memory,
}

impl GatherFault {
    /// The number by which a report names the fault, and none for out of memory.
    pub fn number(self) -> Option<u32>
        ensures { result ≡ gather_fault_number self }
    {
        match self {
            GatherFault::Missing(_) => Some(1),
            GatherFault::Memory => None,
        }
    }
}

/// Puts the parts of a scattered network together, wherever their turns stopped. They may come in any order. A job that stands in a lane is
/// let go, with what came of it: its ticket is out in the network, and the block does that job again. Where a part is missing or memory is
/// out, all come back, in the order of their numbers, and may be gathered again.
pub fn gather<W: Runs>(
    alloc: Global,
    mut parts: Parts<W>,
) -> Result<Net<W>, (Parts<W>, GatherFault)>
    requires tasks_of { AllTasksOf parts.board parts.tasks.items }
    requires entries_of { AllEntriesOf parts.board parts.entries.items }
    requires exits_of { AllExitsOf parts.board parts.exits.items }
    ensures same_layout { IfOk result (λ net. layout_in net ≡ board_layout parts.board) }
    ensures lawful { IfOk result (λ net. Lawful (run_of W.meaning net)) }
    ensures journals { IfOk result (λ net. GathersFrom parts.board parts.tasks.items (journals_of (parts_of net))) }
    ensures go_on { IfOk result (λ net. JournalsGoOn parts.board (parts_of net)) }
    ensures posted { IfOk result (λ net. ClosedInputsStay parts.board (parts_of net)) }
    ensures inputs_stay { IfOk result (λ net. AllUntouched parts.board parts.entries.items → InputsStay (begun_in parts.board) (parts_of net)) }
    ensures entries { IfOk result (λ net. All (λ entry. EntryIsKept W.meaning parts.board (parts_of net) entry) parts.entries.items) }
    ensures exits { IfOk result (λ net. All (λ exit. ExitIsKept W.meaning parts.board (parts_of net) exit) parts.exits.items) }
    ensures out { IfOk result (λ net. All (λ task. TicketsAreOut (parts_of net).nodes task) parts.tasks.items) }
    ensures why { IfErr result (λ refused. IsWhyNot refused.0 refused.1) }
    ensures back { IfErr result (λ refused. AreBack parts refused.0) }
    ensures tasks_back { IfErr result (λ refused. AllTasksOf refused.0.board refused.0.tasks.items) }
    ensures entries_back { IfErr result (λ refused. AllEntriesOf refused.0.board refused.0.entries.items) }
    ensures exits_back { IfErr result (λ refused. AllExitsOf refused.0.board refused.0.exits.items) }
{
    parts.sort();
    if let Some(number) = parts.first_missing() {
        return Err((parts, GatherFault::Missing(number)));
    }
    match Apart::with_room(alloc, &parts) {
        Ok(apart) => Ok(apart.fill(parts)),
        Err(AllocError) => Err((parts, GatherFault::Memory)),
    }
}

/// What a network is put together of.
#[derive(Drop)]
struct Apart {
    blocks: Blocks,
    inputs: Inputs,
    exits: Exits,
}

impl Apart {
    /// Room for what these parts are taken apart into.
    fn with_room<W: Runs>(alloc: Global, parts: &Parts<W>) -> Result<Apart, AllocError>
        ensures { IfOk result (λ apart. IsRoomToGather parts.now apart) }
    {
        let blocks = parts.board.block_count();
        let inputs = parts.board.input_count();
        let exits = parts.exits.len();
        Ok(Apart {
            blocks: Blocks {
                nodes: Vec::with_capacity(alloc, blocks)?,
                outs: Vec::with_capacity(alloc, blocks)?,
                ins: Vec::with_capacity(alloc, blocks)?,
            },
            inputs: Inputs {
                inputs: Vec::with_capacity(alloc, inputs)?,
                ends: Vec::with_capacity(alloc, inputs)?,
            },
            exits: Exits {
                exits: Vec::with_capacity(alloc, exits)?,
                ends: Vec::with_capacity(alloc, exits)?,
            },
        })
    }

    /// The network of all these parts, which are there in the order of their numbers.
    fn fill<W: Runs>(self, parts: Parts<W>) -> Net<W>
        requires tasks_of { AllTasksOf parts.board parts.tasks.items }
        requires entries_of { AllEntriesOf parts.board parts.entries.items }
        requires exits_of { AllExitsOf parts.board parts.exits.items }
        requires there { AllThere parts.board parts.tasks.items parts.entries.items parts.exits.items }
        requires room { IsRoomToGather parts self }
        ensures same_layout { layout_in result ≡ board_layout parts.board }
        ensures lawful { Lawful (run_of W.meaning result) }
        ensures journals { journals_of (parts_of result) ≡
            map marks_in (take (length (board_layout parts.board).blocks) parts.tasks.items) }
        ensures go_on { JournalsGoOn parts.board (parts_of result) }
        ensures posted { ClosedInputsStay parts.board (parts_of result) }
        ensures inputs_stay { AllUntouched parts.board parts.entries.items → InputsStay (begun_in parts.board) (parts_of result) }
        ensures entries { All (λ entry. EntryIsKept W.meaning parts.board (parts_of result) entry) parts.entries.items }
        ensures exits { All (λ exit. ExitIsKept W.meaning parts.board (parts_of result) exit) parts.exits.items }
        ensures out { All (λ task. TicketsAreOut (parts_of result).nodes task) parts.tasks.items }
    {
        let Apart {
            mut blocks,
            mut inputs,
            exits: mut exit_ends,
        } = self;
        let Parts {
            board,
            tasks,
            entries,
            exits,
        } = parts;
        let mut tasks = VecDeque::from_vec(tasks);
        let mut entries = VecDeque::from_vec(entries);
        blocks.take(&board, &mut tasks);
        inputs.take(&board, &mut tasks, &mut entries);
        exit_ends.take(&board, exits);
        ask_no_more(&mut exit_ends.exits);
        put_together(board, blocks, inputs, exit_ends)
    }
}

/// No receive waits at these exits any more.
fn ask_no_more(exits: &mut Vec<ExitEnd>)
    ensures { exits.new.items ≡ map (after_exit (ExitCall.ask false)) exits.old.items }
{
    for place in 0..exits.len() {
        exits[place].ask_no_more();
    }
}

/// Closes the wires of a network with all its ends, and puts it together.
fn put_together<W: Runs>(board: Board<W>, blocks: Blocks, inputs: Inputs, exits: Exits) -> Net<W>
    ghost net: { NetState }
    requires unasked { none_asked net ≡ true }
    requires nodes { net.nodes ≡ blocks.nodes.items }
    requires inputs { net.inputs ≡ inputs.inputs.items }
    requires exits { net.exits ≡ exits.exits.items }
    requires in_order { AreInOrder (board_layout board) (works_of W.meaning (board_layout board)) net.nodes net.inputs
        net.exits }
    requires outs { map (λ row. map out_known row.items) blocks.outs.items ≡ map (λ b. outs_due (board_layout board)
        (board_wires board) b (get_or net.nodes b no_node)) (below (length (board_layout board).blocks)) }
    requires ins { map (λ ports. map (λ row. map in_known row.items) ports.items) blocks.ins.items ≡ map (λ b. ins_due
        (board_layout board) (board_wires board) b (get_or net.nodes b no_node))
        (below (length (board_layout board).blocks)) }
    requires input_ends { map out_known inputs.ends.items ≡ map (λ q. input_due (board_layout board) (board_wires board)
        (get_or (links_of_inputs (board_layout board)) q 0) (get_or net.inputs q no_input))
        (below (length (links_of_inputs (board_layout board)))) }
    requires exit_ends { map in_known exits.ends.items ≡ map (λ k. exit_due (board_layout board) (board_wires board)
        (get_or (links_out (board_layout board)) k 0) (get_or net.exits k fresh_exit))
        (below (length (links_out (board_layout board)))) }
    ensures same_layout { layout_in result ≡ board_layout board }
    ensures lawful { Lawful (run_of W.meaning result) }
    ensures journals { journals_of (parts_of result) ≡ map (λ node. node.journal) net.nodes }
    ensures looked { HasLookedAround W.meaning (board_layout board) net (parts_of result) }
{
    Net::join(board.close(blocks, inputs, exits))
}
