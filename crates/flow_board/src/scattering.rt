//! A network is scattered into parts that threads may turn.
ghost use Rattle.std.specs.Prelude.{◌≡◌, ℕ, ◌<◌, false, length, map, take, IfErr, IfOk, OnErr};
ghost use Rattle.flow_link.specs.Lists.{below};
ghost use Rattle.flow_lawful.specs.Lawful.{Lawful};
ghost use Rattle.flow_wire.specs.Ends.{Start, is_crossing};
ghost use Rattle.flow_core.specs.Inputs.{InputsStay};
ghost use Rattle.flow_core.specs.InOrder.{journals_of};
ghost use Rattle.flow_core.specs.State.{line_at};
ghost use Rattle.flow_net.specs.Net.{layout_in, parts_of, run_of};
ghost use Rattle.flow_task.specs.Absent.{AllThere};
ghost use Rattle.flow_task.specs.Begun.{JournalsExtend, begun_in};
ghost use Rattle.flow_task.specs.Orders.{HasLookedAround};
ghost use Rattle.flow_task.specs.Parts.{AllEntriesOf, AllExitsOf, AllTasksOf, AllWatchesOf, board_layout, exit_state, marks_in, watched_block};
ghost use Rattle.flow_board.specs.Gathers.{KnowsTaken};
ghost use Rattle.flow_board.specs.Home.{HasComeBack, HasComeHome};
ghost use Rattle.flow_task.specs.Untouched.{AllUntouched};
ghost use Rattle.flow_task.specs.Wired.{AllReady, AreWired};

use crate::home::bring_home;
use flow_moves::NetParts;
use flow_net::Net;
use flow_task::{Frame, Scattered, Wired, make_wires};
use flow_value::Runs;
use std::alloc::{AllocError, Global};
use std::snapshot::Snapshot;

/// Scatters a network into its parts: its blocks, its inputs and its exits, with a watch of each block. What is under way over a
/// link that was given is taken first, and nothing else happens. Threads turn the tasks, each one at a time, and `gather` puts the parts
/// together again. Where memory is out the network comes back, and what was taken stays taken.
pub fn scatter<W: Runs>(
    alloc: Global,
    mut net: Net<W>,
) -> Result<Scattered<W>, (Net<W>, AllocError)>
    ensures same_layout { IfOk result (λ parts. board_layout parts.board ≡ layout_in net) }
    ensures tasks_of { IfOk result (λ parts. AllTasksOf parts.board parts.tasks.items) }
    ensures entries_of { IfOk result (λ parts. AllEntriesOf parts.board parts.entries.items) }
    ensures exits_of { IfOk result (λ parts. AllExitsOf parts.board parts.exits.items) }
    ensures there { IfOk result (λ parts. AllThere parts.board parts.tasks.items parts.entries.items parts.exits.items) }
    ensures watches_of { IfOk result (λ parts. AllWatchesOf parts.board parts.watches.items) }
    ensures watched { IfOk result (λ parts. map watched_block parts.watches.items ≡ below (length (layout_in net).blocks)) }
    ensures goes_on { IfOk result (λ parts. HasComeHome W.meaning (layout_in net) (parts_of net) (begun_in parts.board)) }
    ensures posted { IfOk result (λ parts. InputsStay (parts_of net) (begun_in parts.board)) }
    ensures extends { IfOk result (λ parts. JournalsExtend (layout_in net) (parts_of net) (begun_in parts.board)) }
    ensures journals { IfOk result (λ parts.
        map marks_in (take (length (layout_in net).blocks) parts.tasks.items) ≡ journals_of (begun_in parts.board)) }
    ensures received { IfOk result (λ parts. map exit_state parts.exits.items ≡ (begun_in parts.board).exits) }
    ensures taken { IfOk result (λ parts. KnowsTaken W.meaning (board_layout parts.board) (begun_in parts.board)) }
    ensures untouched { IfOk result (λ parts. AllUntouched parts.board parts.entries.items) }
    ensures back { IfErr result (λ refused. layout_in refused.0 ≡ layout_in net) }
    ensures inputs_stay { IfErr result (λ refused. InputsStay (parts_of net) (parts_of refused.0)) }
    ensures extends_back { IfErr result (λ refused. JournalsExtend (layout_in net) (parts_of net) (parts_of refused.0)) }
    ensures come_back { IfErr result (λ refused. HasComeBack W.meaning (layout_in net) (parts_of net) (parts_of refused.0)) }
    ensures lawful { IfErr result (λ refused. Lawful (run_of W.meaning refused.0)) }
{
    match bring_home(alloc, &mut net) {
        Ok(()) => scatter_home(alloc, net),
        Err(fault) => Err((net, fault)),
    }
}

/// The same of a network over none of whose links a message is under way.
fn scatter_home<W: Runs>(alloc: Global, net: Net<W>) -> Result<Scattered<W>, (Net<W>, AllocError)>
    requires home { (l : ℕ) → l < length (layout_in net).links → is_crossing (line_at (parts_of net) l).phase ≡ false }
    ensures same_layout { IfOk result (λ parts. board_layout parts.board ≡ layout_in net) }
    ensures tasks_of { IfOk result (λ parts. AllTasksOf parts.board parts.tasks.items) }
    ensures entries_of { IfOk result (λ parts. AllEntriesOf parts.board parts.entries.items) }
    ensures exits_of { IfOk result (λ parts. AllExitsOf parts.board parts.exits.items) }
    ensures there { IfOk result (λ parts. AllThere parts.board parts.tasks.items parts.entries.items parts.exits.items) }
    ensures watches_of { IfOk result (λ parts. AllWatchesOf parts.board parts.watches.items) }
    ensures watched { IfOk result (λ parts. map watched_block parts.watches.items ≡ below (length (layout_in net).blocks)) }
    ensures begun { IfOk result (λ parts. begun_in parts.board ≡ parts_of net) }
    ensures journals { IfOk result (λ parts.
        map marks_in (take (length (layout_in net).blocks) parts.tasks.items) ≡ journals_of (begun_in parts.board)) }
    ensures received { IfOk result (λ parts. map exit_state parts.exits.items ≡ (begun_in parts.board).exits) }
    ensures taken { IfOk result (λ parts. KnowsTaken W.meaning (board_layout parts.board) (begun_in parts.board)) }
    ensures untouched { IfOk result (λ parts. AllUntouched parts.board parts.entries.items) }
    ensures back { IfErr result (λ refused. layout_in refused.0 ≡ layout_in net) }
    ensures inputs_stay { IfErr result (λ refused. InputsStay (parts_of net) (parts_of refused.0)) }
    ensures journals_back { IfErr result (λ refused. journals_of (parts_of refused.0) ≡ journals_of (parts_of net)) }
    ensures looked_back { IfErr result (λ refused. HasLookedAround W.meaning (layout_in net) (parts_of net) (parts_of refused.0)) }
    ensures lawful { IfErr result (λ refused. Lawful (run_of W.meaning refused.0)) }
{
    let mut apart = net.into_parts();
    let begun = Snapshot::of(&apart);
    let frame = match Frame::new(alloc, &apart) {
        Ok(frame) => frame,
        Err(fault) => return Err((Net::join(apart), fault)),
    };
    match wire_up(alloc, &mut apart) {
        Ok(wired) => Ok(frame.fill(alloc, apart, wired, begun)),
        Err(fault) => Err((Net::join(apart), fault)),
    }
}

/// Makes the wires of the links of a network that is apart. Where memory is out, the links are in order as they were.
fn wire_up<W>(alloc: Global, apart: &mut NetParts<W>) -> Result<Wired, AllocError>
    ghost starts: { ℕ → Start }
    requires { AllReady starts apart.old.lines.items }
    ensures made { IfOk result (λ wired. AreWired starts (length apart.old.lines.items) wired.wires.items wired.sources.items
        wired.targets.items) }
    ensures count { length apart.new.lines.items ≡ length apart.old.lines.items }
    ensures back { OnErr result (AllReady starts apart.new.lines.items) }
    ensures plan { apart.new.plan ≡ apart.old.plan }
    ensures nodes { apart.new.nodes ≡ apart.old.nodes }
    ensures inputs { apart.new.inputs ≡ apart.old.inputs }
    ensures exits { apart.new.exits ≡ apart.old.exits }
{
    make_wires(alloc, &mut apart.lines)
}
