//! The wires of a network are closed, and its links are in order with what their ends know.
ghost use Rattle.std.specs.Prelude.{◌≡◌, ◌<◌, ◌≤◌, length, map, ℕ, get_or};
ghost use Rattle.flow_link.specs.Planned.{layout_of};
ghost use Rattle.flow_task.specs.Dealt.{exits_dealt, inputs_dealt, ins_dealt, outs_dealt};
ghost use Rattle.flow_task.specs.Known.{in_known, out_known, ins_due, outs_due};
ghost use Rattle.flow_task.specs.Wired.{AllInOrder, AllSlotsHome, Made, source_said, target_said};
ghost use Rattle.flow_link.specs.Lists.{below};
ghost use Rattle.flow_block.specs.Planned.{links_out};
ghost use Rattle.flow_core.specs.InOrder.{NetInOrder};
ghost use Rattle.flow_core.specs.State.{NetState, no_node};
ghost use Rattle.flow_exec.specs.Works.{works_of};
ghost use Rattle.flow_exit.specs.Exit.{fresh_exit};
ghost use Rattle.flow_input.specs.Input.{no_input};
ghost use Rattle.flow_moves.specs.Apart.{apart_in, apart_layout};
ghost use Rattle.flow_task.specs.Exits.{exit_due};
ghost use Rattle.flow_task.specs.Inputs.{input_due, links_of_inputs};
ghost use Rattle.flow_task.specs.Orders.{AreInOrder};

use crate::apart::{Blocks, Exits, Inputs};
use crate::board::Board;
use crate::sources::Sources;
use crate::targets::Targets;
use crate::wires::put_back;
use flow_link::{LinkId, LinkState, Plan};
use flow_moves::NetParts;
use flow_value::Runs;
use flow_wire::Wire;

/// Closes all wires with their ends. Each link comes back in its place.
pub(crate) fn close_all<W>(
    plan: &Plan<W>,
    mut wires: Vec<Wire>,
    mut sources: Sources,
    mut targets: Targets,
    lines: &mut Vec<LinkState>,
)
    ghost made: { Made }
    requires tables { wires.items ≡ made.tables }
    requires all { length wires.items ≡ length (layout_of plan.now).links }
    requires there { length wires.items ≤ length lines.old.items }
    requires home { AllSlotsHome made.starts (length wires.items) }
    requires outs { map (λ row. map out_known row.items) sources.outs.items ≡
        outs_dealt (layout_of plan.now) (source_said made) (length wires.items) }
    requires inputs { map out_known sources.inputs.items ≡
        inputs_dealt (layout_of plan.now) (source_said made) (length wires.items) }
    requires ins { map (λ ports. map (λ row. map in_known row.items) ports.items) targets.ins.items ≡
        ins_dealt (layout_of plan.now) (target_said made) (length wires.items) }
    requires exits { map in_known targets.exits.items ≡
        exits_dealt (layout_of plan.now) (target_said made) (length wires.items) }
    ensures count { length lines.new.items ≡ length lines.old.items }
    ensures closed { AllInOrder made.starts (length wires.items) lines.new.items }
{
    while let Some(wire) = wires.pop() {
        let id = wires.len();
        let source = sources.take(plan, id as LinkId);
        let target = targets.take(plan, id as LinkId);
        put_back(lines, id, wire.close(source, target));
    }
}

impl<W: Runs> Board<W> {
    ghost use Rattle.flow_task.specs.Parts.{board_layout, board_plan, board_wires};

    /// Closes the wires of a network with all its ends: what it is put together of.
    pub fn close(self, blocks: Blocks, inputs: Inputs, exits: Exits) -> NetParts<W>
        ghost net: { NetState }
        requires nodes { net.nodes ≡ blocks.nodes.items }
        requires inputs { net.inputs ≡ inputs.inputs.items }
        requires exits { net.exits ≡ exits.exits.items }
        requires in_order { AreInOrder (board_layout self) (works_of W.meaning (board_layout self)) net.nodes net.inputs
            net.exits }
        requires outs { map (λ row. map out_known row.items) blocks.outs.items ≡ map (λ b. outs_due (board_layout self)
            (board_wires self) b (get_or net.nodes b no_node)) (below (length (board_layout self).blocks)) }
        requires ins { map (λ ports. map (λ row. map in_known row.items) ports.items) blocks.ins.items ≡ map (λ b. ins_due
            (board_layout self) (board_wires self) b (get_or net.nodes b no_node))
            (below (length (board_layout self).blocks)) }
        requires input_ends { map out_known inputs.ends.items ≡ map (λ q. input_due (board_layout self) (board_wires self)
            (get_or (links_of_inputs (board_layout self)) q 0) (get_or net.inputs q no_input))
            (below (length (links_of_inputs (board_layout self)))) }
        requires exit_ends { map in_known exits.ends.items ≡ map (λ k. exit_due (board_layout self) (board_wires self)
            (get_or (links_out (board_layout self)) k 0) (get_or net.exits k fresh_exit))
            (below (length (links_out (board_layout self)))) }
        ensures plan { result.plan ≡ board_plan self }
        ensures nodes { result.nodes.items ≡ net.nodes }
        ensures inputs { result.inputs.items ≡ net.inputs }
        ensures exits { result.exits.items ≡ net.exits }
        ensures in_order { ∥ NetInOrder (apart_layout result) (works_of W.meaning (apart_layout result)) (apart_in result) ∥₁ }
    {
        let Board {
            mut rest,
            wires,
            ..
        } = self;
        let Blocks { nodes, outs, ins } = blocks;
        let sources = Sources {
            outs,
            inputs: inputs.ends,
        };
        let targets = Targets {
            ins,
            exits: exits.ends,
        };
        let apart = &mut rest;
        close_all(&apart.plan, wires, sources, targets, &mut apart.lines);
        rest.nodes = nodes;
        rest.inputs = inputs.inputs;
        rest.exits = exits.exits;
        rest
    }
}
