//! Room for the ends of all links of a network, before they are dealt out.
ghost use Rattle.std.specs.Prelude.{◌≡◌, ℕ, ◌<◌, ◌≤◌, [], length, map, get_or, vec_capacity, IfOk, cond};
ghost use Rattle.flow_link.specs.Lists.{below};
ghost use Rattle.flow_block.specs.Block.{port_at};
ghost use Rattle.flow_core.specs.MovesFit.{in_count, out_count};
ghost use Rattle.flow_core.specs.State.{no_node};
ghost use Rattle.flow_link.specs.Plan.{is_one_taker};
ghost use Rattle.flow_task.specs.Dealt.{HasRooms, HasRoomsIn};
ghost use Rattle.flow_task.specs.Known.{in_known, out_known};

use crate::sources::Sources;
use crate::targets::Targets;
use flow_block::{Block, Node};
use flow_moves::shares_out;
use flow_wire::{SourceEnd, TargetEnd};
use std::alloc::{AllocError, Global};

impl Sources {
    /// Room for the ends out of these blocks, and of so many inputs.
    pub(crate) fn with_room(
        alloc: Global,
        nodes: &[Node],
        inputs: usize,
    ) -> Result<Sources, AllocError>
        ensures outs { IfOk result (λ room. map (λ row. map out_known row.items) room.outs.items ≡
            map (λ b. []) (below (length nodes.now))) }
        ensures inputs { IfOk result (λ room. room.inputs.items ≡ []) }
        ensures rooms { IfOk result (λ room. HasRooms vec_capacity (λ b. out_count (get_or nodes.now b no_node)) room.outs.items) }
        ensures room { IfOk result (λ room. inputs ≤ vec_capacity room.inputs) }
    {
        let mut outs = Vec::with_capacity(alloc, nodes.len())?;
        for node in nodes {
            outs.push_reserved(Vec::with_capacity(alloc, count_out(node.block()))?);
        }
        let inputs = Vec::with_capacity(alloc, inputs)?;
        Ok(Sources { outs, inputs })
    }
}

impl Targets {
    /// Room for the ends into these blocks, and of so many exits.
    pub(crate) fn with_room(
        alloc: Global,
        nodes: &[Node],
        exits: usize,
    ) -> Result<Targets, AllocError>
        ensures ins { IfOk result (λ room. map (λ ports. map (λ row. map in_known row.items) ports.items) room.ins.items ≡
            map (λ b. map (λ p. []) (below (length (get_or nodes.now b no_node).block.ports))) (below (length nodes.now))) }
        ensures exits { IfOk result (λ room. room.exits.items ≡ []) }
        ensures rooms { IfOk result (λ room. HasRoomsIn (λ ports. ports.items) vec_capacity
            (λ b p. in_count p (get_or nodes.now b no_node)) room.ins.items) }
        ensures room { IfOk result (λ room. exits ≤ vec_capacity room.exits) }
    {
        let mut ins = Vec::with_capacity(alloc, nodes.len())?;
        for node in nodes {
            ins.push_reserved(room_of_ports(alloc, node.block())?);
        }
        let exits = Vec::with_capacity(alloc, exits)?;
        Ok(Targets { ins, exits })
    }
}

/// Room for the ends into each port of a block.
fn room_of_ports(alloc: Global, block: &Block) -> Result<Vec<Vec<TargetEnd>>, AllocError>
    ensures ports { IfOk result (λ ports. map (λ row. map in_known row.items) ports.items ≡
        map (λ p. []) (below (length block.now.ports))) }
    ensures rooms { IfOk result (λ ports. HasRooms vec_capacity (λ p. length (port_at p block.now).ends) ports.items) }
{
    let mut ports = Vec::with_capacity(alloc, block.port_count())?;
    for port in 0..block.port_count() {
        ports.push_reserved(Vec::with_capacity(alloc, block.in_count(port))?);
    }
    Ok(ports)
}

/// How many links lead out of a block.
fn count_out(block: &Block) -> usize
    ensures { result ≡ cond (is_one_taker block.now.kind) (length block.now.exits.ends) (length block.now.copies.ends) }
{
    if shares_out(block) {
        block.out_count()
    } else {
        block.copies().ends().len()
    }
}
