//! The blocks, exits and links of a plan in which nothing has happened.
ghost use Rattle.std.specs.Prelude.{◌≡◌, ◌<◌, true, length, map, replicate, IfOk};
ghost use Rattle.flow_link.specs.Lists.{below};
ghost use Rattle.flow_link.specs.Plan.{block_in};
ghost use Rattle.flow_link.specs.Planned.{layout_of};
ghost use Rattle.flow_block.specs.Planned.{fresh_node, links_out};
ghost use Rattle.flow_exit.specs.Exit.{fresh_exit};
ghost use Rattle.flow_core.specs.State.{fresh_line};

use flow_block::{Block, Node, is_exit, ports_of, rules_from, sources_of};
use flow_exit::ExitEnd;
use flow_link::{LinkState, Phase, Plan};
use std::alloc::{AllocError, Global};

/// The blocks of a plan, in their order. It fails only where memory is out.
///
/// It looks at each link as often as there are blocks and ports.
pub fn nodes_of<W>(alloc: Global, plan: &Plan<W>) -> Result<Vec<Node>, AllocError>
    ensures { IfOk result (λ nodes. nodes.items ≡ map (fresh_node (layout_of plan.now)) (below (length (layout_of
        plan.now).blocks))) }
{
    let mut nodes = Vec::with_capacity(alloc, plan.block_count())?;
    for number in 0..plan.block_count() {
        nodes.push(node_of(alloc, plan, number)?)?;
    }
    Ok(nodes)
}

/// A block of a plan.
fn node_of<W>(alloc: Global, plan: &Plan<W>, number: usize) -> Result<Node, AllocError>
    requires { number < length (layout_of plan.now).blocks }
    ensures { IfOk result (λ node. node ≡ fresh_node (layout_of plan.now) number) }
{
    let ports = ports_of(alloc, plan, number)?;
    let rules = rules_from(alloc, plan, number)?;
    let sources = sources_of(alloc, plan, number)?;
    let def = plan.block(number);
    let lanes = def.lanes.unwrap_or(1) as usize;
    let size = def.size.unwrap_or(0);
    match Block::new(alloc, def.kind, lanes, size, ports, rules) {
        Ok(block) => Ok(Node::new(alloc, block, sources)),
        Err(_) => Err(AllocError),
    }
}

/// The ends of the links that lead out of the network, in the order of these links. It fails only where memory is out.
///
/// It looks at each link once.
pub fn exits_of<W>(alloc: Global, plan: &Plan<W>) -> Result<Vec<ExitEnd>, AllocError>
    ensures { IfOk result (λ exits. exits.items ≡ map (λ _. fresh_exit) (links_out (layout_of plan.now))) }
{
    let mut exits = Vec::new(alloc);
    for id in 0..plan.link_count() {
        if is_exit(plan.link(id).target) {
            exits.push(ExitEnd::new(alloc))?;
        }
    }
    Ok(exits)
}

/// So many links that nothing has crossed. It fails only where memory is out.
pub fn lines_of(alloc: Global, count: usize) -> Result<Vec<LinkState>, AllocError>
    ensures { IfOk result (λ lines. lines.items ≡ replicate count fresh_line) }
{
    let mut lines = Vec::with_capacity(alloc, count)?;
    for _made in 0..count {
        lines.push(LinkState {
            phase: Phase::Idle,
            slot: None,
        })?;
    }
    Ok(lines)
}
