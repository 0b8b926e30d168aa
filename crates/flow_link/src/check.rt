//! What makes a draft a plan: the faults in their order, a function each.
ghost use Rattle.std.specs.Prelude.{◌≡◌, ◌<◌, [], length, ◌||◌, ◌&&◌, ◌≤◌, not, find, position, IfOk, IfErr, IfSome, OnOk, None};
ghost use Rattle.std.specs.Prelude.{is_none};
ghost use Rattle.flow_link.specs.declared.plan.PlanFault.TheVariants.{Limit, DuplicateName};
ghost use Rattle.flow_link.specs.Plan.{begins_at, ends_at, ends_at_port, block_named, named_link, planned_links};
ghost use Rattle.flow_link.specs.Planned.{layout_of};
ghost use Rattle.flow_link.specs.Refusal.{IsWhy};
ghost use Rattle.flow_link.specs.PlanFaults.{holds_no_group, lacks_port, lacks_output, is_in, stands, first_plan_fault};
ghost use Rattle.flow_link.specs.PlanFaults.{shares_with, enters_another, leads_beside, leads_twice, shares_among};
ghost use Rattle.std.specs.List.{list_any};
ghost use Rattle.flow_link.specs.Lists.{some, below};
ghost use Rattle.flow_link.specs.FaultOrder.{first_at, name_faults, end_faults, option_faults, is_bad_block, fault_of_ways};

use crate::cycle::has_cycle;
use crate::draft::{BlockDef, Draft, LinkDef};
use crate::heights::MOST_BLOCKS;
use crate::layout::{NO_LINK, name_links, planned_links};
use crate::options::{holds_no_group, max_fits, options_fit};
use crate::plan::{Link, LinkSource, LinkTarget, Place, Plan, PlanFault, PortId};
use std::alloc::Global;
use thiserror::Error;

/// The most links that a draft has.
const MOST_LINKS: usize = 1024;

/// Why a draft is no plan.
#[derive(Clone, Copy, Debug, PartialEq, Eq, Error)]
pub enum PlanRefusal {
    /// This fault stands, and none that comes before it in the order.
    #[error("{0}")]
    Fault(PlanFault),
    /// No fault stands, and there is no memory for the plan.
    #[error("out of memory")]
    Memory,
}

/// The plan of a draft, or the draft again with its first fault. Out of memory comes last: where no fault stands.
pub fn plan_check<W>(alloc: Global, draft: Draft<W>) -> Result<Plan<W>, (Draft<W>, PlanRefusal)>
    ensures no_fault { OnOk result (first_plan_fault draft.blocks.items draft.links.items ≡ None) }
    ensures same_blocks { IfOk result (λ plan. (layout_of plan).blocks ≡ draft.blocks.items) }
    ensures its_links { IfOk result
        (λ plan. (layout_of plan).links ≡ planned_links draft.blocks.items draft.links.items) }
    ensures why { IfErr result (λ refused. IsWhy (first_plan_fault draft.blocks.items draft.links.items) refused.1) }
    ensures handed_back { IfErr result (λ refused. refused.0 ≡ draft) }
{
    if let Some(fault) = first_fault(&draft.blocks, &draft.links) {
        return Err((draft, PlanRefusal::Fault(fault)));
    }
    match planned_links(alloc, &draft.blocks, &draft.links) {
        Ok(links) => {
            let Draft { blocks, links: _ } = draft;
            Ok(Plan::new(blocks, links))
        }
        Err(_) => Err((draft, PlanRefusal::Memory)),
    }
}

/// The first fault of a draft with these blocks and links. It takes no memory.
fn first_fault<W>(blocks: &[BlockDef<W>], links: &[LinkDef]) -> Option<PlanFault>
    ensures { result ≡ first_plan_fault blocks.now links.now }
{
    if let Some(fault) = fault_of_names(blocks, links) {
        return Some(fault);
    }
    if let Some(fault) = fault_of_ends(blocks, links) {
        return Some(fault);
    }
    if let Some(fault) = fault_of_options(blocks, links) {
        return Some(fault);
    }
    if let Some(block) = first_small_batch(blocks) {
        return Some(PlanFault::CapacityBelowSize(block));
    }
    let mut room = [NO_LINK; MOST_LINKS];
    name_links(blocks, links, &mut room);
    fault_of_ways(blocks, &room[..links.len()])
}

/// The first fault among those of how links lead from block to block.
fn fault_of_ways<W>(blocks: &[BlockDef<W>], links: &[Link]) -> Option<PlanFault>
    requires { length blocks.now ≤ 256 }
    ensures { result ≡ fault_of_ways blocks.now links.now }
{
    if let Some(block) = first_shared_source(blocks, links) {
        return Some(PlanFault::SharedSource(block));
    }
    if has_cycle(links, blocks.len()) {
        return Some(PlanFault::Cycle);
    }
    None
}

/// The first block that is a join that reserves, and into two of whose ports one block is linked.
fn first_shared_source<W>(blocks: &[BlockDef<W>], links: &[Link]) -> Option<usize>
    ensures { result ≡ find (shares_among blocks.now links.now) (below (length blocks.now)) }
{
    for block in 0..blocks.len() {
        if shares_a_source(blocks, links, block) {
            return Some(block);
        }
    }
    None
}

fn shares_a_source<W>(blocks: &[BlockDef<W>], links: &[Link], block: usize) -> bool
    requires { block < length blocks.now }
    ensures { result ≡ shares_among blocks.now links.now block }
{
    let join = &blocks[block];
    join.kind.unit().reserves(join.greedy) && has_shared_source(blocks.len(), links, block)
}

fn has_shared_source(count: usize, links: &[Link], block: usize) -> bool
    ensures { result ≡ some (λ source. leads_twice links.now source block) (below count) }
{
    for source in 0..count {
        if leads_twice(links, source, block) {
            return true;
        }
    }
    false
}

fn leads_twice(links: &[Link], source: usize, block: usize) -> bool
    ensures { result ≡ list_any (leads_beside links.now source block) links.now }
{
    links
        .iter()
        .any(|link| leads_beside(links, source, block, link))
}

/// Whether this link leads from the source into a port of the block, and another one into another.
fn leads_beside(links: &[Link], source: usize, block: usize, link: &Link) -> bool
    ensures { result ≡ leads_beside links.now source block link.now }
{
    begins_at(source, link.source) && shares_with(links, source, block, link.target)
}

#[tactic(auto, using(crate::proofs::FirstInOrder::any_is_some))]
fn shares_with(links: &[Link], source: usize, block: usize, target: LinkTarget) -> bool
    ensures { result ≡ shares_with source block target links.now }
{
    match target {
        LinkTarget::Port(target, port) => target == block
            && has_another(links, source, block, port),
        LinkTarget::Exit => false,
    }
}

fn has_another(links: &[Link], source: usize, block: usize, port: PortId) -> bool
    ensures { result ≡ list_any (enters_another source block port) links.now }
{
    links
        .iter()
        .any(|other| enters_another(source, block, port, other))
}

/// Whether this link leads from the source into another port of the block than this one.
fn enters_another(source: usize, block: usize, port: PortId, link: &Link) -> bool
    ensures { result ≡ enters_another source block port link.now }
{
    begins_at(source, link.source)
        && ends_at(block, link.target)
        && !ends_at_port(block, port, link.target)
}

fn ends_at(block: usize, target: LinkTarget) -> bool
    ensures { result ≡ ends_at block target }
{
    match target {
        LinkTarget::Port(other, _) => other == block,
        LinkTarget::Exit => false,
    }
}

fn ends_at_port(block: usize, port: PortId, target: LinkTarget) -> bool
    ensures { result ≡ ends_at_port block port target }
{
    match target {
        LinkTarget::Port(other, place) => other == block && place == port,
        LinkTarget::Exit => false,
    }
}

fn begins_at(block: usize, source: LinkSource) -> bool
    ensures { result ≡ begins_at block source }
{
    match source {
        LinkSource::Block(other) => other == block,
        LinkSource::Input(_) => false,
    }
}

/// The first fault among those of numbers and names.
fn fault_of_names<W>(blocks: &[BlockDef<W>], links: &[LinkDef]) -> Option<PlanFault>
    ensures { result ≡ find (stands blocks.now links.now) (name_faults blocks.now links.now) }
{
    if is_over_limit(blocks, links) {
        return Some(PlanFault::Limit);
    }
    if let Some(block) = first_duplicate_name(blocks) {
        return Some(PlanFault::DuplicateName(block));
    }
    match first_unknown_block(blocks, links) {
        Some(link) => Some(PlanFault::UnknownBlock(link)),
        None => None,
    }
}

/// The first fault among those of what links lead from and to.
fn fault_of_ends<W>(blocks: &[BlockDef<W>], links: &[LinkDef]) -> Option<PlanFault>
    ensures { result ≡ find (stands blocks.now links.now) (end_faults blocks.now links.now) }
{
    if let Some(link) = first_missing_port(blocks, links) {
        return Some(PlanFault::Port(link));
    }
    match first_missing_output(blocks, links) {
        Some(link) => Some(PlanFault::NoOutput(link)),
        None => None,
    }
}

/// The first fault among those of options.
fn fault_of_options<W>(blocks: &[BlockDef<W>], links: &[LinkDef]) -> Option<PlanFault>
    ensures { result ≡ find (stands blocks.now links.now) (option_faults blocks.now links.now) }
{
    if let Some(block) = first_bad_block(blocks) {
        return Some(PlanFault::BadOption(Place::Block(block)));
    }
    match first_bad_link(links) {
        Some(link) => Some(PlanFault::BadOption(Place::Link(link))),
        None => None,
    }
}

fn is_over_limit<W>(blocks: &[BlockDef<W>], links: &[LinkDef]) -> bool
    ensures { result ≡ stands blocks.now links.now Limit }
{
    blocks.len() > MOST_BLOCKS || links.len() > MOST_LINKS
}

// Links have no part in it, so it is the same with none.
fn first_duplicate_name<W>(blocks: &[BlockDef<W>]) -> Option<usize>
    ensures { result ≡ first_at blocks.now [] DuplicateName (length blocks.now) }
{
    for (place, block) in blocks.iter().enumerate() {
        if block_named(&blocks[..place], block.name.as_str()).is_some() {
            return Some(place);
        }
    }
    None
}

fn first_unknown_block<W>(blocks: &[BlockDef<W>], links: &[LinkDef]) -> Option<usize>
    ensures { result ≡ position (λ link. is_none (block_named blocks.now link.from) || is_none
        (block_named blocks.now link.to)) links.now }
{
    links.iter().position(|link| is_unknown(blocks, link))
}

fn first_missing_port<W>(blocks: &[BlockDef<W>], links: &[LinkDef]) -> Option<usize>
    ensures { result ≡ position (λ link. lacks_port blocks.now [] (block_named blocks.now link.to)
        (named_link blocks.now link).target) links.now }
{
    links.iter().position(|link| lacks_port(blocks, link))
}

fn first_missing_output<W>(blocks: &[BlockDef<W>], links: &[LinkDef]) -> Option<usize>
    ensures { result ≡ position (λ link. lacks_output blocks.now [] (block_named blocks.now link.from)) links.now }
{
    links.iter().position(|link| lacks_output(blocks, link))
}

fn first_bad_block<W>(blocks: &[BlockDef<W>]) -> Option<usize>
    ensures { result ≡ position is_bad_block blocks.now }
{
    blocks.iter().position(|block| is_bad_block(block))
}

fn first_bad_link(links: &[LinkDef]) -> Option<usize>
    ensures { result ≡ position (λ link. not (is_in 1 2147483647 link.max)) links.now }
{
    links.iter().position(|link| !max_fits(link.max))
}

fn first_small_batch<W>(blocks: &[BlockDef<W>]) -> Option<usize>
    ensures { result ≡ position (λ block. holds_no_group block.kind block.capacity block.size) blocks.now }
{
    blocks.iter().position(|block| holds_no_group(block.kind, block.capacity, block.size))
}

/// The number of the block with this name.
pub(crate) fn block_named<W>(blocks: &[BlockDef<W>], name: &str) -> Option<usize>
    ensures place { result ≡ block_named blocks.now name.now }
    ensures within { IfSome result (λ place. place < length blocks.now) }
{
    blocks.iter().position(|block| block.name.as_str() == name)
}

fn is_unknown<W>(blocks: &[BlockDef<W>], link: &LinkDef) -> bool
    ensures { result ≡ (is_none (block_named blocks.now link.now.from) || is_none
        (block_named blocks.now link.now.to)) }
{
    block_named(blocks, link.from.as_str()).is_none()
        || block_named(blocks, link.to.as_str()).is_none()
}

fn lacks_port<W>(blocks: &[BlockDef<W>], link: &LinkDef) -> bool
    ensures { result ≡ lacks_port blocks.now [] (block_named blocks.now link.now.to)
        (named_link blocks.now link.now).target }
{
    match block_named(blocks, link.to.as_str()) {
        Some(place) => {
            let target = &blocks[place];
            target.kind.unit().port_count(target.ports) <= link.port.unwrap_or(0)
        }
        None => false,
    }
}

fn lacks_output<W>(blocks: &[BlockDef<W>], link: &LinkDef) -> bool
    ensures { result ≡ lacks_output blocks.now [] (block_named blocks.now link.now.from) }
{
    match block_named(blocks, link.from.as_str()) {
        Some(place) => blocks[place].kind.gives_nothing(),
        None => false,
    }
}

#[tactic(auto, unfolding(crate::specs::FaultOrder::is_bad_block))]
fn is_bad_block<W>(block: &BlockDef<W>) -> bool
    ensures { result ≡ is_bad_block block.now }
{
    !options_fit(block)
}
