//! What a block has of a plan in which nothing has happened: its ports, the rules of the links that leave it, and the
//! places of all links at their two ends.
ghost use Rattle.std.specs.Prelude.{◌≡◌, ℕ, ◌<◌, ◌≤◌, length, map, HoldsAt, IfOk, filter};
ghost use Rattle.flow_link.specs.declared.plan.LinkTarget.TheVariants.{Port};
ghost use Rattle.flow_link.specs.Lists.{below};
ghost use Rattle.flow_link.specs.Plan.{begins_at, block_in, ends_at, ends_at_port, is_reserving, is_sole, is_steady};
ghost use Rattle.flow_link.specs.Plan.{links_into, port_count, takes_at_once};
ghost use Rattle.flow_link.specs.Planned.{layout_of};
ghost use Rattle.flow_intake.specs.Port.{fresh_port};
ghost use Rattle.flow_block.specs.Planned.{block_from, enters, exit_place, in_place, input_place, is_exit, links_from, out_place, port_of_plan, room_of};
ghost use Rattle.flow_block.specs.Planned.{rule_of, source_by, sources_of};
ghost use Rattle.flow_block.specs.Routes.{route_of};

use flow_group::Source;
use flow_intake::Intake;
use flow_link::{BlockDef, BlockUnit, LinkId, LinkSource, LinkTarget, Plan};
use flow_outlet::LinkRule;
use std::alloc::{AllocError, Global};

/// The way of a link: where its messages come from and go to, and the place that the link has at either.
#[derive(Clone, Copy, PartialEq, Eq)]
pub struct Route {
    pub source: LinkSource,
    /// How many links before it leave the same block. At an input, which has one link, it is the place of the input
    /// among all inputs, in the order of their blocks.
    pub source_place: usize,
    pub target: LinkTarget,
    /// How many links before it enter the same port. At an exit, which has one link, it is the place of the exit among all
    /// exits, in the order of their links.
    pub target_place: usize,
}

/// The rules of the links that leave this block, in the order of the links. It fails only where memory is out.
///
/// It looks at each link once, and once more for each link that leaves the block.
pub fn rules_from<W>(
    alloc: Global,
    plan: &Plan<W>,
    block: usize,
) -> Result<Vec<LinkRule>, AllocError>
    ensures { IfOk result (λ rules. rules.items ≡ map (rule_of (layout_of plan.now)) (links_from (layout_of plan.now)
        block)) }
{
    let mut rules = Vec::new(alloc);
    for id in 0..plan.link_count() {
        if leaves(plan.link(id).source, block) {
            rules.push(rule_of(plan, id))?;
        }
    }
    Ok(rules)
}

/// The port of this block with this number, with an end for each link that enters it, in the order of the links. It
/// fails only where memory is out.
pub fn port_of<W>(
    alloc: Global,
    plan: &Plan<W>,
    block: usize,
    port: usize,
) -> Result<Intake, AllocError>
    requires { block < length (layout_of plan.now).blocks }
    ensures { IfOk result (λ made. made ≡ port_of_plan (layout_of plan.now) block port) }
{
    let mut made = port_like(alloc, plan.block(block));
    for id in 0..plan.link_count() {
        if enters(plan.link(id).target, block, port) {
            made.add_link(id)?;
        }
    }
    Ok(made)
}

/// A port of this block without a link: a join that reserves has ports that postpone all that is offered.
fn port_like<W>(alloc: Global, block: &BlockDef<W>) -> Intake
    ensures { result ≡ record (fresh_port (room_of block.now)) { reserves = is_reserving block.now } }
{
    if is_reserving(block) {
        Intake::reserving(alloc, room_of(block))
    } else {
        Intake::new(alloc, room_of(block))
    }
}

/// The links into this block, each with the block from which it comes, in the order of the links, if it is a join that
/// reserves; another block has none. It fails only where memory is out.
pub fn sources_of<W>(alloc: Global, plan: &Plan<W>, block: usize) -> Result<Vec<Source>, AllocError>
    requires { block < length (layout_of plan.now).blocks }
    ensures { IfOk result (λ sources. sources.items ≡ sources_of (layout_of plan.now) block) }
{
    if is_reserving(plan.block(block)) {
        sources_into(alloc, plan, block)
    } else {
        Ok(Vec::new(alloc))
    }
}

/// The links into this block, each with the block from which it comes.
fn sources_into<W>(alloc: Global, plan: &Plan<W>, block: usize) -> Result<Vec<Source>, AllocError>
    ensures { IfOk result (λ sources. sources.items ≡
        map (source_by (layout_of plan.now)) (filter (enters (layout_of plan.now) block) (below (length (layout_of plan.now).links)))) }
{
    let mut sources = Vec::new(alloc);
    for id in 0..plan.link_count() {
        if ends_at(plan.link(id).target, block) {
            sources.push(Source {
                link: id,
                block: block_from(plan.link(id).source),
            })?;
        }
    }
    Ok(sources)
}

/// The block from which messages come: that of an input is the block that it feeds.
fn block_from(source: LinkSource) -> usize
    ensures { result ≡ block_from source }
{
    match source {
        LinkSource::Block(block) | LinkSource::Input(block) => block,
    }
}

/// For how many messages a block has room: for one, where it takes one message in all.
fn room_of<W>(block: &BlockDef<W>) -> Option<u32>
    ensures { result ≡ room_of block.now }
{
    match block.kind.unit() {
        BlockUnit::OneCopy => Some(1),
        BlockUnit::Message
        | BlockUnit::Row
        | BlockUnit::Tuple
        | BlockUnit::Group
        | BlockUnit::Copy => block.capacity,
    }
}

/// The ports of this block, in their order. It fails only where memory is out.
pub fn ports_of<W>(alloc: Global, plan: &Plan<W>, block: usize) -> Result<Vec<Intake>, AllocError>
    requires { block < length (layout_of plan.now).blocks }
    ensures { IfOk result (λ ports. ports.items ≡ map (port_of_plan (layout_of plan.now) block) (below (port_count
        (block_in (layout_of plan.now).blocks block)))) }
{
    let mut ports = Vec::new(alloc);
    for port in 0..port_count(plan.block(block)) {
        ports.push(port_of(alloc, plan, block, port as usize)?)?;
    }
    Ok(ports)
}

/// The way of each link, in the order of the links. It fails only where memory is out.
///
/// It looks at all earlier links for each link.
pub fn routes_of<W>(alloc: Global, plan: &Plan<W>) -> Result<Vec<Route>, AllocError>
    ensures all { IfOk result (λ routes. routes.items ≡ map (route_of (layout_of plan.now)) (below (length (layout_of
        plan.now).links))) }
    ensures each { IfOk result (λ routes. (l : ℕ) → l < length (layout_of plan.now).links → HoldsAt (λ route. route ≡
        route_of (layout_of plan.now) l) routes.items l) }
{
    let mut routes = Vec::with_capacity(alloc, plan.link_count() as usize)?;
    for id in 0..plan.link_count() {
        routes.push(route_of(plan, id))?;
    }
    Ok(routes)
}

/// What the plan says of this link to the block that it leaves.
fn rule_of<W>(plan: &Plan<W>, id: LinkId) -> LinkRule
    requires { id < length (layout_of plan.now).links }
    ensures { result ≡ rule_of (layout_of plan.now) id }
{
    let link = plan.link(id);
    LinkRule {
        id,
        when: link.when,
        max: link.max,
        passes: link.propagate,
        steady: is_steady(plan, link.target),
        sole: is_sole(plan, link.target),
    }
}

/// The way of this link.
fn route_of<W>(plan: &Plan<W>, id: LinkId) -> Route
    requires { id < length (layout_of plan.now).links }
    ensures { result ≡ route_of (layout_of plan.now) id }
{
    let link = plan.link(id);
    Route {
        source: link.source,
        source_place: match link.source {
            LinkSource::Block(block) => out_place(plan, block, id),
            LinkSource::Input(block) => input_place(plan, block),
        },
        target: link.target,
        target_place: match link.target {
            LinkTarget::Port(block, port) => in_place(plan, block, port as usize, id),
            LinkTarget::Exit => exit_place(plan, id),
        },
    }
}

/// How many links before this one leave this block.
fn out_place<W>(plan: &Plan<W>, block: usize, id: LinkId) -> usize
    requires { id ≤ length (layout_of plan.now).links }
    ensures { result ≡ out_place (layout_of plan.now) block id }
{
    let mut place = 0;
    for earlier in 0..id {
        if leaves(plan.link(earlier).source, block) {
            place += 1;
        }
    }
    place
}

/// How many links before this one enter this port.
fn in_place<W>(plan: &Plan<W>, block: usize, port: usize, id: LinkId) -> usize
    requires { id ≤ length (layout_of plan.now).links }
    ensures { result ≡ in_place (layout_of plan.now) block port id }
{
    let mut place = 0;
    for earlier in 0..id {
        if enters(plan.link(earlier).target, block, port) {
            place += 1;
        }
    }
    place
}

/// How many links before this one lead out of the network: the place of its exit among all exits.
fn exit_place<W>(plan: &Plan<W>, id: LinkId) -> usize
    requires { id ≤ length (layout_of plan.now).links }
    ensures { result ≡ exit_place (layout_of plan.now) id }
{
    let mut place = 0;
    for earlier in 0..id {
        if is_exit(plan.link(earlier).target) {
            place += 1;
        }
    }
    place
}

/// How many blocks before this one have an input: the place of its input among all inputs.
fn input_place<W>(plan: &Plan<W>, block: usize) -> usize
    requires { block ≤ length (layout_of plan.now).blocks }
    ensures { result ≡ input_place (layout_of plan.now) block }
{
    let mut place = 0;
    for earlier in 0..block {
        if plan.block(earlier).input {
            place += 1;
        }
    }
    place
}

/// Whether this target takes each message when it is offered: it has no capacity, keeps no single message and does not
/// reserve.
fn is_steady<W>(plan: &Plan<W>, target: LinkTarget) -> bool
    requires { (b p : ℕ) → target ≡ Port b p → b < length (layout_of plan.now).blocks }
    ensures { result ≡ is_steady (layout_of plan.now).blocks target }
{
    match target {
        LinkTarget::Port(block, _) => takes_at_once(plan.block(block)),
        LinkTarget::Exit => false,
    }
}

/// Whether one link leads into this target's block, the link of an input counted, and the block does not reserve.
fn is_sole<W>(plan: &Plan<W>, target: LinkTarget) -> bool
    requires { (b p : ℕ) → target ≡ Port b p → b < length (layout_of plan.now).blocks }
    ensures { result ≡ is_sole (layout_of plan.now).blocks (layout_of plan.now).links target }
{
    match target {
        LinkTarget::Port(block, _) => links_into(plan, block) == 1
            && !is_reserving(plan.block(block)),
        LinkTarget::Exit => false,
    }
}

/// How many links lead into this block, at any of its ports.
fn links_into<W>(plan: &Plan<W>, block: usize) -> usize
    ensures { result ≡ links_into block (layout_of plan.now).links }
{
    let mut count = 0;
    for id in 0..plan.link_count() {
        if ends_at(plan.link(id).target, block) {
            count += 1;
        }
    }
    count
}

/// How many ports the block has.
fn port_count<W>(block: &BlockDef<W>) -> u32
    ensures { result ≡ port_count block.now }
{
    block.kind.unit().port_count(block.ports)
}

/// Whether the block takes each message when it is offered.
fn takes_at_once<W>(block: &BlockDef<W>) -> bool
    ensures { result ≡ takes_at_once block.now }
{
    block.capacity.is_none() && !block.kind.unit().copies_one() && !is_reserving(block)
}

/// Whether the block reserves its messages before it takes them: a join that is not greedy.
fn is_reserving<W>(block: &BlockDef<W>) -> bool
    ensures { result ≡ is_reserving block.now }
{
    block.kind.unit().reserves(block.greedy)
}

/// Whether this source is this block.
fn leaves(source: LinkSource, block: usize) -> bool
    ensures { result ≡ begins_at block source }
{
    match source {
        LinkSource::Block(number) => number == block,
        LinkSource::Input(_) => false,
    }
}

/// Whether this target is a port of this block.
fn ends_at(target: LinkTarget, block: usize) -> bool
    ensures { result ≡ ends_at block target }
{
    match target {
        LinkTarget::Port(number, _) => number == block,
        LinkTarget::Exit => false,
    }
}

/// Whether a link with this target leads out of the network.
pub fn is_exit(target: LinkTarget) -> bool
    ensures { result ≡ is_exit target }
{
    match target {
        LinkTarget::Port(..) => false,
        LinkTarget::Exit => true,
    }
}

/// Whether this target is this port of this block.
fn enters(target: LinkTarget, block: usize, port: usize) -> bool
    ensures { result ≡ ends_at_port block port target }
{
    match target {
        LinkTarget::Port(number, entered) => number == block && entered as usize == port,
        LinkTarget::Exit => false,
    }
}
