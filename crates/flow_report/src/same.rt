//! Which lists of a report have the same values, as far as the laws of a network tell.
ghost use Rattle.std.specs.Prelude.{◌≡◌, ◌<◌, ◌≤◌, ◌↔◌, ◌∷◌, [], length, true, false, IsTrue, IfSome, Ok};
ghost use Rattle.flow_value.specs.declared.value.Value.{Value};
ghost use Rattle.flow_value.specs.Function.{meaning_of};
ghost use Rattle.flow_link.specs.declared.draft.BlockKind.TheVariants.{Action};
ghost use Rattle.flow_link.specs.Layout.{input_link};
ghost use Rattle.flow_link.specs.Plan.{begins_at, ends_at_port, port_count, takes_at_once};
ghost use Rattle.flow_link.specs.Trace.{took, took_at, gave_over, given_over, block_of, link_of, held_at, left_at};
ghost use Rattle.flow_link.specs.Trace.{marks_of, trace_of, waits_over};
ghost use Rattle.flow_exec.specs.Works.{worked_by};
ghost use Rattle.flow_net.specs.States.{state_by};
ghost use Rattle.flow_report.specs.Report.{run_in};
ghost use Rattle.flow_report.specs.SameLists.{AllTaken, LeadsAlone, LeavesAlone, CarriesEach, hands_on};
ghost use Rattle.flow_report.specs.SameLists.{ends_with_ports};

use crate::seen::{block_at, block_count, held_at, left_at, link_at, link_count};
use flow_link::{
    BlockDef, BlockKind, BlockUnit, Link, LinkId, LinkSource, LinkTarget, Mark, Phase,
};
use flow_net::{Net, State};
use flow_value::{Steps, When};

fn is_into(link: Link, block: usize, port: u32) -> bool
    ensures { result ≡ ends_at_port block port link.target }
{
    match link.target {
        LinkTarget::Port(target, at) => target == block && u32::from(at) == port,
        LinkTarget::Exit => false,
    }
}

// The link into this port, if there is one, and no other.
fn link_into(net: &Net<Steps>, block: usize, port: u32) -> Option<LinkId>
    ensures { IfSome result (LeadsAlone (run_in net.now) block port) }
{
    let mut found = None;
    for id in 0..link_count(net) {
        if is_into(link_at(net, id), block, port) {
            if found.is_some() {
                return None;
            }
            found = Some(id);
        }
    }
    found
}

/// A link over which just the values were given that this port took, in their order, if one is known.
pub(crate) fn link_of_port(
    net: &Net<Steps>,
    all_taken: bool,
    block: usize,
    port: u32,
) -> Option<LinkId>
    requires known { block < length (run_in net.now).layout.blocks }
    requires taken { all_taken ≡ true → AllTaken (run_in net.now) }
    ensures { IfSome result (λ link. given_over (run_in net.now) link ≡ took_at port (marks_of (run_in net.now) block)) }
{
    if !all_taken {
        return None;
    }
    let link = link_into(net, block, port)?;
    match link_at(net, link).source {
        LinkSource::Block(_) => Some(link),
        LinkSource::Input(_) => None,
    }
}

/// Whether this link leads to a port that may have taken just the values that were given over it.
pub(crate) fn leads_alone(net: &Net<Steps>, link: LinkId) -> bool
    requires { link < length (run_in net.now).layout.links }
{
    match link_at(net, link).target {
        LinkTarget::Port(block, port) => link_into(net, block, u32::from(port)) == Some(link),
        LinkTarget::Exit => false,
    }
}

// How many values a mark took.
fn taken_by(mark: &Mark) -> usize
    ensures count { result ≡ length (took (mark.now ∷ [])) }
    ensures few { result ≤ 1 }
{
    match mark {
        Mark::Took(_, _, _) => 1,
        Mark::Gave(_, _) | Mark::Complete(_) | Mark::Fault(_) | Mark::Done => 0,
    }
}

// How many values a mark gave over this link.
fn given_by(mark: &Mark, link: LinkId) -> usize
    ensures count { result ≡ length (gave_over link (mark.now ∷ [])) }
    ensures few { result ≤ 1 }
{
    match mark {
        Mark::Gave(over, _) => usize::from(*over == link),
        Mark::Took(_, _, _) | Mark::Complete(_) | Mark::Fault(_) | Mark::Done => 0,
    }
}

// Whether a journal gave over this link as many values as it took.
fn gave_as_many(journal: &[Mark], link: LinkId) -> bool
    ensures { IsTrue result ↔ (length (gave_over link journal.now) ≡ length (took journal.now)) }
{
    let mut taken: usize = 0;
    let mut given: usize = 0;
    for mark in journal {
        taken += taken_by(mark);
        given += given_by(mark, link);
    }
    given == taken
}

/// Whether a block of this kind hands its messages on as they are.
pub(crate) fn hands_on(kind: BlockKind) -> bool
    ensures { result ≡ hands_on kind }
{
    match kind.unit() {
        BlockUnit::Message => !kind.has_work(),
        BlockUnit::Copy => true,
        BlockUnit::Row | BlockUnit::Tuple | BlockUnit::Group | BlockUnit::OneCopy => false,
    }
}

/// Whether this link begins at this block.
pub(crate) fn is_from(link: Link, block: usize) -> bool
    ensures { result ≡ begins_at block link.source }
{
    match link.source {
        LinkSource::Block(source) => source == block,
        LinkSource::Input(_) => false,
    }
}

// Whether this link is another one from this block.
fn is_other_from(net: &Net<Steps>, block: usize, link: LinkId, other: LinkId) -> bool
    requires { other < length (run_in net.now).layout.links }
    ensures { result ≡ false → begins_at block (link_of (run_in net.now) other).source ≡ true → other ≡ link }
{
    other != link && is_from(link_at(net, other), block)
}

// Whether no other link begins at this block.
fn leaves_alone(net: &Net<Steps>, block: usize, link: LinkId) -> bool
    ensures { result ≡ true → LeavesAlone (run_in net.now) block link }
{
    for id in 0..link_count(net) {
        if is_other_from(net, block, link, id) {
            return false;
        }
    }
    true
}

// Whether this block is there, and takes each message when it is offered.
fn takes_at_once(net: &Net<Steps>, block: usize) -> bool
    ensures { result ≡ true → takes_at_once (block_of (run_in net.now) block) ≡ true }
{
    if block >= block_count(net) {
        return false;
    }
    let def = block_at(net, block);
    def.capacity.is_none()
        && !matches!(def.kind, BlockKind::WriteOnce)
        && !def.kind.unit().reserves(def.greedy)
}

// Whether a link from a broadcast block carries each copy: its target takes all, and did not refuse.
fn carries_each(net: &Net<Steps>, link: LinkId) -> bool
    requires { link < length (run_in net.now).layout.links }
    ensures { result ≡ true → CarriesEach (run_in net.now) link }
{
    let way = link_at(net, link);
    let steady = match way.target {
        LinkTarget::Port(target, _) => takes_at_once(net, target),
        LinkTarget::Exit => false,
    };
    steady
        && matches!(way.when, When::Any)
        && way.max.is_none()
        && !matches!(net.phase(link), Phase::Refused)
}

// Whether a block holds nothing at its first port, and has nothing left to give.
fn has_nothing(net: &Net<Steps>, block: usize) -> bool
    requires block { block < length (run_in net.now).layout.blocks }
    requires port { 0 < port_count (block_of (run_in net.now) block) }
    ensures left { result ≡ true → left_at (run_in net.now) block ≡ [] }
    ensures held { result ≡ true → held_at (run_in net.now) block 0 ≡ [] }
{
    let (front, back) = left_at(net, block);
    front.is_empty() && back.is_empty() && holds_nothing(net, block, 0)
}

// Whether it is known without a look at the journal that this block gave over this link just the values that it took.
fn has_given_all(net: &Net<Steps>, block: usize, link: LinkId) -> bool
    requires known { block < length (run_in net.now).layout.blocks }
    requires link { link < length (run_in net.now).layout.links }
    requires from { begins_at block (link_of (run_in net.now) link).source ≡ true }
    ensures { result ≡ true → gave_over link (marks_of (run_in net.now) block) ≡ took_at 0
        (marks_of (run_in net.now) block) }
{
    let kind = block_at(net, block).kind;
    if matches!(kind, BlockKind::Buffer) {
        return leaves_alone(net, block, link) && has_nothing(net, block);
    }
    if matches!(kind, BlockKind::Broadcast) {
        return carries_each(net, link) && has_nothing(net, block);
    }
    false
}

/// Whether it is known that this block gave over this link just the values that it took, in their order.
pub(crate) fn hands_all_on(net: &Net<Steps>, block: usize, link: LinkId) -> bool
    requires known { block < length (run_in net.now).layout.blocks }
    requires link { link < length (run_in net.now).layout.links }
    requires from { begins_at block (link_of (run_in net.now) link).source ≡ true }
    ensures { result ≡ true → gave_over link (marks_of (run_in net.now) block) ≡ took_at 0
        (marks_of (run_in net.now) block) }
{
    if has_given_all(net, block, link) {
        return true;
    }
    hands_on(block_at(net, block).kind) && gave_as_many(net.journal(block), link)
}

// Whether a work gives each value back.
fn gives_back(work: &Option<Steps>) -> bool
    ensures { result ≡ true → (value : Value) → worked_by meaning_of work.now value ≡ Ok (value ∷ []) }
{
    match work {
        Some(steps) => steps.as_slice().is_empty(),
        None => true,
    }
}

// Whether a port holds nothing.
fn holds_nothing(net: &Net<Steps>, block: usize, port: u32) -> bool
    requires block { block < length (run_in net.now).layout.blocks }
    requires port { port < port_count (block_of (run_in net.now) block) }
    ensures { result ≡ true → held_at (run_in net.now) block port ≡ [] }
{
    let (front, back) = held_at(net, block, port);
    front.is_empty() && back.is_empty()
}

/// Whether it is known that this action recorded just the values that it took, in their order.
pub(crate) fn records_all(net: &Net<Steps>, block: usize) -> bool
    requires known { block < length (run_in net.now).layout.blocks }
    requires action { (block_of (run_in net.now) block).kind ≡ Action }
    ensures { result ≡ true → (trace_of (run_in net.now) block).recorded ≡ took_at 0
        (marks_of (run_in net.now) block) }
{
    gives_back(&block_at(net, block).work) && holds_nothing(net, block, 0)
}

/// Whether other lines of this block may have just the values that it took.
pub(crate) fn may_show_again(block: &BlockDef<Steps>) -> bool {
    hands_on(block.kind) || (matches!(block.kind, BlockKind::Action) && gives_back(&block.work))
}

// Whether a block of this kind ends only once its ports have completed.
fn ends_with_ports(kind: BlockKind) -> bool
    ensures { result ≡ ends_with_ports kind }
{
    match kind.unit() {
        BlockUnit::Message | BlockUnit::Row | BlockUnit::Group | BlockUnit::Copy => true,
        BlockUnit::Tuple | BlockUnit::OneCopy => false,
    }
}

fn is_done(net: &Net<Steps>, block: usize) -> bool
    requires { block < length (run_in net.now).layout.blocks }
    ensures { result ≡ true → state_by (run_in net.now) block ≡ State.Done }
{
    matches!(net.state(block), State::Done)
}

/// Whether it is known without a look at the journal that an input took all that was posted, over its link.
pub(crate) fn took_all_posted(net: &Net<Steps>, block: usize, link: LinkId) -> bool
    requires known { block < length (run_in net.now).layout.blocks }
    requires leads { link_of (run_in net.now) link ≡ input_link block }
    ensures { result ≡ true → waits_over (run_in net.now) block link ≡ [] }
{
    if !is_done(net, block) {
        return false;
    }
    if !ends_with_ports(block_at(net, block).kind) {
        return false;
    }
    match link_into(net, block, 0) {
        Some(only) => only == link,
        None => false,
    }
}
