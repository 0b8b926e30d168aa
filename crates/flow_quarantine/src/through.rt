//! Whether all records of a run went wherever each of them goes alone.
ghost use Rattle.std.specs.Prelude.{◌≡◌};
ghost use Rattle.flow_link.specs.Plan.{port_count};

use crate::apart::{is_join, is_way_out};
use flow_link::{BlockDef, LinkId, LinkSource, LinkTarget, Phase, Plan};
use flow_net::{Net, State};
use flow_value::Steps;

/// Whether each message of a run that is quiet was taken and worked on without a fault, up to the joins. What stands before a join, or
/// in one, lacks a partner, as it does alone.
pub(crate) fn went_through(net: &Net<Steps>) -> bool {
    all_worked(net) && all_entered(net)
}

fn all_worked(net: &Net<Steps>) -> bool {
    for block in 0..net.plan().block_count() {
        if !has_worked(net, block) {
            return false;
        }
    }
    true
}

/// Whether a block worked on all that it took, and what it made went on.
fn has_worked(net: &Net<Steps>, block: usize) -> bool {
    if block >= net.plan().block_count() {
        return false;
    }
    match net.state(block) {
        State::Done => true,
        State::Faulted(_) => false,
        State::Open | State::Completing => {
            is_join(net.plan(), block) || (holds_nothing(net, block) && leaves_nothing(net, block))
        }
    }
}

fn holds_nothing(net: &Net<Steps>, block: usize) -> bool {
    if block >= net.plan().block_count() {
        return false;
    }
    for port in 0..ports_of(net.plan().block(block)) {
        if !net.held(block, port).is_empty() {
            return false;
        }
    }
    true
}

/// How many ports a block has.
fn ports_of(block: &BlockDef<Steps>) -> u32
    ensures { result ≡ port_count block.now }
{
    block.kind.unit().port_count(block.ports)
}

/// Whether nothing stays at a block that would have gone to another one than a join.
fn leaves_nothing(net: &Net<Steps>, block: usize) -> bool {
    if block >= net.plan().block_count() {
        return false;
    }
    let (front, back) = net.left(block);
    (front.is_empty() && back.is_empty()) || leads_to_joins_alone(net.plan(), block)
}

fn leads_to_joins_alone(plan: &Plan<Steps>, block: usize) -> bool {
    for id in 0..plan.link_count() {
        let link = plan.link(id);
        if is_way_out(link, block) && !leads_to_join(plan, id) {
            return false;
        }
    }
    true
}

fn leads_to_join(plan: &Plan<Steps>, id: LinkId) -> bool {
    if id >= plan.link_count() {
        return false;
    }
    match plan.link(id).target {
        LinkTarget::Port(block, _) => is_join(plan, block),
        LinkTarget::Exit => false,
    }
}

/// Whether each input gave all that was posted: only then it ends its link.
fn all_entered(net: &Net<Steps>) -> bool {
    for id in 0..net.plan().link_count() {
        if !has_entered(net, id) {
            return false;
        }
    }
    true
}

fn has_entered(net: &Net<Steps>, id: LinkId) -> bool {
    if id >= net.plan().link_count() {
        return false;
    }
    match net.plan().link(id).source {
        LinkSource::Input(_) => matches!(net.phase(id), Phase::Ended(_)),
        LinkSource::Block(_) => true,
    }
}
