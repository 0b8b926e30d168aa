//! What a record comes to when it is run alone.
ghost use Rattle.std.specs.Prelude.{◌≡◌, IfOk};
ghost use Rattle.flow_link.specs.Planned.{layout_of};

use crate::aside::Aside;
use crate::post::{plan_of, read_fields, start_alone};
use flow_link::{LinkId, LinkSource, LinkTarget, Plan};
use flow_net::{Net, NetFault, Settled, State};
use flow_split::{PieceFault, Records};
use flow_text::{TextFault, TextRefusal};
use flow_value::Steps;
use std::alloc::Global;

/// Why the record of this text is set aside, if it is: it is refused, or a block faults when no other record is there. The plan
/// comes back.
pub(crate) fn run_alone(
    alloc: Global,
    plan: Plan<Steps>,
    record: &[u8],
    limit: u64,
) -> Result<(Plan<Steps>, Option<Aside>), TextRefusal>
    ensures same_plan { IfOk result (λ ran. layout_of ran.0 ≡ layout_of plan) }
{
    let mut walk = Records::new(alloc, record);
    if let Err(fault) = walk.advance() {
        return Err(refusal_of(fault));
    }
    let fields = read_fields(&plan, walk.row());
    let (name, text) = match fields {
        Ok(found) => found,
        Err(aside) => return Ok((plan, Some(aside))),
    };
    let mut net = start_alone(alloc, plan, name, text)?;
    let aside = match net.settle(alloc, limit) {
        Ok(Settled::Quiet) => fault_in(&net),
        Ok(Settled::Stopped) => Some(Aside::Stopped),
        Err(NetFault::Ids) => Some(Aside::Ids),
        Err(NetFault::NotEnabled | NetFault::Memory) => return Err(TextRefusal::Memory),
    };
    Ok((plan_of(net), aside))
}

/// What it comes to that a record can't be read.
pub(crate) fn refusal_of(fault: PieceFault) -> TextRefusal {
    match fault {
        PieceFault::Memory => TextRefusal::Memory,
        PieceFault::Read | PieceFault::Fields(_) => TextRefusal::Fault(TextFault::Read),
    }
}

/// The first block that faulted by itself, and its fault.
fn fault_in(net: &Net<Steps>) -> Option<Aside> {
    for number in 0..net.plan().block_count() {
        if let Some(fault) = fault_of(net, number) {
            if !was_handed_on(net, number) {
                return Some(Aside::Faulted(number, fault));
            }
        }
    }
    None
}

/// The number of a block's fault, if it faulted.
fn fault_of(net: &Net<Steps>, block: usize) -> Option<u32> {
    if block >= net.plan().block_count() {
        return None;
    }
    match net.state(block) {
        State::Faulted(number) => Some(number),
        State::Open | State::Completing | State::Done => None,
    }
}

/// Whether a block in front of this one faulted, and hands its fault on.
fn was_handed_on(net: &Net<Steps>, block: usize) -> bool {
    for id in 0..net.plan().link_count() {
        if hands_fault_to(net, id, block) {
            return true;
        }
    }
    false
}

fn hands_fault_to(net: &Net<Steps>, id: LinkId, block: usize) -> bool {
    if id >= net.plan().link_count() {
        return false;
    }
    let link = net.plan().link(id);
    match (link.source, link.target) {
        (LinkSource::Block(source), LinkTarget::Port(target, _)) => {
            target == block && link.propagate && fault_of(net, source).is_some()
        }
        (LinkSource::Input(_), _) | (_, LinkTarget::Exit) => false,
    }
}
