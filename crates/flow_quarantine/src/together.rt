//! Whether each of some records passes, by one run of all of them.
ghost use Rattle.std.specs.Prelude.{◌≡◌};
ghost use Rattle.flow_link.specs.Planned.{layout_of};

use crate::post::plan_of;
use crate::through::went_through;
use flow_link::Plan;
use flow_net::{Net, Settled, are_numbered};
use flow_text::read_records;
use flow_value::Steps;
use std::alloc::Global;

/// Whether the records of this text went through together, so that each of them passes alone. It says nothing of any of them where they
/// did not, be it for want of memory. The plan comes back.
pub(crate) fn run_together(
    alloc: Global,
    plan: Plan<Steps>,
    records: &[u8],
    limit: u64,
) -> (Plan<Steps>, bool)
    ensures same_plan { layout_of result.0 ≡ layout_of plan }
{
    let Ok(posted) = read_records(alloc, records, &plan) else {
        return (plan, false);
    };
    if posted.len() != plan.input_count() || !are_numbered(&posted) {
        return (plan, false);
    }
    let limit = limit_together(&plan, limit);
    let mut net = match Net::new(alloc, plan, posted) {
        Ok(net) => net,
        Err((plan, _)) => return (plan, false),
    };
    let passed = match net.settle(alloc, limit) {
        Ok(Settled::Quiet) => went_through(&net),
        Ok(Settled::Stopped) | Err(_) => false,
    };
    (plan_of(net), passed)
}

/// How many events records have together at most, so that none of them has more than the limit alone.
///
/// A message takes at least five events to cross a link, and seven where it is put off, or refused at last. Alone there may be ends that
/// are not there among others: of each link one or two, and of each block one, and one for each of its ports, which are three at most.
fn limit_together(plan: &Plan<Steps>, limit: u64) -> u64 {
    let blocks = (plan.block_count() as u64).saturating_mul(4);
    let links = u64::from(plan.link_count()).saturating_mul(2);
    limit.saturating_sub(blocks.saturating_add(links)) / 2
}
