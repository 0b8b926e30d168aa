//! The owner of a network does its events while they are short.
ghost use Rattle.std.specs.Prelude.{◌≡◌, ◌≢◌, ◌<◌, Err, IfOk};
ghost use Rattle.flow_net.specs.Net.{NetNeedsId};
ghost use Rattle.flow_net.specs.declared.fault.NetFault.TheVariants.{NotEnabled, Ids};
ghost use Rattle.flow_crew.specs.Runs.{RunsOn};

use crate::hand_over::hand_over;
use crate::pace::{Pace, SHORT, SHORT_IN_LANES, Watch};
use crate::used::used;
use flow_net::{Net, NetFault, Settled};
use flow_value::Runs;
use std::alloc::Global;
use std::time::CpuClock;

/// Does events, at most so many, until they take long or nothing may happen any more. Answers how many may be done yet: none in the second
/// case.
///
/// They take long by the processor time that they use. Where that can't be read, it does all events.
pub(crate) fn settle_while_short<W: Runs, R: CpuClock>(
    rt: &R,
    alloc: Global,
    net: &mut Net<W>,
    watch: Watch,
    limit: u64,
) -> Result<u64, NetFault>
    requires some { 0 < limit }
    ensures runs_on { RunsOn net.old net.new }
    ensures fewer { IfOk result (λ left. left < limit) }
    ensures used_up { result ≡ Err Ids → NetNeedsId W.meaning net.new }
    ensures never { result ≢ Err NotEnabled }
{
    let mut pace = Pace::new(used(rt), short_in(net), watch);
    let mut left = limit;
    while left > 0 {
        let share = pace.share().min(left);
        let done = match net.settle(alloc, share) {
            Ok(Settled::Stopped) => share + hand_over(alloc, net, left - share),
            Ok(Settled::Quiet) => return Ok(0),
            Err(fault) => return Err(fault),
        };
        left -= done;
        if pace.is_long(done, used(rt)) {
            break;
        }
    }
    Ok(left)
}

/// How many events of this network go into a millisecond, at least, where they are short.
fn short_in<W: Runs>(net: &Net<W>) -> u64 {
    let plan = net.plan();
    for number in 0..plan.block_count() {
        if plan.block(number).lanes.unwrap_or(1) > 1 {
            return SHORT_IN_LANES;
        }
    }
    SHORT
}
