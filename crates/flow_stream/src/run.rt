//! Runs the network of a chunk.
ghost use Rattle.std.specs.Prelude.{◌≡◌, true, IfOk, IfErr};
ghost use Rattle.flow_link.specs.Planned.{layout_of};
ghost use Rattle.flow_core.specs.Inputs.{none_posted};
ghost use Rattle.flow_net.specs.Net.{layout_in, parts_of};
ghost use Rattle.flow_record_text.specs.Records.{Explains, input_names};
ghost use Rattle.flow_report.specs.Report.{run_in};
ghost use Rattle.flow_stream.specs.Chunk.{IsPosted, IsRunOver};

use crate::fault::{ChunkFault, refused_behind};
use flow_board::OpenGate;
use flow_crew::RunFault;
use flow_link::Plan;
use flow_net::{Net, NetParts};
use flow_pace::{Start, run_paced};
use flow_text::{TextRefusal, is_complete, read_records};
use flow_value::Steps;
use std::alloc::Global;
use std::sync::Wait;
use std::thread::Threads;
use std::time::{Clock, CpuClock};

/// A network of this plan after its run over the records of a text, which are behind so many: every block is done, and nothing waits at
/// an input. It has so many workers, one where there is to be none, and 64 at most. It has no limit, since each run comes to an end: a
/// network has no cycle.
#[tactic(auto, using(crate::proofs::PostedAsRead::runs_over, crate::proofs::PostedAsRead::keeps_plan))]
pub(crate) fn run_chunk<C: Threads + Wait + Clock + CpuClock + Sync>(
    rt: &C,
    alloc: Global,
    plan: Plan<Steps>,
    text: &[u8],
    before: u64,
    workers: usize,
) -> Result<Net<Steps>, ChunkFault>
    ensures same_plan { IfOk result (λ net. layout_in net ≡ layout_of plan) }
    ensures run { IfOk result (λ net. IsRunOver text.now (run_in net)) }
{
    let net = match begin(alloc, plan, text) {
        Ok(net) => net,
        Err(refusal) => return Err(refused_behind(before, refusal)),
    };
    let workers = workers.clamp(1, 64);
    let start = Start::WhileLong;
    let (net, _) = match run_paced(rt, alloc, net, workers, &OpenGate, start, u64::MAX) {
        Ok(ran) => ran,
        Err(fault) => return Err(fault_of_run(&fault)),
    };
    if is_complete(&net) {
        Ok(net)
    } else {
        Err(ChunkFault::Incomplete)
    }
}

/// The network of a plan, to which the records of a text are posted, before anything happens.
fn begin(alloc: Global, plan: Plan<Steps>, text: &[u8]) -> Result<Net<Steps>, TextRefusal>
    ensures same_plan { IfOk result (λ net. layout_in net ≡ layout_of plan) }
    ensures none { IfOk result (λ net. none_posted (parts_of net) ≡ true) }
    ensures posted { IfOk result (λ net. IsPosted text.now (run_in net)) }
    ensures refused { IfErr result (Explains (input_names (layout_of plan).blocks) text.now) }
{
    let posted = match read_records(alloc, text, &plan) {
        Ok(posted) => posted,
        Err(refusal) => return Err(refusal),
    };
    match Net::new(alloc, plan, posted) {
        Ok(net) => Ok(net),
        Err(_) => Err(TextRefusal::Memory),
    }
}

/// Why a network was not run to its end.
fn fault_of_run(fault: &RunFault<Steps>) -> ChunkFault {
    match fault {
        RunFault::Ids(_) => ChunkFault::Ids,
        RunFault::Net(_) | RunFault::Parts(_) => ChunkFault::Memory,
    }
}

/// The plan of a network that has run, for the next one.
pub(crate) fn plan_of(net: Net<Steps>) -> Plan<Steps>
    ensures { layout_of result ≡ layout_in net }
{
    let NetParts { plan, .. } = net.into_parts();
    plan
}
