//! Runs a network text over records, from the first byte to the report.
ghost use Rattle.std.specs.Prelude.{◌≡◌, ◌≤◌, IfOk, IfErr};
ghost use Rattle.std.specs.Io.KnownBytes.{Appends};
ghost use Rattle.flow_net.specs.Net.{layout_in, parts_of};
ghost use Rattle.flow_run.specs.Left.{IsLeft};
ghost use Rattle.flow_run.specs.Ran.{Begins, IsReported, IsReportedOf, IsUnbegun, IsUnreported};
ghost use Rattle.flow_run.specs.Refusal.{told_as};

use crate::outcome::{Ran, RunRefusal};
use flow_board::{Gate, OpenGate};
use flow_crew::RunFault;
use flow_net::Net;
use flow_pace::{Start, run_paced};
use flow_text::{is_complete, read_plan, read_records, write_report};
use flow_value::Steps;
use std::alloc::Global;
use std::io::{Read, Write};
use std::sync::Wait;
use std::thread::Threads;
use std::time::{Clock, CpuClock};

/// Reads a network, runs it over the records until it is quiet or `limit` events are done, and writes its report.
///
/// The writer should gather what is written, since the report comes in many small pieces. One worker does the events one
/// after another. With several, they do so by turns: which lawful run it is that they come to is open. While events are
/// short, the thread that calls it does them all. The others end with the call.
pub fn run<C: Threads + Wait + Clock + CpuClock + Sync, R: Read + Drop, W: Write>(
    rt: &C,
    alloc: Global,
    text: &[u8],
    reader: R,
    writer: &mut W,
    workers: u32,
    limit: u64,
) -> Result<Ran, RunRefusal>
    requires { (1 ≤ workers) × (workers ≤ 64) }
    ensures reported { IfOk result (IsReported text.now (R.remaining reader) workers limit
        (Appends (W.contents writer.old) (W.contents writer.new))) }
    ensures refused { IfErr result (IsUnreported text.now (R.remaining reader) workers limit) }
    ensures left { IfErr result (λ refusal. IsLeft refusal (W.contents writer.old) (W.contents writer.new)) }
{
    match run_and_keep(rt, alloc, text, reader, writer, workers, limit) {
        Ok((ran, _net)) => Ok(ran),
        Err(refusal) => Err(refusal),
    }
}

/// Does what [`run`] does, and hands back the network as the run left it.
///
/// So a caller may look at the network after its report. Where the process is about to end, it may forget the network:
/// to let it go gives back the memory of its values one by one.
pub fn run_and_keep<C: Threads + Wait + Clock + CpuClock + Sync, R: Read + Drop, W: Write>(
    rt: &C,
    alloc: Global,
    text: &[u8],
    reader: R,
    writer: &mut W,
    workers: u32,
    limit: u64,
) -> Result<(Ran, Net<Steps>), RunRefusal>
    requires { (1 ≤ workers) × (workers ≤ 64) }
    ensures reported { IfOk result (λ kept. IsReportedOf text.now (R.remaining reader) workers limit
        (Appends (W.contents writer.old) (W.contents writer.new)) (layout_in kept.1) (parts_of kept.1) kept.0) }
    ensures refused { IfErr result (IsUnreported text.now (R.remaining reader) workers limit) }
    ensures left { IfErr result (λ refusal. IsLeft refusal (W.contents writer.old) (W.contents writer.new)) }
{
    run_through(
        rt,
        alloc,
        text,
        reader,
        writer,
        workers,
        &OpenGate,
        Start::WhileLong,
        limit,
    )
}

/// Does what [`run_and_keep`] does, where each job that a crew does goes through this gate, and the crew begins as it is told.
///
/// So a test may hold jobs up, and have short events go through a crew.
pub fn run_through<
    C: Threads + Wait + Clock + CpuClock + Sync,
    R: Read + Drop,
    W: Write,
    G: Gate + Sync,
>(
    rt: &C,
    alloc: Global,
    text: &[u8],
    reader: R,
    writer: &mut W,
    workers: u32,
    gate: &G,
    start: Start,
    limit: u64,
) -> Result<(Ran, Net<Steps>), RunRefusal>
    requires { (1 ≤ workers) × (workers ≤ 64) }
    ensures reported { IfOk result (λ kept. IsReportedOf text.now (R.remaining reader) workers limit
        (Appends (W.contents writer.old) (W.contents writer.new)) (layout_in kept.1) (parts_of kept.1) kept.0) }
    ensures refused { IfErr result (IsUnreported text.now (R.remaining reader) workers limit) }
    ensures left { IfErr result (λ refusal. IsLeft refusal (W.contents writer.old) (W.contents writer.new)) }
{
    let net = begin(alloc, text, reader)?;
    let (net, settled) = match run_paced(rt, alloc, net, workers as usize, gate, start, limit) {
        Ok(ran) => ran,
        Err(fault) => return Err(refusal_of_run(&fault)),
    };
    write_report(alloc, &net, settled, writer)?;
    let complete = is_complete(&net);
    Ok((Ran { settled, complete }, net))
}

/// The network of a text, to which the records are posted.
fn begin<R: Read + Drop>(alloc: Global, text: &[u8], reader: R) -> Result<Net<Steps>, RunRefusal>
    ensures begins { IfOk result (λ net. Begins text.now (R.remaining reader) (layout_in net) (parts_of net)) }
    ensures refused { IfErr result (IsUnbegun text.now (R.remaining reader)) }
{
    let plan = read_plan(alloc, text)?;
    let posted = read_records(alloc, reader, &plan)?;
    match Net::new(alloc, plan, posted) {
        Ok(net) => Ok(net),
        Err(_) => Err(RunRefusal::Memory),
    }
}

/// Why a network was not run to its end.
fn refusal_of_run(fault: &RunFault<Steps>) -> RunRefusal
    ensures { result ≡ told_as fault.now }
{
    match fault {
        RunFault::Ids(_) => RunRefusal::Ids,
        RunFault::Net(_) | RunFault::Parts(_) => RunRefusal::Memory,
    }
}
