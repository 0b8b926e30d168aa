//! Runs a network over records, from standard input and files to standard output. Where the promise is about the
//! writer, the whole report is made before any of it is written; else it goes through a buffer.
ghost use Rattle.std.specs.Prelude.{◌≡◌, ◌⊎◌, true, false, IfOk, IfErr, IfSome, None, Some};
ghost use Rattle.std.specs.Io.KnownBytes.{Appends};
ghost use Rattle.flow_run.specs.Left.{IsLeft};
ghost use Rattle.flow_run.specs.Ran.{IsReported, IsUnreported};
ghost use Rattle.flow_cli.specs.Failure.{unread_refusal, refusal_in_memory, IsUnread};
ghost use Rattle.flow_cli.specs.Reported.{IsReportedIn, IsReportedOfAny, IsRefusedIn, IsRefusedOfAny};
ghost use Rattle.flow_cli.specs.Request.{IsCrew, default_limit, default_workers};

use crate::request::{Bounds, DEFAULT_BOUNDS};
use crate::steady::Steady;
use flow_run::{Ran, RunRefusal, TextFault, run_and_keep, split_input};
use flow_text::write_bytes;
use std::alloc::Global;
use std::fs::Files;
use std::io::{BufReader, BufWriter, ErrorKind, Input, Read, Write};
use std::sync::Wait;
use std::thread::Threads;
use std::time::{Clock, CpuClock};
use std::{fs, io, mem};

/// Runs the network in this file over the records in standard input.
pub fn run_file<R: Files + Input + Print + AllocGlobal + Threads + Wait + Clock + CpuClock + Sync>(
    rt: &R,
    path: &str,
    bounds: Bounds,
) -> Result<Ran, RunRefusal>
    requires { IsCrew bounds.workers }
    ensures reported { IfOk result (IsReportedOfAny bounds.workers bounds.limit (λ report. Unit {0})) }
    ensures refused { IfErr result (λ refusal. IsUnread refusal ⊎ IsRefusedOfAny bounds.workers bounds.limit refusal) }
{
    let text = fs::read(rt, path).map_err(|error| unread(&error))?;
    let records = BufReader::new(rt.alloc(), rt.reader()).map_err(|error| unread(&error))?;
    run_buffered(rt, rt.alloc(), &text, records, io::writer(rt), bounds)
}

/// Runs a network over records, and writes its report through a buffer.
fn run_buffered<C: Threads + Wait + Clock + CpuClock + Sync, R: Read + Drop, W: Write + Drop>(
    rt: &C,
    alloc: Global,
    text: &[u8],
    records: R,
    writer: W,
    bounds: Bounds,
) -> Result<Ran, RunRefusal>
    requires { IsCrew bounds.workers }
    ensures reported { IfOk result (IsReported text.now None bounds.workers bounds.limit (λ report. Unit {0})) }
    ensures refused { IfErr result (IsUnreported text.now None bounds.workers bounds.limit) }
{
    let Ok(mut buffer) = BufWriter::new(alloc, writer) else {
        return Err(RunRefusal::Memory);
    };
    let mut records = Steady {
        reader: records,
        lacks_memory: false,
    };
    let Bounds { workers, limit } = bounds;
    match run_and_keep(rt, alloc, text, &mut records, &mut buffer, workers, limit) {
        Ok((ran, net)) => {
            // The process is about to end: its memory goes back at once, and not value by value.
            mem::forget(net);
            send(buffer)?;
            Ok(ran)
        }
        Err(refusal) => {
            abandon(buffer);
            Err(told(refusal, records.lacks_memory))
        }
    }
}

/// What a run is refused with. A reader of records tells want of memory as any failure to read.
fn told(refusal: RunRefusal, lacks_memory: bool) -> RunRefusal
    ensures memory { lacks_memory ≡ true → result ≡ RunRefusal.Memory }
    ensures other { lacks_memory ≡ false → result ≡ refusal }
{
    if lacks_memory {
        RunRefusal::Memory
    } else {
        refusal
    }
}

/// Writes what a buffer holds, and nothing more where that fails.
fn send<W: Write + Drop>(buffer: BufWriter<W>) -> Result<(), RunRefusal>
    ensures { IfErr result (λ refusal. refusal ≡ RunRefusal.Text TextFault.Write) }
{
    match buffer.into_inner() {
        Ok(_) => Ok(()),
        Err(error) => {
            abandon(error.into_inner());
            Err(RunRefusal::Text(TextFault::Write))
        }
    }
}

/// Lets a buffer go without what it holds. Dropped as it is, it would write that once more.
fn abandon<W: Write + Drop>(buffer: BufWriter<W>) {
    let _ = buffer.into_parts();
}

/// Runs the network at the beginning of what is read over the records behind it.
pub fn run_input<C: Threads + Wait + Clock + CpuClock + Sync, R: Read + Drop, W: Write>(
    rt: &C,
    alloc: Global,
    reader: R,
    writer: &mut W,
) -> Result<Ran, RunRefusal>
    ensures reported { IfOk result (IsReportedIn (R.remaining reader) default_workers default_limit
        (Appends (W.contents writer.old) (W.contents writer.new))) }
    ensures refused { IfErr result (λ refusal. IsUnread refusal ⊎ IsRefusedIn (R.remaining reader) default_workers default_limit
        refusal) }
    ensures left { IfErr result (λ refusal. IsLeft refusal (W.contents writer.old) (W.contents writer.new)) }
{
    let text = whole_input(alloc, reader)?;
    let (network, records) = split_input(&text);
    run_whole(rt, alloc, network, records, writer, DEFAULT_BOUNDS)
}

/// Runs a network over records, and writes its report once all of it is there.
fn run_whole<C: Threads + Wait + Clock + CpuClock + Sync, W: Write>(
    rt: &C,
    alloc: Global,
    text: &[u8],
    records: &[u8],
    writer: &mut W,
    bounds: Bounds,
) -> Result<Ran, RunRefusal>
    requires { IsCrew bounds.workers }
    ensures reported { IfOk result (IsReported text.now (Some records.now) bounds.workers bounds.limit
        (Appends (W.contents writer.old) (W.contents writer.new))) }
    ensures refused { IfErr result (IsUnreported text.now (Some records.now) bounds.workers bounds.limit) }
    ensures left { IfErr result (λ refusal. IsLeft refusal (W.contents writer.old) (W.contents writer.new)) }
{
    let mut report: Vec<u8> = Vec::new(alloc);
    let Bounds { workers, limit } = bounds;
    let (ran, net) = match run_and_keep(rt, alloc, text, records, &mut report, workers, limit) {
        Ok(kept) => kept,
        Err(refusal) => return Err(in_memory(refusal)),
    };
    // The process is about to end: its memory goes back at once, and not value by value.
    mem::forget(net);
    match write_bytes(writer, &report) {
        Ok(()) => Ok(ran),
        Err(_) => Err(RunRefusal::Text(TextFault::Write)),
    }
}

/// A refusal of a run whose report is made in memory: a vector takes all that is written, as long as there is memory.
fn in_memory(refusal: RunRefusal) -> RunRefusal
    ensures { result ≡ refusal_in_memory refusal }
{
    match refusal {
        RunRefusal::Text(TextFault::Write) => RunRefusal::Memory,
        _ => refusal,
    }
}

/// All that is read.
fn whole_input<R: Read + Drop>(alloc: Global, mut reader: R) -> Result<Vec<u8>, RunRefusal>
    ensures whole { IfOk result (λ text. IfSome (R.remaining reader) (λ bytes. text.items ≡ bytes)) }
    ensures refused { IfErr result IsUnread }
{
    let mut text = Vec::new(alloc);
    match reader.read_to_end(&mut text) {
        Ok(_) => Ok(text),
        Err(error) => Err(unread(&error)),
    }
}

/// What a failure to read comes to; out of memory is told as such.
pub fn unread(error: &io::Error) -> RunRefusal
    ensures refusal { result ≡ unread_refusal error.now }
    ensures unread { IsUnread result }
{
    match error.kind() {
        ErrorKind::OutOfMemory => RunRefusal::Memory,
        _ => RunRefusal::Text(TextFault::Read),
    }
}
