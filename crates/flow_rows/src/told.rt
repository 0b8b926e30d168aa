//! Runs of texts, and what they tell.
ghost use Rattle.std.specs.Prelude.{◌≤◌};

use flow_board::OpenGate;
use flow_net::Net;
use flow_run::{Ran, RunRefusal, Start, run, run_and_keep, run_through, status, write_refusal};
use flow_value::Steps;
use std::alloc::Global;
use std::io::{Read, Write};
use std::sync::Wait;
use std::test::Fail;
use std::thread::Threads;
use std::time::{Clock, CpuClock};

/// What a run told: its status, and its report or the line of its refusal.
#[derive(Drop)]
pub(crate) struct Told {
    pub(crate) status: u8,
    pub(crate) text: Vec<u8>,
}

/// Runs a network over records with one worker, so that all that is told of it is the same each time.
pub(crate) fn told_by<R: Read + Drop>(
    rt: &(impl Threads + Wait + Clock + CpuClock + Sync),
    alloc: Global,
    network: &[u8],
    records: R,
    limit: u64,
) -> Result<Told, Fail> {
    told_with(rt, alloc, network, records, 1, limit)
}

/// Runs a network over records: several workers are a crew from the first event on. Tests that nothing is written before a refusal.
pub(crate) fn told_with<R: Read + Drop>(
    rt: &(impl Threads + Wait + Clock + CpuClock + Sync),
    alloc: Global,
    network: &[u8],
    records: R,
    workers: u32,
    limit: u64,
) -> Result<Told, Fail>
    requires { (1 ≤ workers) × (workers ≤ 64) }
{
    let mut text = Vec::new(alloc);
    let outcome = crewed(rt, alloc, network, records, &mut text, workers, limit);
    tell(&outcome, text)
}

/// Runs a network over records by a crew, if there are several workers.
fn crewed<R: Read + Drop, W: Write>(
    rt: &(impl Threads + Wait + Clock + CpuClock + Sync),
    alloc: Global,
    network: &[u8],
    records: R,
    text: &mut W,
    workers: u32,
    limit: u64,
) -> Result<Ran, RunRefusal>
    requires { (1 ≤ workers) × (workers ≤ 64) }
{
    let (gate, start) = (OpenGate, Start::AtOnce);
    match run_through(
        rt, alloc, network, records, text, workers, &gate, start, limit,
    ) {
        Ok((ran, _)) => Ok(ran),
        Err(refusal) => Err(refusal),
    }
}

/// Runs a network over records. What `run` promises is not for the tests, which look at what comes of it.
pub(crate) fn ran<R: Read + Drop, W: Write>(
    rt: &(impl Threads + Wait + Clock + CpuClock + Sync),
    alloc: Global,
    network: &[u8],
    records: R,
    text: &mut W,
    workers: u32,
    limit: u64,
) -> Result<Ran, RunRefusal>
    requires { (1 ≤ workers) × (workers ≤ 64) }
{
    run(rt, alloc, network, records, text, workers, limit)
}

/// Runs a network over records, and keeps it. What `run_and_keep` promises is not for the tests, which look at what comes of
/// it.
pub(crate) fn kept<R: Read + Drop, W: Write>(
    rt: &(impl Threads + Wait + Clock + CpuClock + Sync),
    alloc: Global,
    network: &[u8],
    records: R,
    text: &mut W,
    workers: u32,
    limit: u64,
) -> Result<(Ran, Net<Steps>), RunRefusal>
    requires { (1 ≤ workers) × (workers ≤ 64) }
{
    run_and_keep(rt, alloc, network, records, text, workers, limit)
}

/// What a run told that came to this, and wrote this text.
fn tell(outcome: &Result<Ran, RunRefusal>, mut text: Vec<u8>) -> Result<Told, Fail> {
    if let Err(refusal) = outcome {
        if !text.is_empty() {
            return Err(Fail::new("there is a text, and a refusal"));
        }
        write_refusal(refusal, &mut text)?;
    }
    Ok(Told {
        status: status(outcome),
        text,
    })
}
