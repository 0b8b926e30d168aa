//! The chain run by a crew.
ghost use Rattle.std.specs.Prelude.{◌≤◌, ◌<◌};

use crate::bench::chain::{chain, in_turn};
use crate::bench::timed::Timed;
use anyhow::{Result, bail};
use bevelrose::{OpenGate, run_workers};
use std::alloc::Global;
use std::sync::Wait;
use std::thread::Threads;
use std::time::{Clock, Instant};

/// Sends so many numbers through the chain, which so many workers run. The clock runs while they scatter it and gather it, too.
pub(crate) fn by_workers<R: Threads + Wait + Clock + Sync>(
    rt: &R,
    alloc: Global,
    count: u32,
    workers: usize,
) -> Result<Timed>
    requires workers { (0 < workers) × (workers ≤ 64) }
{
    let net = chain(alloc, count)?;
    let begun = Instant::now(rt)?;
    let ran = run_workers(rt, alloc, net, workers, &OpenGate, u64::MAX);
    let taken = begun.elapsed(rt);
    match ran {
        Ok((net, _)) => {
            let in_turn = in_turn(&net);
            let taken = taken?;
            Ok(Timed { in_turn, taken })
        }
        Err(_) => bail!("out of memory"),
    }
}
