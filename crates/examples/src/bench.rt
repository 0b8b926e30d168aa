//! What messages cost: over links that two threads share, beside channels, and through a chain of blocks.
//!
//! A chain sends its numbers through two buffers to an action. The clock runs while the network settles, while its tasks are turned,
//! or while a crew runs it: not while it is made, nor while it is scattered and gathered for turns by one thread.

mod case;
mod chain;
mod channel;
mod link;
mod message;
mod pause;
mod source;
mod target;
mod timed;
mod turns;
mod workers;

use crate::bench::case::{CASES, Way};
use anyhow::{Context, Result, bail};
use std::sync::Wait;
use std::thread::Threads;
use std::time::Clock;

/// Has a few messages go each way, and prints how many came in their turn.
pub(crate) fn try_all<R: Threads + Wait + Clock + Print + AllocGlobal + Sync>(
    rt: &R,
) -> Result<()> {
    for (name, way, few) in CASES {
        let timed = way.send(rt, rt.alloc(), few)?;
        println!(rt; "{name}: {} in turn", timed.in_turn)?;
    }
    Ok(())
}

/// Has so many messages go each of the ways with these numbers, and prints how many came in their turn, and how long each took.
pub(crate) fn time_each<R: Threads + Wait + Clock + Print + AllocGlobal + Sync>(
    rt: &R,
    count: &String,
    numbers: &[String],
) -> Result<()> {
    let count = number(count)?;
    for case in numbers {
        match CASES.get(number(case)? as usize) {
            Some((name, way, _)) => tell_timed(rt, name, *way, count)?,
            None => bail!("CASE is 0 to 12"),
        }
    }
    Ok(())
}

/// The number that an argument is.
fn number(argument: &String) -> Result<u32> {
    argument.parse::<u32>().context("a number is below 2^32")
}

/// Has so many messages go this way, and prints how many came in their turn, and how long each took.
fn tell_timed<R: Threads + Wait + Clock + Print + AllocGlobal + Sync>(
    rt: &R,
    name: &str,
    way: Way,
    count: u32,
) -> Result<()> {
    let timed = way.send(rt, rt.alloc(), count)?;
    let each = timed.taken.checked_div(count).unwrap_or(timed.taken);
    println!(rt; "{name}: {} in turn, {} ns", timed.in_turn, each.as_nanos())?;
    Ok(())
}
