//! The chain through which the numbers go, and what it has recorded.

use crate::bench::timed::Timed;
use anyhow::Result;
use bevelrose::{BlockDef, BlockKind, Draft, Inputs, LinkDef, Net, Steps, Value, record_of};
use std::alloc::Global;
use std::time::{Clock, Instant};

/// Two buffers and an action with no step, to which the numbers from 1 to this one are posted. They stand in such an order that each
/// half of the tasks lies next to one another in the chain: those of the second buffer and the action, and those of the first buffer
/// and its input.
pub(crate) fn chain(alloc: Global, count: u32) -> Result<Net<Steps>> {
    let keep = Steps::read(alloc, &[])?;
    let plan = Draft::new(alloc)
        .block(BlockDef::named(alloc, "between", BlockKind::Buffer)?)?
        .block(BlockDef::named(alloc, "out", BlockKind::Action)?.work(keep))?
        .block(BlockDef::named(alloc, "in", BlockKind::Buffer)?.input())?
        .link(LinkDef::between(alloc, "in", "between")?.propagate())?
        .link(LinkDef::between(alloc, "between", "out")?.propagate())?
        .check(alloc)?;
    let mut inputs = Inputs::of(alloc, plan)?;
    for number in 0..count {
        inputs.post("in", Value::Int(i64::from(number) + 1))?;
    }
    Ok(inputs.start(alloc)?)
}

/// How many numbers the chain has recorded in their turn: they are one more than their place.
pub(crate) fn in_turn(net: &Net<Steps>) -> u64 {
    let Some(recorded) = record_of(net, "out") else {
        return 0;
    };
    let mut in_turn = 0u64;
    let mut due = 0i64;
    for value in recorded {
        due = due.saturating_add(1);
        if *value == Value::Int(due) {
            in_turn = in_turn.saturating_add(1);
        }
    }
    in_turn
}

/// Sends so many numbers through the chain, which settles.
pub(crate) fn by_settling<R: Clock>(rt: &R, alloc: Global, count: u32) -> Result<Timed> {
    let mut net = chain(alloc, count)?;
    let begun = Instant::now(rt)?;
    net.settle(alloc, u64::MAX)?;
    let taken = begun.elapsed(rt)?;
    Ok(Timed {
        in_turn: in_turn(&net),
        taken,
    })
}
