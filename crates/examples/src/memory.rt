//! Two threads run a network. Where memory is refused, what there is of it comes back, and they go on from there: no order is lost, and
//! none is counted twice. In .NET an OutOfMemoryException faults a block, or ends the process.

ghost use Rattle.bevelrose.specs.Parts.{AllEntriesOf, AllExitsOf, AllTasksOf};

use anyhow::{Result, anyhow, bail};
use bevelrose::{
    BlockDef, BlockKind, Draft, Inputs, LinkDef, Net, OpenGate, Parts, RunFault, Steps, Value,
    gather, record_of, run_workers,
};
use std::alloc::Global;
use std::sync::Wait;
use std::thread::Threads;
use std::time::Clock;

/// The most events of a run.
const EVENTS: u64 = 10_000;

/// How often the network is run on where memory is refused.
const TRIES: u32 = 100;

pub(crate) fn main<R: Threads + Wait + Clock + Print + AllocGlobal + Sync>(rt: &R) -> Result<()> {
    let alloc = rt.alloc();
    let mut net = orders(alloc)?;
    for _ in 0..TRIES {
        net = match run_workers(rt, alloc, net, 2, &OpenGate, EVENTS) {
            Ok((net, settled)) => {
                println!(rt; "{settled:?}: {:?}", record_of(&net, "kept"))?;
                return Ok(());
            }
            Err(RunFault::Net(net)) => {
                println!(rt; "refused: the network came back")?;
                net
            }
            Err(RunFault::Parts(parts)) => {
                println!(rt; "refused: its parts came back")?;
                together(alloc, parts)?
            }
            Err(RunFault::Ids(_)) => bail!("message ids are used up"),
        };
    }
    bail!("memory is refused again and again")
}

/// Orders are doubled, two at a time, and kept.
fn orders(alloc: Global) -> Result<Net<Steps>> {
    let double = Steps::read(alloc, &["mul 2"])?;
    let keep = Steps::read(alloc, &["add 0"])?;
    let plan = Draft::new(alloc)
        .block(
            BlockDef::named(alloc, "double", BlockKind::Transform)?
                .input()
                .work(double)
                .lanes(2),
        )?
        .block(BlockDef::named(alloc, "kept", BlockKind::Action)?.work(keep))?
        .link(LinkDef::between(alloc, "double", "kept")?.propagate())?
        .check(alloc)?;
    let mut inputs = Inputs::of(alloc, plan)?;
    for order in [1, 2, 3, 4, 5, 6] {
        inputs.post("double", Value::Int(order))?;
    }
    Ok(inputs.start(alloc)?)
}

/// Puts the parts together, which are all there.
fn together(alloc: Global, parts: Parts<Steps>) -> Result<Net<Steps>>
    requires tasks_of { AllTasksOf parts.board parts.tasks.items }
    requires entries_of { AllEntriesOf parts.board parts.entries.items }
    requires exits_of { AllExitsOf parts.board parts.exits.items }
{
    gather(alloc, parts).map_err(|_| anyhow!("memory is refused again"))
}
