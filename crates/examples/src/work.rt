//! Runs a network over a work of its own, which is in work/cap.rt: orders go in, and an action keeps what is charged for each.

mod cap;

use anyhow::Result;
use bevelrose::{BlockDef, BlockKind, Draft, Inputs, LinkDef, Value, record_of, state_of};
use cap::Cap;

pub(crate) fn main(rt: HostRuntime) -> Result<()> {
    let alloc = rt.alloc();
    let plan = Draft::new(alloc)
        .block(BlockDef::named(alloc, "orders", BlockKind::Buffer)?.input())?
        .block(BlockDef::named(alloc, "charges", BlockKind::Action)?.work(Cap { most: 5_000 }))?
        .link(LinkDef::between(alloc, "orders", "charges")?.propagate())?
        .check(alloc)?;
    let mut inputs = Inputs::of(alloc, plan)?;
    for cents in [1_200, 5_000, 12_000] {
        inputs.post("orders", Value::Int(cents))?;
    }
    let mut net = inputs.start(alloc)?;
    net.settle(alloc, 10_000)?;
    println!(rt;
        "{:?}, {:?}",
        state_of(&net, "charges"),
        record_of(&net, "charges")
    )?;
    Ok(())
}
