//! Texts go in, a transform reads them as numbers, and an action keeps them in cents.

use anyhow::Result;
use bevelrose::{BlockDef, BlockKind, Draft, Inputs, LinkDef, Steps, Text, Value, record_of};

pub(crate) fn main(rt: HostRuntime) -> Result<()> {
    let alloc = rt.alloc();
    let int = Steps::read(alloc, &["int"])?;
    let cents = Steps::read(alloc, &["mul 100"])?;
    let plan = Draft::new(alloc)
        .block(BlockDef::named(alloc, "prices", BlockKind::Buffer)?.input())?
        .block(BlockDef::named(alloc, "parse", BlockKind::Transform)?.work(int))?
        .block(BlockDef::named(alloc, "ledger", BlockKind::Action)?.work(cents))?
        .link(LinkDef::between(alloc, "prices", "parse")?.propagate())?
        .link(LinkDef::between(alloc, "parse", "ledger")?.propagate())?
        .check(alloc)?;
    let mut inputs = Inputs::of(alloc, plan)?;
    for price in ["12", "7", "120"] {
        inputs.post("prices", Value::Text(Text::from_str(alloc, price)?))?;
    }
    let mut net = inputs.start(alloc)?;
    let settled = net.settle(alloc, 10_000)?;
    println!(rt; "{settled:?}: {:?}", record_of(&net, "ledger"))?;
    Ok(())
}
