//! The network that some of the examples feed while it runs.

use anyhow::Result;
use bevelrose::{BlockDef, BlockKind, Draft, Ending, Inputs, LinkDef, Net, Steps};
use std::alloc::Global;

/// Reads prices as numbers, room for two at a time, and makes cents of them.
pub(crate) fn shop(alloc: Global) -> Result<Net<Steps>> {
    let int = Steps::read(alloc, &["int"])?;
    let cents = Steps::read(alloc, &["mul 100"])?;
    let plan = Draft::new(alloc)
        .block(
            BlockDef::named(alloc, "parse", BlockKind::Transform)?
                .input()
                .work(int)
                .capacity(2),
        )?
        .block(
            BlockDef::named(alloc, "cents", BlockKind::Transform)?
                .work(cents)
                .output(),
        )?
        .link(LinkDef::between(alloc, "parse", "cents")?.propagate())?
        .check(alloc)?;
    let mut inputs = Inputs::of(alloc, plan)?;
    inputs.end("parse", Ending::Open)?;
    Ok(inputs.start(alloc)?)
}
