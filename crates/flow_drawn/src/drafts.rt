//! The drafts that are drawn.

use crate::drawn::{Drawn, read_drawn};
use flow_link::{BlockDef, BlockKind, Draft, LinkDef};
use flow_value::{Steps, Text, When};
use std::alloc::Global;

fn kind_of(word: &str) -> Option<BlockKind> {
    Some(match word {
        "buffer" => BlockKind::Buffer,
        "broadcast" => BlockKind::Broadcast,
        "write_once" => BlockKind::WriteOnce,
        "action" => BlockKind::Action,
        "transform" => BlockKind::Transform,
        "transform_many" => BlockKind::TransformMany,
        "batch" => BlockKind::Batch,
        "join" => BlockKind::Join,
        "batched_join" => BlockKind::BatchedJoin,
        _ => return None,
    })
}

/// The function with these steps, if a block has one.
fn work_of(alloc: Global, work: Option<&str>) -> Option<Option<Steps>> {
    let Some(work) = work else {
        return Some(None);
    };
    let mut steps = Vec::new(alloc);
    for step in work.split("+") {
        if !step.is_empty() {
            steps.push(step).ok()?;
        }
    }
    Some(Some(Steps::read(alloc, steps.as_slice()).ok()?))
}

fn block_of(alloc: Global, drawn: &Drawn) -> Option<BlockDef<Steps>> {
    let (name, input) = drawn.name();
    let (word, work) = drawn.kind_and_work();
    let kind = kind_of(word)?;
    let work = work_of(alloc, work)?;
    Some(BlockDef {
        name: Text::from_str(alloc, name).ok()?,
        kind,
        input,
        output: drawn.option("output") == Some("true"),
        capacity: drawn.number("capacity"),
        work,
        lanes: drawn.number("lanes"),
        size: drawn.number("size"),
        ports: drawn.number("ports"),
        greedy: drawn.option("greedy").map(|word| word == "true"),
    })
}

fn link_of(alloc: Global, drawn: &Drawn) -> Option<LinkDef> {
    Some(LinkDef {
        from: Text::from_str(alloc, drawn.first).ok()?,
        to: Text::from_str(alloc, drawn.second).ok()?,
        port: drawn.number("port"),
        when: drawn.option("when").and_then(When::read),
        max: drawn.number("max"),
        propagate: drawn.link == Some(true),
    })
}

/// The draft that is drawn so. None where a kind or a step is none, or memory is out.
pub fn draft(alloc: Global, drawn: &str) -> Option<Draft<Steps>> {
    let mut blocks = Vec::new(alloc);
    let mut links = Vec::new(alloc);
    for part in drawn.split(", ") {
        let part = read_drawn(part);
        match part.link {
            Some(_) => links.push(link_of(alloc, &part)?).ok()?,
            None => blocks.push(block_of(alloc, &part)?).ok()?,
        }
    }
    Some(Draft { blocks, links })
}
