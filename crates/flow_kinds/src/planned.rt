//! A block of a plan in which nothing has happened.
ghost use Rattle.std.specs.Prelude.{◌≡◌, ◌<◌, length, IfOk};
ghost use Rattle.flow_link.specs.Planned.{layout_of};
ghost use Rattle.flow_block.specs.Planned.{planned_block};

use flow_block::{Block, ports_of, rules_from};
use flow_link::Plan;
use std::alloc::{AllocError, Global};

/// The block with this number, with its ports and its links. It fails only where memory is out.
///
/// It looks at each link of the plan once for each port, and once more.
pub(crate) fn planned_block<W>(
    alloc: Global,
    plan: &Plan<W>,
    number: usize,
) -> Result<Block, AllocError>
    requires { number < length (layout_of plan.now).blocks }
    ensures { IfOk result (λ block. block ≡ planned_block (layout_of plan.now) number) }
{
    let ports = ports_of(alloc, plan, number)?;
    let rules = rules_from(alloc, plan, number)?;
    let def = plan.block(number);
    let lanes = def.lanes.unwrap_or(1) as usize;
    let size = def.size.unwrap_or(0);
    match Block::new(alloc, def.kind, lanes, size, ports, rules) {
        Ok(block) => Ok(block),
        Err(_) => Err(AllocError),
    }
}
