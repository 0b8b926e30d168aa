//! The inputs of a plan, with what is posted to them before its network starts.
ghost use Rattle.std.specs.Prelude.{◌≡◌, true, length, map, count_by};
ghost use Rattle.flow_link.specs.Lists.{every};
ghost use Rattle.flow_link.specs.Planned.{layout_of};
ghost use Rattle.flow_link.specs.Posted.{input_of, ends_by_number};

use flow_link::Plan;
use flow_net::Posted;

/// A plan with what is posted to its inputs: one list for each, in the order of the blocks.
#[derive(Drop)]
pub struct Inputs<W> {
    pub(crate) plan: Plan<W>,
    pub(crate) lists: Vec<Posted>,
    ghost one_each: { length lists.items ≡ count_by (λ block. block.input) (layout_of plan).blocks },
    ghost numbered: { every ends_by_number (map input_of lists.items) ≡ true },
}
