//! What goes into a network: the values of its inputs.
ghost use Rattle.std.specs.Prelude.{◌≡◌, map};
ghost use Rattle.std.specs.List.{list_all};
ghost use Rattle.flow_link.specs.Posted.{input_of, is_numbered_ending, ends_by_number};
ghost use Rattle.flow_link.specs.Lists.{every};

use crate::trace::Ending;
use flow_value::Value;

/// The values of one input, in order, and how they end.
#[derive(Debug, Drop)]
pub struct Posted {
    pub values: Vec<Value>,
    pub ending: Ending,
}

/// Whether no input ends by fault 0, which is none.
pub fn are_numbered(posted: &[Posted]) -> bool
    ensures { result ≡ every ends_by_number (map input_of posted.now) }
{
    each_is_numbered(posted)
}

fn each_is_numbered(posted: &[Posted]) -> bool
    ensures { result ≡ list_all (λ input. is_numbered_ending input.ending) posted.now }
{
    posted.iter().all(|input| input.ending.is_numbered())
}
