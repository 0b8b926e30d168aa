//! How steps and predicates are written: a name, or a name, one space and a number.
ghost use Rattle.std.specs.Prelude.{◌≡◌, ℕ, ◌≤◌, List, Option, Some, None, ℤ, pos, MatchOption, IfSome};
ghost use Rattle.flow_value.specs.Grammar.{Finds, HasNoSpace, IsWritten, IsNamed, Spells};

use crate::number::read_int;
use crate::step::{MOST_VALUES, Step};

/// The greatest place that `field` takes.
const LAST_PLACE: u16 = 4_095;

/// The name that a text begins with, and the number behind it, if there is one.
///
/// None where there is a space with no number behind it.
pub(crate) fn name_and_number(text: &str) -> Option<(&str, Option<i64>)>
    ensures written { MatchOption result
        ((name : List ℕ) (number : Option ℤ) → HasNoSpace name → IsWritten text.now name number → ⊥)
        (λ parts. IsWritten text.now parts.0.now parts.1) }
    ensures only { IfSome result (λ parts. (name : List ℕ) (number : Option ℤ) → HasNoSpace name
        → IsWritten text.now name number → (name ≡ parts.0.now) × (number ≡ parts.1)) }
{
    match text.split_once(' ') {
        None => Some((text, None)),
        Some((name, digits)) => match read_int(digits) {
            Ok(number) => Some((name, Some(number))),
            Err(_) => None,
        },
    }
}

impl Step {
    /// The step that a text is, if it is one.
    pub(crate) fn read(text: &str) -> Option<Step>
        ensures { Finds result (Spells text.now) }
    {
        match name_and_number(text)? {
            (name, None) => named(name),
            (name, Some(number)) => numbered(name, number),
        }
    }
}

fn named(name: &str) -> Option<Step>
    ensures { Finds result (IsNamed name.now None) }
{
    match name {
        "id" => Some(Step::Id),
        "int" => Some(Step::ToInt),
        "text" => Some(Step::ToText),
        "len" => Some(Step::Len),
        "sum" => Some(Step::Sum),
        "spread" => Some(Step::Spread),
        "upto" => Some(Step::Upto),
        _ => None,
    }
}

fn numbered(name: &str, number: i64) -> Option<Step>
    ensures { Finds result (IsNamed name.now (Some number)) }
{
    match name {
        "add" => Some(Step::Add(number)),
        "mul" => Some(Step::Mul(number)),
        "reject" => Some(Step::Reject(number)),
        "field" => Some(Step::Field(up_to(number, LAST_PLACE)?)),
        "repeat" => Some(Step::Repeat(up_to(number, MOST_VALUES)?)),
        _ => None,
    }
}

/// The number, if it is at least 0 and at most this.
fn up_to(number: i64, most: u16) -> Option<u16>
    ensures { Finds result (λ n. (number ≡ pos n) × (n ≤ most)) }
{
    match u16::try_from(number) {
        Ok(number) if number <= most => Some(number),
        _ => None,
    }
}
