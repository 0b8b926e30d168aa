//! Predicates that a link tests its messages by.
ghost use Rattle.std.specs.Prelude.{◌≡◌, Some, None};
ghost use Rattle.flow_value.specs.When.{admits, IsWhenNamed, SpellsWhen, is_even};
ghost use Rattle.flow_value.specs.Grammar.{Finds};

use crate::grammar::name_and_number;
use crate::value::Value;

/// A predicate; but for `Any` it admits numbers alone.
#[derive(Clone, Copy, Debug, PartialEq, Eq)]
pub enum When {
    /// `any`: every value.
    Any,
    /// `even`: an even number.
    Even,
    /// `odd`: an odd number.
    Odd,
    /// `lt k`: a number below k.
    Lt(i64),
    /// `ge k`: a number that is at least k.
    Ge(i64),
    /// `eq k`: the number k.
    Eq(i64),
}

impl When {
    /// The predicate that a text is, if it is one, in the words of `docs/formats.md`.
    pub fn read(text: &str) -> Option<When>
        ensures { Finds result (SpellsWhen text.now) }
    {
        match name_and_number(text)? {
            (name, None) => plain(name),
            (name, Some(number)) => against(name, number),
        }
    }

    /// Whether the predicate admits the value.
    pub fn admits(self, value: &Value) -> bool
        ensures { result ≡ admits self value.now }
    {
        match (self, value) {
            (When::Any, _) => true,
            (When::Even, Value::Int(number)) => is_even(*number),
            (When::Odd, Value::Int(number)) => !is_even(*number),
            (When::Lt(bound), Value::Int(number)) => *number < bound,
            (When::Ge(bound), Value::Int(number)) => *number >= bound,
            (When::Eq(bound), Value::Int(number)) => *number == bound,
            _ => false,
        }
    }
}

fn plain(name: &str) -> Option<When>
    ensures { Finds result (IsWhenNamed name.now None) }
{
    match name {
        "any" => Some(When::Any),
        "even" => Some(When::Even),
        "odd" => Some(When::Odd),
        _ => None,
    }
}

fn against(name: &str, number: i64) -> Option<When>
    ensures { Finds result (IsWhenNamed name.now (Some number)) }
{
    match name {
        "lt" => Some(When::Lt(number)),
        "ge" => Some(When::Ge(number)),
        "eq" => Some(When::Eq(number)),
        _ => None,
    }
}

fn is_even(number: i64) -> bool
    ensures { result ≡ is_even number }
{
    number % 2 == 0
}
