//! A message on its way from a source to a target.
ghost use Rattle.std.specs.Prelude.{◌≡◌, IfOk, MatchResult};

use crate::value::Value;
use std::alloc::{AllocError, Global};
use std::marker::Model;

/// A value and an equal copy of it: one for the target's block, one for the target's journal.
///
/// Whoever takes a parcel needs no memory to keep both. Contracts see the value.
#[derive(Debug, Drop)]
pub struct Parcel {
    value: Value,
    spare: Value,
}

impl Model for Parcel {
    ghost use Rattle.std.specs.Prelude.{◌≡◌};
    ghost use Rattle.flow_value.specs.declared.value.Value.{Value as Content};
    ghost use Rattle.flow_value.specs.contracts.value.Value as content;
    ghost use Rattle.std.specs.Coded.{codes};

    ghost Value = { Content };

    ghost coded = { Prim.hlevel (codes, content.the_row.coded) };

    ghost view = { λ p. p.value };

    ghost invariant = { λ p. p.spare ≡ p.value };
}

impl Parcel {
    /// A parcel with this value; where there is no memory for the copy, the value comes back.
    pub fn new(alloc: Global, value: Value) -> Result<Parcel, Value>
        ensures { MatchResult result (λ parcel. parcel ≡ value) (λ back. back ≡ value) }
    {
        match value.copy(alloc) {
            Ok(spare) => Ok(Parcel { value, spare }),
            Err(_) => Err(value),
        }
    }

    /// A parcel with a copy of this value.
    #[inline(always)]
    pub fn of(alloc: Global, value: &Value) -> Result<Parcel, AllocError>
        ensures { IfOk result (λ parcel. parcel ≡ value.now) }
    {
        let (value, spare) = value.copy_twice(alloc)?;
        Ok(Parcel { value, spare })
    }

    /// The value that is on its way.
    pub fn value(&self) -> &Value
        ensures { result.now ≡ self.now }
    {
        &self.value
    }

    /// The value and its copy.
    pub fn into_parts(self) -> (Value, Value)
        ensures first { result.0 ≡ self }
        ensures second { result.1 ≡ self }
    {
        (self.value, self.spare)
    }
}
