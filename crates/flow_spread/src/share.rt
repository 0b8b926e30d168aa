//! What one link is given of an element.
ghost use Rattle.std.specs.Prelude.{◌≡◌, IfOk};

use flow_value::{Parcel, Value};
use std::alloc::{AllocError, Global};
use std::marker::Model;

/// A copy of a value for the account of the block that gives it, and a parcel for its target.
///
/// Contracts see the value.
#[derive(Drop)]
pub struct Share {
    own: Value,
    parcel: Parcel,
}

impl Model for Share {
    ghost use Rattle.std.specs.Prelude.{◌≡◌};
    ghost use Rattle.std.specs.Coded.{codes};
    ghost use Rattle.flow_value.specs.declared.value.Value.{Value as Content};
    ghost use Rattle.flow_value.specs.contracts.value.Value as content;

    ghost Value = { Content };

    ghost coded = { Prim.hlevel (codes, content.the_row.coded) };

    ghost view = { λ s. s.own };

    ghost invariant = { λ s. s.parcel ≡ s.own };
}

impl Share {
    /// A share with copies of this value.
    #[inline(always)]
    pub fn of(alloc: Global, value: &Value) -> Result<Share, AllocError>
        ensures { IfOk result (λ share. share ≡ value.now) }
    {
        Ok(Share {
            own: value.copy(alloc)?,
            parcel: Parcel::of(alloc, value)?,
        })
    }

    /// The value for the block's own account, and its parcel.
    #[inline(always)]
    pub fn into_parts(self) -> (Value, Parcel)
        ensures own { result.0 ≡ self }
        ensures parcel { result.1 ≡ self }
    {
        (self.own, self.parcel)
    }
}
