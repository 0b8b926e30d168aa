//! The messages, which are numbered from 1, each with its number as its value.

use flow_value::{Parcel, Value};
use std::alloc::{AllocError, Global};

/// The message of this number.
pub(crate) fn message(alloc: Global, number: u32) -> Result<Parcel, AllocError> {
    match Parcel::new(alloc, Value::Int(i64::from(number))) {
        Ok(parcel) => Ok(parcel),
        Err(_) => Err(AllocError),
    }
}

/// Whether this is the message of that number.
pub(crate) fn is_message(parcel: Parcel, number: u32) -> bool {
    let (value, _) = parcel.into_parts();
    match value {
        Value::Int(found) => found == i64::from(number),
        Value::Text(_) | Value::Row(_) => false,
    }
}
