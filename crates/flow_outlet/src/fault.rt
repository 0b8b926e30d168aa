//! Why an outlet cannot take what is put.
use thiserror::Error;

/// Why an outlet did not take a result. It is as it was before.
#[derive(Clone, Copy, Debug, PartialEq, Eq, Error)]
pub enum OutletFault {
    /// A message would need an id above 2^59 - 1.
    #[error("message ids are used up")]
    Ids,
    /// There is no memory for it.
    #[error("out of memory")]
    Memory,
}
