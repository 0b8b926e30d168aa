//! Why a block does not take a result back.
use flow_outlet::OutletFault;
use thiserror::Error;

/// Why a block did not take the result of a job back. The block is as it was before, and the result comes back.
#[derive(Clone, Copy, Debug, PartialEq, Eq, Error)]
pub enum EndFault {
    /// No job with this ticket is out, or its message or its work is another than that of the result.
    #[error("the result is of no job of this block")]
    Strange,
    /// A message would need an id above 2^59 - 1.
    #[error("message ids are used up")]
    Ids,
    /// There is no memory for what comes out.
    #[error("out of memory")]
    Memory,
}

impl From<OutletFault> for EndFault {
    ghost use Rattle.std.specs.Prelude.{◌≡◌};
    ghost use Rattle.flow_exec.specs.Execution.{fault_of};

    ghost from_gives = { λ given fault. fault ≡ fault_of given };

    fn from(fault: OutletFault) -> EndFault {
        match fault {
            OutletFault::Ids => EndFault::Ids,
            OutletFault::Memory => EndFault::Memory,
        }
    }
}
