//! A call that may be refused memory, and what has to hold then.
use std::alloc::{AllocError, AllocFailed};

/// Why a case does not go on.
#[derive(Drop)]
pub(crate) enum Stop {
    /// Memory is refused to what makes ready for a call, or a second time to the call. The case may be begun anew.
    Memory,
    /// Of a call came something else than what has to, which was said.
    Wrong,
}

impl From<AllocError> for Stop {
    fn from(_error: AllocError) -> Stop {
        Stop::Memory
    }
}

impl<T: Drop> From<AllocFailed<T>> for Stop {
    fn from(_error: AllocFailed<T>) -> Stop {
        Stop::Memory
    }
}

/// What comes of the call. Where it is refused as the pattern says, it is made once more; it may use what the pattern names, such as a
/// value that it hands back. Whether all is as before tells what stands behind the pattern. With the word `only` no other refusal can come.
macro_rules! again {
    ($rt:expr, $name:expr, $call:expr, only $refusal:pat => $as_before:expr) => {
        match $call {
            Ok(given) => Ok(given),
            Err($refusal) => {
                $crate::again::refused($rt, $name, $as_before);
                match $call {
                    Ok(given) => Ok(given),
                    Err(_) => Err($crate::again::Stop::Memory),
                }
            }
        }
    };
    ($rt:expr, $name:expr, $call:expr, $refusal:pat => $as_before:expr) => {
        match $call {
            Ok(given) => Ok(given),
            Err($refusal) => {
                $crate::again::refused($rt, $name, $as_before);
                match $call {
                    Ok(given) => Ok(given),
                    Err(_) => Err($crate::again::Stop::Memory),
                }
            }
            Err(_) => Err($crate::again::wrong($rt, $name)),
        }
    };
}

pub(crate) use again;

/// Says that the call was refused memory, and whether all is as before. A line that is not printed is missed by who counts the refusals.
pub(crate) fn refused(rt: &impl Print, call: &'static str, as_before: bool) {
    let told = if as_before {
        "as before"
    } else {
        "not as before"
    };
    let _ = println!(rt; "{call}: refused, {told}");
}

/// Says that of the call comes something else than what has to.
pub(crate) fn wrong(rt: &impl Print, call: &'static str) -> Stop {
    let _ = println!(rt; "{call}: something else");
    Stop::Wrong
}

/// Says so, where of the call does not come what has to.
pub(crate) fn check(rt: &impl Print, call: &'static str, holds: bool) {
    if !holds {
        wrong(rt, call);
    }
}
