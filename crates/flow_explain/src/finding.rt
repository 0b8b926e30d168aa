//! Flaws of a text, for which it is refused.
use flow_fault_text::TextFault;
use flow_spans::Span;
use std::alloc::{AllocError, Global};
use std::fmt::Display;

/// The most flaws that are told of one text.
const MOST_FLAWS: usize = 100;

/// Something for which a text is refused.
#[derive(Drop)]
pub struct Flaw {
    /// What a run says of it, once it is the first.
    pub fault: TextFault,
    pub span: Span,
    /// A sentence or more, on one line.
    pub message: String,
}

/// Whether no more flaws are told.
pub(crate) fn is_full(flaws: &[Flaw]) -> bool {
    flaws.len() >= MOST_FLAWS
}

/// Adds a flaw with this message, if there are not too many.
pub(crate) fn add_flaw<D: Display + Drop>(
    alloc: Global,
    flaws: &mut Vec<Flaw>,
    fault: TextFault,
    span: Span,
    message: D,
) -> Result<(), AllocError> {
    if is_full(flaws) {
        return Ok(());
    }
    let message = message.to_string(alloc)?;
    flaws.push(Flaw {
        fault,
        span,
        message,
    })?;
    Ok(())
}
