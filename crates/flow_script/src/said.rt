//! What a line answers, as a text.

use std::alloc::Global;
use std::fmt::{Debug, Write};

/// A text that grows. Where memory is out for a part of it, it is not whole.
#[derive(Drop)]
pub(crate) struct Said {
    text: String,
    is_whole: bool,
}

impl Said {
    pub(crate) fn new(alloc: Global) -> Said {
        Said {
            text: String::new(alloc),
            is_whole: true,
        }
    }

    /// What it says so far.
    pub(crate) fn text(&self) -> &str {
        self.text.as_str()
    }

    /// Whether it says all that it has to.
    pub(crate) fn is_whole(&self) -> bool {
        self.is_whole
    }

    /// Says nothing.
    pub(crate) fn clear(&mut self) {
        self.text.clear();
        self.is_whole = true;
    }

    /// Says one part more.
    pub(crate) fn put(&mut self, part: &str) -> bool {
        if self.text.push_str(part).is_err() {
            self.is_whole = false;
        }
        true
    }

    /// Says what a call answers, and that it was one.
    pub(crate) fn tell<T: Debug>(&mut self, answer: &T) -> bool {
        if write!(self.text, "{answer:?}").is_err() {
            self.is_whole = false;
        }
        true
    }

    pub(crate) fn into_text(self) -> String {
        let Said { text, .. } = self;
        text
    }
}
