//! Ranges of a text.
ghost use Rattle.std.specs.Prelude.{◌≡◌, ◌≤◌};
ghost use Rattle.std.specs.Prelude.{min};

/// A range of a text, in bytes from its start; the byte at `end` is outside.
#[derive(Clone, Copy, PartialEq, Eq)]
pub struct Span {
    pub start: usize,
    pub end: usize,
    pub ghost ordered: { start ≤ end },
}

impl Span {
    /// The range that ends there, and begins at the start or, where that is behind the end, at the end.
    pub fn new(start: usize, end: usize) -> Span
        ensures end { result.end ≡ end }
        ensures start { result.start ≡ min start end }
    {
        Span {
            start: start.min(end),
            end,
        }
    }
}
