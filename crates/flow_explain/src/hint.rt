//! What may have been meant.
use flow_hints::nearest;
use std::alloc::{AllocError, Global};
use std::fmt;

/// What is said behind a flaw.
#[derive(Clone, Copy)]
pub(crate) enum Hint<'w> {
    /// These words.
    Words(&'static str),
    /// A question whether this word was meant.
    Near(&'w str),
    /// That there is no other input than this one.
    OnlyInput(&'w str),
    /// These words, and then all that could be meant.
    OneOf(&'static str, &'w [&'w str]),
}

impl fmt::Display for Hint<'_> {
    fn fmt<W: fmt::Write>(&self, f: &mut fmt::Formatter<W>) -> fmt::Result {
        match *self {
            Hint::Words(words) => f.write_str(words),
            Hint::Near(word) => write!(f, " Did you mean {word:?}?"),
            Hint::OnlyInput(name) => write!(f, " The only input is {name:?}."),
            Hint::OneOf(words, names) => write_names(words, names, f),
        }
    }
}

// Writes words, and names with commas between them.
fn write_names<W: fmt::Write>(
    words: &str,
    names: &[&str],
    f: &mut fmt::Formatter<W>,
) -> fmt::Result {
    f.write_str(words)?;
    let mut before = " ";
    for name in names {
        write!(f, "{before}{name}")?;
        before = ", ";
    }
    f.write_str(".")
}

/// A question for the nearest of these words; where none is near, the other hint.
pub(crate) fn near_or<'w>(
    alloc: Global,
    word: &str,
    words: &[&'w str],
    other: Hint<'w>,
) -> Result<Hint<'w>, AllocError> {
    Ok(match nearest(alloc, word, words)? {
        Some(near) => Hint::Near(near),
        None => other,
    })
}
