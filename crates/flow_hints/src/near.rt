//! Words that are near to one another, and words as they are told.
use std::alloc::{AllocError, Global};
use strsim::damerau_levenshtein;

/// The most bytes of a word that is compared with others, and the most characters of one that is told.
const LONGEST: usize = 64;

/// What may stand beside a word by mistake.
const BESIDE: [char; 7] = [' ', '\t', '\r', '\n', '"', '\'', '`'];

/// The nearest of these words, if one is near and not the word itself. Blanks and quotes beside the word don't count.
///
/// In a word of two letters one that is wrong is too much. Of words that are equally near the first one counts that begins as
/// the word does.
pub fn nearest<'w>(
    alloc: Global,
    word: &str,
    words: &[&'w str],
) -> Result<Option<&'w str>, AllocError> {
    let bare = word.trim_matches(BESIDE);
    if bare.is_empty() || bare.len() > LONGEST {
        return Ok(None);
    }
    // twice as many edits as there may be at most, and two
    let mut bound = bare.len() / 5 * 2 + 4;
    let mut found = None;
    for other in words {
        // what a comparison needs grows with the length of both
        if *other == word || other.len() > LONGEST {
            continue;
        }
        let edits = damerau_levenshtein(alloc, bare, other)?.saturating_mul(2);
        let begin_alike = bare.as_bytes().first() == other.as_bytes().first();
        let distance = edits.saturating_add(if begin_alike { 0 } else { 1 });
        if distance < bound && edits < bare.len().max(other.len()) {
            found = Some(*other);
            bound = distance;
        }
    }
    Ok(found)
}

/// A text in double quotes and with escapes, cut behind 64 characters.
pub fn quoted(alloc: Global, text: &str) -> Result<String, AllocError> {
    let mut cut = String::new(alloc);
    for character in text.chars().take(LONGEST) {
        cut.push(character)?;
    }
    let rest = if cut.len() < text.len() { "..." } else { "" };
    format!(in alloc; "{cut:?}{rest}")
}
