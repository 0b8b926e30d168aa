//! A line of a text as a terminal shows it, and where on it a range stands.
use crate::escaped::turns;
use crate::lines::line_span;
use crate::span::Span;
use std::alloc::{AllocError, Global};
use unicode_width::{UnicodeWidthChar, UnicodeWidthStr};

/// The most columns that are shown in front of a range, of the range itself, and behind it.
const MOST_COLUMNS: usize = 60;

/// The columns of the escape of a character that turns the direction of others, at most.
const ESCAPE_COLUMNS: usize = 8;

/// What stands where columns are left out.
const LEFT_OUT: &str = "...";

/// The line on which a range begins, as a terminal shows it, and the columns of the range.
#[derive(Drop)]
pub struct Excerpt {
    /// The line without its end. A control character is a space, one that turns the direction of others its escape, what is
    /// no UTF-8 a replacement character, and of a long line the middle with the range.
    pub line: String,
    /// The columns in front of the range.
    pub before: usize,
    /// The columns of the range on this line, 1 at least.
    pub marked: usize,
}

/// The line on which this range of a text begins.
pub fn excerpt_of(alloc: Global, text: &[u8], span: Span) -> Result<Excerpt, AllocError> {
    let around = line_span(text, span.start);
    let start = span.start.min(around.end);
    let end = span.end.min(around.end);
    let mut line = String::new(alloc);
    push_tail(alloc, &mut line, bytes(text, around.start, start))?;
    let before = line.as_str().width();
    push_head(alloc, &mut line, bytes(text, start, end))?;
    let marked = line.as_str().width().saturating_sub(before);
    push_head(alloc, &mut line, bytes(text, end, around.end))?;
    Ok(Excerpt {
        line,
        before,
        marked: marked.max(1),
    })
}

// The bytes from here to there, none where there is no such range.
fn bytes(text: &[u8], start: usize, end: usize) -> &[u8] {
    text.get(start..end).unwrap_or(&[])
}

// Adds a character as it is shown.
fn push_shown(line: &mut String, character: char) -> Result<(), AllocError> {
    if turns(character) {
        let escape = character.escape_unicode();
        write!(line, "{escape}")
    } else if character.is_control() {
        line.push(' ')
    } else {
        line.push(character)
    }
}

// The columns of a character that is shown.
fn columns(character: char) -> usize {
    if turns(character) {
        ESCAPE_COLUMNS
    } else if character.is_control() {
        1
    } else {
        character.width().unwrap_or(0)
    }
}

// Adds the first columns of these bytes.
fn push_head(alloc: Global, line: &mut String, bytes: &[u8]) -> Result<(), AllocError> {
    let text = String::from_utf8_lossy(alloc, bytes)?;
    let mut taken = 0usize;
    for character in text.chars() {
        taken = taken.saturating_add(columns(character));
        if taken > MOST_COLUMNS {
            return line.push_str(LEFT_OUT);
        }
        push_shown(line, character)?;
    }
    Ok(())
}

// Adds the last columns of these bytes.
fn push_tail(alloc: Global, line: &mut String, bytes: &[u8]) -> Result<(), AllocError> {
    let text = String::from_utf8_lossy(alloc, bytes)?;
    let kept = tail_len(text.as_str());
    let skipped = text.chars().count().saturating_sub(kept);
    if skipped > 0 {
        line.push_str(LEFT_OUT)?;
    }
    for character in text.chars().skip(skipped) {
        push_shown(line, character)?;
    }
    Ok(())
}

// How many characters at the end of a text fit.
fn tail_len(text: &str) -> usize {
    let mut taken = 0usize;
    let mut count = 0usize;
    for character in text.chars().rev() {
        taken = taken.saturating_add(columns(character));
        if taken > MOST_COLUMNS {
            return count;
        }
        count = count.saturating_add(1);
    }
    count
}
