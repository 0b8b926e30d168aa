//! Texts with escapes, so that a terminal shows all of them, and on one line.
use std::fmt;

/// A text with the escapes that it has in double quotes, and without the quotes.
#[derive(Clone, Copy)]
pub struct Escaped<'t>(pub &'t str);

impl fmt::Display for Escaped<'_> {
    fn fmt<W: fmt::Write>(&self, f: &mut fmt::Formatter<W>) -> fmt::Result {
        // a single quote has no escape in double quotes
        let mut is_first = true;
        for part in self.0.split('\'') {
            if !is_first {
                f.write_str("'")?;
            }
            is_first = false;
            let part = part.escape_debug();
            write!(f, "{part}")?;
        }
        Ok(())
    }
}

/// Whether a character turns the direction in which those beside it are shown.
pub fn turns(character: char) -> bool {
    matches!(
        character,
        '\u{61c}' | '\u{200e}' | '\u{200f}' | '\u{202a}'..='\u{202e}' | '\u{2066}'..='\u{2069}'
    )
}
