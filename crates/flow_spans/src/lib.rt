//! Where in the text of a network its tables, keys and values stand: by bytes, by line and column, and on a terminal.
//!
//! The reading of TOML itself is that of `toml_parser`. A text is gone over once, and where it is no TOML the places end.
//!
//! Proved: safe and total; a position counts the line feeds in front of a byte and the characters behind the last.
//! Tested: where things stand in texts, by tables that mark the place.
#![tactic(auto)]

mod cursor;
mod escaped;
mod excerpt;
mod lines;
mod network;
mod places;
mod span;

pub use escaped::{Escaped, turns};
pub use excerpt::{Excerpt, excerpt_of};
pub use lines::{Position, line_of, line_span, position_of};
pub use network::{item_span, places_in};
pub use places::{Part, Places};
pub use span::Span;
