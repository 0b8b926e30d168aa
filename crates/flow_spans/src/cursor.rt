//! A place in a text that moves forward over its tokens.
use crate::span::Span;
use std::alloc::{AllocError, Global};
use toml_parser::text::{first, skip_blank, skip_ws};
use toml_parser::{Key, ParseError, dotted_key, quoted, starts_string, unquoted};

/// A place in a text, in bytes from its start.
#[derive(Clone, Copy)]
pub(crate) struct Cursor<'t> {
    text: &'t str,
    pub(crate) at: usize,
}

/// A key, where it stands, and the place behind it and the blanks that follow.
#[derive(Drop)]
pub(crate) struct FoundKey<'t> {
    pub(crate) key: Key,
    pub(crate) span: Span,
    pub(crate) behind: Cursor<'t>,
}

impl<'t> Cursor<'t> {
    /// This place of the text, or its end where it is shorter.
    pub(crate) fn new(text: &'t str, at: usize) -> Cursor<'t> {
        Cursor { text, at }
    }

    /// What stands from here on.
    fn rest(self) -> &'t str {
        self.text.get(self.at..).unwrap_or("")
    }

    /// How many bytes stand from here on.
    pub(crate) fn left(self) -> usize {
        self.rest().len()
    }

    /// The place where only this rest is left.
    fn where_left(self, rest: &str) -> Cursor<'t> {
        Cursor {
            text: self.text,
            at: self.text.len().saturating_sub(rest.len()),
        }
    }

    /// The byte here, or 0 at the end.
    pub(crate) fn byte(self) -> u8 {
        first(self.rest())
    }

    /// Whether this text comes next.
    pub(crate) fn starts_with(self, text: &str) -> bool {
        self.rest().starts_with(text)
    }

    /// The place so many bytes further on.
    pub(crate) fn plus(self, count: usize) -> Cursor<'t> {
        Cursor {
            text: self.text,
            at: self.at.saturating_add(count),
        }
    }

    /// Behind this byte and what is blank after it, if the byte comes next.
    pub(crate) fn after_byte(self, byte: u8) -> Option<Cursor<'t>> {
        if self.byte() == byte {
            Some(self.plus(1).after_space())
        } else {
            None
        }
    }

    /// Behind the spaces and tabs.
    pub(crate) fn after_space(self) -> Cursor<'t> {
        self.where_left(skip_ws(self.rest()))
    }

    /// Behind spaces, line ends and comments.
    pub(crate) fn after_blank(self) -> Cursor<'t> {
        self.where_left(skip_blank(self.rest(), true))
    }

    /// From here to there.
    pub(crate) fn span_to(self, there: Cursor<'_>) -> Span {
        Span::new(self.at, there.at)
    }

    /// The key here, if there is one.
    pub(crate) fn key(self, alloc: Global) -> Result<Option<FoundKey<'t>>, AllocError> {
        match dotted_key(alloc, self.rest()) {
            Ok((key, rest)) => {
                let behind = self.where_left(rest);
                Ok(Some(FoundKey {
                    key,
                    span: self.trimmed_to(behind),
                    behind,
                }))
            }
            Err(ParseError::OutOfMemory) => Err(AllocError),
            Err(ParseError::At(..)) => Ok(None),
        }
    }

    // From here to there, without the blanks in front of there.
    fn trimmed_to(self, there: Cursor<'t>) -> Span {
        let between = self.text.get(self.at..there.at).unwrap_or("");
        let blanks = between.len().saturating_sub(between.trim_ascii_end().len());
        Span::new(self.at, there.at.saturating_sub(blanks))
    }

    // Behind the string here, if there is one.
    fn after_string(self, alloc: Global) -> Result<Option<Cursor<'t>>, AllocError> {
        let rest = self.rest();
        if !starts_string(rest) {
            return Ok(None);
        }
        match quoted(alloc, rest) {
            Ok((_, rest)) => Ok(Some(self.where_left(rest))),
            Err(ParseError::OutOfMemory) => Err(AllocError),
            Err(ParseError::At(..)) => Ok(None),
        }
    }

    // Behind the number, the boolean or the date here, if there is one.
    fn after_word(self, alloc: Global) -> Result<Option<Cursor<'t>>, AllocError> {
        match unquoted(alloc, self.rest()) {
            Ok((_, rest)) => Ok(Some(self.where_left(rest))),
            Err(ParseError::OutOfMemory) => Err(AllocError),
            Err(ParseError::At(..)) => Ok(None),
        }
    }

    /// Behind the value here, if there is one.
    pub(crate) fn after_value(self, alloc: Global) -> Result<Option<Cursor<'t>>, AllocError> {
        match self.byte() {
            b'"' | b'\'' => self.after_string(alloc),
            b'[' | b'{' => self.after_brackets(alloc),
            _ => self.after_word(alloc),
        }
    }

    // Behind the bracket that closes the one here. What stands between them is only told apart as far as that needs.
    fn after_brackets(self, alloc: Global) -> Result<Option<Cursor<'t>>, AllocError> {
        let mut here = self;
        let mut depth = 0usize;
        for _ in 0..self.text.len() {
            match here.byte() {
                b'"' | b'\'' => match here.after_string(alloc)? {
                    Some(behind) => here = behind,
                    None => return Ok(None),
                },
                b'[' | b'{' => {
                    depth = depth.saturating_add(1);
                    here = here.plus(1);
                }
                b']' | b'}' => {
                    depth = depth.saturating_sub(1);
                    here = here.plus(1);
                    if depth == 0 {
                        return Ok(Some(here));
                    }
                }
                0 => return Ok(None),
                _ => here = here.plus(1),
            }
            here = here.after_blank();
        }
        Ok(None)
    }
}
