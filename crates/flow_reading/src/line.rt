//! The lines of a report, one after another.
ghost use Rattle.std.specs.Prelude.{◌≡◌, ◌≢◌, ℕ, List, ◌∷◌, ◌++◌, ◌↔◌, [], IfSome, IfOk, IsTrue, MatchOption, option_map};
ghost use Rattle.std.specs.Bool.{OnTrue, OnFalse};
ghost use Rattle.std.specs.Option.{option_copied};
ghost use Rattle.std.specs.Fmt.{decimal};

use crate::fault::{ReadError, ReportFault};
use crate::list::{PrintedList, read_list};
use itoa::Buffer;
use memchr::memchr;

/// The lines of a report that are still to be read.
#[derive(Clone, Copy, Drop)]
pub(crate) struct Lines<'a> {
    rest: &'a [u8],
    /// The number of the next line, from 1.
    number: usize,
}

impl<'a> Lines<'a> {
    ghost use Rattle.flow_reading.specs.Line.{optional_line};
    ghost use Rattle.flow_reading.specs.Printed.{list_text, numbered_text};

    pub(crate) fn new(text: &'a [u8]) -> Lines<'a>
        ensures { result.rest.now ≡ text.now }
    {
        Lines {
            rest: text,
            number: 1,
        }
    }

    /// What stands behind these words in the next line, if it begins with them; else nothing is read.
    pub(crate) fn take(&mut self, words: &[u8]) -> Option<&'a [u8]>
        ensures { self.old.rest.now ≡ optional_line words.now (option_copied result) ++ self.new.rest.now }
    {
        let line = behind(self.rest, words)?;
        let (found, rest) = split_line(line)?;
        self.rest = rest;
        self.number = self.number.saturating_add(1);
        Some(found)
    }

    /// Whether this whole line, with its line feed, is next; it is read then.
    pub(crate) fn take_whole(&mut self, line: &[u8]) -> bool
        ensures taken { OnTrue result (self.old.rest.now ≡ line.now ++ self.new.rest.now) }
        ensures none { OnFalse result (self.new.rest.now ≡ self.old.rest.now) }
    {
        match behind(self.rest, line) {
            Some(rest) => {
                self.rest = rest;
                self.number = self.number.saturating_add(1);
                true
            }
            None => false,
        }
    }

    /// The list behind these words in the next line, if it begins with them.
    pub(crate) fn take_list(&mut self, words: &[u8]) -> Result<Option<PrintedList<'a>>, ReadError>
        ensures { IfOk result (λ list. self.old.rest.now ≡ optional_line words.now (option_map list_text list)
            ++ self.new.rest.now) }
    {
        match self.take(words) {
            Some(found) => Ok(Some(self.list(found)?)),
            None => Ok(None),
        }
    }

    /// The number and the list behind these words in the next line, if it begins with them.
    pub(crate) fn take_numbered(
        &mut self,
        words: &[u8],
    ) -> Result<Option<(u32, PrintedList<'a>)>, ReadError>
        ensures { IfOk result (λ found. self.old.rest.now ≡ optional_line words.now
            (option_map (λ pair. numbered_text pair.0 pair.1) found) ++ self.new.rest.now) }
    {
        let Some(found) = self.take(words) else {
            return Ok(None);
        };
        let Some((word, list)) = split_word(found) else {
            return Err(self.last(ReportFault::List));
        };
        match number_of(word) {
            Some(number) => Ok(Some((number, self.list(list)?))),
            None => Err(self.last(ReportFault::Number)),
        }
    }

    fn list(&self, text: &'a [u8]) -> Result<PrintedList<'a>, ReadError>
        ensures { IfOk result (λ list. list_text list ≡ text.now) }
    {
        match read_list(text) {
            Some(list) => Ok(list),
            None => Err(self.last(ReportFault::List)),
        }
    }

    /// Whether all is read.
    pub(crate) fn is_over(&self) -> bool
        ensures { IsTrue result ↔ (self.now.rest.now ≡ []) }
    {
        self.rest.is_empty()
    }

    /// A fault of the line that was read last.
    pub(crate) fn last(&self, fault: ReportFault) -> ReadError {
        ReadError::Fault {
            line: self.number.saturating_sub(1),
            fault,
        }
    }

    /// What is wrong where none of the lines follows that should: the text is cut off, or the next line is none of them.
    pub(crate) fn stray(&self) -> ReadError {
        let fault = match memchr(b'\n', self.rest) {
            Some(_) => ReportFault::Line,
            None => ReportFault::End,
        };
        ReadError::Fault {
            line: self.number,
            fault,
        }
    }

    /// That something follows the last line.
    pub(crate) fn behind(&self) -> ReadError {
        ReadError::Fault {
            line: self.number,
            fault: ReportFault::Behind,
        }
    }
}

/// What stands behind these words in a text that begins with them.
pub(crate) fn behind<'a>(text: &'a [u8], words: &[u8]) -> Option<&'a [u8]>
    ensures { MatchOption result ((rest : List ℕ) → text.now ≢ words.now ++ rest)
        (λ rest. text.now ≡ words.now ++ rest.now) }
{
    text.strip_prefix(words)
}

/// The line with which a text begins, and what stands behind its line feed; none where it has no line feed.
fn split_line(text: &[u8]) -> Option<(&[u8], &[u8])>
    ensures { IfSome result (λ found. text.now ≡ found.0.now ++ 10 ∷ found.1.now) }
{
    let at = memchr(b'\n', text)?;
    Some((&text[..at], &text[at + 1..]))
}

/// The word with which a text begins, and what stands behind its space; none where it has no space.
pub(crate) fn split_word(text: &[u8]) -> Option<(&[u8], &[u8])>
    ensures { IfSome result (λ found. text.now ≡ found.0.now ++ 32 ∷ found.1.now) }
{
    let at = memchr(b' ', text)?;
    Some((&text[..at], &text[at + 1..]))
}

/// The number that is printed so.
pub(crate) fn number_of(word: &[u8]) -> Option<u32>
    ensures { IfSome result (λ number. word.now ≡ decimal number) }
{
    let number = str::from_utf8(word).ok()?.parse::<u32>().ok()?;
    if Buffer::new().format(number).as_bytes() == word {
        Some(number)
    } else {
        None
    }
}
