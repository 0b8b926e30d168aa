//! Short texts, which stand in the value itself.
ghost use Rattle.std.specs.Prelude.{◌≡◌, ◌≤◌, length, IsUtf8, IfSome};
ghost use Rattle.flow_value.specs.Plain.{all_plain, all_plain_ascii};
ghost use Rattle.flow_value.specs.Head.{count_in, says_plain, bytes_in};
ghost use Rattle.std.proofs.Props.{props};

use crate::plain::{are_plain, are_plain_ascii};
use std::{fmt, str};

/// A text of few bytes, at the beginning of its cells. The cells behind them say nothing.
///
/// The head is how many bytes they are, and 128 more where all of them are plain: so the text takes 15 bytes.
#[derive(Clone, Copy)]
pub(crate) struct Short {
    head: u8,
    cells: [u8; Short::MOST],
    ghost fits: { count_in head ≤ 14 },
    ghost is_text: { IsUtf8 (bytes_in head cells) } by { Prim.hlevel props },
    ghost told: { says_plain head ≡ all_plain (bytes_in head cells) },
}

/// Added to the count in the head of a plain text.
const PLAIN: u8 = 128;

/// Room for a short text with plain bytes behind it. So many bytes are looked at in one piece, however many of them the text has.
const WIDE: usize = 16;

impl Short {
    /// The most bytes of a short text.
    pub(crate) const MOST: usize = 14;

    /// The short text of this content.
    pub(crate) fn from_str(content: &str) -> Short
        requires { length content.now ≤ Short.MOST }
        ensures { bytes_in result.head result.cells ≡ content.now }
    {
        let bytes = content.as_bytes();
        let mut wide = [b' '; WIDE];
        wide[..bytes.len()].copy_from_slice(bytes);
        let count = bytes.len() as u8;
        let head = if are_plain(&wide) {
            count + PLAIN
        } else {
            count
        };
        let mut cells = [0; Short::MOST];
        cells.copy_from_slice(&wide[..Short::MOST]);
        Short { head, cells }
    }

    /// The short text of these bytes, where they are few, plain, and ASCII: then they are UTF-8. None says nothing of them.
    #[inline(always)]
    pub(crate) fn from_plain_ascii(bytes: &[u8]) -> Option<Short>
        ensures is { IfSome result (λ short. bytes_in short.head short.cells ≡ bytes.now) }
        ensures utf8 { IfSome result (λ _. IsUtf8 bytes.now) }
    {
        if bytes.len() > Short::MOST {
            return None;
        }
        let mut wide = [b' '; WIDE];
        wide[..bytes.len()].copy_from_slice(bytes);
        if !are_plain_ascii(&wide) {
            return None;
        }
        let head = bytes.len() as u8 + PLAIN;
        let mut cells = [0; Short::MOST];
        cells.copy_from_slice(&wide[..Short::MOST]);
        Some(Short { head, cells })
    }

    /// The content.
    #[inline]
    pub(crate) fn as_str(&self) -> &str
        ensures { result.now ≡ bytes_in self.now.head self.now.cells }
    {
        let count = (self.head % PLAIN) as usize;
        unsafe { str::from_utf8_unchecked(&self.cells[..count]) }
    }

    /// Whether each byte is plain. It is known without a look at them.
    #[inline]
    pub(crate) fn is_plain(&self) -> bool
        ensures { result ≡ all_plain (bytes_in self.now.head self.now.cells) }
    {
        self.head >= PLAIN
    }
}

impl fmt::Debug for Short {
    fn fmt<W: fmt::Write>(&self, f: &mut fmt::Formatter<W>) -> fmt::Result {
        fmt::Debug::fmt(self.as_str(), f)
    }
}
