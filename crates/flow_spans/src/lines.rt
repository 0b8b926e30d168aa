//! Lines and columns.
ghost use Rattle.std.specs.Prelude.{◌≡◌, ◌+◌, ◌≤◌, ◌==◌, ◌&&◌, not, count_by, length, min, take};
ghost use Rattle.std.specs.List.{after_last, suffix_len};
ghost use Rattle.flow_spans.specs.Chars.{begins_char};

use crate::span::Span;

/// A line and a column of a text, both from 1. A column counts characters.
#[derive(Clone, Copy)]
pub struct Position {
    pub line: usize,
    pub column: usize,
}

/// The line and the column of the byte at this offset, or of the end of the text where that comes first.
///
/// A line ends behind a line feed. What is no UTF-8 is counted by its bytes.
pub fn position_of(text: &[u8], offset: usize) -> Position
    ensures line { result.line ≡ 1 + count_by (λ byte. byte == 10) (take (min offset (length text.now)) text.now) }
    ensures column { result.column ≡ 1 + count_by begins_char
        (after_last (λ byte. byte == 10) (take (min offset (length text.now)) text.now)) }
{
    let before = &text[..offset.min(text.len())];
    Position {
        line: 1 + line_feeds(before),
        column: 1 + chars_in(after_line_feed(before)),
    }
}

/// The line of the byte at this offset, from 1.
pub fn line_of(text: &[u8], offset: usize) -> usize
    ensures { result ≡ 1 + count_by (λ byte. byte == 10) (take (min offset (length text.now)) text.now) }
{
    1 + line_feeds(&text[..offset.min(text.len())])
}

fn line_feeds(bytes: &[u8]) -> usize
    ensures value { result ≡ count_by (λ byte. byte == 10) bytes.now }
    ensures bound { result ≤ length bytes.now }
{
    bytes.iter().filter(|byte| **byte == b'\n').count()
}

// How many characters begin in these bytes.
fn chars_in(bytes: &[u8]) -> usize
    ensures value { result ≡ count_by begins_char bytes.now }
    ensures bound { result ≤ length bytes.now }
{
    bytes.iter().filter(|byte| begins_char(**byte)).count()
}

// Whether a byte is not one that continues a character.
fn begins_char(byte: u8) -> bool
    ensures { result ≡ begins_char byte }
{
    !(byte >= 0x80 && byte < 0xC0)
}

// How many bytes stand behind the last line feed.
fn last_line_len(bytes: &[u8]) -> usize
    ensures value { result ≡ suffix_len (λ byte. not (byte == 10)) bytes.now }
    ensures bound { result ≤ length bytes.now }
{
    bytes
        .iter()
        .rev()
        .take_while(|byte| **byte != b'\n')
        .count()
}

// What stands behind the last line feed.
fn after_line_feed(bytes: &[u8]) -> &[u8]
    ensures value { result.now ≡ after_last (λ byte. byte == 10) bytes.now }
    ensures bound { length result.now ≤ length bytes.now }
{
    &bytes[bytes.len() - last_line_len(bytes)..]
}

/// The line round the byte at this offset, without what ends it.
pub fn line_span(text: &[u8], offset: usize) -> Span
    ensures { result.end ≤ length text.now }
{
    let here = offset.min(text.len());
    let start = here - after_line_feed(&text[..here]).len();
    let len = line_len(&text[here..]);
    Span::new(start, here.saturating_add(len).min(text.len()))
}

// How many bytes stand in front of the first line end.
fn line_len(bytes: &[u8]) -> usize {
    for (at, byte) in bytes.iter().enumerate() {
        if *byte == b'\n' || *byte == b'\r' {
            return at;
        }
    }
    bytes.len()
}
