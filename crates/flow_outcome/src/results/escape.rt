//! The escapes of printed texts: `\"` and `\\` as JSON has them, and `\x` with two hexadecimal digits.
ghost use Rattle.std.specs.Prelude.{ℕ, ◌<◌, length, IfSome};

use memchr::memchr;
use std::alloc::AllocError;
use std::io;
use std::io::Write;

/// Writes printed values as JSON: only the escapes `\x` differ.
pub(crate) fn write_json<W: Write>(writer: &mut W, printed: &[u8]) -> io::Result<()> {
    let mut rest = printed;
    while let Some((plain, escape, behind)) = split_escape(rest) {
        writer.write_all(plain)?;
        match escape {
            b'x' => writer.write_all(b"\\u00")?,
            _ => writer.write_all(&[b'\\', escape])?,
        }
        rest = behind;
    }
    writer.write_all(rest)
}

/// Adds the text that is printed so, between its double quotes.
pub(crate) fn unescape(printed: &[u8], text: &mut Vec<u8>) -> Result<(), AllocError> {
    let mut rest = printed;
    while let Some((plain, escape, behind)) = split_escape(rest) {
        text.extend_from_slice(plain)?;
        rest = match (escape, behind) {
            (b'x', [high, low, others @ ..]) => {
                text.push(digit_of(*high) * 16 + digit_of(*low))?;
                others
            }
            _ => {
                text.push(escape)?;
                behind
            }
        };
    }
    text.extend_from_slice(rest)
}

/// What stands before the first backslash, the byte behind it, and what follows; none without a backslash.
fn split_escape(printed: &[u8]) -> Option<(&[u8], u8, &[u8])>
    ensures { IfSome result (λ found. length found.2.now < length printed.now) }
{
    let at = memchr(b'\\', printed)?;
    match &printed[at + 1..] {
        [escape, behind @ ..] => Some((&printed[..at], *escape, behind)),
        [] => None,
    }
}

/// The number of a hexadecimal digit; other bytes count as 0.
fn digit_of(digit: u8) -> u8
    ensures { result < 16 }
{
    match digit {
        b'0'..=b'9' => digit - b'0',
        b'a'..=b'f' => digit - b'a' + 10,
        _ => 0,
    }
}
