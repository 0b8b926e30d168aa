//! What a printed list is made of: brackets, commas, integers and texts between double quotes.
ghost use Rattle.std.specs.Prelude.{◌≡◌, ℕ, ◌<◌, ◌≤◌, length, true, IfSome};

/// A piece of a printed list.
#[derive(Clone, Copy)]
pub(crate) enum Token {
    Open,
    Close,
    Comma,
    Int,
    Text,
}

/// The largest integer, and the smallest one behind its sign.
const LARGEST: &[u8] = b"9223372036854775807";

const SMALLEST: &[u8] = b"9223372036854775808";

/// The first token of a text, and how many bytes it has.
pub(crate) fn first_token(text: &[u8]) -> Option<(Token, usize)>
    ensures { IfSome result (λ found. (0 < found.1) × (found.1 ≤ length text.now)) }
{
    match text.first()? {
        b'[' => Some((Token::Open, 1)),
        b']' => Some((Token::Close, 1)),
        b',' => Some((Token::Comma, 1)),
        b'"' => Some((Token::Text, quoted_len(text)?)),
        _ => Some((Token::Int, int_len(text)?)),
    }
}

/// How many bytes the integer has with which a text begins: one of 64 bits, as it is printed.
fn int_len(text: &[u8]) -> Option<usize>
    ensures { IfSome result (λ len. (0 < len) × (len ≤ length text.now)) }
{
    let digits = text.strip_prefix(b"-").unwrap_or(text);
    let sign = text.len() - digits.len();
    let count = digit_count(digits);
    if is_printed(sign == 1, &digits[..count]) {
        Some(sign + count)
    } else {
        None
    }
}

/// How many digits a text begins with.
fn digit_count(text: &[u8]) -> usize
    ensures { result ≤ length text.now }
{
    for (at, byte) in text.iter().enumerate() {
        if !byte.is_ascii_digit() {
            return at;
        }
    }
    text.len()
}

/// Whether an integer of 64 bits is printed with these digits.
fn is_printed(is_negative: bool, digits: &[u8]) -> bool
    ensures { result ≡ true → 0 < length digits.now }
{
    match digits {
        [] => false,
        [b'0'] => !is_negative,
        [b'0', ..] => false,
        _ => digits.len() < LARGEST.len() || is_in_range(is_negative, digits),
    }
}

fn is_in_range(is_negative: bool, digits: &[u8]) -> bool {
    let furthest = if is_negative { SMALLEST } else { LARGEST };
    digits.len() == furthest.len() && digits <= furthest
}

/// Where within a text between double quotes a place is.
#[derive(Clone, Copy)]
enum Within {
    Plain,
    /// Behind a backslash.
    Escape,
    /// Behind `\x`.
    High,
    /// Behind `\x` and this digit.
    Low(u8),
}

/// How many bytes the text has that begins with the double quote at the start, with both its quotes.
fn quoted_len(text: &[u8]) -> Option<usize>
    ensures { IfSome result (λ len. (0 < len) × (len ≤ length text.now)) }
{
    let mut within = Within::Plain;
    for (at, byte) in text.iter().enumerate().skip(1) {
        match (within, *byte) {
            (Within::Plain, b'"') => return Some(at + 1),
            (Within::Plain | Within::Escape | Within::High | Within::Low(_), _) => {
                within = behind(within, *byte)?;
            }
        }
    }
    None
}

/// Where the place behind a byte is; none where the byte can't stand there.
fn behind(within: Within, byte: u8) -> Option<Within> {
    match (within, byte) {
        (Within::Plain, b'\\') => Some(Within::Escape),
        (Within::Plain, 0..=31 | 127) => None,
        (Within::Plain, _) => Some(Within::Plain),
        (Within::Escape, b'"' | b'\\') => Some(Within::Plain),
        (Within::Escape, b'x') => Some(Within::High),
        (Within::Escape, _) => None,
        (Within::High, b'0' | b'1' | b'7') => Some(Within::Low(byte)),
        (Within::High, _) => None,
        (Within::Low(b'7'), b'f') => Some(Within::Plain),
        (Within::Low(b'7'), _) => None,
        (Within::Low(_), b'0'..=b'9' | b'a'..=b'f') => Some(Within::Plain),
        (Within::Low(_), _) => None,
    }
}
