//! Plain bytes: those that stand in a written text as they are.
ghost use Rattle.std.specs.Prelude.{◌≡◌};
ghost use Rattle.flow_value.specs.Plain.{is_plain_byte, all_plain, is_plain_ascii, all_plain_ascii};

/// Whether each of these bytes is plain: no control byte, no double quote and no backslash.
#[inline(always)]
pub(crate) fn are_plain(bytes: &[u8]) -> bool
    ensures { result ≡ all_plain bytes.now }
{
    let mut plain = true;
    for byte in bytes {
        plain &= is_plain_byte(*byte);
    }
    plain
}

/// Whether each of these bytes is plain, and ASCII.
#[inline(always)]
pub(crate) fn are_plain_ascii(bytes: &[u8]) -> bool
    ensures { result ≡ all_plain_ascii bytes.now }
{
    let mut plain = true;
    for byte in bytes {
        plain &= is_plain_ascii(*byte);
    }
    plain
}

// Whether the byte is plain, and ASCII.
#[inline]
fn is_plain_ascii(byte: u8) -> bool
    ensures { result ≡ is_plain_ascii byte }
{
    is_plain_byte(byte) & (byte < 128)
}

/// Whether the byte is plain: no control byte, no double quote and no backslash.
// It has no branches.
#[inline]
pub fn is_plain_byte(byte: u8) -> bool
    ensures { result ≡ is_plain_byte byte }
{
    (byte >= 32) & (byte != b'"') & (byte != b'\\') & (byte != 127)
}
