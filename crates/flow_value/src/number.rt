//! Numbers as they stand in texts.
ghost use Rattle.std.specs.Prelude.{◌≡◌, cond};
ghost use Rattle.flow_value.specs.Number.{without_minus, is_digits, int_of};
ghost use Rattle.flow_value.specs.declared.work.WorkFault.TheVariants.{NotInt, Range};

use crate::work::WorkFault;

/// The number that the text is: digits, perhaps behind a minus sign, and nothing else.
///
/// Leading zeros and `-0` are read, a plus sign is not.
pub(crate) fn read_int(text: &str) -> Result<i64, WorkFault>
    ensures { result ≡ int_of text.now }
{
    if text.starts_with('+') {
        return Err(WorkFault::NotInt);
    }
    match text.parse::<i64>() {
        Ok(number) => Ok(number),
        Err(_) => Err(fault_in(text)),
    }
}

// Why the text is no number, where it is none.
#[cold]
fn fault_in(text: &str) -> WorkFault
    ensures { result ≡ cond (is_digits (without_minus text.now)) Range NotInt }
{
    if is_digits(without_minus(text)) {
        WorkFault::Range
    } else {
        WorkFault::NotInt
    }
}

fn without_minus(text: &str) -> &str
    ensures { result.now ≡ without_minus text.now }
{
    match text.strip_prefix('-') {
        Some(digits) => digits,
        None => text,
    }
}

/// Whether the text is decimal digits, one or more, and nothing else: no sign and no space.
pub fn is_digits(text: &str) -> bool
    ensures { result ≡ is_digits text.now }
{
    !text.is_empty() && text.bytes().all(|byte| byte.is_ascii_digit())
}
