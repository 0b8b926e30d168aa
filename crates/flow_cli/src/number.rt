//! Numbers as arguments write them.
ghost use Rattle.std.specs.Prelude.{◌≡◌};
ghost use Rattle.flow_cli.specs.Number.{number_of};

use flow_value::is_digits;

/// The number that the text is: decimal digits and nothing else, below 2^64.
pub fn read_number(text: &str) -> Option<u64>
    ensures { result ≡ number_of text.now }
{
    if !is_digits(text) {
        return None;
    }
    match text.parse::<u64>() {
        Ok(number) => Some(number),
        Err(_) => None,
    }
}
