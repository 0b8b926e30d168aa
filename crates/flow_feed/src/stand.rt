//! Where a reader of CSV stands in a row, which tells where the row ends.
ghost use Rattle.std.specs.Prelude.{◌≡◌, not};
ghost use Rattle.csv.specs.Machine as machine;
ghost use Rattle.csv.specs.Reading.{default_config};
ghost use Rattle.flow_feed.specs.Stands.{state_of, state_after};

/// Where a reader of CSV stands.
#[derive(Clone, Copy, PartialEq, Eq)]
pub enum Stand {
    /// In front of a row.
    StartRecord,
    /// In front of a field of a row.
    StartField,
    /// In a field without quotes, or in what follows its quotes.
    InField,
    /// In quotes.
    InQuoted,
    /// Behind a quote that ends quotes, or is the first of two.
    AfterQuote,
    /// Behind the carriage return that ends a row.
    AfterCr,
}

/// Where a reader stands behind one more byte.
pub fn after(stand: Stand, byte: u8) -> Stand
    ensures { state_of result ≡ state_after (state_of stand) byte }
{
    match stand {
        Stand::StartRecord => start_record(byte),
        Stand::StartField => start_field(byte),
        Stand::InField => in_field(byte),
        Stand::InQuoted => {
            if byte == b'"' {
                Stand::AfterQuote
            } else {
                Stand::InQuoted
            }
        }
        Stand::AfterQuote => start_field(byte),
        Stand::AfterCr => start_record(byte),
    }
}

fn start_record(byte: u8) -> Stand
    ensures { state_of result ≡ (machine.start_record default_config byte).0 }
{
    if is_line_end(byte) {
        Stand::StartRecord
    } else {
        start_field(byte)
    }
}

fn start_field(byte: u8) -> Stand
    ensures { state_of result ≡ (machine.start_field default_config byte).0 }
{
    if byte == b'"' {
        Stand::InQuoted
    } else {
        in_field(byte)
    }
}

fn in_field(byte: u8) -> Stand
    ensures { state_of result ≡ (machine.in_field default_config byte).0 }
{
    match byte {
        b',' => Stand::StartField,
        b'\n' => Stand::StartRecord,
        b'\r' => Stand::AfterCr,
        _ => Stand::InField,
    }
}

/// Whether a byte ends a line.
pub(crate) fn is_line_end(byte: u8) -> bool
    ensures { result ≡ machine.ends_with default_config.terminator byte }
{
    byte == b'\r' || byte == b'\n'
}

impl Stand {
    /// Whether this is between two rows.
    pub fn is_between(self) -> bool
        ensures { result ≡ not (machine.ends_at_end (state_of self)) }
    {
        match self {
            Stand::StartRecord | Stand::AfterCr => true,
            Stand::StartField | Stand::InField | Stand::InQuoted | Stand::AfterQuote => false,
        }
    }
}
