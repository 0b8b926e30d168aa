//! The line that a refusal is told by.
ghost use Rattle.std.specs.Prelude.{◌≡◌, Some, OnOk, IfErr};
ghost use Rattle.std.specs.Io.KnownBytes.{Appends};
ghost use Rattle.flow_report.specs.Written.{StaysInFront};
ghost use Rattle.flow_run.specs.Refusal.{refusal_text, refusal_line};

use crate::outcome::RunRefusal;
use arrayvec::ArrayString;
use flow_text::{TextFault, write_bytes};
use std::fmt;
use std::fmt::Write as _;
use std::io::Write;

/// Room for a line: the longest one has 64 bytes.
const LINE_ROOM: usize = 128;

/// Writes the one line that tells why there was no run, or no report of it.
pub fn write_refusal<W: Write>(refusal: &RunRefusal, writer: &mut W) -> Result<(), TextFault>
    ensures written { OnOk result (Appends (W.contents writer.old) (W.contents writer.new) (refusal_line refusal.now)) }
    ensures kept { IfErr result (λ fault. StaysInFront (W.contents writer.old) (W.contents writer.new)) }
    ensures failed { IfErr result (λ fault. fault ≡ TextFault.Write) }
{
    let mut line = ArrayString::<LINE_ROOM>::new();
    match writeln!(line, "flow_run: {refusal}") {
        Ok(()) => write_line(writer, line.as_str().as_bytes()),
        Err(_) => Err(TextFault::Write),
    }
}

fn write_line<W: Write>(writer: &mut W, line: &[u8]) -> Result<(), TextFault>
    ensures written { OnOk result (Appends (W.contents writer.old) (W.contents writer.new) line.now) }
    ensures kept { StaysInFront (W.contents writer.old) (W.contents writer.new) }
    ensures failed { IfErr result (λ fault. fault ≡ TextFault.Write) }
{
    match write_bytes(writer, line) {
        Ok(()) => Ok(()),
        Err(_) => Err(TextFault::Write),
    }
}

impl fmt::Display for RunRefusal {
    ghost output = { λ refusal. Some (refusal_text refusal) };

    fn fmt<W: fmt::Write>(&self, f: &mut fmt::Formatter<W>) -> fmt::Result {
        match *self {
            RunRefusal::Text(fault) => write!(f, "{fault}"),
            RunRefusal::Ids => f.write_str("ids"),
            RunRefusal::Memory => f.write_str("memory"),
        }
    }
}
