//! How the program ends: its status, and its line on standard error.
ghost use Rattle.std.specs.Prelude.{◌≡◌, OnOk, IfErr};
ghost use Rattle.std.specs.Io.KnownBytes.{Appends};
ghost use Rattle.flow_cli.specs.Conclusion.{conclusion_status, conclusion_line};

use flow_run::{Ran, RunRefusal, TextFault, status, write_refusal};
use std::io::Write;

/// What became of the program's task.
#[derive(Clone, Copy)]
pub enum Conclusion {
    /// The arguments were refused.
    Usage,
    /// A run was tried.
    Run(Result<Ran, RunRefusal>),
}

/// The status that the program ends with.
pub fn status_of_conclusion(conclusion: &Conclusion) -> u8
    ensures { result ≡ conclusion_status conclusion.now }
{
    match conclusion {
        Conclusion::Usage => 2,
        Conclusion::Run(outcome) => status(outcome),
    }
}

/// Writes the line that standard error gets: none where there is a report.
pub fn write_conclusion<W: Write>(conclusion: &Conclusion, writer: &mut W) -> Result<(), TextFault>
    ensures written { OnOk result (Appends (W.contents writer.old) (W.contents writer.new)
        (conclusion_line conclusion.now)) }
    ensures failed { IfErr result (λ fault. fault ≡ TextFault.Write) }
{
    match conclusion {
        Conclusion::Usage => write_usage(writer),
        Conclusion::Run(Err(refusal)) => write_refusal(refusal, writer),
        Conclusion::Run(Ok(_)) => Ok(()),
    }
}

fn write_usage<W: Write>(writer: &mut W) -> Result<(), TextFault>
    ensures written { OnOk result (Appends (W.contents writer.old) (W.contents writer.new)
        (conclusion_line Conclusion.Usage)) }
    ensures failed { IfErr result (λ fault. fault ≡ TextFault.Write) }
{
    match writeln!(writer, "usage: flow_run [NET WORKERS [LIMIT]]") {
        Ok(()) => Ok(()),
        Err(_) => Err(TextFault::Write),
    }
}
