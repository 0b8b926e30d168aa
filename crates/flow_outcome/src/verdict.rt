//! Why the status of a run is what it is.
mod cause;
mod link_cause;
mod work_fault;

ghost use Rattle.std.specs.Prelude.{◌≡◌, ◌↔◌, IfOk};

use crate::damage::damage_in;
use crate::fault::TellFault;
use crate::fit::check_fit;
use crate::outline::Outline;
use crate::verdict::cause::write_causes;
use flow_reading::{BlockReport, Report, Settled, State};
use std::io;
use std::io::Write;

/// Writes the status that the run ended with, a line where the report is damaged, and one for each cause: a block that is not
/// done, records that wait. Returns the status.
pub fn write_verdict<W: Write>(
    outline: &Outline,
    report: &Report,
    writer: &mut W,
) -> Result<u8, TellFault>
    ensures { IfOk result (λ status. (status ≡ 3) ↔ (report.now.settled ≡ Settled.Stopped)) }
{
    check_fit(outline, report)?;
    let undone = undone_blocks(report);
    let status = status_of(report.settled, undone);
    write_status(writer, status, undone)?;
    if let Some(damage) = damage_in(outline, report) {
        writeln!(writer, "{damage}")?;
    }
    for number in 0..report.blocks.len() {
        write_causes(writer, &*outline, &*report, number)?;
    }
    Ok(status)
}

/// How many blocks are not done, or have records that wait.
pub(crate) fn undone_blocks(report: &Report) -> usize {
    let mut count = 0usize;
    for block in &report.blocks {
        if !is_through(block) {
            count = count.saturating_add(1);
        }
    }
    count
}

/// Whether a block is done, and no record waits at it.
pub fn is_through(block: &BlockReport) -> bool {
    match (block.state, block.input) {
        (State::Done, None) => true,
        (State::Done, Some(input)) => input.is_empty(),
        (State::Open | State::Completing | State::Faulted(_), _) => false,
    }
}

/// The status of a run that ended so, with so many blocks that are not done or have records that wait.
pub(crate) fn status_of(settled: Settled, undone: usize) -> u8
    ensures stopped { result ≡ 3 ↔ (settled ≡ Settled.Stopped) }
    ensures through { result ≡ 0 → undone ≡ 0 }
{
    match settled {
        Settled::Stopped => 3,
        Settled::Quiet if undone == 0 => 0,
        Settled::Quiet => 1,
    }
}

fn write_status<W: Write>(writer: &mut W, status: u8, undone: usize) -> io::Result<()> {
    match status {
        0 => writer.write_all(b"status 0: every block is done, and no record waits\n"),
        3 => writer.write_all(
            b"status 3: the run was stopped at its limit of events, and would go on with a greater one\n",
        ),
        _ => {
            writeln!(
                writer,
                "status 1: blocks that are not done, or have records that wait: {undone}"
            )
        }
    }
}
