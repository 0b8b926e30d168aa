//! The status of a run, as its report tells it.
ghost use Rattle.std.specs.Prelude.{◌≡◌, ◌↔◌};
ghost use Rattle.flow_reading.specs.declared.report.Settled.TheVariants.{Stopped};

use crate::verdict::{status_of, undone_blocks};
use flow_reading::Report;

/// The status that the program ended with after it wrote this report: 0, 1, or 3 where it was stopped.
pub fn report_status(report: &Report<'_>) -> u8
    ensures { (result ≡ 3) ↔ (report.now.settled ≡ Stopped) }
{
    status_of(report.settled, undone_blocks(report))
}

/// The greatest status of the reports; 0 where there is none.
pub fn worst_status(parts: &[Report<'_>]) -> u8 {
    let mut worst = 0u8;
    for part in parts {
        worst = worst.max(report_status(part));
    }
    worst
}
