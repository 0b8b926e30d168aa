//! `flow page`.
use crate::files::{read_file, read_network, read_text_report};
use crate::output::{finish, output};
use crate::stop::Stop;
use clap::ArgMatches;
use flow_outcome::Outline;
use flow_plan_outline::outline_of;
use flow_reading::Report;
use flow_render::{PageFault, write_page};
use std::alloc::AllocError;
use std::fs::Files;
use std::io::Input;

/// Prints a page of a network, and of what became of it by a report.
pub fn page<R: Files + Input + Print + AllocGlobal>(
    rt: &R,
    given: &ArgMatches<'_>,
) -> Result<u8, Stop> {
    let network = given.get_str("network").unwrap_or("");
    let plan = read_network(rt, network)?;
    let outline = outline_of(rt.alloc(), &plan)?;
    match given.get_str("report") {
        Some(path) => {
            let text = read_file(rt, path)?;
            let report = read_text_report(rt.alloc(), path, &text)?;
            print_page(rt, network, &outline, Some(&report), path)
        }
        None => print_page(rt, network, &outline, None, ""),
    }
}

/// Prints a page of the network in the file of this name; the report, if there is one, stands in the file of that name.
fn print_page<R: Print + AllocGlobal>(
    rt: &R,
    network: &str,
    outline: &Outline<'_>,
    report: Option<&Report<'_>>,
    path: &str,
) -> Result<u8, Stop> {
    let mut writer = output(rt)?;
    match write_page(rt.alloc(), network, outline, report, &mut writer) {
        Ok(()) => finish(writer, 0),
        Err(PageFault::Write) => Err(Stop::no_output()),
        Err(PageFault::Memory) => Err(Stop::from(AllocError)),
        Err(PageFault::Misfit(misfit)) => Err(Stop::refused(path, &misfit)),
    }
}
