//! `flow check`.
use crate::files::read_file;
use crate::output::{finish, output};
use crate::stop::Stop;
use clap::ArgMatches;
use flow_explain::{Source, Style, Verdict, check_network, check_records, warn_unequal};
use flow_text::{TextRefusal, read_plan};
use std::alloc::{AllocError, Global};
use std::fs::Files;
use std::io::{Input, Write};

/// Tells what is wrong with a network and with records for it. The status is 1 where one of them is refused.
pub fn check<R: Files + Input + Print + AllocGlobal>(
    rt: &R,
    given: &ArgMatches<'_>,
) -> Result<u8, Stop> {
    let path = given.get_str("network").unwrap_or("");
    let text = read_file(rt, path)?;
    let network = Source {
        name: path,
        text: &text,
    };
    let style = if given.get_flag("short") {
        Style::Short
    } else {
        Style::Full
    };
    let mut writer = output(rt)?;
    let verdict = match given.get_str("records") {
        Some(path) => {
            let text = read_file(rt, path)?;
            let records = Source {
                name: path,
                text: &text,
            };
            check_with(rt.alloc(), network, records, style, &mut writer)?
        }
        None => check_network(rt.alloc(), network, style, &mut writer)?,
    };
    match verdict {
        Verdict::Accepted => finish(writer, 0),
        Verdict::Refused(_) => finish(writer, 1),
    }
}

/// Tells what is wrong with a network and, where it is accepted, with records for it.
fn check_with<W: Write>(
    alloc: Global,
    network: Source<'_>,
    records: Source<'_>,
    style: Style,
    writer: &mut W,
) -> Result<Verdict, Stop> {
    let verdict = check_network(alloc, network, style, writer)?;
    match read_plan(alloc, network.text) {
        Ok(plan) => {
            warn_unequal(alloc, &plan, records, style, writer)?;
            Ok(check_records(alloc, &plan, records, style, writer)?)
        }
        Err(TextRefusal::Memory) => Err(Stop::from(AllocError)),
        Err(TextRefusal::Fault(_)) => Ok(verdict),
    }
}
