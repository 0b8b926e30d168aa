//! `flow split` and `flow merge`.
use crate::files::{STANDARD_INPUT, file_of, read_file, read_network, read_text_report};
use crate::output::{finish, output};
use crate::part_files::PartFiles;
use crate::stop::Stop;
use crate::whole_files::Rules;
use clap::ArgMatches;
use flow_outcome::{MergeFault, Outline, merge_reports, worst_status};
use flow_plan_outline::outline_of;
use flow_reading::Report;
use flow_split::{KeyFault, KeyedPieces, Pairing, PieceFault, cut_records, deal_by_key};
use std::alloc::{AllocError, Global};
use std::fs::Files;
use std::io::Input;

/// Cuts records into files, and prints the names of the files.
pub fn split<R: Files + Input + Print + AllocGlobal>(
    rt: &R,
    given: &ArgMatches<'_>,
) -> Result<u8, Stop> {
    let pairing = pairing_of(given)?;
    let parts = given.get_one::<u32>("parts").unwrap_or(1) as usize;
    let path = given.get_str("records").unwrap_or("");
    let records = read_file(rt, path)?;
    let files = files_of(given, path);
    match pairing {
        Some(pairing) => write_by_key(rt, path, &records, parts, pairing, &files)?,
        None => match cut_records(rt.alloc(), &records, parts) {
            Ok(pieces) => files.write(rt, &pieces, &[])?,
            Err(fault) => return Err(uncut(path, fault)),
        },
    }
    Ok(0)
}

/// How inputs are paired where records are split by their keys; none where they are not.
fn pairing_of(given: &ArgMatches<'_>) -> Result<Option<Pairing>, Stop> {
    let aside = given.get_str("unmatched").is_some();
    match (given.get_flag("by-key"), given.get_flag("align"), aside) {
        (false, false, false) => Ok(None),
        (true, false, false) => Ok(Some(Pairing::AsTheyCome)),
        (true, true, false) => Ok(Some(Pairing::InRows)),
        (true, true, true) => Ok(Some(Pairing::SetAside)),
        (false, true, _) => Err(Stop::usage("--align is for --by-key")),
        (_, false, true) => Err(Stop::usage("--unmatched is for --by-key --align")),
    }
}

/// Deals the records of this path out by their keys.
fn write_by_key<R: Files + Print + AllocGlobal>(
    rt: &R,
    path: &str,
    records: &[u8],
    parts: usize,
    pairing: Pairing,
    files: &PartFiles<'_>,
) -> Result<(), Stop> {
    let KeyedPieces { pieces, alone } = match deal_by_key(rt.alloc(), records, parts, pairing) {
        Ok(dealt) => dealt,
        Err(fault) => return Err(undealt(path, fault)),
    };
    let mut texts = Vec::with_capacity(rt.alloc(), pieces.len())?;
    for text in &pieces {
        texts.push(text.as_slice())?;
    }
    files.write(rt, &texts, &alone)
}

/// Where the parts go to of the records that are read from here.
fn files_of<'a>(given: &ArgMatches<'a>, path: &'a str) -> PartFiles<'a> {
    let name = if path == STANDARD_INPUT {
        "records"
    } else {
        path
    };
    PartFiles {
        name: given.get_str("name").unwrap_or(name),
        rules: Rules {
            source: file_of(path),
            read: "the records are read from it",
            may_replace: given.get_flag("force"),
        },
        unmatched: given.get_str("unmatched"),
    }
}

/// What a failure to deal out the records of this file comes to.
fn undealt(path: &str, fault: KeyFault) -> Stop {
    let (why, words) = match fault {
        KeyFault::Piece(fault) => return uncut(path, fault),
        KeyFault::Differ(words) => ("keys differ, see --align", words),
        KeyFault::Alone(words) => ("no partner, see --unmatched", words),
    };
    let words = words.as_str();
    Stop::refused(path, &format_args!("{why}: {words}"))
}

/// What a failure to cut the records of this file comes to.
fn uncut(path: &str, fault: PieceFault) -> Stop {
    match fault {
        PieceFault::Memory => Stop::from(AllocError),
        PieceFault::Fields(_) | PieceFault::Read => Stop::refused(path, &fault),
    }
}

/// Prints the report of the whole, of which these files have the reports of parts. The status is the worst of the parts'.
pub fn merge<R: Files + Input + Print + AllocGlobal>(
    rt: &R,
    given: &ArgMatches<'_>,
) -> Result<u8, Stop> {
    let network = given.get_str("network").unwrap_or("");
    let plan = read_network(rt, network)?;
    let paths = given.get_strs("parts").unwrap_or(&[]);
    let mut texts = Vec::with_capacity(rt.alloc(), paths.len())?;
    for path in paths {
        texts.push(read_file(rt, path)?)?;
    }
    let parts = read_parts(rt.alloc(), paths, &texts)?;
    write_merged(rt, &outline_of(rt.alloc(), &plan)?, &parts)
}

/// Reads the reports of parts, whose files have these names.
fn read_parts<'t>(
    alloc: Global,
    paths: &[&str],
    texts: &'t [Vec<u8>],
) -> Result<Vec<Report<'t>>, Stop> {
    let mut parts = Vec::with_capacity(alloc, texts.len())?;
    for (path, text) in paths.iter().zip(texts) {
        parts.push(read_text_report(alloc, path, text)?)?;
    }
    Ok(parts)
}

fn write_merged<R: Print + AllocGlobal>(
    rt: &R,
    network: &Outline<'_>,
    parts: &[Report<'_>],
) -> Result<u8, Stop> {
    let mut writer = output(rt)?;
    match merge_reports(network, parts, &mut writer) {
        Ok(()) => finish(writer, 0),
        Err(fault) => Err(Stop::with_status(status_of(fault, parts), &fault)),
    }
}

/// The worst status of the parts, or, where each has 0, that of what can't be merged.
fn status_of(fault: MergeFault<'_>, parts: &[Report<'_>]) -> u8 {
    match fault {
        MergeFault::Write => 5,
        MergeFault::NoPart
        | MergeFault::Misfit(_, _)
        | MergeFault::Damaged(_, _)
        | MergeFault::Kind(_, _)
        | MergeFault::Reserves(_)
        | MergeFault::Max(_)
        | MergeFault::Status(_, _)
        | MergeFault::Passed { .. } => match worst_status(parts) {
            0 => 2,
            worst => worst,
        },
    }
}
