//! Which records the faults of a run come from.
use crate::sifting::LIMIT;
use crate::stop::Stop;
use flow_quarantine::sift;
use flow_reading::{Report, State};
use std::alloc::Global;
use std::io;
use std::io::Write;

/// Tells for each block that faulted by a report the first of these records that faults there so alone, in the line that `flow sift`
/// has of it. Of a block at which none does nothing is told. The network stands in the file of this name.
pub fn tell_culprits<W: Write>(
    alloc: Global,
    path: &str,
    network: &[u8],
    records: &[u8],
    report: &Report<'_>,
    writer: &mut W,
) -> Result<(), Stop> {
    let mut bad = Vec::new(alloc);
    if let Err(refusal) = sift(alloc, network, records, LIMIT, &mut io::sink(), &mut bad) {
        return Err(Stop::of_text(path, refusal));
    }
    let lines = String::from_utf8_lossy(alloc, &bad)?;
    for block in &report.blocks {
        if let State::Faulted(number) = block.state {
            let name = block.name;
            let fault = format!(in alloc; "{name} faulted with {number}")?;
            if tell_first(lines.as_str(), fault.as_str(), writer).is_err() {
                return Err(Stop::no_output());
            }
        }
    }
    Ok(())
}

/// Writes the first of these lines that tells of this fault, if one does.
fn tell_first<W: Write>(lines: &str, fault: &str, writer: &mut W) -> io::Result<()> {
    for line in lines.lines() {
        if tells(line, fault) {
            return writeln!(writer, "{line}");
        }
    }
    Ok(())
}

/// Whether a line of `flow sift` tells of this fault.
fn tells(line: &str, fault: &str) -> bool {
    let Some((_, why)) = line.split_once(": ") else {
        return false;
    };
    match why.strip_prefix(fault) {
        Some(behind) => behind.starts_with(" (") || behind.starts_with(":"),
        None => false,
    }
}
