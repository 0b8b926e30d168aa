//! `flow sift`.
use crate::files::{read_file, read_input};
use crate::output::{finish, output};
use crate::stop::Stop;
use clap::ArgMatches;
use flow_quarantine::Sifted;
use std::fs::Files;
use std::io::Input;

/// The most events of one record's run.
pub const LIMIT: u64 = 10_000_000;

/// Runs each record of standard input alone. Those that pass go to standard output, and of the others a line goes to
/// standard error.
pub fn sift<R: Files + Input + Print + Eprint + AllocGlobal>(
    rt: &R,
    given: &ArgMatches<'_>,
) -> Result<u8, Stop> {
    let path = given.get_str("network").unwrap_or("");
    let network = read_file(rt, path)?;
    let records = read_input(rt)?;
    let mut good = output(rt)?;
    let mut bad = Vec::new(rt.alloc());
    let outcome = flow_quarantine::sift(rt.alloc(), &network, &records, LIMIT, &mut good, &mut bad);
    let Sifted { set_aside, .. } = match outcome {
        Ok(sifted) => sifted,
        Err(refusal) => return Err(Stop::of_text(path, refusal)),
    };
    rt.eprint(String::from_utf8_lossy(rt.alloc(), &bad)?)?;
    finish(good, if set_aside == 0 { 0 } else { 1 })
}
