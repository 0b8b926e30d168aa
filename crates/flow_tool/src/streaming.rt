//! `flow stream`.
use crate::files::read_network;
use crate::output::{finish, output};
use crate::stop::Stop;
use clap::ArgMatches;
use flow_link::Plan;
use flow_outcome::{MergeFault, merge_reports};
use flow_plan_outline::outline_of;
use flow_stream::{Form, Stream, StreamFault};
use flow_value::Steps;
use std::alloc::Global;
use std::fs::Files;
use std::io;
use std::io::{BufReader, Input, Read, Write};
use std::sync::Wait;
use std::thread::Threads;
use std::time::{Clock, CpuClock, Instant};

/// The most workers that a run may have.
const MOST_WORKERS: u64 = 64;

/// How much memory is asked for and given back before the first chunk. From then on glibc's malloc keeps up to twice as much of what a
/// chunk gives back, and the next one takes it. Else it would go to the kernel, and come from there anew, page by page.
const GIVEN_BACK: usize = 8 * 1_024 * 1_024;

/// Runs the records of standard input chunk by chunk, and writes what the actions of each recorded. On a terminal it is told on standard
/// error how far it is.
pub fn stream<
    R: Files + Input + Print + Eprint + AllocGlobal + Threads + Wait + Clock + CpuClock + Sync,
>(rt: &R, given: &ArgMatches<'_>, is_watched: bool) -> Result<u8, Stop> {
    let size = number_in(
        given.get_str("size"),
        u64::MAX,
        "COUNT is a number of records, from 1",
    )?;
    let workers = number_in(
        given.get_str("workers"),
        MOST_WORKERS,
        "WORKERS is a number from 1 to 64",
    )?;
    let first = number_in(
        given.get_str("from"),
        u64::MAX,
        "--from needs the number of a record, from 1",
    )?;
    let plan = plan_to_stream(rt, given.get_str("network").unwrap_or(""))?;
    let _ = Vec::<u8>::with_capacity(rt.alloc(), GIVEN_BACK);
    let reader = BufReader::new(rt.alloc(), rt.reader())?;
    let mut stream = Stream::new(rt.alloc(), plan, reader, size, form_of(given));
    if let Err(fault) = stream.skip(first.saturating_sub(1)) {
        return stopped(rt.alloc(), fault);
    }
    let mut writer = output(rt)?;
    let mut told = Told::begin(rt, is_watched);
    let outcome = run_all(rt, stream, workers as usize, &mut writer, &mut told);
    told.end(rt);
    match outcome {
        Ok(()) => finish(writer, 0),
        Err(fault) => stopped(rt.alloc(), fault),
    }
}

/// The number from 1 to this one that an argument is, 1 where there is none, or what is wrong with it.
fn number_in(argument: Option<&str>, most: u64, due: &str) -> Result<u64, Stop> {
    match argument {
        None => Ok(1),
        Some(text) => match text.parse::<u64>() {
            Ok(number) if number > 0 && number <= most => Ok(number),
            _ => Err(Stop::usage(due)),
        },
    }
}

/// The network in this file, if it may be run in chunks.
fn plan_to_stream<R: Files + Input + AllocGlobal>(rt: &R, path: &str) -> Result<Plan<Steps>, Stop> {
    let plan = read_network(rt, path)?;
    check_chunks(rt.alloc(), path, &plan)?;
    Ok(plan)
}

/// Refuses the network of this file where its reports would not be merged: a chunk is a part as these are.
fn check_chunks(alloc: Global, path: &str, plan: &Plan<Steps>) -> Result<(), Stop> {
    let outline = outline_of(alloc, plan)?;
    let mut merged: Vec<u8> = Vec::new(alloc);
    // Without a report, only the network is looked at.
    match merge_reports(&outline, &[], &mut merged) {
        Ok(()) | Err(MergeFault::NoPart) => Ok(()),
        Err(fault) => Err(Stop::refused(path, &fault)),
    }
}

fn form_of(given: &ArgMatches<'_>) -> Form {
    match (given.get_flag("jsonl"), given.get_flag("report")) {
        (true, _) => Form::JsonLines,
        (false, true) => Form::Report,
        (false, false) => Form::Csv,
    }
}

/// Runs all chunks, each by so many workers.
fn run_all<
    R: Eprint + AllocGlobal + Threads + Wait + Clock + CpuClock + Sync,
    I: Read + Drop,
    W: Write,
>(
    rt: &R,
    mut stream: Stream<I>,
    workers: usize,
    writer: &mut W,
    told: &mut Told,
) -> Result<(), StreamFault> {
    'chunks: for _ in 0..u64::MAX {
        let (next, count) = stream.advance(rt, rt.alloc(), workers, writer)?;
        stream = next;
        if count == 0 {
            break;
        }
        told.tell(rt, count);
    }
    Ok(())
}

/// What it comes to that a stream ended for this fault. Nobody is to be told that nobody reads any more.
fn stopped(alloc: Global, fault: StreamFault) -> Result<u8, Stop> {
    match fault {
        StreamFault::Chunk(span, why) => {
            let line = format!(in alloc; "{span}: {why}")?;
            Err(Stop::with_status(why.status(), &line.as_str()))
        }
        StreamFault::Write(span) => {
            let line = format!(in alloc; "{span}: standard output failed")?;
            Err(Stop::with_status(5, &line.as_str()))
        }
        StreamFault::Closed(_) => Ok(0),
    }
}

/// What people are told at a terminal: at most once a second, in one line that is written over.
#[derive(Drop)]
struct Told {
    /// When it began; none where nobody is told.
    since: Option<Instant>,
    /// How many seconds had gone by when people were told last.
    seconds: u64,
    records: u64,
}

impl Told {
    fn begin<R: Clock>(rt: &R, is_watched: bool) -> Told {
        let since = if is_watched {
            Instant::now(rt).ok()
        } else {
            None
        };
        Told {
            since,
            seconds: 0,
            records: 0,
        }
    }

    /// Counts so many records more, and tells of them where a second has gone by. That it can't be told stops nothing.
    fn tell<R: Eprint + Clock>(&mut self, rt: &R, count: u64) {
        self.records = self.records.saturating_add(count);
        let Some(since) = self.since else {
            return;
        };
        let Ok(elapsed) = since.elapsed(rt) else {
            return;
        };
        let seconds = elapsed.as_secs();
        if seconds > self.seconds {
            self.seconds = seconds;
            let _ = self.show(rt);
        }
    }

    fn show<R: Eprint>(&self, rt: &R) -> io::Result<()> {
        let records = self.records;
        let rate = records / self.seconds.max(1);
        eprint!(rt; "\rflow: {records} records, {rate} a second  ")
    }

    /// Ends the line, if there is one.
    fn end<R: Eprint>(&self, rt: &R) {
        if self.seconds > 0 {
            let _ = eprintln!(rt; "");
        }
    }
}
