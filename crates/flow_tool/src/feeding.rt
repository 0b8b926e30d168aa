//! `flow feed`.
use crate::files::{STANDARD_INPUT, file_of};
use crate::output::{finish, output};
use crate::stop::Stop;
use crate::whole_files::{Rules, beside_of, create, put_in_place, take_away};
use clap::ArgMatches;
use flow_feed::{Asked, BadRow, Fed, FeedFault, OnBad, Sent, Wanted};
use flow_spans::Escaped;
use std::alloc::{AllocError, Global};
use std::fs;
use std::fs::Files;
use std::io::{BufWriter, Input, Read, Write};

/// Where rows come from, and where bad ones go to.
#[derive(Clone, Copy)]
struct Ends<'a> {
    rows: &'a str,
    bad: Option<&'a str>,
}

/// Makes records of rows. The status is 1 where bad rows were set aside.
pub fn feed<R: Files + Input + Print + Eprint + AllocGlobal>(
    rt: &R,
    given: &ArgMatches<'_>,
) -> Result<u8, Stop> {
    let asked = asked_of(rt.alloc(), given)?;
    let ends = Ends {
        rows: given.get_str("rows").unwrap_or(""),
        bad: given.get_str("bad"),
    };
    let may_replace = given.get_flag("force");
    if may_replace && ends.bad.is_none() {
        return Err(Stop::usage("--force is for --bad"));
    }
    let Some(path) = ends.bad else {
        let mut none: Vec<u8> = Vec::new(rt.alloc());
        feed_file(rt, ends, &asked, &mut none)?;
        return Ok(0);
    };
    let rules = Rules {
        source: file_of(ends.rows),
        read: "the rows are read from it",
        may_replace,
    };
    rules.check(rt, path)?;
    let Fed { bad, first_bad, .. } = feed_beside(rt, ends, &asked, path)?;
    match first_bad {
        Some(first) => tell(rt, ends.rows, path, bad, first),
        None => Ok(0),
    }
}

/// Tells how many rows of a file are in the file for bad ones, and answers the status for that.
fn tell<R: Eprint + AllocGlobal>(
    rt: &R,
    rows: &str,
    path: &str,
    count: u64,
    first: BadRow,
) -> Result<u8, Stop> {
    let (rows, path) = (Escaped(rows), Escaped(path));
    let line = if count == 1 {
        format!(in rt.alloc(); "flow: {rows}: 1 bad row is in {path}: {first}\n")?
    } else {
        format!(in rt.alloc();
            "flow: {rows}: {count} bad rows are in {path}, the first: {first}\n"
        )?
    };
    rt.eprint(line)?;
    Ok(1)
}

/// Feeds rows, and puts the bad ones into the file of this name once that is whole.
fn feed_beside<R: Files + Input + Print + AllocGlobal>(
    rt: &R,
    ends: Ends<'_>,
    asked: &Asked<'_>,
    path: &str,
) -> Result<Fed, Stop> {
    let beside = beside_of(rt.alloc(), path)?;
    let beside = beside.as_str();
    let file = create(rt, beside)?;
    match feed_into(rt, ends, asked, file) {
        Ok(fed) => {
            put_in_place(rt, beside, path, Ok(()))?;
            Ok(fed)
        }
        Err(stop) => {
            take_away(rt, beside);
            Err(stop)
        }
    }
}

/// Feeds rows, and writes the bad ones to this file through a buffer.
fn feed_into<R: Files + Input + Print + AllocGlobal>(
    rt: &R,
    ends: Ends<'_>,
    asked: &Asked<'_>,
    file: R::File,
) -> Result<Fed, Stop> {
    let mut bad = BufWriter::new(rt.alloc(), file)?;
    let fed = feed_file(rt, ends, asked, &mut bad)?;
    match bad.flush() {
        Ok(()) => Ok(fed),
        Err(error) => Err(Stop::unwritten(ends.bad.unwrap_or(""), &error)),
    }
}

/// Feeds the rows of a file, or of standard input.
fn feed_file<R: Files + Input + Print + AllocGlobal, B: Write>(
    rt: &R,
    ends: Ends<'_>,
    asked: &Asked<'_>,
    bad: &mut B,
) -> Result<Fed, Stop> {
    let path = ends.rows;
    if path == STANDARD_INPUT {
        return feed_stream(rt, rt.reader(), ends, asked, bad);
    }
    match fs::open(rt, path) {
        Ok(file) => feed_stream(rt, file, ends, asked, bad),
        Err(error) => Err(Stop::refused(path, &error).unless_memory(&error)),
    }
}

/// Feeds the rows of a stream. What was fed before a refusal is written.
fn feed_stream<R: Print + AllocGlobal, S: Read + Drop, B: Write>(
    rt: &R,
    stream: S,
    ends: Ends<'_>,
    asked: &Asked<'_>,
    bad: &mut B,
) -> Result<Fed, Stop> {
    let on_bad = match ends.bad {
        Some(_) => OnBad::SetAside,
        None => OnBad::Stop,
    };
    let mut writer = output(rt)?;
    let fed = flow_feed::feed(rt.alloc(), asked, stream, on_bad, &mut writer, bad);
    finish(writer, 0)?;
    match fed {
        Ok(fed) => Ok(fed),
        Err(fault) => Err(stop_of(ends, fault)),
    }
}

/// What it comes to that rows are not fed.
fn stop_of(ends: Ends<'_>, fault: FeedFault<'_>) -> Stop {
    match fault {
        FeedFault::Memory => Stop::from(AllocError),
        FeedFault::Write => Stop::no_output(),
        FeedFault::Aside(error) => Stop::unwritten(ends.bad.unwrap_or(""), &error),
        fault @ (FeedFault::NoHeader
        | FeedFault::Column(_)
        | FeedFault::Row(_)
        | FeedFault::Read(_)) => Stop::refused(ends.rows, &fault),
    }
}

/// What the arguments ask for.
fn asked_of<'a>(alloc: Global, given: &ArgMatches<'a>) -> Result<Asked<'a>, Stop> {
    Ok(Asked {
        header: given.get_flag("header"),
        sent: sent_of(alloc, given)?,
        wanted: wanted_of(alloc, given)?,
        key: given.get_str("key"),
    })
}

fn sent_of<'a>(alloc: Global, given: &ArgMatches<'a>) -> Result<Vec<Sent<'a>>, Stop> {
    let words = given.get_strs("columns").unwrap_or(&[]);
    let mut sent = Vec::with_capacity(alloc, words.len())?;
    for word in words {
        match Sent::read(word) {
            Some(read) => sent.push(read)?,
            None => {
                let form = "COLUMN=INPUT, with the name of a block as INPUT";
                return Err(no_form(word, form));
            }
        }
    }
    Ok(sent)
}

fn wanted_of<'a>(alloc: Global, given: &ArgMatches<'a>) -> Result<Vec<Wanted<'a>>, Stop> {
    let words = given.get_strs("where").unwrap_or(&[]);
    let mut wanted = Vec::with_capacity(alloc, words.len())?;
    for word in words {
        match Wanted::read(word) {
            Some(read) => wanted.push(read)?,
            None => return Err(no_form(word, "COLUMN=TEXT")),
        }
    }
    Ok(wanted)
}

/// A word of the command line is not of this form.
fn no_form(word: &str, form: &str) -> Stop {
    Stop::with_status(2, &format_args!("{word:?} is not {form}"))
}
