//! The program for people at a terminal: what is beside a run of `flow_run`, before it and after it.
//!
//! Proved: safe, and total but for `flow stream`, which waits for its threads; want of memory of the system ends it with status 4.
//! Tested: its commands, by bin/accept and flow_tool_rows.
//! Neither: what it prints; that a call which waits for threads returns.
#![tactic(auto)]

mod checking;
mod command;
mod culprits;
mod feeding;
mod files;
mod output;
mod paging;
mod part_files;
mod parts;
mod reports;
mod result_files;
mod sifting;
mod stop;
mod streaming;
mod whole_files;

use crate::checking::check;
use crate::command::command_line;
use crate::feeding::feed;
use crate::paging::page;
use crate::parts::{merge, split};
use crate::reports::{draw, results, trace, why};
use crate::sifting::sift;
use crate::stop::Stop;
use crate::streaming::stream;
use clap::ArgMatches;
use clap::error::ErrorKind;
use flow_spans::Escaped;
use std::alloc::{AllocError, Global};
use std::env::Env;
use std::fs::Files;
use std::io::{Input, IsTerminal, Write};
use std::process::ExitCode;
use std::sync::Wait;
use std::thread::Threads;
use std::time::{Clock, CpuClock};
use std::{env, io};

fn main(rt: HostRuntime) -> ExitCode {
    let terminals = Terminals {
        output: rt.stdout().is_terminal(),
        errors: rt.stderr().is_terminal(),
    };
    match perform(&rt, terminals) {
        Ok(status) => ExitCode::from(status),
        Err(stop) => {
            // Nobody is left to tell where standard error fails.
            let _ = stop.tell(&mut rt.stderr());
            ExitCode::from(stop.status())
        }
    }
}

/// Which streams people look at.
#[derive(Clone, Copy)]
struct Terminals {
    output: bool,
    errors: bool,
}

/// Does what the arguments of the process ask for, and answers the status.
fn perform<
    R: Env
        + Files
        + Input
        + Print
        + Eprint
        + AllocGlobal
        + Threads
        + Wait
        + Clock
        + CpuClock
        + Sync,
>(rt: &R, terminals: Terminals) -> Result<u8, Stop> {
    let arguments = match env::args(rt) {
        Ok(arguments) => arguments,
        Err(error) => return Err(Stop::usage("an argument is not UTF-8").unless_memory(&error)),
    };
    let words: Vec<String> = arguments.collect(rt.alloc())?;
    let look = Look {
        is_coloured: terminals.output && !is_set(rt, "NO_COLOR"),
        is_watched: terminals.errors,
    };
    answer(rt, &words, look)
}

/// What people see: drawings may have colours, and they may be told how far a command is.
#[derive(Clone, Copy)]
struct Look {
    is_coloured: bool,
    is_watched: bool,
}

/// Whether a variable of the environment has any text.
fn is_set<R: Env + AllocGlobal>(rt: &R, name: &str) -> bool {
    match env::var(rt, name) {
        Ok(text) => !text.is_empty(),
        Err(_) => false,
    }
}

/// Does what these words ask for, of which the first is the program's name.
fn answer<
    R: Files + Input + Print + Eprint + AllocGlobal + Threads + Wait + Clock + CpuClock + Sync,
>(rt: &R, words: &[String], look: Look) -> Result<u8, Stop> {
    match command_line(rt.alloc())?.try_get_matches_from(words) {
        Ok(matches) => dispatch(rt, &matches, look),
        Err(error) => match error.kind() {
            ErrorKind::DisplayHelp | ErrorKind::DisplayVersion => {
                match write!(io::writer(rt), "{error}") {
                    Ok(()) => Ok(0),
                    Err(error) => Err(Stop::unprinted(&error)),
                }
            }
            ErrorKind::OutOfMemory => Err(Stop::from(AllocError)),
            _ => Err(refusal_of(rt.alloc(), words)?),
        },
    }
}

/// What is wrong with words that are refused. They are told with their escapes, which none of the program's own words has.
fn refusal_of(alloc: Global, words: &[String]) -> Result<Stop, AllocError> {
    let mut shown = Vec::with_capacity(alloc, words.len())?;
    for word in words {
        let word = Escaped(word.as_str());
        shown.push(format!(in alloc; "{word}")?)?;
    }
    refusal_in(alloc, &shown)
}

/// What is wrong with words that are told as they are.
fn refusal_in(alloc: Global, words: &[String]) -> Result<Stop, AllocError> {
    match command_line(alloc)?.try_get_matches_from(words) {
        Ok(_) => Ok(Stop::usage("the arguments are not those of a command")),
        Err(error) => match error.kind() {
            ErrorKind::OutOfMemory => Err(AllocError),
            _ => Stop::of_arguments(alloc, &error),
        },
    }
}

/// Does what a command line that was accepted asks for.
fn dispatch<
    R: Files + Input + Print + Eprint + AllocGlobal + Threads + Wait + Clock + CpuClock + Sync,
>(rt: &R, matches: &ArgMatches<'_>, look: Look) -> Result<u8, Stop> {
    match matches.subcommand() {
        Some(("check", given)) => check(rt, given),
        Some(("draw", given)) => draw(rt, given, look.is_coloured),
        Some(("page", given)) => page(rt, given),
        Some(("why", given)) => why(rt, given),
        Some(("results", given)) => results(rt, given),
        Some(("trace", given)) => trace(rt, given),
        Some(("feed", given)) => feed(rt, given),
        Some(("sift", given)) => sift(rt, given),
        Some(("stream", given)) => stream(rt, given, look.is_watched),
        Some(("split", given)) => split(rt, given),
        Some(("merge", given)) => merge(rt, given),
        _ => Err(Stop::usage("a command is needed; `flow --help` lists them")),
    }
}
