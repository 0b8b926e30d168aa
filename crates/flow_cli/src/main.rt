//! The program that runs a network from a file, or from standard input, and writes the report.
//!
//! Proved: arguments, statuses and the line of a failure are those of specs/Request.antt, Conclusion.antt and
//! Failure.antt; the run is that of flow_run over what was read.
//! Tested: its streams: the gate compares a stored run, and bin/accept refuses memory, reads and writes one by one.
//! Neither: that the network is the one in the file, whose bytes no contract tells; `perform`, `arguments`,
//! `unread_arguments`, `abandon`.
#![tactic(auto)]

ghost use Rattle.std.specs.Prelude.{◌≡◌, ◌↔◌, None};
ghost use Rattle.flow_cli.specs.Request.{Asks};

mod conclusion;
mod input;
mod number;
mod request;
mod steady;

use crate::conclusion::{Conclusion, status_of_conclusion, write_conclusion};
use crate::input::{run_file, run_input, unread};
use crate::request::{Request, read_request};
use flow_run::RunRefusal;
use std::env::Env;
use std::fs::Files;
use std::io::Input;
use std::process::ExitCode;
use std::sync::Wait;
use std::thread::Threads;
use std::time::{Clock, CpuClock};
use std::{env, io};

fn main(rt: HostRuntime) -> ExitCode {
    let conclusion = perform(&rt);
    // Nobody is left to tell where standard error fails.
    let _ = write_conclusion(&conclusion, &mut rt.stderr());
    ExitCode::from(status_of_conclusion(&conclusion))
}

/// Does what the arguments of the process ask for.
fn perform<R: Env + Files + Input + Print + AllocGlobal + Threads + Wait + Clock + CpuClock + Sync>(
    rt: &R,
) -> Conclusion {
    match arguments(rt) {
        Ok(arguments) => answer(rt, &arguments),
        Err(conclusion) => conclusion,
    }
}

/// The arguments behind the program's name.
fn arguments<R: Env + AllocGlobal>(rt: &R) -> Result<Vec<String>, Conclusion> {
    match env::args(rt) {
        Ok(arguments) => match arguments.skip(1).collect(rt.alloc()) {
            Ok(arguments) => Ok(arguments),
            Err(_) => Err(Conclusion::Run(Err(RunRefusal::Memory))),
        },
        Err(error) => Err(unread_arguments(&error)),
    }
}

/// An argument that is no UTF-8 is refused as other arguments are.
fn unread_arguments(error: &io::Error) -> Conclusion {
    match unread(error) {
        RunRefusal::Memory => Conclusion::Run(Err(RunRefusal::Memory)),
        _ => Conclusion::Usage,
    }
}

/// Does what these arguments ask for.
fn answer<R: Files + Input + Print + AllocGlobal + Threads + Wait + Clock + CpuClock + Sync>(
    rt: &R,
    arguments: &[String],
) -> Conclusion
    ensures { (result ≡ Conclusion.Usage) ↔ Asks arguments.now None }
{
    match read_request(arguments) {
        Some(Request::Input) => {
            let mut writer = io::writer(rt);
            Conclusion::Run(run_input(rt, rt.alloc(), rt.reader(), &mut writer))
        }
        Some(Request::File { path, bounds }) => Conclusion::Run(run_file(rt, path, bounds)),
        None => Conclusion::Usage,
    }
}
