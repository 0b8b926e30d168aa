//! What calls do where memory is refused: each call that may take memory is made here, and where it is refused, what its caller sees has
//! to be as before. Then it is made once more, and the work goes on to its end.
//!
//! Each refusal is a line on standard output: `the name of the call: refused, as before`. Where memory is refused to what only makes
//! ready for a call, the case is begun anew. CALLS.md beside this crate has the calls.
//!
//! Proved: safe; each call asks no more than it may.
//! Tested: what it prints: the gate compares a run with memory, and bin/accept refuses each growth in turn.
//! Neither: that it ends; what no call shows of a value after a refusal, as of a block by hand.
#![tactic(auto)]

mod again;
mod blocks;
mod boards;
mod ends;
mod events;
mod networks;
mod parts;
mod plans;
mod ports;
mod values;

use crate::again::Stop;
use anyhow::bail;
use std::alloc::{AllocGlobal, Global};
use std::random::RandomSource;
use std::sync::Wait;
use std::thread::Threads;
use std::time::Clock;

/// How often a case is begun, where memory is refused while it makes ready.
const TRIES: usize = 3;

/// Calls that belong together.
#[derive(Clone, Copy)]
enum Case {
    Values,
    Functions,
    Drafts,
    Port,
    Outlet,
    Spread,
    Plain,
    Joins,
    Working,
    Texts,
    Settling,
    SettlingWith,
    Events,
    Owned,
    Futures,
    OnBoard,
    Turns,
    Rounds,
    Crews,
}

fn main(rt: HostRuntime) -> anyhow::Result<()> {
    for case in [
        Case::Values,
        Case::Functions,
        Case::Drafts,
        Case::Port,
        Case::Outlet,
        Case::Spread,
        Case::Plain,
        Case::Joins,
        Case::Working,
        Case::Texts,
        Case::Settling,
        Case::SettlingWith,
        Case::Events,
        Case::Owned,
        Case::Futures,
        Case::OnBoard,
        Case::Turns,
        Case::Rounds,
        Case::Crews,
    ] {
        try_case(&rt, rt.alloc(), case)?;
    }
    println!(rt; "all calls are made")?;
    Ok(())
}

/// Goes through a case, until memory is refused it no more while it makes ready.
fn try_case<R: Print + Threads + Wait + Clock + RandomSource + AllocGlobal + Sync>(
    rt: &R,
    alloc: Global,
    case: Case,
) -> anyhow::Result<()> {
    for _ in 0..TRIES {
        match make(rt, alloc, case) {
            Ok(()) => return Ok(()),
            Err(Stop::Memory) => {}
            Err(Stop::Wrong) => bail!("of a call comes something else"),
        }
    }
    bail!("memory is refused again and again")
}

/// Makes the calls of a case.
fn make<R: Print + Threads + Wait + Clock + RandomSource + AllocGlobal + Sync>(
    rt: &R,
    alloc: Global,
    case: Case,
) -> Result<(), Stop> {
    match case {
        Case::Values => values::values(rt, alloc),
        Case::Functions => values::functions(rt, alloc),
        Case::Drafts => values::drafts(rt, alloc),
        Case::Port => parts::port(rt, alloc),
        Case::Outlet => parts::outlet(rt, alloc),
        Case::Spread => parts::spread(rt, alloc),
        Case::Plain => blocks::plain(rt, alloc),
        Case::Joins => blocks::joins(rt, alloc),
        Case::Working => blocks::working(rt, alloc),
        Case::Texts => networks::texts(rt, alloc),
        Case::Settling => networks::settling(rt, alloc),
        Case::SettlingWith => networks::settling_with(rt, alloc),
        Case::Events => events::events(rt, alloc),
        Case::Owned => ports::owned(rt, alloc),
        Case::Futures => ports::futures(rt, alloc),
        Case::OnBoard => ends::on_board(rt, alloc),
        Case::Turns => boards::turns(rt, alloc),
        Case::Rounds => boards::rounds(rt, alloc),
        Case::Crews => boards::crews(rt, alloc),
    }
}
