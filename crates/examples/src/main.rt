//! Programs to copy, a module each, and what messages cost: `examples [memory | COUNT CASE..]`.
//!
//! Without arguments each example runs, one after the other, and then a few messages go each way of the bench, which has a line that
//! says how many came in their turn. With arguments COUNT messages go only the ways with these numbers, 0 to 12 in the order of their
//! lines, and each line ends with the nanoseconds that a message took. With the word `memory` that example runs alone, for those who
//! refuse it memory.
//!
//! Proved: safe; each call asks no more than it may.
//! Tested: what it prints, which the gate compares.
//! Neither: that it ends.
#![tactic(auto)]

mod bench;
mod board;
mod chain;
mod function;
mod memory;
mod ports;
mod shop;
mod work;

use anyhow::{Result, bail};
use std::env;

fn main(rt: HostRuntime) -> Result<()> {
    let arguments: Vec<String> = env::args(&rt)?.skip(1).collect(rt.alloc())?;
    match arguments.as_slice() {
        [] => {
            function::main(rt)?;
            chain::main(rt)?;
            work::main(rt)?;
            ports::main(rt)?;
            board::main(&rt)?;
            memory::main(&rt)?;
            bench::try_all(&rt)
        }
        [name] if name.as_str() == "memory" => memory::main(&rt),
        [_] => bail!("usage: examples [memory | COUNT CASE..]"),
        [count, numbers @ ..] => bench::time_each(&rt, count, numbers),
    }
}
