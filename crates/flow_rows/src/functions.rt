//! What each function makes of a text, as an action's record or a fault's number tells it.
use crate::check::check;
use crate::told::{Told, told_by};
use flow_trial::{ENOUGH, chain, has_lines};
use flow_words::cells;
use std::alloc::Global;
use std::process::Abort;
use std::sync::Wait;
use std::test::Fail;
use std::thread::Threads;
use std::time::{Clock, CpuClock};

/// In each line a function, a text that it is applied to, as a record has it, and what is due: the line of an action's
/// record, or that of a fault.
const ACTIONS: &str = r#"
[] | x | record ["x"]
["id"] | x | record ["x"]
["int"] | 0 | record [0]
["int"] | -0 | record [0]
["int"] | 0000000000000000000000000000007 | record [7]
["int"] | 9223372036854775807 | record [9223372036854775807]
["int"] | 9223372036854775808 | block f faulted 5
["int"] | -9223372036854775808 | record [-9223372036854775808]
["int"] | -9223372036854775809 | block f faulted 5
["int"] | +5 | block f faulted 1
["int"] | "" | block f faulted 1
["int"] | - | block f faulted 1
["int"] | " 1" | block f faulted 1
["int"] | "1 " | block f faulted 1
["int", "int"] | 5 | record [5]
["text"] | 007 | record ["007"]
["int", "text"] | -007 | record ["-7"]
["int", "text"] | -9223372036854775808 | record ["-9223372036854775808"]
["add 1"] | 1 | block f faulted 1
["int", "add 001"] | 5 | record [6]
["int", "add 1"] | 9223372036854775806 | record [9223372036854775807]
["int", "add 1"] | 9223372036854775807 | block f faulted 5
["int", "add -1"] | -9223372036854775808 | block f faulted 5
["int", "add 9223372036854775807"] | -9223372036854775808 | record [-1]
["int", "add -9223372036854775808"] | -1 | block f faulted 5
["mul 2"] | 2 | block f faulted 1
["int", "mul 2"] | 21 | record [42]
["int", "mul -0"] | 5 | record [0]
["int", "mul 2"] | 4611686018427387903 | record [9223372036854775806]
["int", "mul 2"] | -4611686018427387904 | record [-9223372036854775808]
["int", "mul -1"] | -9223372036854775808 | block f faulted 5
["int", "mul -9223372036854775808"] | 1 | record [-9223372036854775808]
["field 0"] | x | block f faulted 3
["len"] | é | record [2]
["len"] | "" | record [0]
["int", "len"] | 7 | block f faulted 3
["sum"] | 3 | block f faulted 3
["int", "reject 2"] | 2 | block f faulted 6
["int", "reject 2"] | 3 | record [3]
["int", "reject -0"] | 0 | block f faulted 6
["int", "reject -9223372036854775808"] | -9223372036854775808 | block f faulted 6
["reject 2"] | 2 | block f faulted 1
["spread"] | x | block f faulted 3
["upto"] | 3 | block f faulted 1
["int", "upto"] | 0 | record []
["int", "upto"] | 3 | record [0,1,2]
["int", "upto", "reject 999"] | 1000 | block f faulted 6
["int", "upto"] | 1001 | block f faulted 5
["int", "upto"] | -1 | block f faulted 5
["repeat 0", "int"] | x | record []
["repeat 2"] | x | record ["x","x"]
["int", "repeat 2", "reject 3"] | 3 | block f faulted 6
["int", "upto", "upto"] | 4 | record [0,0,1,0,1,2]
["int", "upto", "reject 1", "reject 2"] | 3 | block f faulted 6
["int", "upto", "add 9223372036854775806", "reject 9223372036854775807"] | 3 | block f faulted 6
"#;

/// A transform gives exactly one value for each that it takes.
const TRANSFORMS: &str = r#"
[] | x | link 1 ["x"]
["int", "mul 2"] | 21 | link 1 [42]
["int", "upto"] | 0 | block f faulted 7
["int", "upto"] | 1 | link 1 [0]
["int", "upto"] | 2 | block f faulted 7
["repeat 1"] | x | link 1 ["x"]
["int", "add 1"] | 9223372036854775807 | block f faulted 5
"#;

/// The network that is drawn so, over one text.
fn told_of(
    rt: &(impl Abort + Threads + Wait + Clock + CpuClock + Sync),
    alloc: Global,
    drawn: &str,
    given: &str,
) -> Result<Told, Fail> {
    let network = chain(alloc, drawn)?;
    let records = ["in,", given].concat(alloc)?;
    told_by(rt, alloc, network.as_slice(), records.as_bytes(), ENOUGH)
}

/// Runs an input and a block with the function of each row over the row's text, and tests that what is due comes of it.
/// The block is drawn as this kind, and others may follow it.
fn check_rows(
    rt: &(impl Abort + Print + Threads + Wait + Clock + CpuClock + Sync),
    alloc: Global,
    table: &str,
    kind: &str,
    others: &str,
) -> Result<(), Fail> {
    for row in table.lines().skip(1) {
        let (work, given, due) = cells(row).ok_or("no row")?;
        let drawn = ["in buffer => f ", kind, " ", work, others].concat(alloc)?;
        let told = told_of(rt, alloc, drawn.as_str(), given)?;
        let status = if due.starts_with("block") { 1 } else { 0 };
        check(
            rt,
            row,
            told.status == status && has_lines(told.text.as_slice(), due),
        );
    }
    Ok(())
}

#[test]
fn actions_record_what_their_functions_give(rt: HostRuntime) -> Result<(), Fail> {
    check_rows(&rt, rt.alloc(), ACTIONS, "action", "")
}

#[test]
fn transforms_give_one_value_for_each(rt: HostRuntime) -> Result<(), Fail> {
    let others = " => out action []";
    check_rows(&rt, rt.alloc(), TRANSFORMS, "transform", others)
}
