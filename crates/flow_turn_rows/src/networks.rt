//! Networks that are drawn in a line, and cases of tables.

use flow_drawn::inputs;
use flow_net::{Net, Settled};
use flow_trial::{Case, read_case};
use flow_value::Steps;
use std::alloc::Global;
use std::process::Abort;

/// More events than any of these networks has.
const ENOUGH: u64 = 1_000_000;

/// The network that is drawn so, to which these records are posted.
pub(crate) fn network(rt: &impl Abort, alloc: Global, drawn: &str, records: &str) -> Net<Steps> {
    let Some(inputs) = inputs(alloc, drawn, records) else {
        panic!(rt; "no network");
    };
    let Ok(net) = inputs.start(alloc) else {
        panic!(rt; "out of memory");
    };
    net
}

/// The network of a case, of which nothing has happened.
pub(crate) fn network_of(rt: &impl Abort, alloc: Global, case: &Case) -> Net<Steps> {
    let Some(net) = case.network(alloc) else {
        panic!(rt; "no network");
    };
    net
}

/// The case that these lines are.
pub(crate) fn case_of<'a>(rt: &impl Abort, lines: &'a str) -> Case<'a> {
    let Some(case) = read_case(lines) else {
        panic!(rt; "no case");
    };
    case
}

/// The case of a table that has this name.
pub(crate) fn named<'a>(rt: &impl Abort, table: &'a str, name: &str) -> Case<'a> {
    for lines in table.trim().split("\n\n") {
        let case = case_of(rt, lines);
        if case.name == name {
            return case;
        }
    }
    panic!(rt; "no case")
}

/// Settles a network by single events, and counts them.
pub(crate) fn settle_singly(rt: &impl Abort, alloc: Global, net: &mut Net<Steps>) -> u64 {
    for events in 0..ENOUGH {
        match net.settle(alloc, 0) {
            Ok(Settled::Quiet) => return events,
            Ok(Settled::Stopped) => assert!(rt; net.settle(alloc, 1).is_ok()),
            Err(_) => panic!(rt; "out of memory"),
        }
    }
    panic!(rt; "it goes on for ever")
}
