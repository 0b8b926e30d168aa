//! Where values were in a run.
use crate::check::{are_due, given};
use crate::reports;
use flow_outcome::write_trace;
use flow_reading::read_report;
use std::alloc::Global;
use std::process::Abort;

/// In each row the report of a run, a value, and where it was.
const TRACES: &[(&str, &str, &str)] = &[
    (
        reports::FAULT,
        "seven",
        "prices took it at port 0: number 3
prices gave it over link 0: number 3
cents took it at port 0: number 3
cents holds it at port 0: number 1
",
    ),
    (
        reports::FAULT,
        "\"120\"",
        "prices took it at port 0: number 4
prices left it: number 1
",
    ),
    (reports::FAULT, "1200", "cents recorded it: number 1\n"),
    (reports::FAULT, "sev", ""),
    (reports::FAULT, "", ""),
    (
        reports::ROUTES,
        "60",
        "orders took it at port 0: number 6
orders gave it over link 0: number 6
sizes took it at port 0: number 6
sizes gave it over link 2: number 2
small took it at port 0: number 2
small recorded it: number 2
",
    ),
    (
        "block a open
input [\"x\",\"y\",\"x\"]
port 0 [[\"x\",1],[[\"x\"]],[2,\"x\"]]
held 0 []
left [\"y\"]
quiet
",
        "x",
        "a waits at the input: number 1, 3
a took it at port 0: number 1, 3
",
    ),
];

fn trace(rt: &(impl Abort + Print), alloc: Global, report: &str, value: &str) -> Vec<u8> {
    let report = given(rt, value, read_report(alloc, report.as_bytes()));
    let mut trace: Vec<u8> = Vec::new(alloc);
    given(rt, value, write_trace(&report, value, &mut trace));
    trace
}

#[test]
fn values_are_traced(rt: HostRuntime) {
    for (report, value, due) in TRACES {
        let trace = trace(&rt, rt.alloc(), report, value);
        are_due(&rt, value, due.as_bytes(), &trace);
    }
}
