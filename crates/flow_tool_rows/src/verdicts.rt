//! Why runs ended with their status.
use crate::check::{are_due, check, given};
use crate::networks::planned;
use crate::reports;
use flow_outcome::write_verdict;
use flow_plan_outline::outline_of;
use flow_reading::read_report;
use std::alloc::Global;
use std::process::Abort;

/// Prices that become cents.
const PRICES: &[u8] = br#"format = 1
block = [
  { name = "prices", kind = "buffer", input = true },
  { name = "cents", kind = "action", work = ["int", "mul 100"] },
]
link = [{ from = "prices", to = "cents", propagate = true }]
"#;

/// In each row the report of a run of that network, its status, and what is told of it.
const VERDICTS: &[(&str, u8, &str)] = &[
    (
        "block prices done
input []
port 0 [\"12\"]
held 0 []
link 0 [\"12\"]
left []
block cents done
port 0 [\"12\"]
held 0 []
record [1200]
quiet
",
        0,
        "status 0: every block is done, and no record waits\n",
    ),
    (
        "block prices done
input []
port 0 [\"12\"]
held 0 []
link 0 [\"12\"]
left []
block cents done
port 0 []
held 0 []
record []
quiet
",
        0,
        "status 0: every block is done, and no record waits
the report is damaged: cents did not take at port 0 what its links gave
",
    ),
    (
        reports::FAULT,
        1,
        "status 1: blocks that are not done, or have records that wait: 2
prices: takes no more, and is not through; left: 1, first \"120\"; link 0 leads to cents, which faulted and takes no more
cents: faulted with 1 (NotInt) on its message 3, \"seven\"
",
    ),
    (
        "block prices open
input [\"12\"]
port 0 []
held 0 []
link 0 []
left []
block cents open
port 0 []
held 0 []
record []
stopped
",
        3,
        "status 3: the run was stopped at its limit of events, and would go on with a greater one\n",
    ),
];

/// Tests that of a run with this report the status and the lines come that are due.
fn is_told(rt: &(impl Abort + Print), alloc: Global, report: &str, status: u8, due: &str) {
    let plan = planned(rt, alloc, PRICES);
    let outline = given(rt, due, outline_of(alloc, &plan));
    let report = given(rt, due, read_report(alloc, report.as_bytes()));
    let mut told: Vec<u8> = Vec::new(alloc);
    let came = given(rt, due, write_verdict(&outline, &report, &mut told));
    check(rt, due, came == status);
    are_due(rt, due, due.as_bytes(), &told);
}

#[test]
fn runs_end_as_they_are_told(rt: HostRuntime) {
    for (report, status, due) in VERDICTS {
        is_told(&rt, rt.alloc(), report, *status, due);
    }
}
