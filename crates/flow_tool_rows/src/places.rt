//! Where records stand in a text.
use crate::check::{are_due, bytes_of, check, given, has_rows, number, two_cells};
use flow_split::Records;
use std::alloc::Global;
use std::process::Abort;

/// In each row a text, and of each record the line that it begins on and what stands there of it, as `bytes_of` reads it.
const CASES: &str = "
nothing | none
~^~ | none
in,1 | 1 in,1
in,1~in,2~ | 1 in,1~ | 2 in,2~
~~in,1^~^~in,2^~ | 3 in,1^~ | 5 in,2^~
in,1^^in,2 | 1 in,1^ | 3 in,2
in,\"a~b\"~in,2 | 1 in,\"a~b\"~ | 3 in,2
in,\"a^~^~b\"~in,2 | 1 in,\"a^~^~b\"~ | 4 in,2
\u{ef}\u{bb}\u{bf}in,1~in,2 | 1 in,1~ | 2 in,2
in~,~\"~ | 1 in~ | 2 ,~ | 3 \"~
";

/// Tests that the record with this number comes next, with the line and the text that are due.
fn comes_next(
    rt: &(impl Abort + Print),
    alloc: Global,
    records: &mut Records<'_>,
    place: u64,
    due: &str,
) {
    check(rt, due, given(rt, due, records.advance()));
    let (line, words) = due.split_once(" ").unwrap_or(("", due));
    check(rt, due, records.number() == place);
    check(rt, due, records.line() == number(rt, line) as u64);
    are_due(rt, due, &bytes_of(rt, alloc, words), records.raw());
}

/// Tests that the records of a row stand where they are due, and that there are no others.
fn stand_where_due(rt: &(impl Abort + Print), alloc: Global, row: &str) {
    let (words, others) = two_cells(rt, row);
    let text = bytes_of(rt, alloc, words);
    let mut records = Records::new(alloc, &text);
    let mut place = 0u64;
    for due in others.split(" | ") {
        if due != "none" {
            place = place.saturating_add(1);
            comes_next(rt, alloc, &mut records, place, due);
        }
    }
    check(rt, row, !given(rt, row, records.advance()));
}

#[test]
fn records_stand_where_due(rt: HostRuntime) {
    has_rows(&rt, CASES, 10);
    for row in CASES.lines().skip(1) {
        stand_where_due(&rt, rt.alloc(), row);
    }
}
