//! Records that are run alone.
use crate::check::{are_due, bytes_of, check, given, has_rows, two_cells};
use flow_quarantine::sift;
use flow_text::{TextFault, TextPlace, TextRefusal};
use std::alloc::Global;
use std::process::Abort;

/// More events than any record here needs.
const ENOUGH: u64 = 1_000;

const CHAIN: &str = r#"format = 1
block = [
  { name = "in", kind = "buffer", input = true },
  { name = "cents", kind = "transform", work = ["int", "mul 100"] },
  { name = "out", kind = "action", work = [] },
]
link = [
  { from = "in", to = "cents", propagate = true },
  { from = "cents", to = "out", propagate = true },
]
"#;

const TWO: &str = r#"format = 1
block = [
  { name = "in", kind = "buffer", input = true },
  { name = "two", kind = "transform", work = ["int", "upto"] },
  { name = "out", kind = "action", work = [] },
]
link = [
  { from = "in", to = "two", propagate = true },
  { from = "two", to = "out", propagate = true },
]
"#;

const PAIRS: &str = r#"format = 1
block = [
  { name = "in", kind = "buffer", input = true },
  { name = "pairs", kind = "batch", size = 2 },
  { name = "sums", kind = "action", work = ["spread", "int"] },
]
link = [
  { from = "in", to = "pairs", propagate = true },
  { from = "pairs", to = "sums", propagate = true },
]
"#;

/// In each row the name of a situation, a network, the records, those that pass, and the lines of the others, as `bytes_of` reads
/// them.
const CASES: &str = r#"
no records | chain | nothing | nothing | nothing
all pass | chain | in,1~in,2~ | in,1~in,2~ | nothing
one faults | chain | in,1^~in,seven^~in,3 | in,1^~in,3 | record 2, line 2: cents faulted with 1 (NotInt): "in,seven"~
the lines are those of the text | chain | ~in,"1~"~~in,2~in,9223372036854775807~ | in,2~ | record 1, line 2: cents faulted with 1 (NotInt): "in,\"1\n\""~record 3, line 6: cents faulted with 5 (Range): "in,9223372036854775807"~
records that can't be read | chain | in~in,ÿ~out,1~none,1~in,1,2~ÿ,1,2~ÿ,1~in,1~ | in,1~ | record 1, line 1: 9 Csv, it has not exactly two fields: "in"~record 2, line 2: 10 NotUtf8, a field is not UTF-8: "in,\xff"~record 3, line 3: 11 UnknownInput, its first field names no input: "out,1"~record 4, line 4: 11 UnknownInput, its first field names no input: "none,1"~record 5, line 5: 9 Csv, it has not exactly two fields: "in,1,2"~record 6, line 6: 9 Csv, it has not exactly two fields: "\xff,1,2"~record 7, line 7: 10 NotUtf8, a field is not UTF-8: "\xff,1"~
a value too many | two | in,1~in,2~in,0~ | in,1~ | record 2, line 2: two faulted with 7 (NotOne): "in,2"~record 3, line 3: two faulted with 7 (NotOne): "in,0"~
a group that is never full is no fault | pairs | in,1~in,x~ | in,1~ | record 2, line 2: sums faulted with 1 (NotInt): "in,x"~
"#;

/// The network with this name.
fn network_of(rt: &(impl Abort + Print), name: &str) -> &'static str {
    match name {
        "chain" => CHAIN,
        "two" => TWO,
        "pairs" => PAIRS,
        _ => panic!(rt; "no network: {name}"),
    }
}

/// Tests that the records of a row go where they are due, and that those set aside are counted.
fn go_where_due(rt: &(impl Abort + Print), alloc: Global, row: &str) {
    let (_, others) = two_cells(rt, row);
    let (name, others) = two_cells(rt, others);
    let (words, others) = two_cells(rt, others);
    let (passed, lines) = two_cells(rt, others);
    let network = network_of(rt, name).as_bytes();
    let records = bytes_of(rt, alloc, words);
    let (mut good, mut bad) = (Vec::new(alloc), Vec::new(alloc));
    let sifted = sift(alloc, network, &records, ENOUGH, &mut good, &mut bad);
    let found = given(rt, row, sifted);
    are_due(rt, row, &bytes_of(rt, alloc, passed), &good);
    are_due(rt, row, &bytes_of(rt, alloc, lines), &bad);
    let count = lines.split("~").skip(1).count() as u64;
    check(rt, row, found.set_aside == count);
}

#[test]
fn records_go_where_due(rt: HostRuntime) {
    has_rows(&rt, CASES, 7);
    for row in CASES.lines().skip(1) {
        go_where_due(&rt, rt.alloc(), row);
    }
}

#[test]
fn networks_and_limits_are_told(rt: HostRuntime) {
    let alloc = rt.alloc();
    let (mut good, mut bad) = (Vec::new(alloc), Vec::new(alloc));
    let unnamed = b"format = 1\n[[block]]\nkind = \"buffer\"\n";
    let refused = sift(alloc, unnamed, b"in,1\n", ENOUGH, &mut good, &mut bad);
    let is_due = matches!(
        refused,
        Err(TextRefusal::Fault(TextFault::MissingKey(TextPlace::Block(0))))
    );
    check(&rt, "no network", is_due);
    are_due(&rt, "nothing is set aside", b"", &bad);

    let network = network_of(&rt, "chain").as_bytes();
    let stopped = sift(alloc, network, b"in,1\n", 3, &mut good, &mut bad);
    given(&rt, "a limit", stopped);
    are_due(&rt, "nothing passes", b"", &good);
    let due = b"record 1, line 1: stopped at the limit of events: \"in,1\"\n";
    are_due(&rt, "a limit", due, &bad);
}
