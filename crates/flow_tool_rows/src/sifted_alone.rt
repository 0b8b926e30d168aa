//! Records that are sifted together, beside the same records each sifted by itself.
use crate::check::{add, are_due, check, given, has_cases, head_and_lines};
use flow_quarantine::sift;
use std::alloc::Global;
use std::process::Abort;

/// More events than any record here needs alone, and fewer than some of them need together.
const LIMIT: u64 = 2_000;

/// How many records come together: more than are run at once.
const COUNT: u64 = 80;

/// Behind `case` stands what is apart in a network, and below that its blocks and links. Each has the inputs `a` and `b`.
const NETWORKS: &str = r#"
case two chains
block = [
  { name = "a", kind = "buffer", input = true },
  { name = "b", kind = "transform", input = true, work = ["int", "mul 4611686018427387904"] },
  { name = "out", kind = "action", work = ["int"] },
  { name = "last", kind = "action", work = [] },
]
link = [
  { from = "a", to = "out", propagate = true },
  { from = "b", to = "last", propagate = true },
]
case ways by value, and one that none takes
block = [
  { name = "a", kind = "transform", input = true, work = ["int"] },
  { name = "b", kind = "transform", input = true, work = ["int"] },
  { name = "even", kind = "action", work = ["reject 40"] },
  { name = "low", kind = "action", work = ["reject 7"] },
  { name = "few", kind = "action", work = ["reject 3"] },
]
link = [
  { from = "a", to = "even", when = "even" },
  { from = "a", to = "low", when = "lt 150" },
  { from = "b", to = "few", when = "lt 100" },
]
case a link that counts
block = [
  { name = "a", kind = "buffer", input = true },
  { name = "b", kind = "buffer", input = true },
  { name = "first", kind = "action", work = ["int"] },
  { name = "later", kind = "action", work = [] },
]
link = [
  { from = "a", to = "first", max = 3, propagate = true },
  { from = "a", to = "later", propagate = true },
]
case room for one, with another way behind it
block = [
  { name = "a", kind = "buffer", input = true },
  { name = "b", kind = "buffer", input = true },
  { name = "first", kind = "transform_many", capacity = 1, work = [] },
  { name = "later", kind = "action", work = ["int"] },
  { name = "last", kind = "action", capacity = 1, work = ["int"] },
]
link = [
  { from = "a", to = "first", propagate = true },
  { from = "a", to = "later", propagate = true },
  { from = "first", to = "last", propagate = true },
]
case room for one on the only way
block = [
  { name = "a", kind = "buffer", input = true, capacity = 1 },
  { name = "b", kind = "transform_many", input = true, work = ["int", "repeat 3"], capacity = 2 },
  { name = "out", kind = "action", capacity = 1, work = ["int", "reject 21"], lanes = 2 },
  { name = "last", kind = "action", capacity = 1, work = ["reject 30"] },
]
link = [
  { from = "a", to = "out", propagate = true },
  { from = "b", to = "last", propagate = true },
]
case tuples that fault
block = [
  { name = "a", kind = "transform", input = true, work = ["int"] },
  { name = "b", kind = "buffer", input = true },
  { name = "pairs", kind = "join" },
  { name = "out", kind = "action", work = ["int"] },
]
link = [
  { from = "a", to = "pairs", port = 0, propagate = true },
  { from = "b", to = "pairs", port = 1, propagate = true },
  { from = "pairs", to = "out", propagate = true },
]
case tuples that reserve, and fault by their sum
block = [
  { name = "a", kind = "transform", input = true, work = ["int"] },
  { name = "b", kind = "transform", input = true, work = ["int"] },
  { name = "pairs", kind = "join", greedy = false },
  { name = "out", kind = "action", work = ["sum", "reject 201"] },
]
link = [
  { from = "a", to = "pairs", port = 0, propagate = true },
  { from = "b", to = "pairs", port = 1, propagate = true },
  { from = "pairs", to = "out", propagate = true },
]
case a record that meets itself
block = [
  { name = "a", kind = "broadcast", input = true },
  { name = "b", kind = "buffer", input = true },
  { name = "left", kind = "transform", work = ["int"] },
  { name = "right", kind = "transform", work = ["int"] },
  { name = "pairs", kind = "join" },
  { name = "out", kind = "action", work = ["sum", "reject 20"] },
]
link = [
  { from = "a", to = "left", propagate = true },
  { from = "a", to = "right", propagate = true },
  { from = "left", to = "pairs", port = 0, propagate = true },
  { from = "right", to = "pairs", port = 1, propagate = true },
  { from = "pairs", to = "out", propagate = true },
]
case copies
block = [
  { name = "a", kind = "broadcast", input = true },
  { name = "b", kind = "buffer", input = true },
  { name = "left", kind = "action", work = ["int"] },
  { name = "right", kind = "action", work = ["int", "reject 12"] },
]
link = [
  { from = "a", to = "left", propagate = true },
  { from = "a", to = "right", propagate = true },
]
case copies that may be missed
block = [
  { name = "a", kind = "broadcast", input = true },
  { name = "b", kind = "buffer", input = true },
  { name = "left", kind = "transform_many", capacity = 1, work = ["repeat 2"] },
  { name = "right", kind = "action", work = [] },
  { name = "out", kind = "action", capacity = 1, work = ["int"] },
]
link = [
  { from = "a", to = "left", propagate = true },
  { from = "a", to = "right", propagate = true },
  { from = "left", to = "out", propagate = true },
]
case groups
block = [
  { name = "a", kind = "buffer", input = true },
  { name = "b", kind = "buffer", input = true },
  { name = "rows", kind = "batch", size = 2 },
  { name = "out", kind = "action", work = ["field 1"] },
  { name = "last", kind = "action", work = ["int"] },
]
link = [
  { from = "a", to = "rows", propagate = true },
  { from = "rows", to = "out", propagate = true },
  { from = "b", to = "last", propagate = true },
]
case groups of two inputs
block = [
  { name = "a", kind = "buffer", input = true },
  { name = "b", kind = "buffer", input = true },
  { name = "rows", kind = "batched_join", size = 2 },
  { name = "out", kind = "action", work = ["field 0", "field 0", "int"] },
]
link = [
  { from = "a", to = "rows", port = 0, propagate = true },
  { from = "b", to = "rows", port = 1, propagate = true },
  { from = "rows", to = "out", propagate = true },
]
case one message in all
block = [
  { name = "a", kind = "write_once", input = true },
  { name = "b", kind = "buffer", input = true },
  { name = "out", kind = "action", work = ["int"] },
]
link = [{ from = "a", to = "out", propagate = true }]
case two ways into one block
block = [
  { name = "a", kind = "buffer", input = true },
  { name = "b", kind = "transform", input = true, work = ["int"] },
  { name = "out", kind = "action", work = ["int"] },
]
link = [
  { from = "a", to = "out" },
  { from = "b", to = "out", propagate = true },
]
case a block that ends by another, with another way behind it
block = [
  { name = "a", kind = "buffer", input = true },
  { name = "b", kind = "buffer", input = true },
  { name = "both", kind = "action", work = [] },
  { name = "out", kind = "action", work = ["int"] },
]
link = [
  { from = "a", to = "both", propagate = true },
  { from = "b", to = "both", propagate = true },
  { from = "a", to = "out", propagate = true },
]
case many events
block = [
  { name = "a", kind = "transform_many", input = true, work = ["int", "upto"] },
  { name = "b", kind = "transform_many", input = true, work = ["int", "repeat 300"] },
  { name = "out", kind = "action", work = ["reject 120"] },
  { name = "last", kind = "action", work = [] },
]
link = [
  { from = "a", to = "out", propagate = true },
  { from = "b", to = "last", propagate = true },
]
"#;

/// A record, whose value is a number, mostly. Where the inputs come by turns the first is `a`; else all of `a` come first. Some
/// records can't be read.
fn record(rt: &(impl Abort + Print), alloc: Global, number: u64, by_turns: bool) -> String {
    let is_first = if by_turns {
        number % 2 == 0
    } else {
        number < COUNT / 2
    };
    let input = match (number % 64, is_first) {
        (50, _) => "c",
        (51, _) => "a,a",
        (52, _) => "\u{feff}a",
        (_, true) => "a",
        (_, false) => "b",
    };
    let record = match number % 40 {
        3 => format!(in alloc; "{input},x{number}\n"),
        17 => format!(in alloc; "{input},\"{number}\n\"\n"),
        29 => format!(in alloc; "{input},9223372036854775808\n"),
        _ => format!(in alloc; "{input},{number}\n"),
    };
    given(rt, "a record", record)
}

fn all_records(rt: &(impl Abort + Print), alloc: Global, by_turns: bool) -> Vec<u8> {
    let mut text = Vec::new(alloc);
    for number in 0..COUNT {
        let record = record(rt, alloc, number, by_turns);
        add(rt, &mut text, record.as_bytes());
    }
    text
}

/// Adds what comes of each record by itself.
fn sift_each(
    rt: &(impl Abort + Print),
    alloc: Global,
    network: &[u8],
    by_turns: bool,
    good: &mut Vec<u8>,
    bad: &mut Vec<u8>,
) {
    for number in 0..COUNT {
        // An empty line in front, so that a byte order mark stays one of the record's bytes.
        let mut text = Vec::new(alloc);
        add(rt, &mut text, b"\n");
        let record = record(rt, alloc, number, by_turns);
        add(rt, &mut text, record.as_bytes());
        let sifted = sift(alloc, network, &text, LIMIT, good, bad);
        given(rt, "a record alone", sifted);
    }
}

/// What stands in each of these lines behind the record's number and line, in order.
fn without_numbers(rt: &(impl Abort + Print), alloc: Global, lines: &[u8]) -> Vec<u8> {
    let mut text = Vec::new(alloc);
    for line in given(rt, "lines", str::from_utf8(lines)).lines() {
        let (_, rest) = line.split_once(": ").unwrap_or(("", line));
        add(rt, &mut text, rest.as_bytes());
        add(rt, &mut text, b"\n");
    }
    text
}

/// Tests that of records which are sifted together comes what comes of each alone.
fn sifts_both_ways(
    rt: &(impl Abort + Print),
    alloc: Global,
    case: &str,
    records: &[u8],
    by_turns: bool,
) {
    let (name, blocks) = head_and_lines(case);
    let network = given(rt, name, format!(in alloc; "format = 1\n{blocks}\n"));
    let network = network.as_bytes();
    let (mut good, mut bad) = (Vec::new(alloc), Vec::new(alloc));
    let sifted = sift(alloc, network, records, LIMIT, &mut good, &mut bad);
    given(rt, name, sifted);
    let (mut alone, mut aside) = (Vec::new(alloc), Vec::new(alloc));
    sift_each(rt, alloc, network, by_turns, &mut alone, &mut aside);
    check(rt, name, !alone.is_empty());
    check(rt, name, !aside.is_empty());
    are_due(rt, name, &alone, &good);
    let due = without_numbers(rt, alloc, &aside);
    are_due(rt, name, &due, &without_numbers(rt, alloc, &bad));
}

/// Tests that over each network.
fn sift_all(rt: &(impl Abort + Print), alloc: Global, by_turns: bool) {
    has_cases(rt, NETWORKS, 16);
    let records = all_records(rt, alloc, by_turns);
    for case in NETWORKS.split("\ncase ").skip(1) {
        sifts_both_ways(rt, alloc, case, &records, by_turns);
    }
}

#[test]
fn records_by_turns_are_as_each_alone(rt: HostRuntime) {
    sift_all(&rt, rt.alloc(), true);
}

#[test]
fn records_of_one_input_after_the_other_are_as_each_alone(rt: HostRuntime) {
    sift_all(&rt, rt.alloc(), false);
}
