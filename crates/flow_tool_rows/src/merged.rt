//! Reports of parts that are merged, and those that are not.
use crate::check::{are_due, bytes_of, check, given, has_rows, head_and_lines, two_cells};
use crate::networks::{ENOUGH, planned, report};
use flow_outcome::{merge_reports, worst_status};
use flow_plan_outline::outline_of;
use flow_reading::{Report, read_report};
use flow_split::cut_records;
use std::alloc::Global;
use std::process::Abort;

const CHAIN: &[u8] = br#"format = 1
block = [
  { name = "in", kind = "buffer", input = true },
  { name = "t", kind = "transform", work = ["int"] },
  { name = "out", kind = "action", work = [] },
]
link = [
  { from = "in", to = "t", propagate = true },
  { from = "t", to = "out", propagate = true },
]
"#;

const PAIR: &[u8] = br#"format = 1
block = [
  { name = "in", kind = "buffer", input = true },
  { name = "out", kind = "action", work = [] },
]
link = [{ from = "in", to = "out", propagate = true }]
"#;

/// Chains beside those two whose reports can be merged, each behind a line of its own.
const CHAINS: &str = r#"
# four blocks, of which one has lanes
format = 1
block = [
  { name = "in", kind = "buffer", input = true },
  { name = "t", kind = "transform", work = ["int", "add 1"], lanes = 4 },
  { name = "b", kind = "buffer" },
  { name = "out", kind = "action", work = ["text"] },
]
link = [
  { from = "in", to = "t", propagate = true },
  { from = "t", to = "b", propagate = true },
  { from = "b", to = "out", propagate = true },
]
# several messages from each, and an action with lanes
format = 1
block = [
  { name = "in", kind = "transform_many", work = ["repeat 3", "int"], input = true },
  { name = "out", kind = "action", work = ["upto"], lanes = 2 },
]
link = [{ from = "in", to = "out", propagate = true }]
# one block
format = 1
block = [{ name = "in", kind = "action", work = ["len"], input = true }]
link = []
"#;

const CHAIN_RECORDS: &[u8] = b"in,1\nin,\"2\"\n\nin,3\r\nin,4\nin,5";

/// Two inputs, of which a join makes rows.
const JOIN: &[u8] = br#"format = 1
block = [
  { name = "left", kind = "buffer", input = true },
  { name = "right", kind = "buffer", input = true },
  { name = "rows", kind = "join" },
  { name = "out", kind = "action", work = [] },
]
link = [
  { from = "left", to = "rows", propagate = true },
  { from = "right", to = "rows", port = 1, propagate = true },
  { from = "rows", to = "out", propagate = true },
]
"#;

const JOIN_RECORDS: &[u8] = b"left,1\nright,a\nright,b\nleft,2\nleft,3\nright,c\n";

const JOIN_PARTS: &[&[u8]] = &[
    b"left,1\nright,a\n",
    b"",
    b"right,b\nleft,2\nleft,3\nright,c\n",
];

/// Of `s` odd numbers may go to `t`, which `a` leads into as well, and all else goes to `u`.
const PASSED: &[u8] = br#"format = 1
block = [
  { name = "a", kind = "buffer", input = true },
  { name = "s", kind = "transform", work = ["int"], input = true },
  { name = "t", kind = "action", work = [] },
  { name = "u", kind = "action", work = [] },
]
link = [
  { from = "a", to = "t", propagate = true },
  { from = "s", to = "t", when = "odd" },
  { from = "s", to = "u", propagate = true },
]
"#;

/// A report of that network, as `bytes_of` reads it: `t` took 1 and 2 from `a`, and 1 from `s` between them.
const PASSED_REPORT: &str =
    "block a done~input []~port 0 [1,2]~held 0 []~link 0 [1,2]~left []~block s done~input []~port 0 [1,4]~held 0 []~link 1 [1]~link 2 [4]~left []~block t done~port 0 [1,1,2]~held 0 []~record [1,1,2]~block u done~port 0 [4]~held 0 []~record [4]~quiet~";

/// In each row words of that report, others in their place, and why it is not merged as a second part then; `merged` where it
/// is.
const PARTS: &str = "
record [4] | record [4] | merged
port 0 [1,1,2] | port 0 [1,2,1] | merged
link 1 [1]~link 2 [4]~left []~block t done~port 0 [1,1,2]~held 0 []~record [1,1,2]~block u done~port 0 [4] | link 1 []~link 2 [1,4]~left []~block t done~port 0 [1,2]~held 0 []~record [1,2]~block u done~port 0 [1,4] | part 2: link 2 carried what link 1 admits, maybe because the part was at its end
port 0 [1,1,2] | port 0 [1,2] | part 2: the report is damaged: t did not take at port 0 what its links gave
port 0 [1,1,2] | port 0 [2,1,1] | part 2: the report is damaged: t did not take at port 0 what its links gave
port 0 [1,1,2] | port 0 [1,2,3] | part 2: the report is damaged: t did not take at port 0 what its links gave
port 0 [1,1,2] | port 0 [1,1,2,2] | part 2: the report is damaged: t did not take at port 0 what its links gave
port 0 [4] | port 0 [] | part 2: the report is damaged: u did not take at port 0 what its links gave
held 0 []~record [4] | held 0 [4]~record [] | part 2: the report is damaged: u is done, and something is held or left there
left []~block t | left [3]~block t | part 2: the report is damaged: s is done, and something is held or left there
";

/// Networks that keep or count something over messages, and why their reports are not merged.
const REFUSED: &[(&str, &str)] = &[
    (
        "kind = \"broadcast\"",
        "b is a broadcast, and what it makes of the whole is not what it makes of the parts",
    ),
    (
        "kind = \"write_once\"",
        "b is a write_once, and what it makes of the whole is not what it makes of the parts",
    ),
    (
        "kind = \"batch\"\nsize = 2",
        "b is a batch, and what it makes of the whole is not what it makes of the parts",
    ),
    (
        "kind = \"batched_join\"\nsize = 2",
        "b is a batched_join, and what it makes of the whole is not what it makes of the parts",
    ),
    (
        "kind = \"buffer\"\n[[link]]\nfrom = \"b\"\nto = \"c\"\nmax = 9",
        "link 0 has a max, which counts anew in each part",
    ),
    (
        "kind = \"join\"\ngreedy = false",
        "b is a join that reserves, and a network with one is not merged",
    ),
    (
        "kind = \"join\"\ngreedy = true",
        "there is no part to merge",
    ),
    ("kind = \"buffer\"", "there is no part to merge"),
];

/// The reports that these texts are.
fn read<'t>(rt: &(impl Abort + Print), alloc: Global, texts: &'t [Vec<u8>]) -> Vec<Report<'t>> {
    let mut reports = Vec::new(alloc);
    for text in texts {
        let report = given(rt, "a report", read_report(alloc, text));
        given(rt, "reports", reports.push(report));
    }
    reports
}

/// The report of the whole that these reports of parts come to, or a line that says why they are not merged.
fn merged(rt: &(impl Abort + Print), alloc: Global, network: &[u8], texts: &[Vec<u8>]) -> Vec<u8> {
    let plan = planned(rt, alloc, network);
    let outline = given(rt, "an outline", outline_of(alloc, &plan));
    let parts = read(rt, alloc, texts);
    let mut whole = Vec::new(alloc);
    match merge_reports(&outline, &parts, &mut whole) {
        Ok(()) => whole,
        Err(fault) => given(rt, "a line", fault.to_string(alloc)).into_bytes(),
    }
}

/// The worst status of these reports.
fn worst(rt: &(impl Abort + Print), alloc: Global, texts: &[Vec<u8>]) -> u8 {
    worst_status(&read(rt, alloc, texts))
}

/// The reports of runs over these parts.
fn reports(
    rt: &(impl Abort + Print),
    alloc: Global,
    network: &[u8],
    parts: &[&[u8]],
    limit: u64,
) -> Vec<Vec<u8>> {
    let mut reports = Vec::new(alloc);
    for part in parts {
        let report = report(rt, alloc, network, part, limit);
        given(rt, "reports", reports.push(report));
    }
    reports
}

/// Tests that merging the reports of the parts gives the report of all the records, and that each of them is through.
fn merges(
    rt: &(impl Abort + Print),
    alloc: Global,
    name: &str,
    network: &[u8],
    records: &[u8],
    parts: &[&[u8]],
) {
    let whole = reports(rt, alloc, network, &[records], ENOUGH);
    check(rt, name, worst(rt, alloc, &whole) == 0);
    let reports = reports(rt, alloc, network, parts, ENOUGH);
    check(rt, name, worst(rt, alloc, &reports) == 0);
    let merged = merged(rt, alloc, network, &reports);
    check(rt, name, whole.len() == 1 && whole[0] == merged);
}

/// Tests that the reports of a chain's records, cut in one to four parts, come to the report of all.
fn merges_chain(rt: &(impl Abort + Print), alloc: Global, name: &str, network: &[u8]) {
    for count in 1..5 {
        let parts = given(rt, name, cut_records(alloc, CHAIN_RECORDS, count));
        merges(rt, alloc, name, network, CHAIN_RECORDS, &parts);
    }
}

#[test]
fn parts_come_to_the_whole(rt: HostRuntime) {
    let alloc = rt.alloc();
    merges_chain(&rt, alloc, "two blocks", PAIR);
    merges_chain(&rt, alloc, "three blocks", CHAIN);
    check(&rt, "three more chains", CHAINS.split("\n# ").count() == 4);
    for chain in CHAINS.split("\n# ").skip(1) {
        let (name, network) = head_and_lines(chain);
        merges_chain(&rt, alloc, name, network.as_bytes());
    }
    merges(&rt, alloc, "a join", JOIN, JOIN_RECORDS, JOIN_PARTS);
}

/// Tests that the reports of these parts are refused so, and that their worst status is this.
fn is_refused(
    rt: &(impl Abort + Print),
    alloc: Global,
    network: &[u8],
    reports: &[Vec<u8>],
    why: &str,
    status: u8,
) {
    let merged = merged(rt, alloc, network, reports);
    are_due(rt, why, why.as_bytes(), &merged);
    check(rt, why, worst(rt, alloc, reports) == status);
}

/// The text of a network of a buffer and a block with these options.
fn beside_a_buffer(rt: &(impl Abort + Print), alloc: Global, options: &str) -> String {
    let text = format!(in alloc;
        "format = 1\n[[block]]\nname = \"c\"\nkind = \"buffer\"\n[[block]]\nname = \"b\"\n{options}\n"
    );
    given(rt, options, text)
}

#[test]
fn networks_are_refused(rt: HostRuntime) {
    let alloc = rt.alloc();
    for (options, why) in REFUSED {
        let network = beside_a_buffer(&rt, alloc, options);
        is_refused(&rt, alloc, network.as_bytes(), &[], why, 0);
    }
}

#[test]
fn parts_are_refused(rt: HostRuntime) {
    let alloc = rt.alloc();
    let faulted = reports(&rt, alloc, CHAIN, &[b"in,1\n", b"in,x\n"], ENOUGH);
    let why = "part 2 has status 1, and only parts with status 0 are merged";
    is_refused(&rt, alloc, CHAIN, &faulted, why, 1);

    let stopped = reports(&rt, alloc, CHAIN, &[b"in,1\n", b"in,2\n"], 4);
    let why = "part 1 has status 3, and only parts with status 0 are merged";
    is_refused(&rt, alloc, CHAIN, &stopped, why, 3);

    let others = reports(&rt, alloc, PAIR, &[b"in,1\n"], ENOUGH);
    let why = "part 1: the report is of another network: it has 2 blocks, and the network 3";
    is_refused(&rt, alloc, CHAIN, &others, why, 0);

    let uneven = reports(
        &rt,
        alloc,
        JOIN,
        &[b"left,1\nright,a\n", b"left,2\n"],
        ENOUGH,
    );
    let why = "part 2 has status 1, and only parts with status 0 are merged";
    is_refused(&rt, alloc, JOIN, &uneven, why, 1);
}

/// That report, with these words in the place of those.
fn passed_report(rt: &(impl Abort + Print), alloc: Global, words: &str, others: &str) -> Vec<u8> {
    let Some((before, behind)) = PASSED_REPORT.split_once(words) else {
        panic!(rt; "the report has no such words");
    };
    let report = format!(in alloc; "{before}{others}{behind}");
    bytes_of(rt, alloc, given(rt, words, report).as_str())
}

/// Tests that what a row makes of that report is merged, or refused as a second part.
fn comes_to(rt: &(impl Abort + Print), alloc: Global, row: &str) {
    let (words, cells) = two_cells(rt, row);
    let (others, due) = two_cells(rt, cells);
    let edited = passed_report(rt, alloc, words, others);
    if due == "merged" {
        let alone = [edited];
        are_due(rt, row, &alone[0], &merged(rt, alloc, PASSED, &alone));
    } else {
        let parts = [bytes_of(rt, alloc, PASSED_REPORT), edited];
        is_refused(rt, alloc, PASSED, &parts, due, 0);
    }
}

#[test]
fn damaged_parts_are_refused(rt: HostRuntime) {
    has_rows(&rt, PARTS, 10);
    for row in PARTS.lines().skip(1) {
        comes_to(&rt, rt.alloc(), row);
    }
}
