//! Pages of networks and of runs.
use crate::check::{add, check, given, has_rows, is_due, two_cells};
use crate::networks::{ENOUGH, planned, report};
use flow_outcome::{Admits, BlockOutline, Kind, LinkOutline, Outline};
use flow_plan_outline::outline_of;
use flow_reading::{Report, read_report};
use flow_render::{PageFault, write_page};
use std::alloc::Global;
use std::process::Abort;

/// Texts go to `in`; of the numbers that they are even ones go to `even`, and an odd one stays at `numbers`.
const NETWORK: &[u8] = br#"format = 1
block = [
  { name = "in", kind = "buffer", input = true },
  { name = "numbers", kind = "transform", work = ["int"] },
  { name = "even", kind = "action", work = [] },
]
link = [
  { from = "in", to = "numbers", propagate = true },
  { from = "numbers", to = "even", when = "even" },
]
"#;

/// In each row what a text is, and how a page shows it. `~` is a line feed.
const ESCAPES: &str = "
a&b | a&amp;b
<b>\"x\"</b> | &lt;b&gt;&quot;x&quot;&lt;/b&gt;
it's | it&#39;s
a\u{202e}b\u{2066}c | a\\u{202e}b\\u{2066}c
a\u{7f}b\u{85}c | a b c
\u{e4}\u{5d0}\u{1f600} | \u{e4}\u{5d0}\u{1f600}
";

/// A network of one block with this name, which leads to itself.
fn loop_named<'n>(rt: &(impl Abort + Print), alloc: Global, name: &'n str) -> Outline<'n> {
    let block = BlockOutline {
        name,
        kind: Kind::Buffer,
        input: true,
        exit: false,
        capacity: None,
        lanes: None,
        size: None,
        ports: 1,
        reserves: false,
    };
    let link = LinkOutline {
        from: 0,
        to: 0,
        port: 0,
        when: Admits::Any,
        max: None,
        propagate: false,
    };
    Outline {
        blocks: given(rt, name, vec![in alloc; block]),
        links: given(rt, name, vec![in alloc; link]),
    }
}

/// The page of a network with this title, alone or with this report, or why there is none.
fn page(
    rt: &(impl Abort + Print),
    alloc: Global,
    title: &str,
    outline: &Outline,
    report: Option<&Report>,
) -> String {
    let mut page = Vec::new(alloc);
    match write_page(alloc, title, outline, report, &mut page) {
        Ok(()) => {
            let page = given(rt, title, str::from_utf8(&page));
            given(rt, title, String::from_str(alloc, page))
        }
        Err(PageFault::Misfit(_)) => given(rt, title, String::from_str(alloc, "misfit")),
        Err(PageFault::Write | PageFault::Memory) => panic!(rt; "no page of {title}"),
    }
}

/// The page of a run of that network over these records, beside the outline of this network.
fn page_of_run(
    rt: &(impl Abort + Print),
    alloc: Global,
    outline: &Outline,
    records: &[u8],
) -> String {
    let report = report(rt, alloc, NETWORK, records, ENOUGH);
    let report = given(rt, "a report", read_report(alloc, &report));
    page(rt, alloc, "run", outline, Some(&report))
}

/// Tests that these words, between which `~` stands, are in a page, one behind another.
fn are_shown(rt: &(impl Abort + Print), page: &str, words: &str) {
    let mut rest = page;
    for word in words.split("~") {
        match rest.split_once(word) {
            Some((_, behind)) => rest = behind,
            None => panic!(rt; "{word}\n  is not shown in\n{page}"),
        }
    }
}

/// Tests that what is a row's first cell is shown as its second.
fn is_escaped(rt: &(impl Abort + Print), alloc: Global, row: &str) {
    let (text, due) = two_cells(rt, row);
    let words = format!(in alloc;
        "<title>{due}</title>~<title>link 0 -&gt; {due}</title>~<text class=\"name\" x=\"36\" y=\"37\">{due}</text>~<summary>{due}  buffer, input</summary>"
    );
    let words = given(rt, row, words);
    let page = page(rt, alloc, text, &loop_named(rt, alloc, text), None);
    are_shown(rt, page.as_str(), words.as_str());
    check(rt, row, !page.contains("<script"));
    check(rt, row, !page.contains("://"));
}

#[test]
fn texts_are_escaped(rt: HostRuntime) {
    has_rows(&rt, ESCAPES, 6);
    for row in ESCAPES.lines().skip(1) {
        is_escaped(&rt, rt.alloc(), row);
    }
}

/// What is shown of that network alone.
const ALONE: &str =
    "<h1>net</h1>~<path class=\"link\"~<path class=\"link loose\"~>when even</text>~\
    <a href=\"#b0\"><rect class=\"box plain\"~\
    <details id=\"b0\" class=\"plain\"><summary>in  buffer, input</summary>~\
    <dt>link 0 -&gt; numbers, propagate</dt>~<dt>link 1 -&gt; even, when even</dt>";

/// What is shown of a run with a fault.
const FAULTED: &str = "<pre class=\"why faulted\">status 1: ~\
    numbers: faulted with 1 (NotInt) on its message 2, &quot;&lt;b&gt;&quot;~\
    >3</text>~<rect class=\"box done\"~<rect class=\"box faulted\"~\
    <details id=\"b1\" class=\"faulted\"><summary>numbers  transform: faulted 1, took 3, holds 2~\
    <dt>holds at port 0: 2</dt>\n<dd><code>&quot;&lt;b&gt;&quot;</code> <code>&quot;6&quot;</code> </dd>~\
    <details id=\"b2\" class=\"waiting\">~<details id=\"b0\" class=\"done\">";

/// What is shown of a run in which a value stays.
const STUCK: &str = "<pre class=\"why waiting\">status 1: ~\
    numbers: takes no more, and is not through; left: 1, first 5; link 1 admits even alone~\
    <details id=\"b1\" class=\"waiting\">~<dt>left: 1</dt>\n<dd><code>5</code> </dd>~\
    <details id=\"b0\" class=\"done\">";

/// What is shown of a hundred and one numbers.
const RECORDED: &str = "<dt>recorded: 101</dt>\n<dd><code>10</code> <code>20</code> ~\
    <code>990</code> <code>1000</code> <em>and 1 more</em></dd>";

/// Records of a hundred and one numbers.
fn many(rt: &(impl Abort + Print), alloc: Global) -> Vec<u8> {
    let mut records = Vec::new(alloc);
    for number in 1..102 {
        let record = given(rt, "a record", format!(in alloc; "in,{number}0\n"));
        add(rt, &mut records, record.as_bytes());
    }
    records
}

/// Faults come first, and what waits.
#[test]
fn networks_and_runs_are_shown(rt: HostRuntime) {
    let alloc = rt.alloc();
    let plan = planned(&rt, alloc, NETWORK);
    let outline = given(&rt, "an outline", outline_of(alloc, &plan));
    let alone = page(&rt, alloc, "net", &outline, None);
    are_shown(&rt, alone.as_str(), ALONE);
    check(&rt, "no run", !alone.contains("<pre"));
    check(&rt, "no run", !alone.contains("took"));
    let faulted = page_of_run(&rt, alloc, &outline, b"in,4\nin,<b>\nin,6\n");
    are_shown(&rt, faulted.as_str(), FAULTED);
    let stuck = page_of_run(&rt, alloc, &outline, b"in,4\nin,5\n");
    are_shown(&rt, stuck.as_str(), STUCK);
    let many = page_of_run(&rt, alloc, &outline, &many(&rt, alloc));
    are_shown(&rt, many.as_str(), RECORDED);
    check(&rt, "the last", !many.contains("<code>1010</code>"));
    let other = loop_named(&rt, alloc, "in");
    let misfit = page_of_run(&rt, alloc, &other, b"in,2\n");
    is_due(&rt, "of another network", "misfit", misfit.as_str());
}
