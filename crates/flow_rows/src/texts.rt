//! Whole runs: a network and records, and all that is written of them.
ghost use Rattle.std.specs.Prelude.{◌≤◌};

use crate::check::check;
use crate::told::{Told, kept, told_by, told_with};
use flow_front::record_of;
use flow_link::{Place, PlanFault};
use flow_run::{RunRefusal, split_input, status, write_refusal};
use flow_text::{TextFault, TextPlace};
use flow_trial::{ENOUGH, chain, is_refusal, is_report};
use flow_value::Value;
use std::alloc::Global;
use std::process::Abort;
use std::sync::Wait;
use std::test::Fail;
use std::thread::Threads;
use std::time::{Clock, CpuClock};

/// A situation: its name, the network, drawn, and the records, the most events, and what is due: the status and the
/// report.
type Case = (
    &'static str,
    &'static str,
    &'static [u8],
    u64,
    u8,
    &'static [&'static str],
);

const PAIR: &str = "in buffer => out action []";

const PARSE_THREE: &str = r#"format = 1
[[block]]
name = "in"
kind = "buffer"
input = true
[[block]]
name = "t"
kind = "transform"
work = ["int"]
[[block]]
name = "out"
kind = "action"
work = []
[[link]]
from = "in"
to = "t"
propagate = true
[[link]]
from = "t"
to = "out"
propagate = true
"#;

const THREE: &[u8] = b"in,1\nin,2\nin,3\n";

const SEVEN: &[u8] = b"in,1\nin,2\nin,3\nin,4\nin,5\nin,6\nin,7\n";

const RUNS: &[Case] = &[
    (
        "empty run",
        PAIR,
        b"",
        ENOUGH,
        0,
        &[
            "block in done ; input [] ; port 0 [] ; held 0 [] ; link 0 [] ; left []",
            "block out done ; port 0 [] ; held 0 [] ; record [] ; quiet",
        ],
    ),
    (
        "two records",
        PAIR,
        b"in,a\nin,b\n",
        ENOUGH,
        0,
        &[
            r#"block in done ; input [] ; port 0 ["a","b"] ; held 0 [] ; link 0 ["a","b"] ; left []"#,
            r#"block out done ; port 0 ["a","b"] ; held 0 [] ; record ["a","b"] ; quiet"#,
        ],
    ),
    (
        "quoted and accented text",
        PAIR,
        b"in,\"a\"\"b\"\nin,\xc3\xa9\n",
        ENOUGH,
        0,
        &[
            r#"block in done ; input [] ; port 0 ["a\"b","é"] ; held 0 [] ; link 0 ["a\"b","é"] ; left []"#,
            r#"block out done ; port 0 ["a\"b","é"] ; held 0 [] ; record ["a\"b","é"] ; quiet"#,
        ],
    ),
    (
        "characters that are printed by their numbers",
        "a action []",
        b"a,\"\\,\n\x00\x1f\x7f \"\n",
        ENOUGH,
        0,
        &[
            r#"block a done ; input [] ; port 0 ["\\,\x0a\x00\x1f\x7f "] ; held 0 []"#,
            r#"record ["\\,\x0a\x00\x1f\x7f "] ; quiet"#,
        ],
    ),
    (
        "five events, by which the input has given its text",
        PAIR,
        b"in,1\n",
        5,
        3,
        &[
            r#"block in open ; input [] ; port 0 ["1"] ; held 0 ["1"] ; link 0 [] ; left []"#,
            "block out open ; port 0 [] ; held 0 [] ; record [] ; stopped",
        ],
    ),
    (
        "fault over a plain link",
        r#"in buffer => t transform ["int"] -> out action []"#,
        b"in,x\n",
        ENOUGH,
        1,
        &[
            r#"block in done ; input [] ; port 0 ["x"] ; held 0 [] ; link 0 ["x"] ; left []"#,
            r#"block t faulted 1 ; port 0 ["x"] ; held 0 ["x"] ; link 1 [] ; left []"#,
            "block out open ; port 0 [] ; held 0 [] ; record [] ; quiet",
        ],
    ),
    (
        "a fault behind what is recorded",
        r#"in buffer => out action ["int"]"#,
        b"in,1\r\n\nin,x",
        ENOUGH,
        1,
        &[
            r#"block in done ; input [] ; port 0 ["1","x"] ; held 0 [] ; link 0 ["1","x"] ; left []"#,
            r#"block out faulted 1 ; port 0 ["1","x"] ; held 0 ["x"] ; record [1] ; quiet"#,
        ],
    ),
    (
        "batch remainder",
        r#"in buffer => t transform ["int"] => b batch/3 => out action []"#,
        SEVEN,
        ENOUGH,
        0,
        &[
            r#"block in done ; input [] ; port 0 ["1","2","3","4","5","6","7"] ; held 0 []"#,
            r#"link 0 ["1","2","3","4","5","6","7"] ; left []"#,
            r#"block t done ; port 0 ["1","2","3","4","5","6","7"] ; held 0 []"#,
            "link 1 [1,2,3,4,5,6,7] ; left []",
            "block b done ; port 0 [1,2,3,4,5,6,7] ; held 0 [] ; link 2 [[1,2,3],[4,5,6],[7]] ; left []",
            "block out done ; port 0 [[1,2,3],[4,5,6],[7]] ; held 0 [] ; record [[1,2,3],[4,5,6],[7]] ; quiet",
        ],
    ),
    (
        "the rest of an open batch",
        r#"in buffer -> b batch/3 => out action []"#,
        SEVEN,
        ENOUGH,
        1,
        &[
            r#"block in done ; input [] ; port 0 ["1","2","3","4","5","6","7"] ; held 0 []"#,
            r#"link 0 ["1","2","3","4","5","6","7"] ; left []"#,
            r#"block b open ; port 0 ["1","2","3","4","5","6","7"] ; held 0 ["7"]"#,
            r#"link 1 [["1","2","3"],["4","5","6"]] ; left []"#,
            r#"block out open ; port 0 [["1","2","3"],["4","5","6"]] ; held 0 []"#,
            r#"record [["1","2","3"],["4","5","6"]] ; quiet"#,
        ],
    ),
    (
        "rows of rows",
        r#"in buffer => b batch/2 => c batch/2 => out action ["len"]"#,
        SEVEN,
        ENOUGH,
        0,
        &[
            r#"block in done ; input [] ; port 0 ["1","2","3","4","5","6","7"] ; held 0 []"#,
            r#"link 0 ["1","2","3","4","5","6","7"] ; left []"#,
            r#"block b done ; port 0 ["1","2","3","4","5","6","7"] ; held 0 []"#,
            r#"link 1 [["1","2"],["3","4"],["5","6"],["7"]] ; left []"#,
            r#"block c done ; port 0 [["1","2"],["3","4"],["5","6"],["7"]] ; held 0 []"#,
            r#"link 2 [[["1","2"],["3","4"]],[["5","6"],["7"]]] ; left []"#,
            r#"block out done ; port 0 [[["1","2"],["3","4"]],[["5","6"],["7"]]] ; held 0 [] ; record [2,2] ; quiet"#,
        ],
    ),
    (
        "upto flattens",
        r#"in buffer => t transform_many ["int", "upto"] => out action []"#,
        b"in,2\nin,0\nin,3\n",
        ENOUGH,
        0,
        &[
            r#"block in done ; input [] ; port 0 ["2","0","3"] ; held 0 [] ; link 0 ["2","0","3"] ; left []"#,
            r#"block t done ; port 0 ["2","0","3"] ; held 0 [] ; link 1 [0,1,0,1,2] ; left []"#,
            "block out done ; port 0 [0,1,0,1,2] ; held 0 [] ; record [0,1,0,1,2] ; quiet",
        ],
    ),
    (
        "an input without a link",
        "b-1.b_2 buffer",
        b"b-1.b_2,x",
        ENOUGH,
        1,
        &[r#"block b-1.b_2 completing ; input [] ; port 0 ["x"] ; held 0 [] ; left ["x"] ; quiet"#],
    ),
];

/// Tests that so many workers come to each report that is due. Where a run faults or is stopped, several workers may come less or more far
/// before, so of them it is asked of runs that go through.
fn each_is_reported(
    rt: &(impl Abort + Print + Threads + Wait + Clock + CpuClock + Sync),
    alloc: Global,
    workers: u32,
) -> Result<(), Fail>
    requires { (1 ≤ workers) × (workers ≤ 64) }
{
    for (name, drawn, records, limit, status, due) in RUNS {
        if workers == 1 || *status == 0 {
            let network = chain(alloc, drawn)?;
            let told = told_with(rt, alloc, network.as_slice(), *records, workers, *limit)?;
            check(
                rt,
                name,
                told.status == *status && is_report(told.text.as_slice(), due),
            );
        }
    }
    Ok(())
}

#[test]
fn runs_are_reported(rt: HostRuntime) -> Result<(), Fail> {
    each_is_reported(&rt, rt.alloc(), 1)
}

#[test]
fn runs_are_reported_by_two_workers(rt: HostRuntime) -> Result<(), Fail> {
    each_is_reported(&rt, rt.alloc(), 2)
}

#[test]
fn runs_are_reported_by_eight_workers(rt: HostRuntime) -> Result<(), Fail> {
    each_is_reported(&rt, rt.alloc(), 8)
}

#[test]
fn rows_are_the_same_with_three_workers(rt: HostRuntime) -> Result<(), Fail> {
    let drawn = r#"in buffer => t transform ["int"] => b batch/3 => out action []"#;
    let network = chain(rt.alloc(), drawn)?;
    let one = told_by(&rt, rt.alloc(), network.as_slice(), SEVEN, ENOUGH)?;
    let three = told_with(&rt, rt.alloc(), network.as_slice(), SEVEN, 3, ENOUGH)?;
    assert!(rt; one.status == 0 && three.status == 0);
    assert!(rt; one.text == three.text);
    Ok(())
}

const ALONE: &[u8] = br#"format = 1
[[block]]
name = "out"
kind = "action"
input = true
work = ["int"]
"#;

#[test]
fn network_is_handed_back_as_its_run_left_it(rt: HostRuntime) -> Result<(), Fail> {
    let mut text = Vec::new(rt.alloc());
    let records: &[u8] = b"out,5\nout,7\n";
    let outcome = kept(&rt, rt.alloc(), ALONE, records, &mut text, 1, ENOUGH);
    let Ok((ran, net)) = outcome else {
        return Err(Fail::new("the run was refused"));
    };
    assert!(rt; ran.complete && !text.is_empty());
    let record = record_of(&net, "out");
    assert!(rt; matches!(record, Some([Value::Int(5), Value::Int(7)])));
    Ok(())
}

const PARSED: &[&str] = &[
    r#"block in done ; input [] ; port 0 ["1","2","3"] ; held 0 [] ; link 0 ["1","2","3"] ; left []"#,
    r#"block t done ; port 0 ["1","2","3"] ; held 0 [] ; link 1 [1,2,3] ; left []"#,
    "block out done ; port 0 [1,2,3] ; held 0 [] ; record [1,2,3] ; quiet",
];

const UNTOUCHED: &[&str] = &[
    r#"block in open ; input ["1","2","3"] ; port 0 [] ; held 0 [] ; link 0 [] ; left []"#,
    "block t open ; port 0 [] ; held 0 [] ; link 1 [] ; left []",
    "block out open ; port 0 [] ; held 0 [] ; record [] ; stopped",
];

/// 48 moves over the three links, 3 Make, 6 Begin, 6 End, 3 Complete and 3 Done.
const PARSED_BY: u64 = 69;

/// Whether this is what is due of parse three after so many events.
fn is_parsed(told: &Told, limit: u64) -> bool {
    let report = told.text.as_slice();
    if limit == 0 {
        told.status == 3 && is_report(report, UNTOUCHED)
    } else if limit < PARSED_BY {
        told.status == 3 && report.ends_with(b"\nstopped\n")
    } else {
        told.status == 0 && is_report(report, PARSED)
    }
}

#[test]
fn parse_three_is_stopped_before_its_last_event(rt: HostRuntime) -> Result<(), Fail> {
    for limit in 0..=PARSED_BY {
        let told = told_by(&rt, rt.alloc(), PARSE_THREE.as_bytes(), THREE, limit)?;
        assert!(rt; is_parsed(&told, limit), "{limit}");
    }
    Ok(())
}

/// Records of parse three, and the line that they are refused with.
const RECORDS: &[(&str, &[u8], &str)] = &[
    (
        "no such block",
        b"in,1\nnope,1\n",
        "11 UnknownInput record 2",
    ),
    ("no input", b"t,1\n", "11 UnknownInput record 1"),
    ("one field", b"in\nin,1\n", "9 Csv record 1"),
    ("three fields", b"in,1\nin,1,2\n", "9 Csv record 2"),
    (
        "a value that is no UTF-8",
        b"in,\xff\n",
        "10 NotUtf8 record 1",
    ),
    (
        "a name that is no UTF-8",
        b"in,1\n\xff,1\n",
        "10 NotUtf8 record 2",
    ),
    (
        "one field comes before no UTF-8",
        b"\xff\n",
        "9 Csv record 1",
    ),
    (
        "no UTF-8 comes before no input",
        b"nope,\xff\n",
        "10 NotUtf8 record 1",
    ),
    (
        "the first record counts",
        b"nope,1\nin\n",
        "11 UnknownInput record 1",
    ),
];

#[test]
fn records_are_refused(rt: HostRuntime) -> Result<(), Fail> {
    for (name, records, line) in RECORDS {
        let told = told_by(&rt, rt.alloc(), PARSE_THREE.as_bytes(), *records, ENOUGH)?;
        check(
            &rt,
            name,
            told.status == 2 && is_refusal(told.text.as_slice(), line),
        );
    }
    Ok(())
}

/// Faults that no text comes to today, and their lines.
const FAULTS: &[(TextFault, &str)] = &[
    (
        TextFault::WrongType(TextPlace::Link(1_023)),
        "4 WrongType link 1023",
    ),
    (
        TextFault::UnknownInput(u64::MAX),
        "11 UnknownInput record 18446744073709551615",
    ),
    (TextFault::Plan(PlanFault::Port(0)), "8 Plan 4 Port link 0"),
    (
        TextFault::Plan(PlanFault::BadOption(Place::Link(4))),
        "8 Plan 6 BadOption link 4",
    ),
    (
        TextFault::Plan(PlanFault::CapacityBelowSize(2)),
        "8 Plan 7 CapacityBelowSize block 2",
    ),
    (
        TextFault::Plan(PlanFault::SharedSource(1)),
        "8 Plan 8 SharedSource block 1",
    ),
];

fn check_line(
    rt: &(impl Abort + Print),
    alloc: Global,
    refusal: RunRefusal,
    number: u8,
    line: &str,
) -> Result<(), TextFault> {
    let mut written = Vec::new(alloc);
    write_refusal(&refusal, &mut written)?;
    check(
        rt,
        line,
        status(&Err(refusal)) == number && is_refusal(written.as_slice(), line),
    );
    Ok(())
}

#[test]
fn refusals_have_their_status_and_line(rt: HostRuntime) -> Result<(), Fail> {
    for (fault, line) in FAULTS {
        check_line(&rt, rt.alloc(), RunRefusal::Text(*fault), 2, line)?;
    }
    let write = RunRefusal::Text(TextFault::Write);
    check_line(&rt, rt.alloc(), write, 5, "13 Write")?;
    check_line(&rt, rt.alloc(), RunRefusal::Ids, 3, "ids")?;
    check_line(&rt, rt.alloc(), RunRefusal::Memory, 4, "memory")?;
    Ok(())
}

/// A text, what stands before its cut, and what stands after it.
type Cut = (&'static [u8], &'static [u8], &'static [u8]);

const CUTS: &[Cut] = &[
    (b"", b"", b""),
    (b"a\nb\n", b"a\nb\n", b""),
    (b"%%", b"", b""),
    (b"%%\na\n", b"", b"a\n"),
    (b"a\n%%\nb,1\n", b"a\n", b"b,1\n"),
    (b"a\n%%", b"a\n", b""),
    (b"a\n%%\n%%\nb\n", b"a\n", b"%%\nb\n"),
    (b"a\n%%\r\n%%\nb\n", b"a\n%%\r\n", b"b\n"),
    (b"a%%\n %%\n%%%\n%% \n%\n", b"a%%\n %%\n%%%\n%% \n%\n", b""),
    (b"a = \"\"\"\n%%\n\"\"\"\n", b"a = \"\"\"\n", b"\"\"\"\n"),
    (b"a\n%%\n\xff\xfe", b"a\n", b"\xff\xfe"),
];

#[test]
fn input_is_cut_at_the_first_line_of_two_signs(rt: HostRuntime) {
    for (text, before, after) in CUTS {
        let (network, records) = split_input(text);
        assert!(rt;
            network == *before && records == *after,
            "{before:?} and {after:?}"
        );
    }
}
