//! Texts that are no reports, each with the line and the fault.
use crate::check::{bytes_of, check, given, has_rows, is_due, number, two_cells};
use flow_reading::{Kept, read_report};
use std::alloc::Global;
use std::process::Abort;

/// In each row a text, as `bytes_of` reads it, and what is said of it.
const BROKEN: &str = "
nothing | line 1: the report is cut off: its last line is `quiet` or `stopped`
quiet | line 1: the report is cut off: its last line is `quiet` or `stopped`
flow_run: 1 Syntax~ | line 1: a report has no such line here
block a~ | line 1: this is no state of a block
block a gone~ | line 1: this is no state of a block
block a faulted~ | line 1: this is no state of a block
block a faulted 01~ | line 1: this is no state of a block
block a faulted +1~ | line 1: this is no state of a block
block a faulted 4294967296~ | line 1: this is no state of a block
block a done ~ | line 1: this is no state of a block
block  done~ | line 1: this is no name of a block
block a,b done~ | line 1: this is no name of a block
block a done~quiet~ | line 2: a report has no such line here
block a done~input []~left []~quiet~ | line 3: a report has no such line here
block a done~port 0 []~port 1 []~ | line 3: a report has no such line here
block a done~port 1 []~held 1 []~left []~quiet~ | line 2: this is not the number that comes next
block a done~port 0 []~held 1 []~left []~quiet~ | line 3: this is not the number that comes next
block a done~port 0 []~held 0 []~link 2 []~link 1 []~left []~ | line 5: this is not the number that comes next
block a done~port 0 []~held 0 []~link x []~left []~ | line 4: this is not the number that comes next
block a done~port 0~held 0 []~left []~quiet~ | line 2: this is no list of values
block a done~port 0 []~held 0 []~quiet~ | line 4: a report has no such line here
block a done~port 0 []~held 0 []~left []~left []~quiet~ | line 5: a report has no such line here
block a done~port 0 []~held 0 []~left []~ | line 5: the report is cut off: its last line is `quiet` or `stopped`
block a done~port 0 []~held 0 []~left [~ | line 4: this is no list of values
quiet~quiet~ | line 2: the report ends before this line
quiet~block a done~ | line 2: the report ends before this line
block a done~port 0 [\"\u{ff}\"]~ | line 2: the line is no UTF-8
";

/// Lists that are none, a row each; the first is empty.
const NO_LISTS: &str = "

[
]
1
[]]
[[]
[,]
[1,]
[,1]
[1,,2]
[1 2]
[1, 2]
[ ]
[]\u{20}
[-]
[-0]
[00]
[01]
[+1]
[1.0]
[1e3]
[9223372036854775808]
[-9223372036854775809]
[99999999999999999999]
[\"]
[\"a]
[\"a\"\"b\"]
[\"\\\"]
[\"\\n\"]
[\"\\x\"]
[\"\\x0\"]
[\"\\x20\"]
[\"\\x7e\"]
[\"\\x0A\"]
[\"\\x80\"]
[\"\t\"]
[\"\u{7f}\"]
[a]
[null]
[1][2]
[1]x
[[1,]]
[\"a\"1]
[1\"a\"]
[[]1]
[1[]]
";

/// In each row a list, and how many values it has.
const LISTS: &str = "
[] | 0
[0] | 1
[-1] | 1
[9223372036854775807,-9223372036854775808] | 2
[1000000000000000000] | 1
[\"\"] | 1
[\"a,b\",\"[\",\"]\"] | 3
[\"\\\"\",\"\\\\\"] | 2
[\"\\x00\\x0a\\x1f\\x7f\"] | 1
[[],[[]],[1,[2,3],\"x\"]] | 3
[\"\u{e9}\",[\"\\\\\"]] | 2
";

fn told(rt: &(impl Abort + Print), alloc: Global, text: &[u8]) -> String {
    let told = match read_report(alloc, text) {
        Ok(_) => String::from_str(alloc, "read"),
        Err(error) => format!(in alloc; "{error}"),
    };
    given(rt, "a report", told)
}

#[test]
fn broken_reports_are_told(rt: HostRuntime) {
    has_rows(&rt, BROKEN, 27);
    for row in BROKEN.lines().skip(1) {
        let (words, due) = two_cells(&rt, row);
        let text = bytes_of(&rt, rt.alloc(), words);
        is_due(&rt, row, due, told(&rt, rt.alloc(), &text).as_str());
    }
}

/// The report of a block that left these values.
fn left(rt: &(impl Abort + Print), alloc: Global, list: &str) -> String {
    let report = format!(in alloc; "block a done\nport 0 []\nheld 0 []\nleft {list}\nquiet\n");
    given(rt, list, report)
}

#[test]
fn lists_are_tested(rt: HostRuntime) {
    let alloc = rt.alloc();
    has_rows(&rt, NO_LISTS, 46);
    for list in NO_LISTS.lines().skip(1) {
        let text = left(&rt, alloc, list);
        let told = told(&rt, alloc, text.as_bytes());
        is_due(
            &rt,
            list,
            "line 4: this is no list of values",
            told.as_str(),
        );
    }
    has_rows(&rt, LISTS, 11);
    for row in LISTS.lines().skip(1) {
        let (list, digits) = two_cells(&rt, row);
        let text = left(&rt, alloc, list);
        has_values(&rt, alloc, text.as_bytes(), number(&rt, digits));
    }
}

/// Tests that the first block of a report left so many values, and that the iterator of their list gives as many.
fn has_values(rt: &(impl Abort + Print), alloc: Global, text: &[u8], count: usize) {
    let report = given(rt, "a report", read_report(alloc, text));
    for block in &report.blocks {
        match block.kept {
            Kept::Left(list) => {
                check(rt, "values", list.len() == count);
                check(rt, "items", list.items().count() == count);
            }
            Kept::Record(_) => panic!(rt; "a record"),
        }
    }
    check(rt, "one block", report.blocks.len() == 1);
}
