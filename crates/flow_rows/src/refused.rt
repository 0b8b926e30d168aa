//! Networks that are refused, each with its line, and some that are read and look as if they were not.
use crate::check::check;
use crate::told::told_by;
use flow_trial::{ENOUGH, add, chain, has_lines, is_refusal, is_report};
use std::alloc::{AllocError, Global};
use std::io;
use std::io::Write;
use std::process::Abort;
use std::sync::Wait;
use std::test::Fail;
use std::thread::Threads;
use std::time::{Clock, CpuClock};

/// A whole text, and the line that it is refused with.
const WHOLE: &[(&[u8], &str)] = &[
    (b"format", "1 Syntax"),
    (b"format = 1\nformat = 1\nblock = []\n", "1 Syntax"),
    (b"format = 1\nblock = []\n# \xff\n", "1 Syntax"),
    (b"\xff", "1 Syntax"),
    (b"format = 1\nblock = [", "1 Syntax"),
    (b"format = 9223372036854775808\n", "1 Syntax"),
    // A fault of the format stands before it in the text, and is told after it.
    (b"format = 2\n[[block]\n", "1 Syntax"),
    // Half of a mark of byte order.
    (b"\xef\xbbformat = 1\nblock = []\n", "1 Syntax"),
    (b"", "3 MissingKey top"),
    (b"block = 3\nstrange = 1\n", "3 MissingKey top"),
    (b"format = \"1\"\nblock = []\n", "4 WrongType top"),
    (b"format = 1.0\nblock = []\n", "4 WrongType top"),
    (b"format = true\nstrange = 1\n", "4 WrongType top"),
    (b"format = 0\nstrange = 1\n", "7 BadFormat"),
    (b"format = 3\nblock = [{strange = 1}]\n", "7 BadFormat"),
    (b"format = -1\nblock = 3\n", "7 BadFormat"),
    (b"format = 4294967297\nblock = []\n", "7 BadFormat"),
    (b"\xef\xbb\xbfformat = 3\n", "7 BadFormat"),
];

/// In each row the line of a refusal, and a text without its first line, which names the format; ' ; ' stands for the
/// end of a line.
const TEXTS: &str = r#"
# Keys that there are not.
2 UnknownKey top | block = [] ; exit = []
2 UnknownKey top | block = [] ; Format = 1
2 UnknownKey top | block = [] ; "" = 1
2 UnknownKey block 0 | block = [{name = "a", kind = "buffer", capasity = 1}]
2 UnknownKey block 0 | block = [{sise = 1}]
2 UnknownKey block 0 | block = [{port = 1}]
2 UnknownKey block 0 | block = [{gredy = true}]
2 UnknownKey block 0 | block = [{ordered = true}]
2 UnknownKey block 0 | block = [{groups = 1}]
2 UnknownKey block 0 | block = [{output = true}]
2 UnknownKey block 2 | block = [{}, {}, {strange = 1}, {strange = 1}]
2 UnknownKey link 0 | block = [] ; link = [{ports = 1}]
2 UnknownKey link 0 | block = [] ; link = [{greedy = true}]
2 UnknownKey link 1 | block = [] ; link = [{}, {strange = 1}]
# Keys that are required.
3 MissingKey top | # nothing else
3 MissingKey top | link = []
3 MissingKey block 0 | block = [{kind = "buffer"}, {name = "a", kind = "transfrom"}]
3 MissingKey block 0 | block = [{name = "a"}]
3 MissingKey block 1 | block = [{name = "a", kind = "buffer"}, {}]
3 MissingKey block 0 | block = [{greedy = true}]
3 MissingKey link 0 | block = [] ; link = [{to = "a"}]
3 MissingKey link 0 | block = [] ; link = [{from = "a"}]
3 MissingKey link 0 | block = [] ; link = [{port = 0}]
3 MissingKey link 1 | block = [] ; link = [{from = "a", to = "a"}, {}]
# Values of other types.
4 WrongType top | block = 3
4 WrongType top | block = "[]"
4 WrongType top | [block] ; name = "a" ; kind = "buffer"
4 WrongType top | block = [1]
4 WrongType top | block = [{name = "a", kind = "buffer"}, 1]
4 WrongType top | block = [] ; link = 3
4 WrongType top | block = [] ; link = [1]
4 WrongType block 0 | block = [{name = 1, kind = "buffer"}]
4 WrongType block 0 | block = [{name = "a", kind = 1}]
4 WrongType block 0 | block = [{name = "a", kind = "Buffer"}]
4 WrongType block 0 | block = [{name = "a", kind = "transfrom"}]
4 WrongType block 0 | block = [{name = "a", kind = "writeonce"}]
4 WrongType block 0 | block = [{name = "a", kind = "buffer", input = "true"}]
4 WrongType block 0 | block = [{name = "a", kind = "join", greedy = "false"}]
4 WrongType block 0 | block = [{name = "a", kind = "join", greedy = 0}]
4 WrongType block 0 | block = [{name = "a", kind = "action", work = "id"}]
4 WrongType block 0 | block = [{name = "a", kind = "action", work = ["id", 2]}]
4 WrongType link 0 | block = [] ; link = [{from = 1, to = "a"}]
4 WrongType link 0 | block = [] ; link = [{from = "a", to = 0}]
4 WrongType link 0 | block = [] ; link = [{from = "a", to = "b", propagate = "true"}]
4 WrongType link 1 | block = [] ; link = [{from = "a", to = "b"}, {from = "a", to = "b", propagate = 1}]
4 WrongType block 0 | block = [{name = "a", kind = "buffer", capacity = "1"}]
4 WrongType block 0 | block = [{name = "a", kind = "buffer", capacity = 1.0}]
4 WrongType block 0 | block = [{name = "a", kind = "buffer", capacity = -1}]
4 WrongType block 0 | block = [{name = "a", kind = "buffer", capacity = 4294967296}]
4 WrongType block 0 | block = [{name = "a", kind = "action", work = [], lanes = 4294967296}]
4 WrongType block 0 | block = [{name = "a", kind = "batch", size = "1"}]
4 WrongType block 0 | block = [{name = "a", kind = "batch", size = -1}]
4 WrongType link 0 | block = [] ; link = [{from = "a", to = "b", when = 2}]
4 WrongType link 0 | block = [] ; link = [{from = "a", to = "b", when = ["even"]}]
4 WrongType link 0 | block = [] ; link = [{from = "a", to = "b", max = true}]
4 WrongType link 0 | block = [] ; link = [{from = "a", to = "b", max = -1}]
4 WrongType link 0 | block = [] ; link = [{from = "a", to = "b", max = 4294967296}]
4 WrongType block 0 | block = [{name = "a", kind = "buffer", ports = -1}]
4 WrongType link 0 | block = [] ; link = [{from = "a", to = "b", port = "0"}]
4 WrongType link 0 | block = [] ; link = [{from = "a", to = "b", port = 4294967296}]
# Predicates that there are not.
6 BadWhen link 0 | block = [] ; link = [{from = "a", to = "b", when = "evn"}]
6 BadWhen link 0 | block = [] ; link = [{from = "a", to = "b", when = ""}]
6 BadWhen link 1 | link = [{from = "a", to = "b", when = "eq -0"}, {from = "a", to = "b", when = "lt"}] ; block = []
# Blocks that are in no plan.
8 Plan 2 DuplicateName block 1 | block = [{name = "a", kind = "buffer"}, {name = "a", kind = "buffer"}]
8 Plan 6 BadOption block 0 | block = [{name = "a", kind = "action"}]
8 Plan 6 BadOption block 0 | block = [{name = "a", kind = "transform"}]
8 Plan 6 BadOption block 0 | block = [{name = "a", kind = "transform_many"}]
8 Plan 6 BadOption block 0 | block = [{name = "a", kind = "buffer", work = []}]
8 Plan 6 BadOption block 1 | block = [{name = "a", kind = "buffer"}, {name = "", kind = "buffer"}]
8 Plan 6 BadOption block 0 | block = [{name = "a b", kind = "buffer"}]
8 Plan 6 BadOption block 0 | block = [{name = "\u00e9", kind = "buffer"}]
8 Plan 6 BadOption block 0 | block = [{name = "a", kind = "buffer", capacity = 0}]
8 Plan 6 BadOption block 0 | block = [{name = "a", kind = "buffer", capacity = 2147483648}]
8 Plan 6 BadOption block 0 | block = [{name = "a", kind = "buffer", capacity = 4294967295}]
8 Plan 6 BadOption block 0 | block = [{name = "a", kind = "buffer", lanes = 1}]
8 Plan 6 BadOption block 0 | block = [{name = "a", kind = "buffer", ports = 1}]
8 Plan 6 BadOption block 0 | block = [{name = "a", kind = "broadcast", work = []}]
8 Plan 6 BadOption block 0 | block = [{name = "a", kind = "write_once", capacity = 1}]
8 Plan 6 BadOption block 0 | block = [{name = "a", kind = "broadcast", capacity = 0}]
8 Plan 4 Port link 0 | block = [{name = "a", kind = "buffer"}, {name = "b", kind = "broadcast"}] ; link = [{from = "a", to = "b", port = 1}]
8 Plan 6 BadOption block 0 | block = [{name = "a", kind = "action", work = [], lanes = 0}]
8 Plan 6 BadOption block 0 | block = [{name = "a", kind = "action", work = [], lanes = 17}]
# Batches without a size, with a size out of range, and with less room than one.
8 Plan 6 BadOption block 0 | block = [{name = "a", kind = "batch"}]
8 Plan 6 BadOption block 0 | block = [{name = "a", kind = "batch", size = 4097}]
8 Plan 6 BadOption block 0 | block = [{name = "a", kind = "batch", size = 1, work = []}]
8 Plan 6 BadOption block 0 | block = [{name = "a", kind = "batch", size = 1, lanes = 1}]
8 Plan 6 BadOption block 0 | block = [{name = "a", kind = "buffer", size = 1}]
8 Plan 6 BadOption block 0 | block = [{name = "a", kind = "transform_many", work = [], size = 1}]
8 Plan 6 BadOption block 2 | block = [{name = "in", kind = "buffer", input = true}, {name = "t", kind = "transform", work = ["int"]}, {name = "b", kind = "batch", size = 0}, {name = "out", kind = "action", work = []}]
8 Plan 7 CapacityBelowSize block 2 | block = [{name = "in", kind = "buffer", input = true}, {name = "t", kind = "transform", work = ["int"]}, {name = "b", kind = "batch", size = 3, capacity = 2}, {name = "out", kind = "action", work = []}]
8 Plan 6 BadOption block 1 | block = [{name = "a", kind = "batch", size = 3, capacity = 2}, {name = "b", kind = "batch"}]
# That a block reserves is said of joins alone.
8 Plan 6 BadOption block 0 | block = [{name = "a", kind = "buffer", greedy = true}]
8 Plan 6 BadOption block 0 | block = [{name = "a", kind = "batch", size = 1, greedy = true}]
8 Plan 6 BadOption block 0 | block = [{name = "a", kind = "batch", size = 1, greedy = false}]
8 Plan 6 BadOption block 0 | block = [{name = "a", kind = "batched_join", size = 1, greedy = false}]
# Links that are in no plan. Only the first port is there.
8 Plan 4 Port link 0 | block = [{name = "a", kind = "buffer"}, {name = "b", kind = "buffer"}] ; link = [{from = "a", to = "b", port = 1}]
8 Plan 4 Port link 1 | block = [{name = "a", kind = "buffer"}, {name = "b", kind = "buffer", ports = 2}] ; link = [{from = "a", to = "b", port = 0}, {from = "a", to = "b", port = 1}]
8 Plan 6 BadOption block 1 | block = [{name = "a", kind = "buffer"}, {name = "b", kind = "buffer", ports = 2}] ; link = [{from = "a", to = "b", port = 0}]
8 Plan 6 BadOption link 0 | block = [{name = "a", kind = "buffer"}] ; link = [{from = "a", to = "a", max = 0}]
8 Plan 6 BadOption link 0 | block = [{name = "a", kind = "buffer"}] ; link = [{from = "a", to = "a", max = 2147483648}]
# shared source
8 Plan 8 SharedSource block 1 | block = [{name = "a", kind = "buffer", input = true}, {name = "j", kind = "join", ports = 2, greedy = false}] ; link = [{from = "a", to = "j"}, {from = "a", to = "j", port = 1}]
# With two faults the first in order counts.
8 Plan 8 SharedSource block 1 | block = [{name = "a", kind = "buffer"}, {name = "j", kind = "join", greedy = false}] ; link = [{from = "j", to = "a"}, {from = "a", to = "j"}, {from = "a", to = "j", port = 1}]
8 Plan 7 CapacityBelowSize block 0 | block = [{name = "a", kind = "batch", size = 2, capacity = 1}, {name = "j", kind = "join", greedy = false}] ; link = [{from = "a", to = "j"}, {from = "a", to = "j", port = 1}]
# An unknown key comes before one that is missing, wherever they stand.
2 UnknownKey link 0 | block = [{}] ; link = [{strange = 1}]
2 UnknownKey block 0 | block = [{strange = 1, name = 1, kind = 1}]
# A missing key comes before a wrong type.
3 MissingKey link 0 | block = [{name = 1, kind = "buffer"}] ; link = [{from = "a"}]
3 MissingKey block 1 | block = [{name = "a", kind = "no"}, {}]
3 MissingKey top | link = 3
3 MissingKey block 0 | block = [{capacity = -1}]
3 MissingKey link 0 | block = [] ; link = [{when = 2}]
3 MissingKey link 0 | block = [] ; link = [{max = -1}]
# A wrong type comes before a function that is none.
4 WrongType link 0 | block = [{name = "a", kind = "action", work = ["no"]}] ; link = [{from = 1, to = "a"}]
4 WrongType block 1 | block = [{name = "a", kind = "action", work = ["no"]}, {name = "a", kind = "no"}]
4 WrongType block 0 | block = [{name = "a", kind = "action", work = ["no", 1]}]
# A wrong type comes before a predicate that is none.
4 WrongType link 1 | block = [] ; link = [{from = "a", to = "b", when = "no"}, {from = "a", to = "b", max = -1}]
# A function that is none comes before a predicate that is none.
5 BadWork block 0 | block = [{name = "a", kind = "action", work = [""]}] ; link = [{from = "a", to = "b", when = "no"}]
# A predicate that is none comes before what is wrong with the plan.
6 BadWhen link 0 | block = [{name = "a", kind = "action"}] ; link = [{from = "a", to = "b", when = "no"}]
# What is read as it should be, in networks that are in no plan for another cause.
8 Plan 2 DuplicateName block 1 | block = [{name = "a", kind = "buffer", capacity = 1}, {name = "a", kind = "buffer"}]
8 Plan 3 UnknownBlock link 0 | block = [] ; link = [{from = "a", to = "b", when = "any"}]
8 Plan 3 UnknownBlock link 0 | block = [] ; link = [{from = "a", to = "b", max = 4294967295}]
# A function that is none comes before what is wrong with the plan, and is looked at where its kind has none too.
5 BadWork block 1 | block = [{name = "a", kind = "buffer"}, {name = "a", kind = "buffer", work = ["no"]}]
5 BadWork block 0 | block = [{name = "a", kind = "action", work = ["no"]}, {name = "b", kind = "action", work = ["no"]}]
# Within a pass the top comes first, the blocks then, the links last.
2 UnknownKey top | strange = 1 ; block = [{strange = 1}]
2 UnknownKey block 1 | link = [{strange = 1}] ; block = [{}, {strange = 1}]
3 MissingKey top | link = [{}]
3 MissingKey block 1 | link = [{}] ; block = [{name = "a", kind = "buffer"}, {name = "a"}]
4 WrongType top | link = [1] ; block = [{name = 1, kind = "buffer"}]
4 WrongType block 0 | link = [{from = 1, to = 1}] ; block = [{name = 1, kind = "buffer"}]
# What is no array of tables is skipped until its type is looked at.
4 WrongType top | block = [{strange = 1}, 1]
2 UnknownKey link 0 | block = [1, {strange = 1}] ; link = [{strange = 1}]
4 WrongType top | block = [{}, 1] ; link = [{from = "a", to = "a", propagate = 1}]
"#;

/// In each row what stands for the function of an action, and is none.
const WORKS: &str = r#"
["addd 1"]
["int", "addd 1"]
["int", ""]
["Int"]
[" int"]
["int "]
["id 1"]
["add"]
["add "]
["add  1"]
["add +1"]
["add -"]
["add 1.0"]
["add 9223372036854775808"]
["add -9223372036854775809"]
["field"]
["field -1"]
["field 4096"]
["repeat -1"]
["repeat 1001"]
["id","id","id","id","id","id","id","id","id","id","id","id","id","id","id","id","id"]
"#;

/// Three buffers, an action and an input.
const FIVE: &str = r#"block = [
    {name = "a", kind = "buffer"}, {name = "b", kind = "buffer"}, {name = "c", kind = "buffer"},
    {name = "out", kind = "action", work = []}, {name = "in", kind = "buffer", input = true},
]"#;

/// In each row the line of a refusal, and links among those five.
const LINKS: &str = "
8 Plan 3 UnknownBlock link 0 | no>b
8 Plan 3 UnknownBlock link 1 | a>b b>oot
8 Plan 5 NoOutput link 1 | a>b out>c
8 Plan 9 Cycle | a>b b>a
8 Plan 9 Cycle | b>b
8 Plan 9 Cycle | in>out c>a a>b b>c
# With two faults the first in order counts.
8 Plan 3 UnknownBlock link 1 | out>b a>oot
8 Plan 5 NoOutput link 1 | a>in out>b
8 Plan 9 Cycle | a>b b>a c>b
";

/// The beginning and the rest of a text that is a network, and its report where nothing is posted.
const READ: &[(&[u8], &str, &[&str])] = &[
    (b"format = 1\n", "block = []", &["quiet"]),
    (
        b"\xef\xbb\xbf",
        "link = []\nblock = []\nformat = 1",
        &["quiet"],
    ),
    (b"format = 0x1\r\n", "block = [] # none\r", &["quiet"]),
    (
        b"format = 1\nlink = [{to = \"b\", from = \"a\"}]\n",
        r#"block = [{name = "b", kind = "action", work = []}, {kind = "buffer", name = "a"}]"#,
        &[
            "block b open ; port 0 [] ; held 0 [] ; record []",
            "block a open ; port 0 [] ; held 0 [] ; link 0 [] ; left [] ; quiet",
        ],
    ),
];

// Tests that a network is refused with this line.
fn refuses(
    rt: &(impl Abort + Print + Threads + Wait + Clock + CpuClock + Sync),
    alloc: Global,
    text: &[u8],
    line: &str,
) -> Result<(), Fail> {
    let told = told_by(rt, alloc, text, &b""[..], ENOUGH)?;
    check(
        rt,
        line,
        told.status == 2 && is_refusal(told.text.as_slice(), line),
    );
    Ok(())
}

#[test]
fn the_syntax_and_the_format_come_first(rt: HostRuntime) -> Result<(), Fail> {
    for (text, line) in WHOLE {
        refuses(&rt, rt.alloc(), text, line)?;
    }
    Ok(())
}

/// A text whose first line names the format, and whose others are these, between which ' ; ' stands.
fn written(alloc: Global, lines: &str) -> Result<Vec<u8>, AllocError> {
    let mut text = Vec::new(alloc);
    add(&mut text, &["format = 1\n"])?;
    for line in lines.split(" ; ") {
        add(&mut text, &[line, "\n"])?;
    }
    Ok(text)
}

/// Tests each row of a table, in which the line of a refusal stands before what makes a text.
fn check_rows(
    rt: &(impl Abort + Print + Threads + Wait + Clock + CpuClock + Sync),
    alloc: Global,
    table: &str,
    has_links: bool,
) -> Result<(), Fail> {
    for row in table.lines().skip(1) {
        if row.starts_with("#") {
            continue;
        }
        let (line, others) = row.split_once(" | ").ok_or("no row")?;
        let text = if has_links {
            linked(alloc, others)?
        } else {
            written(alloc, others)?
        };
        refuses(rt, alloc, text.as_slice(), line)?;
    }
    Ok(())
}

#[test]
fn the_first_fault_of_a_text_is_told(rt: HostRuntime) -> Result<(), Fail> {
    check_rows(&rt, rt.alloc(), TEXTS, false)
}

#[test]
fn functions_have_known_steps(rt: HostRuntime) -> Result<(), Fail> {
    for work in WORKS.lines().skip(1) {
        let mut text = Vec::new(rt.alloc());
        let block = "format = 1\nblock = [{name = \"a\", kind = \"action\", work = ";
        add(&mut text, &[block, work, "}]\n"])?;
        refuses(&rt, rt.alloc(), text.as_slice(), "5 BadWork block 0")?;
    }
    Ok(())
}

/// The five blocks with these links, each written as `a>b`.
fn linked(alloc: Global, links: &str) -> Result<Vec<u8>, Fail> {
    let mut text = Vec::new(alloc);
    add(&mut text, &["format = 1\n", FIVE])?;
    for link in links.split(" ") {
        let (from, to) = link.split_once(">").ok_or("no link")?;
        add(
            &mut text,
            &["\n[[link]]\nfrom = \"", from, "\"\nto = \"", to, "\"\n"],
        )?;
    }
    Ok(text)
}

#[test]
fn links_lead_from_outputs_to_free_ports(rt: HostRuntime) -> Result<(), Fail> {
    check_rows(&rt, rt.alloc(), LINKS, true)
}

#[test]
fn other_spellings_are_read(rt: HostRuntime) -> Result<(), Fail> {
    for (beginning, rest, report) in READ {
        let mut text = beginning.to_vec(rt.alloc())?;
        add(&mut text, &[rest, "\n"])?;
        let told = told_by(&rt, rt.alloc(), text.as_slice(), &b""[..], ENOUGH)?;
        check(&rt, rest, is_report(told.text.as_slice(), report));
    }
    Ok(())
}

/// Writes so many buffers, each linked to the one before.
fn add_buffers(text: &mut Vec<u8>, buffers: u32) -> io::Result<()> {
    for number in 0..buffers {
        writeln!(text, "[[block]]\nname = \"b{number}\"\nkind = \"buffer\"")?;
    }
    for number in 1..buffers {
        let before = number - 1;
        writeln!(text, "[[link]]\nfrom = \"b{before}\"\nto = \"b{number}\"")?;
    }
    Ok(())
}

/// So many buffers, each linked to the next, and then so many links to a block that there is not.
fn large(alloc: Global, buffers: u32, strays: u32) -> Result<Vec<u8>, Fail> {
    let mut text = Vec::new(alloc);
    add(&mut text, &["format = 1\n"])?;
    add_buffers(&mut text, buffers)?;
    for _ in 0..strays {
        add(&mut text, &["[[link]]\nfrom = \"b0\"\nto = \"no\"\n"])?;
    }
    Ok(text)
}

/// So many buffers in a chain, so many links to no block, what stands at the end, and the line.
const LARGE: &[(u32, u32, &str, &str)] = &[
    (257, 1, "", "8 Plan 1 Limit"),
    (1, 1_025, "", "8 Plan 1 Limit"),
    (1, 1_024, "", "8 Plan 3 UnknownBlock link 0"),
    (256, 769, "", "8 Plan 3 UnknownBlock link 255"),
    (256, 770, "", "8 Plan 1 Limit"),
    (
        256,
        0,
        "[[link]]\nfrom = \"b255\"\nto = \"b0\"",
        "8 Plan 9 Cycle",
    ),
];

#[test]
fn networks_have_their_limits(rt: HostRuntime) -> Result<(), Fail> {
    for (buffers, strays, end, line) in LARGE {
        let mut text = large(rt.alloc(), *buffers, *strays)?;
        add(&mut text, &[end])?;
        refuses(&rt, rt.alloc(), text.as_slice(), line)?;
    }
    Ok(())
}

#[test]
fn the_largest_network_runs(rt: HostRuntime) -> Result<(), Fail> {
    let text = large(rt.alloc(), 256, 0)?;
    let told = told_by(&rt, rt.alloc(), text.as_slice(), &b""[..], ENOUGH)?;
    let last = "block b254 open ; link 254 [] ; block b255 open ; left [] ; quiet";
    assert!(rt; told.status == 1 && has_lines(told.text.as_slice(), last));
    Ok(())
}

/// A name of 64 bytes, of each sort that it may have but one, and one of 65.
const LONGEST: &str = "abcdefghijklmnopqrstuvwxyzABCDEFGHIJKLMNOPQRSTUVWXYZ0123456789_- buffer";

const TOO_LONG: &str = "abcdefghijklmnopqrstuvwxyzABCDEFGHIJKLMNOPQRSTUVWXYZ0123456789_-. buffer";

#[test]
fn names_have_64_bytes_at_most(rt: HostRuntime) -> Result<(), Fail> {
    let network = chain(rt.alloc(), LONGEST)?;
    let told = told_by(&rt, rt.alloc(), network.as_slice(), &b""[..], ENOUGH)?;
    assert!(rt; told.status == 0);
    let network = chain(rt.alloc(), TOO_LONG)?;
    refuses(
        &rt,
        rt.alloc(),
        network.as_slice(),
        "8 Plan 6 BadOption block 0",
    )
}
