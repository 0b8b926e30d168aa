//! Records that are refused, or were hardly meant so: the likely cause, and the line.
use crate::check::{bytes_of, given, has_cases, head_and_lines};
use crate::told::{begins, text_of};
use flow_explain::{Source, Style, check_both};
use std::alloc::Global;
use std::process::Abort;

/// An input and a block that is none.
const NETWORK: &str = r#"format = 1
[[block]]
name = "in"
kind = "buffer"
input = true
[[block]]
name = "out"
kind = "action"
work = []
[[link]]
from = "in"
to = "out"
propagate = true
"#;

/// Behind `case` stand records, as `bytes_of` reads them, and below that how the lines begin that are printed of them in the
/// short style.
const RECORDS: &str = "
case nothing
case in,1~in,~
case \u{ef}\u{bb}\u{bf}in,1^~^~in,\"a~b\"^~
case in~
rec:1:1: error: record 1 has one field; the name of an input, a comma and a value are wanted.
case in;1~
rec:1:1: error: record 1 has one field; the name of an input, a comma and a value are wanted. Its fields are parted by \";\".
case in,1~in\t1~
rec:2:1: error: record 2 has one field; the name of an input, a comma and a value are wanted. Its fields are parted by a tab.
case in,1~~~in,1,2~
rec:4:1: error: record 2 has 3 fields, and 2 are wanted. A value with a comma in it stands in double quotes.
case name,value~in,1~
rec:1:1: error: record 1 is for \"name\", and no input has that name. It may be a header, but the first line is a record too.
case number~in,1~
rec:1:1: error: record 1 has one field; the name of an input, a comma and a value are wanted. It may be a header, but the first line is a record too.
case name,value~number,1~
rec:1:1: error: record 1 is for \"name\", and no input has that name. The only input is \"in\".
case in,1~in ,2~
rec:2:1: error: record 2 is for \"in \", and no input has that name. A blank beside a name is part of it.
case in,1~out,2~
rec:2:1: error: record 2 is for \"out\", and no input has that name. The block has that name, and lacks \"input = true\".
case in,\"1~2\"~inn,2~
rec:3:1: error: record 2 is for \"inn\", and no input has that name. Did you mean \"in\"?
case im,1~
rec:1:1: error: record 1 is for \"im\", and no input has that name. The only input is \"in\".
case 'in',1~
rec:1:1: error: record 1 is for \"'in'\", and no input has that name. Did you mean \"in\"?
case in,1~in,caf\u{e9}~
rec:2:7: error: record 2 is no UTF-8 at the byte e9, which is '\u{e9}' in Latin-1; store it as UTF-8.
case \u{ff}\u{fe}i\u{0}n\u{0},\u{0}1\u{0}~\u{0}
rec:1:1: error: the records are UTF-16; store them as UTF-8.
case %%^~in,1^~
rec:1:1: error: record 1 is a line %%. Such a line parts a network from its records,
case in,1~\"in,2~in,3~
rec:2:1: error: record 2 reaches to the end of the text, since a double quote in it is never closed.
case in,1~in,\"2~in,3~
rec:2:1: warning: the last record begins here, since a double quote in it is never closed.
case in,1~in, 2~in, 3~
rec:2:1: warning: the value of record 2 begins with a blank, which is part of it.
";

#[test]
fn causes_are_told_with_their_lines(rt: HostRuntime) {
    has_cases(&rt, RECORDS, 21);
    for case in RECORDS.split("\ncase ").skip(1) {
        is_told(&rt, rt.alloc(), NETWORK, case);
    }
}

/// Two inputs that take one message in all, and one that takes as many as come.
const TAKERS: &str = r#"format = 1
block = [
    {name = "one", kind = "write_once", input = true},
    {name = "two", kind = "write_once", input = true},
    {name = "in", kind = "buffer", input = true},
    {name = "out", kind = "action", work = []},
]
link = [
    {from = "one", to = "out", propagate = true},
    {from = "two", to = "out", propagate = true},
    {from = "in", to = "out", propagate = true},
]
"#;

/// Cases as in `RECORDS`, of those inputs.
const SECONDS: &str = "
case one,1~two,1~in,1~in,2~
case one,1~in,1~one,2~one,3~two,1~\"two\",2~
rec:3:1: warning: record 3 is the second for \"one\", a write_once block, which takes one message in all: it waits for ever, and the status is 1 at best.
rec:6:1: warning: record 6 is the second for \"two\", a write_once block, which takes one message in all: it waits for ever, and the status is 1 at best.
";

#[test]
fn second_records_are_told(rt: HostRuntime) {
    has_cases(&rt, SECONDS, 2);
    for case in SECONDS.split("\ncase ").skip(1) {
        is_told(&rt, rt.alloc(), TAKERS, case);
    }
}

/// Tests that lines as a case has them are printed of its records in the short style.
fn is_told(rt: &(impl Abort + Print), alloc: Global, network: &str, case: &str) {
    let (words, wanted) = head_and_lines(case);
    let records = bytes_of(rt, alloc, words);
    let mut out = Vec::new(alloc);
    let network = Source {
        name: "net",
        text: network.as_bytes(),
    };
    let source = Source {
        name: "rec",
        text: &records,
    };
    let both = check_both(alloc, network, source, Style::Short, &mut out);
    given(rt, case, both);
    begins(rt, case, text_of(rt, alloc, &out).as_str(), wanted);
}
