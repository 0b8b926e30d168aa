//! Joins whose inputs get different numbers of records.
use crate::check::{bytes_of, given, has_rows, two_cells};
use crate::networks::planned;
use crate::told::{begins, text_of};
use flow_explain::{Source, Style, warn_unequal};
use std::alloc::Global;
use std::process::Abort;

/// In each row the name of a situation, what a block `t` is, the links of two inputs `a` and `b` and of that block into ports
/// of a join `j`, the records as `bytes_of` reads them, and how the warning begins.
const JOINS: &str = r#"
as many | kind = "buffer" | {from = "a", to = "j"}, {from = "b", to = "j", port = 1} | a,1~b,2~b,3~a,4~ | nothing
none at all | kind = "buffer" | {from = "a", to = "j"}, {from = "b", to = "j", port = 1} | nothing | nothing
one more at the first port | kind = "buffer" | {from = "a", to = "j"}, {from = "b", to = "j", port = 1} | a,1~b,2~a,3~ | rec:3:1: warning: block 2 "j" gets more records from "a" (2) than from "b" (1): what has no partner waits
one more at the second port | kind = "buffer" | {from = "a", to = "j"}, {from = "b", to = "j", port = 1} | b,"1~1"~b,2~a,3~ | rec:3:1: warning: block 2 "j" gets more records from "b" (2) than from "a" (1)
none at a port | kind = "buffer" | {from = "a", to = "j"}, {from = "b", to = "j", port = 1} | b,1~ | rec:1:1: warning: block 2 "j" gets more records from "b" (1) than from "a" (0)
behind a mark | kind = "buffer" | {from = "a", to = "j"}, {from = "b", to = "j", port = 1} | ï»¿b,1~ | rec:1:1: warning: block 2 "j" gets more records from "b" (1)
over a transform | kind = "transform", work = ["int"] | {from = "a", to = "t"}, {from = "t", to = "j"}, {from = "b", to = "j", port = 1} | a,1~a,2~b,3~ | rec:2:1: warning: block 2 "j" gets more records from "a" (2)
over a buffer | kind = "buffer", capacity = 1 | {from = "b", to = "t"}, {from = "a", to = "j"}, {from = "t", to = "j", port = 1} | a,1~a,2~b,3~ | rec:2:1: warning: block 2 "j" gets more records from "a" (2)
a block that makes more | kind = "transform_many", work = ["repeat 2"] | {from = "a", to = "t"}, {from = "t", to = "j"}, {from = "b", to = "j", port = 1} | a,1~a,2~b,3~ | nothing
a block that makes fewer | kind = "batch", size = 2 | {from = "a", to = "t"}, {from = "t", to = "j"}, {from = "b", to = "j", port = 1} | a,1~a,2~b,3~ | nothing
a block that copies | kind = "broadcast" | {from = "a", to = "t"}, {from = "t", to = "j"}, {from = "b", to = "j", port = 1} | a,1~a,2~b,3~ | nothing
a predicate | kind = "buffer" | {from = "a", to = "j", when = "even"}, {from = "b", to = "j", port = 1} | a,1~a,2~b,3~ | nothing
a predicate in front | kind = "buffer" | {from = "a", to = "t", when = "even"}, {from = "t", to = "j"}, {from = "b", to = "j", port = 1} | a,1~a,2~b,3~ | nothing
a link that counts | kind = "buffer" | {from = "a", to = "j", max = 1}, {from = "b", to = "j", port = 1} | a,1~a,2~b,3~ | nothing
another way out | kind = "buffer" | {from = "a", to = "j"}, {from = "a", to = "t"}, {from = "b", to = "j", port = 1} | a,1~a,2~b,3~ | nothing
another way in | kind = "buffer", input = true | {from = "a", to = "j"}, {from = "t", to = "j"}, {from = "b", to = "j", port = 1} | a,1~a,2~b,3~ | nothing
an input that takes from another | kind = "buffer", input = true | {from = "a", to = "t"}, {from = "t", to = "j"}, {from = "b", to = "j", port = 1} | a,1~a,2~b,3~ | nothing
another port that is not known | kind = "batch", size = 2, input = true | {from = "a", to = "j"}, {from = "b", to = "j", port = 1}, {from = "t", to = "j", port = 2} | a,1~a,2~b,3~ | rec:2:1: warning: block 2 "j" gets more records from "a" (2)
a third port | kind = "buffer", input = true | {from = "a", to = "j"}, {from = "b", to = "j", port = 1}, {from = "t", to = "j", port = 2} | a,1~b,2~a,3~t,4~t,5~t,6~b,7~ | rec:6:1: warning: block 2 "j" gets more records from "t" (3) than from "a" (2)
a record that is refused | kind = "buffer" | {from = "a", to = "j"}, {from = "b", to = "j", port = 1} | a,1~a,2~b~ | nothing
a record for no input | kind = "buffer" | {from = "a", to = "j"}, {from = "b", to = "j", port = 1} | a,1~a,2~t,3~ | nothing
"#;

/// The blocks in front of that block.
const BLOCKS: &str = r#"
    {name = "a", kind = "buffer", input = true},
    {name = "b", kind = "buffer", input = true},
    {name = "j", kind = "join", ports = 3},
"#;

/// The network of these blocks, that block and these links.
fn network_of(rt: &(impl Abort + Print), alloc: Global, block: &str, links: &str) -> String {
    let network = format!(in alloc;
        "format = 1\nblock = [{BLOCKS} {{name = \"t\", {block}}}]\nlink = [{links}]\n"
    );
    given(rt, links, network)
}

/// What is told of these records for a network.
fn told_of(rt: &(impl Abort + Print), alloc: Global, network: &str, records: &[u8]) -> String {
    let plan = planned(rt, alloc, network.as_bytes());
    let mut out = Vec::new(alloc);
    let source = Source {
        name: "rec",
        text: records,
    };
    let warned = warn_unequal(alloc, &plan, source, Style::Short, &mut out);
    given(rt, network, warned);
    text_of(rt, alloc, &out)
}

#[test]
fn unequal_inputs_of_joins_are_told(rt: HostRuntime) {
    has_rows(&rt, JOINS, 21);
    for row in JOINS.lines().skip(1) {
        let (_, others) = two_cells(&rt, row);
        let (block, others) = two_cells(&rt, others);
        let (links, others) = two_cells(&rt, others);
        let (words, wanted) = two_cells(&rt, others);
        let network = network_of(&rt, rt.alloc(), block, links);
        let records = bytes_of(&rt, rt.alloc(), words);
        let told = told_of(&rt, rt.alloc(), network.as_str(), &records);
        let wanted = if wanted == "nothing" { "" } else { wanted };
        begins(&rt, row, told.as_str(), wanted);
    }
}
