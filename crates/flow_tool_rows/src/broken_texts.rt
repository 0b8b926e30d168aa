//! Texts that are broken in many ways: each is refused, and told so.
use crate::check::{bytes_of, check, given, has_rows, number, two_cells};
use crate::told::printed;
use flow_explain::{Style, Verdict};
use flow_fault_text::TextFault;
use std::alloc::Global;
use std::process::Abort;

/// Texts that are no TOML, a row each, as `bytes_of` reads them.
const BROKEN: &str = "
\u{ff}\u{fe}f\u{0}o\u{0}r\u{0}
\u{fe}\u{ff}\u{0}f
format = 1~block = []~name = \"caf\u{e9}\"~
\u{ef}\u{bb}\u{bf}\u{ef}\u{bb}\u{bf}format = 1~
\u{ef}\u{bb}
\u{0}
\u{0}\u{0}\u{0}\u{0}
format = 1\u{0}
^
^format = 1~
[
[[
[[]]
[[block
[[block]
[[block]]]
[[block]]~name
[[block]]~name =
[[block]]~name = \"
[[block]]~name = \"\"\"a~\"
[[block]]~name = 'a~
[[block]]~name = \"a\\
[[block]]~name = \"\\ud800\"
block = [{
block = [{]}
block = [}
block = [,]
block = {name = \"a\", name = \"a\"}
format == 1
= 1
format = 1 block = []
format = 1~block = []~%%~in,1~
[block]~[[block]]~
block = []~[[block]]~
a.b = 1~a = 2~
format = 99999999999999999999999~
\"\\x\" = 1
\u{e2}\u{80}\u{a8}
";

// Tests that a text is refused for its syntax and told on some line.
fn is_told(rt: &(impl Abort + Print), alloc: Global, row: &str, style: Style) {
    let (verdict, told) = printed(rt, alloc, &bytes_of(rt, alloc, row), style);
    check(rt, row, verdict == Verdict::Refused(TextFault::Syntax));
    check(rt, row, told.as_str().contains(": error: "));
}

#[test]
fn broken_texts_are_told(rt: HostRuntime) {
    has_rows(&rt, BROKEN, 38);
    for row in BROKEN.lines().skip(1) {
        is_told(&rt, rt.alloc(), row, Style::Full);
        is_told(&rt, rt.alloc(), row, Style::Short);
    }
}

/// In each row how often something is written, so that a text is deep or long, and what; `line feed` is one.
const MANY: &str = r#"
1000000 | [
5000 | {
5000 | [[
5000 | a.
5000 | "
5000 | '
5000 | #
5000 | \
5000 | x = [
5000 | [a]
5000 | x
5000 | line feed
"#;

// Whether no line of a text is long.
fn are_short(text: &str) -> bool {
    for line in text.lines() {
        if line.len() >= 400 {
            return false;
        }
    }
    true
}

#[test]
fn deep_and_long_texts_are_told(rt: HostRuntime) {
    let alloc = rt.alloc();
    has_rows(&rt, MANY, 12);
    for row in MANY.lines().skip(1) {
        let (count, piece) = two_cells(&rt, row);
        let piece = if piece == "line feed" { "\n" } else { piece };
        let text = given(&rt, row, piece.repeat(alloc, number(&rt, count)));
        let (verdict, told) = printed(&rt, alloc, text.as_bytes(), Style::Full);
        check(&rt, row, verdict != Verdict::Accepted);
        check(&rt, row, are_short(told.as_str()));
    }
}

/// A network in which each prefix is tried.
const WHOLE: &str = r#"format = 1
block = [
    {name = "in", kind = "buffer", input = true}, # the input
    {name = 'out', kind = "action", work = ["int", "add 1"]},
]
[[link]]
from = "in"
to = """out"""
propagate = true
"#;

#[test]
fn each_prefix_of_a_network_is_told(rt: HostRuntime) {
    let bytes = WHOLE.as_bytes();
    for (end, _) in bytes.iter().enumerate() {
        let (verdict, told) = printed(&rt, rt.alloc(), &bytes[..end], Style::Full);
        let told = told.as_str();
        let is_accepted = verdict == Verdict::Accepted;
        check(&rt, told, is_accepted == told.contains("net: accepted"));
        check(&rt, told, is_accepted != told.contains(": error: "));
    }
}
