//! Tests by name, and lines of cases with what is to come of each.
//!
//! A text of cases has a line `case NAME | .. | ..` for each, and below it lines `CALL = ANSWER`.
use std::process::Abort;

/// What came of a call: a word, and the number that belongs to it, or 0.
pub(crate) type Came = (&'static str, i64);

/// Tests that the case with this name comes out as it should.
pub(crate) fn check(rt: &(impl Abort + Print), name: &str, holds: bool) {
    assert!(rt; holds, "{name}");
}

/// Tests that a text has so many cases.
pub(crate) fn has_cases(rt: &(impl Abort + Print), text: &str, count: usize) {
    let found = text.split("\ncase ").skip(1).count();
    assert!(rt; found == count, "{found} cases, and not {count}");
}

/// Tests that behind its first line a text has so many rows.
pub(crate) fn has_lines(rt: &(impl Abort + Print), text: &str, count: usize) {
    let found = text.lines().skip(1).count();
    assert!(rt; found == count, "{found} rows, and not {count}");
}

/// Tests that of a call of this case came what is wanted: a word, or a word and a number.
pub(crate) fn comes(rt: &(impl Abort + Print), case: &str, call: &str, wanted: &str, came: Came) {
    let (word, digits) = wanted.split_once(" ").unwrap_or((wanted, "0"));
    let (found, number) = came;
    let holds = word == found && digits.parse::<i64>().ok() == Some(number);
    assert!(rt;
        holds,
        "{case}\n  {call}\n  wanted  {wanted}\n  came    {found} {number}"
    );
}

/// The number that these digits are.
pub(crate) fn number(rt: &(impl Abort + Print), digits: &str) -> i64 {
    match digits.parse::<i64>() {
        Ok(number) => number,
        Err(_) => panic!(rt; "no number: {digits}"),
    }
}

/// The count that these digits are.
pub(crate) fn count(rt: &(impl Abort + Print), digits: &str) -> u32 {
    match digits.parse::<u32>() {
        Ok(count) => count,
        Err(_) => panic!(rt; "no count: {digits}"),
    }
}
