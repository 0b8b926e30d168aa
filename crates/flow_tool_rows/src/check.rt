//! Tests by name, and texts of rows and of cases.
use std::alloc::Global;
use std::process::Abort;

/// Tests that the case with this name comes out as it should.
pub(crate) fn check(rt: &(impl Abort + Print), name: &str, holds: bool) {
    assert!(rt; holds, "{name}");
}

/// What comes of a call that is to succeed in this row.
pub(crate) fn given<T, E: Drop>(rt: &(impl Abort + Print), row: &str, made: Result<T, E>) -> T {
    match made {
        Ok(given) => given,
        Err(_) => panic!(rt; "refused, or out of memory: {row}"),
    }
}

/// Tests that of this row came the text that is due.
pub(crate) fn is_due(rt: &(impl Abort + Print), row: &str, due: &str, came: &str) {
    assert!(rt; came == due, "{row}\n  wanted  {due}\n  came    {came}");
}

/// Tests that of this row came the bytes that are due.
pub(crate) fn are_due(rt: &(impl Abort + Print), row: &str, due: &[u8], came: &[u8]) {
    if came != due {
        let came = str::from_utf8(came).unwrap_or("no UTF-8");
        panic!(rt; "{row}\n  came    {came}");
    }
}

/// Adds bytes to a text.
pub(crate) fn add(rt: &impl Abort, text: &mut Vec<u8>, bytes: &[u8]) {
    assert!(rt; text.extend_from_slice(bytes).is_ok(), "out of memory");
}

/// Adds words to a text.
pub(crate) fn add_words(rt: &impl Abort, text: &mut String, words: &str) {
    assert!(rt; text.push_str(words).is_ok(), "out of memory");
}

/// Tests that behind its first line a text has so many rows.
pub(crate) fn has_rows(rt: &(impl Abort + Print), text: &str, count: usize) {
    let found = text.lines().skip(1).count();
    assert!(rt; found == count, "{found} rows, and not {count}");
}

/// Tests that a text has so many cases, each behind a line that begins with `case`.
pub(crate) fn has_cases(rt: &(impl Abort + Print), text: &str, count: usize) {
    let found = text.split("\ncase ").skip(1).count();
    assert!(rt; found == count, "{found} cases, and not {count}");
}

/// The two cells that a row begins with; the second has what is behind the first.
pub(crate) fn two_cells<'r>(rt: &(impl Abort + Print), row: &'r str) -> (&'r str, &'r str) {
    match row.split_once(" | ") {
        Some(cells) => cells,
        None => panic!(rt; "no row: {row}"),
    }
}

/// The first line of a case, and those below it.
pub(crate) fn head_and_lines(case: &str) -> (&str, &str) {
    case.split_once("\n").unwrap_or((case, ""))
}

/// The number that these digits are.
pub(crate) fn number(rt: &(impl Abort + Print), digits: &str) -> usize {
    match digits.parse::<usize>() {
        Ok(number) => number,
        Err(_) => panic!(rt; "no number: {digits}"),
    }
}

/// The bytes that words of a row stand for: `~` is a line feed, `^` a carriage return, and each other character the byte with
/// its number. `nothing` is no bytes.
pub(crate) fn bytes_of(rt: &impl Abort, alloc: Global, words: &str) -> Vec<u8> {
    let mut bytes = Vec::new(alloc);
    if words != "nothing" {
        for character in words.chars() {
            assert!(rt; bytes.push(byte_of(character)).is_ok(), "out of memory");
        }
    }
    bytes
}

fn byte_of(character: char) -> u8 {
    match character {
        '~' => b'\n',
        '^' => b'\r',
        _ => u8::try_from(u32::from(character)).unwrap_or(b'?'),
    }
}
