//! Records that are cut in their order.
use crate::check::{add, are_due, bytes_of, check, given, has_rows, number, two_cells};
use csv::{ByteRecord, ReaderBuilder};
use flow_split::cut_records;
use std::alloc::Global;
use std::process::Abort;

/// In each row the name of a situation, the records, how many parts there are to be, and the parts; records and parts are as
/// `bytes_of` reads them.
const CASES: &str = "
as many parts as records | in,1~in,2~in,3~ | 3 | in,1~ + in,2~ + in,3~
a part may be longer | in,1~in,2~in,3~ | 2 | in,1~in,2~ + in,3~
one part | in,1~in,2~ | 1 | in,1~in,2~
no part is one | in,1~in,2~ | 0 | in,1~in,2~
more parts than records | in,1~ | 3 | in,1~ + nothing + nothing
no records | nothing | 2 | nothing + nothing
no line end at the end | in,1~in,2 | 2 | in,1~ + in,2
a quoted line end | in,\"a~b\"~in,c~ | 3 | in,\"a~b\"~ + nothing + in,c~
quotes in a quoted field | in,\"\"\"~\"~in,c~ | 3 | in,\"\"\"~\"~ + nothing + in,c~
a quote in the middle of a field | in,a\"~in,b\"~ | 2 | in,a\"~ + in,b\"~
a quote that is never closed | in,\"a~in,b~ | 2 | in,\"a~in,b~ + nothing
CRLF | in,1^~in,2^~ | 2 | in,1^~ + in,2^~
CR | in,1^in,2^ | 2 | in,1^ + in,2^
empty lines | in,1~~~~in,2~ | 3 | in,1~ + ~~~in,2~ + nothing
a mark at the start | \u{ef}\u{bb}\u{bf}in,1~in,2~ | 2 | \u{ef}\u{bb}\u{bf}in,1~ + in,2~
a mark in front of a record | in,1~\u{ef}\u{bb}\u{bf}in,2~in,3~ | 4 | in,1~\u{ef}\u{bb}\u{bf}in,2~ + nothing + nothing + in,3~
bytes that are no UTF-8 | in,\u{ff}~in,\u{fe}~ | 2 | in,\u{ff}~ + in,\u{fe}~
";

/// Adds the records of a text: behind each field a byte 31, and behind each record a byte 30.
fn add_fields(rt: &(impl Abort + Print), alloc: Global, text: &[u8], fields: &mut Vec<u8>) {
    let mut reader = ReaderBuilder::new()
        .has_headers(false)
        .flexible(true)
        .from_reader(alloc, text);
    let mut row = ByteRecord::new(alloc);
    for _ in 0..u64::MAX {
        if !given(rt, "a row", reader.read_byte_record(&mut row)) {
            return;
        }
        add_row(rt, &row, fields);
    }
}

fn add_row(rt: &impl Abort, row: &ByteRecord, fields: &mut Vec<u8>) {
    for field in row.iter() {
        add(rt, fields, field);
        add(rt, fields, b"\x1f");
    }
    add(rt, fields, b"\x1e");
}

/// Tests that a text is cut in these parts.
fn is_cut(
    rt: &(impl Abort + Print),
    alloc: Global,
    row: &str,
    (text, parts): (&[u8], usize),
    words: &str,
) {
    let pieces = given(rt, row, cut_records(alloc, text, parts));
    let mut count = 0usize;
    for (due, piece) in words.split(" + ").zip(&pieces) {
        are_due(rt, row, &bytes_of(rt, alloc, due), piece);
        count = count.saturating_add(1);
    }
    check(rt, row, pieces.len() == count);
    check(rt, row, words.split(" + ").count() == count);
}

/// Tests that the records of so many parts, one part after the other, are those of the text.
fn is_whole(rt: &(impl Abort + Print), alloc: Global, row: &str, text: &[u8], parts: usize) {
    let mut whole = Vec::new(alloc);
    add_fields(rt, alloc, text, &mut whole);
    let mut joined = Vec::new(alloc);
    for piece in &given(rt, row, cut_records(alloc, text, parts)) {
        add_fields(rt, alloc, piece, &mut joined);
    }
    are_due(rt, row, &whole, &joined);
}

/// A text is cut in the parts that are due, and each record is in one part, however many there are.
#[test]
fn parts_are_those_due(rt: HostRuntime) {
    let alloc = rt.alloc();
    has_rows(&rt, CASES, 17);
    for row in CASES.lines().skip(1) {
        let (_, others) = two_cells(&rt, row);
        let (words, others) = two_cells(&rt, others);
        let (digits, due) = two_cells(&rt, others);
        let text = bytes_of(&rt, alloc, words);
        is_cut(&rt, alloc, row, (text.as_slice(), number(&rt, digits)), due);
        is_whole(&rt, alloc, row, &text, 1);
        is_whole(&rt, alloc, row, &text, 2);
        is_whole(&rt, alloc, row, &text, 5);
    }
}
