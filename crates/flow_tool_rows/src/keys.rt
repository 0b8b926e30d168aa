//! Records that are dealt out by their key.
use crate::check::{add, are_due, bytes_of, check, given, has_rows, number, two_cells};
use flow_split::{KeyFault, KeyedPieces, Pairing, PieceFault, deal_by_key, part_of_key};
use std::alloc::Global;
use std::process::Abort;

/// Records of a key, an input and a value, without quotes. Both inputs have the same keys in the same order.
const ORDERS: &str = "\
anna,orders,1
bert,orders,2
anna,payments,3
carl,orders,4
,orders,5
bert,payments,6
anna,orders,7
carl,payments,8
,payments,9
anna,payments,10
";

/// In each row a text and what stands in its one part, as `bytes_of` reads them.
const FORMS: &str = r#"
k,in,v~ | in,v~
k,in,v^~k,in,w | in,v~in,w~
k,in,~ | in,~
k,in,"a,b"~ | in,"a,b"~
"k","in","say ""x"""~ | in,"say ""x"""~
"a,b",in,"line~end"~ | in,"line~end"~
ï»¿k,in,v~ | in,v~
k,in,ÿ~ | in,ÿ~
nothing | nothing
"#;

/// In each row a text that is refused, as `bytes_of` reads it, and the record at fault.
const REFUSED: &str = r#"
in,v~ | 1
k,in,v~k,in~ | 2
k,in,v,w~ | 1
k,in,v~~k~ | 2
k,in,"v~k,in,v~",w~ | 1
"#;

/// In each row the name of a situation, what is done where keys differ, the records, and what comes of them in one part:
/// behind ` / ` the records that are set aside, or why they are refused. Bytes are as `bytes_of` reads them.
const PAIRED: &str = r#"
the same keys in the same order | as they come | a,o,1~b,o,2~a,p,3~b,p,4~ | o,1~o,2~p,3~p,4~
they may come in turn | as they come | a,o,1~a,p,3~b,o,2~b,p,4~ | o,1~p,3~o,2~p,4~
a key may come again | as they come | a,o,1~b,o,2~a,o,3~a,p,4~b,p,5~a,p,6~ | o,1~o,2~o,3~p,4~p,5~p,6~
one input has any keys | as they come | b,o,1~a,o,2~b,o,3~ | o,1~o,2~o,3~
other orders | as they come | a,o,10~b,o,20~b,p,20~a,p,10~ | differ "a" of "o" (line 1), "b" of "p" (line 3)
fewer of the other | as they come | a,o,1~b,o,2~a,p,3~ | differ "b" of "o" (line 2), none of "p"
more of the other | as they come | a,o,1~a,p,2~a,p,3~ | differ none of "o", "a" of "p" (line 3)
as many, of other keys | as they come | a,o,1~b,o,2~a,p,3~a,p,4~ | differ "b" of "o" (line 2), "a" of "p" (line 4)
the last of three | as they come | a,o,1~a,p,2~b,q,3~ | differ "a" of "o" (line 1), "b" of "q" (line 3)
the second of three | as they come | a,o,1~b,p,2~a,q,3~ | differ "a" of "o" (line 1), "b" of "p" (line 2)
keys over lines | as they come | "a~b",o,"x~y"~a,p,2~ | differ "a\nb" of "o" (line 1), "a" of "p" (line 4)
other orders are put into rows | in rows | a,o,10~b,o,20~b,p,20~a,p,10~ | o,10~p,10~o,20~p,20~
the first input is that of the first record | in rows | b,p,1~a,o,2~a,p,3~b,o,4~ | p,1~o,4~p,3~o,2~
records of one key stay in order | in rows | a,o,1~a,o,2~a,p,3~a,p,4~ | o,1~p,3~o,2~p,4~
three in a row | in rows | a,o,1~b,o,2~b,p,3~a,p,4~a,q,5~b,q,6~ | o,1~p,4~q,5~o,2~p,3~q,6~
no partner in the other | in rows | a,o,1~b,o,2~a,p,3~ | alone "b" of "o" (line 2)
no partner in the first | in rows | a,o,1~c,p,2~a,p,3~ | alone "c" of "p" (line 2)
one more of a key | in rows | a,o,1~a,p,2~a,p,3~ | alone "a" of "p" (line 3)
the first one without a partner | in rows | z,o,1~a,p,2~b,o,3~b,p,4~ | alone "z" of "o" (line 1)
nothing to set aside | set aside | a,o,10~b,o,20~b,p,20~a,p,10~ | o,10~p,10~o,20~p,20~
some set aside | set aside | a,o,1~b,o,2~a,p,3~c,p,4~a,p,5~ | o,1~p,3~ / b,o,2~c,p,4~a,p,5~
as they stood | set aside | "b~c",o,"x~y"~a,o,1~a,p,2~d,p,"3" | o,1~p,2~ / "b~c",o,"x~y"~d,p,"3"~
a third that has none | set aside | a,o,1~a,p,2~b,o,3~b,p,4~b,q,5~ | o,3~p,4~q,5~ / a,o,1~a,p,2~
"#;

/// What is in one of so many parts of records without quotes.
fn part_of(
    rt: &(impl Abort + Print),
    alloc: Global,
    text: &str,
    (part, parts): (usize, usize),
) -> Vec<u8> {
    let mut due = Vec::new(alloc);
    for line in text.lines() {
        let (key, record) = line.split_once(",").unwrap_or(("", line));
        if part_of_key(key.as_bytes(), parts) == part {
            add(rt, &mut due, record.as_bytes());
            add(rt, &mut due, b"\n");
        }
    }
    due
}

/// The texts of parts, or why there are none.
fn told(rt: &impl Abort, alloc: Global, dealt: Result<KeyedPieces, KeyFault>) -> Vec<u8> {
    let mut text = Vec::new(alloc);
    match dealt {
        Ok(dealt) => {
            for piece in &dealt.pieces {
                add(rt, &mut text, piece);
            }
            if !dealt.alone.is_empty() {
                add(rt, &mut text, b" / ");
                add(rt, &mut text, &dealt.alone);
            }
        }
        Err(KeyFault::Differ(words)) => {
            add(rt, &mut text, b"differ ");
            add(rt, &mut text, words.as_bytes());
        }
        Err(KeyFault::Alone(words)) => {
            add(rt, &mut text, b"alone ");
            add(rt, &mut text, words.as_bytes());
        }
        Err(KeyFault::Piece(_)) => add(rt, &mut text, b"no pieces"),
    }
    text
}

/// What is done where keys differ, by its name.
fn pairing_of(rt: &impl Abort, name: &str) -> Pairing {
    if name == "as they come" {
        return Pairing::AsTheyCome;
    }
    if name == "in rows" {
        return Pairing::InRows;
    }
    assert!(rt; name == "set aside", "no pairing");
    Pairing::SetAside
}

/// Tests that in each of so many parts are the records of its keys.
fn stay_together(rt: &(impl Abort + Print), alloc: Global, parts: usize) {
    let dealt = deal_by_key(alloc, ORDERS.as_bytes(), parts, Pairing::AsTheyCome);
    let dealt = given(rt, "orders", dealt);
    check(rt, "parts", dealt.pieces.len() == parts);
    for (part, piece) in dealt.pieces.iter().enumerate() {
        are_due(
            rt,
            "orders",
            &part_of(rt, alloc, ORDERS, (part, parts)),
            piece,
        );
    }
}

#[test]
fn records_of_a_key_stay_together(rt: HostRuntime) {
    for parts in 1..9 {
        stay_together(&rt, rt.alloc(), parts);
    }
}

/// Tests that of records come these in so many parts, or why there are none.
fn comes_of(
    rt: &(impl Abort + Print),
    alloc: Global,
    row: &str,
    words: &str,
    (parts, pairing): (usize, Pairing),
    due: &str,
) {
    let dealt = deal_by_key(alloc, &bytes_of(rt, alloc, words), parts, pairing);
    are_due(rt, row, &bytes_of(rt, alloc, due), &told(rt, alloc, dealt));
}

/// Tests that a text is refused for this record.
fn is_refused(rt: &(impl Abort + Print), alloc: Global, row: &str) {
    let (words, digits) = two_cells(rt, row);
    let dealt = deal_by_key(alloc, &bytes_of(rt, alloc, words), 3, Pairing::AsTheyCome);
    match dealt {
        Err(KeyFault::Piece(PieceFault::Fields(found))) => {
            check(rt, row, found == number(rt, digits) as u64);
        }
        Ok(_) | Err(_) => panic!(rt; "not refused: {row}"),
    }
}

#[test]
fn records_keep_their_fields(rt: HostRuntime) {
    let alloc = rt.alloc();
    has_rows(&rt, FORMS, 9);
    for row in FORMS.lines().skip(1) {
        let (words, due) = two_cells(&rt, row);
        comes_of(&rt, alloc, row, words, (0, Pairing::AsTheyCome), due);
        comes_of(&rt, alloc, row, words, (1, Pairing::AsTheyCome), due);
    }
    has_rows(&rt, REFUSED, 5);
    for row in REFUSED.lines().skip(1) {
        is_refused(&rt, alloc, row);
    }
}

#[test]
fn inputs_are_paired_by_their_keys(rt: HostRuntime) {
    let alloc = rt.alloc();
    has_rows(&rt, PAIRED, 23);
    for row in PAIRED.lines().skip(1) {
        let (_, others) = two_cells(&rt, row);
        let (pairing, others) = two_cells(&rt, others);
        let (words, due) = two_cells(&rt, others);
        comes_of(&rt, alloc, row, words, (1, pairing_of(&rt, pairing)), due);
    }
}

/// SipHash-1-3 of no bytes, under the key 0, is 15130871412783076140.
#[test]
fn keys_have_a_part(rt: HostRuntime) {
    check(&rt, "of no bytes", part_of_key(b"", 1000) == 140);
    check(&rt, "one part", part_of_key(b"anna", 1) == 0);
    check(&rt, "no part", part_of_key(b"anna", 0) == 0);
}
