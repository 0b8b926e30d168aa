//! Values, functions and predicates where no text reaches them, and each of their calls once.
use crate::check::{check, has_lines, number};
use flow_value::{
    MAX_ID, MessageHeader, MessageStatus, Parcel, Row, Runs, Steps, StepsError, Text, Value, When,
    Work, WorkFault,
};
use flow_words::{atom, cells, row_of, values_of};
use std::alloc::Global;
use std::mem::size_of;
use std::process::Abort;

/// In each row the steps of a function, the items of the row that it is applied to, and the values that it gives, or
/// the number of its fault. A word is an integer where it reads as one, and else a text; `'7` is a text, and `(7,a)`
/// a row.
const ROWS: &str = "
id | 1 a | (1,a)
int | 1 | fault 1
text | 1 | fault 2
add 1 | 1 | fault 1
mul 2 | none | fault 1
upto | 3 | fault 1
reject 2 | 2 | fault 1
field 0 | a 7 | a
field 1 | a (1,2) | (1,2)
field 2 | a 7 | fault 4
field 4095 | a 7 | fault 4
field 0 | none | fault 4
len | 1 a (2,3) | 3
len | none | 0
sum | none | 0
sum | -7 2 | -5
sum | 9223372036854775807 1 -1 | 9223372036854775807
sum | -9223372036854775808 -1 1 | -9223372036854775808
sum | 9223372036854775807 1 | fault 5
sum | -9223372036854775808 -1 | fault 5
sum | 9223372036854775807 1 '2 | fault 1
sum | (1,2) | fault 1
repeat 2 | 1 2 | (1,2) (1,2)
spread | 1 a (2,b) | 1 a (2,b)
spread | none | none
spread, int | '1 2 | 1 2
spread, upto | 2 0 3 | 0 1 0 1 2
spread, sum | (1,2) (3,4) | 3 7
spread, reject 2 | 1 2 3 | fault 6
spread, int, add 1 | '1 '9223372036854775807 x | fault 5
spread, int, add 1 | '1 x '9223372036854775807 | fault 1
";

fn values_with(rt: &impl Abort, alloc: Global, words: &str) -> Vec<Value> {
    match values_of(alloc, words) {
        Ok(values) => values,
        Err(_) => panic!(rt; "out of memory"),
    }
}

/// The row of these words.
fn row_with(rt: &impl Abort, alloc: Global, words: &str) -> Value {
    match row_of(alloc, values_with(rt, alloc, words)) {
        Ok(row) => row,
        Err(_) => panic!(rt; "out of memory"),
    }
}

fn copy_of(rt: &impl Abort, alloc: Global, value: &Value) -> Value {
    match value.copy(alloc) {
        Ok(copy) => copy,
        Err(_) => panic!(rt; "out of memory"),
    }
}

fn text_with(rt: &impl Abort, alloc: Global, content: &str) -> Text {
    match Text::from_str(alloc, content) {
        Ok(text) => text,
        Err(_) => panic!(rt; "out of memory"),
    }
}

/// The function whose steps are parted by a comma and a blank.
fn function(rt: &impl Abort, alloc: Global, work: &str) -> Steps {
    let mut texts = Vec::new(alloc);
    for text in work.split(", ") {
        assert!(rt; texts.push(text).is_ok(), "out of memory");
    }
    match Steps::read(alloc, texts.as_slice()) {
        Ok(steps) => steps,
        Err(_) => panic!(rt; "a bad step, or out of memory"),
    }
}

#[test]
fn functions_take_rows(rt: HostRuntime) {
    has_lines(&rt, ROWS, 31);
    for row in ROWS.lines().skip(1) {
        gives_due(&rt, rt.alloc(), row);
    }
}

/// Tests that the function of a row gives what is due.
fn gives_due(rt: &(impl Abort + Print), alloc: Global, row: &str) {
    let Some((work, items, due)) = cells(row) else {
        panic!(rt; "no row: {row}");
    };
    let came = function(rt, alloc, work).run(alloc, &row_with(rt, alloc, items));
    let is_due = match &came {
        Ok(values) => *values == values_with(rt, alloc, due),
        Err(fault) => is_number(due.strip_prefix("fault "), *fault),
    };
    assert!(rt; is_due, "{row}\n  came {came:?}");
}

fn is_number(digits: Option<&str>, fault: WorkFault) -> bool {
    match digits {
        Some(digits) => fault.number() == digits.parse::<u32>().ok(),
        None => false,
    }
}

#[test]
fn the_first_bad_step_is_named(rt: HostRuntime) {
    let most = ["id"; 16];
    assert!(rt; Steps::read(rt.alloc(), &most).is_ok());
    let mut many = ["id"; 20];
    many[19] = "bad";
    let too_many = Steps::read(rt.alloc(), &many);
    assert!(rt; matches!(too_many, Err(StepsError::BadStep(16))));
    many[3] = "addd 1";
    let bad_early = Steps::read(rt.alloc(), &many);
    assert!(rt; matches!(bad_early, Err(StepsError::BadStep(3))));
}

/// In each row a predicate, a number that it admits, and one that it refuses.
const PREDICATES: &str = "
even | 0 | 1
even | -2 | -1
odd | 1 | 0
odd | -1 | -2
lt 3 | 2 | 3
lt 3 | -9223372036854775808 | 9223372036854775807
lt 9223372036854775807 | 9223372036854775806 | 9223372036854775807
ge 3 | 3 | 2
ge -5 | 9223372036854775807 | -6
eq -0 | 0 | 1
";

/// Texts that are no predicates, with a stroke between them.
const NO_PREDICATES: &str =
    "/evn/Even/ even/even /even 1/any 0/lt/lt  3/lt +3/eq x/ge 9223372036854775808/lt -9223372036854775809";

fn predicate(rt: &(impl Abort + Print), name: &str) -> When {
    match When::read(name) {
        Some(when) => when,
        None => panic!(rt; "no predicate: {name}"),
    }
}

/// Tests that the predicate of a row admits and refuses what is due, and this text and this row.
fn admits_due(rt: &(impl Abort + Print), row: &str, text: &Value, items: &Value) {
    let Some((name, admitted, refused)) = cells(row) else {
        panic!(rt; "no row: {row}");
    };
    let when = predicate(rt, name);
    check(rt, row, when.admits(&Value::Int(number(rt, admitted))));
    check(rt, row, !when.admits(&Value::Int(number(rt, refused))));
    check(rt, row, !when.admits(text) && !when.admits(items));
}

#[test]
fn predicates_are_read_and_admit_numbers(rt: HostRuntime) {
    let alloc = rt.alloc();
    let Ok(text) = atom(alloc, "'2") else {
        panic!(&rt; "out of memory");
    };
    let items = row_with(&rt, alloc, "2");
    has_lines(&rt, PREDICATES, 10);
    for row in PREDICATES.lines().skip(1) {
        admits_due(&rt, row, &text, &items);
    }
    let any = predicate(&rt, "any");
    assert!(rt; any.admits(&Value::Int(0)) && any.admits(&text) && any.admits(&items));
    for name in NO_PREDICATES.split("/") {
        check(&rt, name, When::read(name).is_none());
    }
}

#[test]
fn headers_have_ids_from_one(rt: HostRuntime) {
    assert!(rt; MessageHeader::new(0).is_none());
    assert!(rt; MAX_ID == 576_460_752_303_423_487);
    for id in [1, MAX_ID] {
        assert!(rt; matches!(MessageHeader::new(id), Some(header) if header.id() == id));
    }
    assert!(rt; MessageHeader::new(MAX_ID + 1).is_none());
}

#[test]
fn statuses_and_faults_have_numbers(rt: HostRuntime) {
    for (status, number) in [
        (MessageStatus::Accepted, 0),
        (MessageStatus::Declined, 1),
        (MessageStatus::Postponed, 2),
        (MessageStatus::NotAvailable, 3),
        (MessageStatus::DecliningPermanently, 4),
    ] {
        assert!(rt; status.number() == number);
    }
    assert!(rt; WorkFault::Memory.number().is_none());
}

#[test]
fn copies_are_equal(rt: HostRuntime) {
    let alloc = rt.alloc();
    let value = row_with(&rt, alloc, "1 a");
    let copy = copy_of(&rt, alloc, &value);
    assert!(rt; copy == value);
    assert!(rt; copy != row_with(&rt, alloc, "1 b"));
    assert!(rt; copy != row_with(&rt, alloc, "1"));
}

#[test]
fn parcels_hold_their_value_twice(rt: HostRuntime) {
    let alloc = rt.alloc();
    let same = row_with(&rt, alloc, "1 a");
    let Ok(parcel) = Parcel::new(alloc, row_with(&rt, alloc, "1 a")) else {
        panic!(&rt; "out of memory");
    };
    assert!(rt; *parcel.value() == same);
    let (value, spare) = parcel.into_parts();
    assert!(rt; value == same && spare == same);
}

#[test]
fn functions_are_copied(rt: HostRuntime) {
    let steps = function(&rt, rt.alloc(), "int, add 1");
    let Ok(copy) = Work::copy(&steps, rt.alloc()) else {
        panic!(&rt; "out of memory");
    };
    assert!(rt; copy == steps && function(&rt, rt.alloc(), "int, add 2") != steps);
    assert!(rt; steps.as_slice().len() == 2);
}

/// Tests what a work makes of 1 on this thread, and that its copy makes the same.
fn makes_two<W: Runs>(rt: &impl Abort, alloc: Global, work: &W) {
    let Ok(copy) = work.copy_here(alloc) else {
        panic!(rt; "out of memory");
    };
    assert!(rt; copy == *work);
    for each in [work, &copy] {
        match each.run_here(alloc, &Value::Int(1)) {
            Ok(values) => assert!(rt; values.len() == 1 && values[0].as_int() == Some(2)),
            Err(fault) => assert!(rt; fault == WorkFault::Memory),
        }
    }
}

#[test]
fn functions_run_on_one_thread(rt: HostRuntime) {
    makes_two(&rt, rt.alloc(), &function(&rt, rt.alloc(), "add 1"));
}

#[test]
fn values_show_their_sort(rt: HostRuntime) {
    let value = row_with(&rt, rt.alloc(), "1 x");
    assert!(rt; matches!(value.as_items(), Some([_, _])));
    assert!(rt; value.as_int().is_none() && value.as_str().is_none());
}

#[test]
fn rows_give_their_items_back(rt: HostRuntime) {
    let alloc = rt.alloc();
    let Ok(row) = Row::new(alloc, values_with(&rt, alloc, "1 x")) else {
        panic!(&rt; "out of memory");
    };
    assert!(rt; row.len() == 2 && !row.is_empty() && row.items().len() == 2);
    let Ok(copy) = row.copy(alloc) else {
        panic!(&rt; "out of memory");
    };
    assert!(rt; copy == row);
    // the first shares its values, the second has them for itself
    gives_items(&rt, alloc, row);
    gives_items(&rt, alloc, copy);
}

/// Tests that a row of 1 and x gives them.
fn gives_items(rt: &impl Abort, alloc: Global, row: Row) {
    let Ok(items) = row.into_items(alloc) else {
        panic!(rt; "out of memory");
    };
    assert!(rt; items.len() == 2);
    assert!(rt; items[0].as_int() == Some(1) && items[1].as_str() == Some("x"));
    assert!(rt; items[1].as_items().is_none());
}

/// Runs keep many values, so a row keeps its items behind one pointer, and only a short text stands in the value.
#[test]
fn a_value_takes_24_bytes(rt: HostRuntime) {
    assert!(rt; size_of::<Value>() == 24);
}

#[test]
fn texts_have_a_length(rt: HostRuntime) {
    let none = text_with(&rt, rt.alloc(), "");
    assert!(rt; none.is_empty() && none.len() == 0);
    let accented = text_with(&rt, rt.alloc(), "\u{e9}");
    assert!(rt; accented.len() == 2 && accented != none);
}

/// Tests that a text has this content, and gives it.
fn gives(rt: &impl Abort, alloc: Global, text: Text, content: &str) {
    assert!(rt; text.as_str() == content && text.len() == content.len() && !text.is_empty());
    match text.into_string(alloc) {
        Ok(given) => assert!(rt; given.as_str() == content),
        Err(_) => panic!(rt; "out of memory"),
    }
}

/// Tests that a text of this string and its copy, which shares what it holds, both give the string.
fn shares(rt: &impl Abort, alloc: Global, content: &str) {
    let Ok(string) = content.to_string(alloc) else {
        panic!(rt; "out of memory");
    };
    let Ok(text) = Text::new(alloc, string) else {
        panic!(rt; "out of memory");
    };
    let Ok(copy) = text.copy(alloc) else {
        panic!(rt; "out of memory");
    };
    assert!(rt; copy == text && text == text_with(rt, alloc, content));
    gives(rt, alloc, text, content);
    gives(rt, alloc, copy, content);
}

#[test]
fn a_shared_text_gives_its_string(rt: HostRuntime) {
    let Ok(long) = ["thirty-two bytes, and then more."; 100].concat(rt.alloc()) else {
        panic!(&rt; "out of memory");
    };
    shares(&rt, rt.alloc(), "\u{e9}");
    shares(&rt, rt.alloc(), long.as_str());
}
