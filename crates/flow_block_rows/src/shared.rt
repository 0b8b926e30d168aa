//! What the tests of parts share: links and messages, what a row is, and what blocks make and how they end.
ghost use Rattle.std.specs.Prelude.{◌≡◌, [], ◌∷◌, false};
ghost use Rattle.flow_block_rows.specs.Driven.{link_to};

use flow_link::{Completing, DataflowBlock, LinkId, Outcome};
use flow_outlet::LinkRule;
use flow_value::{MessageHeader, Parcel, Text, Value, When};
use std::alloc::Global;
use std::collections::VecDeque;
use std::process::Abort;

/// A link that carries every message, to a target that may put it off.
fn link(id: LinkId) -> LinkRule
    ensures { result ≡ link_to id }
{
    LinkRule {
        id,
        when: When::Any,
        max: None,
        passes: true,
        steady: false,
        sole: false,
    }
}

/// The rule of this link alone.
pub(crate) fn one_rule(rt: &impl Abort, alloc: Global, id: LinkId) -> Vec<LinkRule>
    ensures { result.items ≡ link_to id ∷ [] }
{
    let Ok(rules) = vec![in alloc; link(id)] else {
        panic!(rt; "out of memory");
    };
    rules
}

/// The rules of these two links.
pub(crate) fn two_rules(
    rt: &impl Abort,
    alloc: Global,
    first: LinkId,
    second: LinkId,
) -> Vec<LinkRule>
    ensures { result.items ≡ link_to first ∷ link_to second ∷ [] }
{
    let Ok(rules) = vec![in alloc; link(first), link(second)] else {
        panic!(rt; "out of memory");
    };
    rules
}

/// Whether the values are these numbers.
pub(crate) fn are(values: &[Value], numbers: &[i64]) -> bool {
    let mut values = values.iter();
    for number in numbers {
        match values.next() {
            Some(value) if value.as_int() == Some(*number) => {}
            _ => return false,
        }
    }
    values.next().is_none()
}

/// Whether what is left to be given are these numbers.
pub(crate) fn has_left(left: &VecDeque<Value>, numbers: &[i64]) -> bool {
    let mut values = left.iter();
    for number in numbers {
        match values.next() {
            Some(value) if value.as_int() == Some(*number) => {}
            _ => return false,
        }
    }
    values.next().is_none()
}

/// Whether a value is a row of these numbers.
pub(crate) fn is_row(value: &Value, numbers: &[i64]) -> bool {
    match value.as_items() {
        Some(items) => are(items, numbers),
        None => false,
    }
}

/// Whether what is given next is a row of these numbers.
pub(crate) fn has_row(left: &VecDeque<Value>, numbers: &[i64]) -> bool {
    match left.front() {
        Some(row) => is_row(row, numbers),
        None => false,
    }
}

/// These words as a text.
pub(crate) fn text(rt: &impl Abort, alloc: Global, words: &str) -> Text {
    let Ok(text) = Text::from_str(alloc, words) else {
        panic!(rt; "out of memory");
    };
    text
}

/// A number as a message.
pub(crate) fn parcel(rt: &impl Abort, alloc: Global, number: i64) -> Parcel {
    let Ok(parcel) = Parcel::new(alloc, Value::Int(number)) else {
        panic!(rt; "out of memory");
    };
    parcel
}

/// The header with this id.
pub(crate) fn header(rt: &impl Abort, id: u64) -> MessageHeader {
    let Some(header) = MessageHeader::new(id) else {
        panic!(rt; "no id");
    };
    header
}

/// The block makes something, or it has nothing to make.
pub(crate) fn makes<B: DataflowBlock>(
    rt: &impl Abort,
    alloc: Global,
    block: &mut B,
    something: bool,
)
    ensures { (something ≡ false) → block.new ≡ block.old }
{
    let Ok(made) = block.make(alloc) else {
        panic!(rt; "out of memory or of ids");
    };
    if made != something {
        panic!(rt; "it makes something, or nothing");
    }
}

/// The block has ended so, or it goes on.
pub(crate) fn tells<B: Completing>(rt: &impl Abort, block: &mut B, outcome: Option<Outcome>)
    ensures { B.learns block.old block.new }
{
    if block.completion() != outcome {
        panic!(rt; "it has ended otherwise");
    }
}
