//! The two fields of a record: which input the first names, and the value that the second is.
ghost use Rattle.std.specs.Prelude.{◌≡◌, ◌<◌, ◌∷◌, ◌++◌, [], length, replicate, get_or, set, IfOk, IfErr, OnOk, IfSome, MatchOption};
ghost use Rattle.std.specs.Prelude.{MatchResult, Some, true};
ghost use Rattle.std.specs.Str.{IsUtf8};
ghost use Rattle.flow_record_text.specs.Records.{texts_of, AllDiffer, HasFault, PostsTo, room, posted_values, posted_endings};
ghost use Rattle.flow_record_text.specs.Records.{Posts, IsNotPosted};
ghost use Rattle.flow_record_text.specs.Places.{place_in, FindsInputs, HasNoInput};
ghost use Rattle.flow_record_text.specs.Field.{text_in};

use flow_fault_text::{TextFault, TextRefusal};
use flow_link::{Ending, Posted};
use flow_value::{Text, Value};
use std::alloc::Global;
use std::collections::HashMap;

// A field as text, where it is UTF-8.
#[inline(always)]
fn text_field(field: &[u8]) -> Option<&str>
    ensures { MatchOption result (IsUtf8 field.now → ⊥) (λ text. (text.now ≡ field.now) × IsUtf8 text.now) }
{
    match str::from_utf8(field) {
        Ok(text) => Some(text),
        Err(_) => None,
    }
}

// The text of a field. A short one is made at once, since the look at it that its making takes tells that it is UTF-8.
#[derive(Drop)]
enum Field<'r> {
    Made(Text),
    Left(&'r str),
}

#[inline(always)]
fn value_field(field: &[u8]) -> Option<Field<'_>>
    ensures { MatchOption result (IsUtf8 field.now → ⊥)
        (λ value. (text_in value ≡ field.now) × IsUtf8 (text_in value)) }
{
    if let Some(text) = Text::from_plain_ascii(field) {
        return Some(Field::Made(text));
    }
    match text_field(field) {
        Some(text) => Some(Field::Left(text)),
        None => None,
    }
}

// Whether a record names this input: then that its name is UTF-8 need not be seen again.
#[inline(always)]
fn has_name(name: &[u8], names: &[&str], input: usize) -> bool
    ensures there { result ≡ true → input < length names.now }
    ensures named { result ≡ true → get_or (texts_of names.now) input [] ≡ name.now }
    ensures utf8 { result ≡ true → IsUtf8 name.now }
{
    if input >= names.len() {
        return false;
    }
    names[input].as_bytes() == name
}

// The input that a record names, where it is that of the last record or the one after it.
#[inline(always)]
fn likely_input(name: &[u8], names: &[&str], last: usize) -> Option<usize>
    ensures there { IfSome result (λ input. input < length names.now) }
    ensures named { IfSome result (λ input. get_or (texts_of names.now) input [] ≡ name.now) }
    ensures utf8 { IfSome result (λ _. IsUtf8 name.now) }
{
    if has_name(name, names, last) {
        return Some(last);
    }
    let after = last.saturating_add(1);
    let next = if after < names.len() { after } else { 0 };
    if has_name(name, names, next) {
        Some(next)
    } else {
        None
    }
}

// The input that a record names, as it is found among all of them, or why there is none.
#[inline(never)]
fn named_input(places: &HashMap<&str, usize>, name: &[u8], number: u64) -> Result<usize, TextFault>
    ensures { MatchResult result (λ input. (place_in places.now name.now ≡ Some input) × IsUtf8 name.now)
        (λ fault. HasNoInput (place_in places.now name.now) number name.now fault) }
{
    let Some(name) = text_field(name) else {
        return Err(TextFault::NotUtf8(number));
    };
    match places.get(name) {
        Some(input) => Ok(*input),
        None => Err(TextFault::UnknownInput(number)),
    }
}

// The input and the text of a record of two fields, or why it can't be posted. The input of the last record is tried first, then
// the next.
#[inline(always)]
fn read_fields<'r>(
    names: &[&str],
    places: &HashMap<&str, usize>,
    last: usize,
    name: &[u8],
    field: &'r [u8],
    number: u64,
) -> Result<(usize, Field<'r>), TextFault>
    requires differ { AllDiffer (texts_of names.now) }
    requires places { FindsInputs places.now (texts_of names.now) }
    ensures { MatchResult result
        (λ found. PostsTo (texts_of names.now) (name.now ∷ field.now ∷ []) found.0 (text_in found.1))
        (λ fault. HasFault (texts_of names.now) number (name.now ∷ field.now ∷ []) fault) }
{
    let Some(text) = value_field(field) else {
        return Err(TextFault::NotUtf8(number));
    };
    if let Some(input) = likely_input(name, names, last) {
        return Ok((input, text));
    }
    match named_input(places, name, number) {
        Ok(input) => Ok((input, text)),
        Err(fault) => Err(fault),
    }
}

#[inline(always)]
fn text_of(alloc: Global, field: Field<'_>) -> Result<Text, TextRefusal>
    ensures is { IfOk result (λ text. text ≡ text_in field.entry) }
    ensures refused { IfErr result (λ refusal. refusal ≡ TextRefusal.Memory) }
{
    match field {
        Field::Made(text) => Ok(text),
        Field::Left(content) => match Text::from_str(alloc, content) {
            Ok(text) => Ok(text),
            Err(_) => Err(TextRefusal::Memory),
        },
    }
}

// Adds the text to the values of this input.
#[inline(always)]
fn post(
    alloc: Global,
    posted: &mut Vec<Posted>,
    input: usize,
    text: Field<'_>,
) -> Result<(), TextRefusal>
    requires { input < length posted.old.items }
    ensures values { OnOk result (posted_values posted.new.items
        ≡ set (posted_values posted.old.items) input
        (get_or (posted_values posted.old.items) input [] ++ Value.Text (text_in text.entry) ∷ [])) }
    ensures endings { OnOk result (posted_endings posted.new.items ≡ posted_endings posted.old.items) }
    ensures room { OnOk result (room (posted_values posted.new.items) < room (posted_values posted.old.items)) }
    ensures refused { IfErr result (λ refusal. refusal ≡ TextRefusal.Memory) }
{
    let text = text_of(alloc, text)?;
    let slot = &mut posted[input];
    if slot.values.push(Value::Text(text)).is_err() {
        return Err(TextRefusal::Memory);
    }
    Ok(())
}

// How far the records of a text were read.
#[derive(Clone, Copy)]
pub(crate) struct Seen {
    // The input of the last record; at first that of none.
    pub(crate) last: usize,
    // How many records there were. The count stops at the greatest number, the reading does not.
    pub(crate) number: u64,
}

// Posts the next record, of two fields, to the input that it names.
#[inline(always)]
pub(crate) fn post_record(
    alloc: Global,
    names: &[&str],
    places: &HashMap<&str, usize>,
    name: &[u8],
    field: &[u8],
    posted: &mut Vec<Posted>,
    seen: &mut Seen,
) -> Result<(), TextRefusal>
    requires differ { AllDiffer (texts_of names.now) }
    requires places { FindsInputs places.now (texts_of names.now) }
    requires endings { posted_endings posted.old.items ≡ replicate (length names.now) Ending.Complete }
    ensures posts { OnOk result (Posts (texts_of names.now) (name.now ∷ field.now ∷ []) seen.old.number
        (posted_values posted.old.items) seen.new.number (posted_values posted.new.items)) }
    ensures endings { OnOk result (posted_endings posted.new.items ≡ posted_endings posted.old.items) }
    ensures room { OnOk result (room (posted_values posted.new.items) < room (posted_values posted.old.items)) }
    ensures refused { IfErr result (λ refusal. IsNotPosted (texts_of names.now) (name.now ∷ field.now ∷ [])
        seen.old.number refusal) }
{
    seen.number = seen.number.saturating_add(1);
    match read_fields(names, places, seen.last, name, field, seen.number) {
        Ok((input, text)) => {
            post(alloc, posted, input, text)?;
            seen.last = input;
            Ok(())
        }
        Err(fault) => Err(TextRefusal::Fault(fault)),
    }
}
