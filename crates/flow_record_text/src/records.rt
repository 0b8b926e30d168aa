//! Reads records: each names an input and has a value for it.
ghost use Rattle.std.specs.Prelude.{◌≡◌, ◌∷◌, ◌++◌, [], length, replicate, IfOk, IfErr, IfSome, OnOk, cond};
ghost use Rattle.std.specs.Io.Buffered.{reader_remaining};
ghost use Rattle.flow_link.specs.Planned.{layout_of};
ghost use Rattle.flow_record_text.specs.Records.{texts_of, input_names, AllDiffer, PostAll, IsOfRecords, Explains};
ghost use Rattle.flow_record_text.specs.Records.{posted_values, posted_endings};
ghost use Rattle.flow_record_text.specs.Places.{FindsInputs};

use crate::fields::Seen;
use crate::lines::{begins_plainly, read_lines};
use crate::rest::Rest;
use crate::rows::read_rows;
use flow_fault_text::TextRefusal;
use flow_link::{BlockDef, Ending, Plan, Posted};
use flow_value::Steps;
use std::alloc::Global;
use std::collections::HashMap;
use std::io::{BufReader, Read};

/// How many bytes are read ahead.
const AHEAD: usize = 65536;

fn names_of<'p>(alloc: Global, plan: &'p Plan<Steps>) -> Result<Vec<&'p str>, TextRefusal>
    ensures names { IfOk result (λ names. texts_of names.items ≡ input_names (layout_of plan.now).blocks) }
    ensures refused { IfErr result (λ refusal. refusal ≡ TextRefusal.Memory) }
{
    let mut names = Vec::new(alloc);
    for number in 0..plan.block_count() {
        push_name(&mut names, plan.block(number))?;
    }
    Ok(names)
}

fn push_name<'p>(names: &mut Vec<&'p str>, block: &'p BlockDef<Steps>) -> Result<(), TextRefusal>
    ensures refused { IfErr result (λ refusal. refusal ≡ TextRefusal.Memory) }
    ensures names { OnOk result (texts_of names.new.items ≡ texts_of names.old.items ++ cond block.now.input
        (block.now.name ∷ []) []) }
{
    if block.input {
        if names.push(block.name.as_str()).is_err() {
            return Err(TextRefusal::Memory);
        }
    }
    Ok(())
}

// Where each of these names stands. A name is found there at once, however many there are.
fn places_of<'p>(alloc: Global, names: &[&'p str]) -> Result<HashMap<&'p str, usize>, TextRefusal>
    requires { AllDiffer (texts_of names.now) }
    ensures places { IfOk result (λ places. FindsInputs places (texts_of names.now)) }
    ensures refused { IfErr result (λ refusal. refusal ≡ TextRefusal.Memory) }
{
    let mut places = HashMap::new(alloc);
    for (place, name) in names.iter().enumerate() {
        if places.insert(*name, place).is_err() {
            return Err(TextRefusal::Memory);
        }
    }
    Ok(places)
}

// As many inputs, to which nothing is posted.
fn nothing_posted(alloc: Global, count: usize) -> Result<Vec<Posted>, TextRefusal>
    ensures values { IfOk result (λ posted. posted_values posted.items ≡ replicate count []) }
    ensures endings { IfOk result (λ posted. posted_endings posted.items ≡ replicate count Ending.Complete) }
    ensures refused { IfErr result (λ refusal. refusal ≡ TextRefusal.Memory) }
{
    let mut posted = Vec::new(alloc);
    for _ in 0..count {
        let none = Posted {
            values: Vec::new(alloc),
            ending: Ending::Complete,
        };
        if posted.push(none).is_err() {
            return Err(TextRefusal::Memory);
        }
    }
    Ok(posted)
}

// A text that is read ahead.
fn buffered<R: Read + Drop>(alloc: Global, reader: R) -> Result<BufReader<R>, TextRefusal>
    ensures all { IfOk result (λ made. reader_remaining R.remaining made ≡ R.remaining reader) }
    ensures refused { IfErr result (λ refusal. refusal ≡ TextRefusal.Memory) }
{
    match BufReader::with_capacity(alloc, AHEAD, reader) {
        Ok(made) => Ok(made),
        Err(_) => Err(TextRefusal::Memory),
    }
}

// The values of the inputs with these names. Plain lines are read by themselves, and the rest by a reader of CSV.
fn read_named<R: Read + Drop>(
    alloc: Global,
    reader: R,
    names: &[&str],
) -> Result<Vec<Posted>, TextRefusal>
    requires { AllDiffer (texts_of names.now) }
    ensures endings { IfOk result (λ posted. posted_endings posted.items ≡ replicate (length names.now)
        Ending.Complete) }
    ensures values { IfOk result (λ posted. IfSome (R.remaining reader)
        (λ bytes. PostAll (texts_of names.now) bytes (posted_values posted.items))) }
    ensures of_records { IfErr result IsOfRecords }
    ensures refused { IfErr result (λ refusal. IfSome (R.remaining reader)
        (λ bytes. Explains (texts_of names.now) bytes refusal)) }
{
    let places = places_of(alloc, names)?;
    let mut posted = nothing_posted(alloc, names.len())?;
    let mut seen = Seen {
        last: names.len(),
        number: 0,
    };
    let mut reader = buffered(alloc, reader)?;
    let mut front = Vec::new(alloc);
    if begins_plainly(&mut reader)? {
        front = read_lines(alloc, &mut reader, names, &places, &mut posted, &mut seen)?;
    }
    // Behind a lone line feed nothing is left, so no reader of CSV is made, which makes tables before it reads.
    if front.len() == 1 {
        return Ok(posted);
    }
    let rest = Rest {
        front,
        at: 0,
        reader,
    };
    read_rows(alloc, rest, names, &places, posted, seen)
}

/// The values that the records of a text post to each input, in the order of the plan's blocks; nothing follows them.
///
/// A record is a line of comma-separated fields, or goes on over lines between double quotes.
pub fn read_records<R: Read + Drop>(
    alloc: Global,
    reader: R,
    plan: &Plan<Steps>,
) -> Result<Vec<Posted>, TextRefusal>
    ensures endings { IfOk result (λ posted. posted_endings posted.items ≡ replicate
        (length (input_names (layout_of plan.now).blocks)) Ending.Complete) }
    ensures values { IfOk result (λ posted. IfSome (R.remaining reader)
        (λ bytes. PostAll (input_names (layout_of plan.now).blocks) bytes (posted_values posted.items))) }
    ensures of_records { IfErr result IsOfRecords }
    ensures refused { IfErr result (λ refusal. IfSome (R.remaining reader)
        (λ bytes. Explains (input_names (layout_of plan.now).blocks) bytes refusal)) }
{
    let names = names_of(alloc, plan)?;
    read_named(alloc, reader, names.as_slice())
}
