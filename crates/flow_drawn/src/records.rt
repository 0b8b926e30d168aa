//! Records for the networks that are drawn.

use crate::drafts::draft;
use flow_front::Inputs;
use flow_link::{Ending, plan_check};
use flow_value::{Steps, Text, Value};
use std::alloc::Global;

/// Does what a record says.
fn add_record(alloc: Global, inputs: &mut Inputs<Steps>, record: &str) -> Option<()> {
    if let Some((input, text)) = record.split_once(",") {
        let text = Text::from_str(alloc, text).ok()?;
        return inputs.post(input, Value::Text(text)).ok();
    }
    if let Some((input, number)) = record.split_once("=") {
        let number = number.parse::<i64>().ok()?;
        return inputs.post(input, Value::Int(number)).ok();
    }
    if let Some((input, fault)) = record.split_once("!") {
        let fault = fault.parse::<u32>().ok()?;
        return inputs.end(input, Ending::Fault(fault)).ok();
    }
    match record.strip_suffix("?") {
        Some(input) => inputs.end(input, Ending::Open).ok(),
        None => Some(()),
    }
}

/// The inputs of the network that is drawn so, with these records, between which spaces stand; `none` is no record. None where
/// the draft or its plan is none, a record can't be posted, or memory is out.
pub fn inputs(alloc: Global, drawn: &str, records: &str) -> Option<Inputs<Steps>> {
    let plan = plan_check(alloc, draft(alloc, drawn)?).ok()?;
    let mut inputs = Inputs::of(alloc, plan).ok()?;
    for record in records.split(" ") {
        add_record(alloc, &mut inputs, record)?;
    }
    Some(inputs)
}
