//! Networks that are read from texts, and reports of their runs over records.
use crate::check::given;
use csv::ByteRecord;
use flow_front::Inputs;
use flow_link::Plan;
use flow_split::Records;
use flow_text::{read_plan, write_report};
use flow_value::{Steps, Text, Value};
use std::alloc::Global;
use std::process::Abort;

/// More events than any run here has.
pub(crate) const ENOUGH: u64 = 100_000;

/// The plan of a network's text.
pub(crate) fn planned(rt: &(impl Abort + Print), alloc: Global, network: &[u8]) -> Plan<Steps> {
    given(rt, "a network", read_plan(alloc, network))
}

/// The text that these bytes are.
pub(crate) fn text_of(rt: &(impl Abort + Print), alloc: Global, bytes: &[u8]) -> Text {
    let text = given(rt, "a record", str::from_utf8(bytes));
    given(rt, text, Text::from_str(alloc, text))
}

/// Posts a record, which has the name of an input and a text.
fn post(rt: &(impl Abort + Print), alloc: Global, inputs: &mut Inputs<Steps>, row: &ByteRecord) {
    let (Some(name), Some(value)) = (row.get(0), row.get(1)) else {
        panic!(rt; "a record without two fields");
    };
    let name = given(rt, "an input", str::from_utf8(name));
    let value = Value::Text(text_of(rt, alloc, value));
    given(rt, name, inputs.post(name, value));
}

/// What is posted to a network by these records.
fn posted(
    rt: &(impl Abort + Print),
    alloc: Global,
    network: &[u8],
    records: &[u8],
) -> Inputs<Steps> {
    let plan = planned(rt, alloc, network);
    let mut inputs = given(rt, "inputs", Inputs::of(alloc, plan));
    let mut records = Records::new(alloc, records);
    for _ in 0..u64::MAX {
        if !given(rt, "records", records.advance()) {
            break;
        }
        post(rt, alloc, &mut inputs, records.row());
    }
    inputs
}

/// The report of a run of a network over records, which ends where nothing can move, or at so many events.
pub(crate) fn report(
    rt: &(impl Abort + Print),
    alloc: Global,
    network: &[u8],
    records: &[u8],
    limit: u64,
) -> Vec<u8> {
    let inputs = posted(rt, alloc, network, records);
    let mut net = given(rt, "a network", inputs.start(alloc));
    let settled = given(rt, "a run", net.settle(alloc, limit));
    let mut text = Vec::new(alloc);
    given(
        rt,
        "a report",
        write_report(alloc, &net, settled, &mut text),
    );
    text
}
