//! Networks of one owner, before they start and then.

use crate::lines::{Line, ending_of, number_or};
use crate::said::Said;
use crate::stage::Place;
use flow_drawn::inputs;
use flow_exit::ExitEnd;
use flow_front::{Inputs, record_of, state_of};
use flow_net::Net;
use flow_value::{Steps, Value};
use std::alloc::Global;

/// More events than any network of a script has.
const ENOUGH: u64 = 1_000_000;

/// How many events a look at a port does where nothing is said.
const STEPS: u64 = 100;

/// The first line of a case.
pub(crate) fn drawn_line(alloc: Global, line: Line, said: &mut Said) -> (Place, bool) {
    match line.word {
        "net" => drawn(alloc, line.behind, said),
        "exitend" => (Place::End(ExitEnd::new(alloc)), line.behind.is_empty()),
        _ => (Place::Nothing, false),
    }
}

/// The inputs of the network that is drawn so.
fn drawn(alloc: Global, words: &str, said: &mut Said) -> (Place, bool) {
    let (network, records) = words.split_once(" with ").unwrap_or((words, "none"));
    match inputs(alloc, network, records) {
        Some(inputs) => (Place::Inputs(inputs), true),
        None => (Place::Nothing, said.put("no plan")),
    }
}

/// Does a line before the network starts.
pub(crate) fn input_line(
    alloc: Global,
    line: Line,
    mut inputs: Inputs<Steps>,
    said: &mut Said,
) -> (Place, bool) {
    if line.words == "start" {
        return match inputs.start(alloc) {
            Ok(net) => (Place::Net(net), true),
            Err(_) => (Place::Nothing, said.put("no memory")),
        };
    }
    let is_word = input_word(line, &mut inputs, said);
    (Place::Inputs(inputs), is_word)
}

fn input_word(line: Line, inputs: &mut Inputs<Steps>, said: &mut Said) -> bool {
    match line.word {
        "post" => match line.rest.parse::<i64>() {
            Ok(number) => said.tell(&inputs.post(line.name, Value::Int(number))),
            Err(_) => false,
        },
        "end" => match ending_of(line.rest) {
            Some(how) => said.tell(&inputs.end(line.name, how)),
            None => false,
        },
        _ => false,
    }
}

/// Does a line to a network.
pub(crate) fn net_line(
    alloc: Global,
    line: Line,
    mut net: Net<Steps>,
    said: &mut Said,
) -> (Place, bool) {
    match line.word {
        "entry" => to_entry(line, net, said),
        "exit" => to_exit(line, net, said),
        _ => {
            let is_word = net_word(alloc, line, &mut net, said);
            (Place::Net(net), is_word)
        }
    }
}

fn net_word(alloc: Global, line: Line, net: &mut Net<Steps>, said: &mut Said) -> bool {
    match line.word {
        "settle" => match number_or(line.behind, ENOUGH) {
            Some(limit) => said.tell(&net.settle(alloc, limit)),
            None => false,
        },
        "state" => said.tell(&state_of(net, line.behind)),
        "record" => said.tell(&record_of(net, line.behind)),
        "posted" => match net.plan().find(line.behind) {
            Some(block) => said.tell(&net.posted(block)),
            None => said.put("None"),
        },
        _ => false,
    }
}

/// The number of the block with this name, or the first number that no block has.
fn block_of(net: &Net<Steps>, name: &str) -> usize {
    net.plan().find(name).unwrap_or(net.plan().block_count())
}

/// Goes to the entry of a block.
fn to_entry(line: Line, net: Net<Steps>, said: &mut Said) -> (Place, bool) {
    let Some(steps) = number_or(line.rest, STEPS) else {
        return (Place::Net(net), false);
    };
    let block = block_of(&net, line.name);
    match net.entry(block, steps) {
        Ok(port) => (Place::Entry(port), true),
        Err(net) => (Place::Net(net), said.put("None")),
    }
}

/// Goes to the exit of a block.
fn to_exit(line: Line, net: Net<Steps>, said: &mut Said) -> (Place, bool) {
    let Some(steps) = number_or(line.rest, STEPS) else {
        return (Place::Net(net), false);
    };
    let block = block_of(&net, line.name);
    match net.exit(block, steps) {
        Ok(port) => (Place::Exit(port), true),
        Err(net) => (Place::Net(net), said.put("None")),
    }
}
