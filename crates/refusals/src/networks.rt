//! Networks with one owner, from texts to the report.
use crate::again::{Stop, again, check, refused, wrong};
use flow_front::Inputs;
use flow_link::Plan;
use flow_net::{Net, NetFault, Posted, Settled};
use flow_text::{TextFault, TextRefusal, read_plan, read_records, write_report};
use flow_value::{Steps, Text, Value};
use std::alloc::{AllocFailed, Global};
use std::sync::Wait;
use std::thread::Threads;

/// What a writer has before a report is written there.
const FIRST: u8 = b'\n';

/// More events than any network here has.
pub(crate) const ENOUGH: u64 = 10_000;

/// A network, with what is posted to its inputs, and what its report has.
#[derive(Clone, Copy)]
pub(crate) enum Example {
    /// Three texts are read as numbers, two at a time.
    ParseThree,
    /// A join that reserves takes only whole pairs.
    ReservingLeaves,
}

/// All networks.
pub(crate) const BOTH: [Example; 2] = [Example::ParseThree, Example::ReservingLeaves];

const PARSE_THREE: &str = r#"
format = 1
block = [
    { name = "in", kind = "buffer", input = true },
    { name = "t", kind = "transform", lanes = 2, work = ["int"] },
    { name = "out", kind = "action", work = [] },
]
link = [{ from = "in", to = "t", propagate = true }, { from = "t", to = "out", propagate = true }]
"#;

const RESERVING_LEAVES: &str = r#"
format = 1
block = [
    { name = "a", kind = "buffer", input = true },
    { name = "j", kind = "join", ports = 2, greedy = false },
    { name = "b", kind = "buffer", input = true },
    { name = "out", kind = "action", work = [] },
]
link = [{ from = "a", to = "j" }, { from = "b", to = "j", port = 1 }, { from = "j", to = "out" }]
"#;

/// What is posted: the names of inputs, each with a text.
const NUMBERS: &[(&str, &str)] = &[("in", "1"), ("in", "2"), ("in", "3")];

const PAIRS: &[(&str, &str)] = &[("a", "1"), ("a", "2"), ("a", "3"), ("b", "9")];

const PARSE_THREE_LINES: &[&str] = &[
    "block in done\n",
    "block t done\n",
    "block out done\n",
    "record [1,2,3]\n",
    "quiet\n",
];

const RESERVING_LEAVES_LINES: &[&str] = &[
    "block a completing\n",
    "left [\"2\",\"3\"]\n",
    "port 0 [\"1\"]\nheld 0 []\n",
    "block b done\n",
    "record [[\"1\",\"9\"]]\n",
    "quiet\n",
];

impl Example {
    fn network(self) -> &'static str {
        match self {
            Example::ParseThree => PARSE_THREE,
            Example::ReservingLeaves => RESERVING_LEAVES,
        }
    }

    fn records(self) -> &'static str {
        match self {
            Example::ParseThree => "in,1\nin,2\nin,3\n",
            Example::ReservingLeaves => "a,1\na,2\na,3\nb,9\n",
        }
    }

    /// What the records post: the names of inputs, each with a text.
    fn posts(self) -> &'static [(&'static str, &'static str)] {
        match self {
            Example::ParseThree => NUMBERS,
            Example::ReservingLeaves => PAIRS,
        }
    }

    /// Lines that stand in the report.
    fn lines(self) -> &'static [&'static str] {
        match self {
            Example::ParseThree => PARSE_THREE_LINES,
            Example::ReservingLeaves => RESERVING_LEAVES_LINES,
        }
    }
}

fn plan(rt: &impl Print, alloc: Global, network: &str) -> Result<Plan<Steps>, Stop> {
    let text = network.as_bytes();
    again!(rt, "read_plan", read_plan(alloc, text), TextRefusal::Memory => true)
}

fn lists(
    rt: &impl Print,
    alloc: Global,
    records: &str,
    plan: &Plan<Steps>,
) -> Result<Vec<Posted>, Stop> {
    let text = records.as_bytes();
    again!(rt, "read_records", read_records(alloc, text, plan), TextRefusal::Memory => true)
}

/// The networks and their records are read.
pub(crate) fn texts(rt: &impl Print, alloc: Global) -> Result<(), Stop> {
    for example in BOTH {
        let plan = plan(rt, alloc, example.network())?;
        let lists = lists(rt, alloc, example.records(), &plan)?;
        check(rt, "read_records", lists.len() == plan.input_count());
    }
    Ok(())
}

/// What is posted to the example's network.
fn inputs(alloc: Global, example: Example) -> Result<Inputs<Steps>, Stop> {
    let Ok(plan) = read_plan(alloc, example.network().as_bytes()) else {
        return Err(Stop::Memory);
    };
    let mut inputs = Inputs::of(alloc, plan)?;
    for (name, text) in example.posts() {
        post(alloc, &mut inputs, name, text)?;
    }
    Ok(inputs)
}

fn post(alloc: Global, inputs: &mut Inputs<Steps>, name: &str, text: &str) -> Result<(), Stop> {
    let value = Value::Text(Text::from_str(alloc, text)?);
    match inputs.post(name, value) {
        Ok(()) => Ok(()),
        Err(_) => Err(Stop::Memory),
    }
}

fn start(rt: &impl Print, alloc: Global, inputs: Inputs<Steps>) -> Result<Net<Steps>, Stop> {
    let count = inputs.plan().block_count();
    again!(rt, "Net::new", inputs.start(alloc), only AllocFailed { value: inputs } =>
        inputs.plan().block_count() == count)
}

/// A network of the example in which nothing has happened.
pub(crate) fn fresh(rt: &impl Print, alloc: Global, example: Example) -> Result<Net<Steps>, Stop> {
    let inputs = inputs(alloc, example)?;
    start(rt, alloc, inputs)
}

/// How many marks the journals have, together.
pub(crate) fn marks(net: &Net<Steps>) -> usize {
    let mut count = 0usize;
    for block in 0..net.plan().block_count() {
        count = count.saturating_add(net.journal(block).len());
    }
    count
}

fn report(
    rt: &impl Print,
    alloc: Global,
    net: &Net<Steps>,
    settled: Settled,
) -> Result<Vec<u8>, Stop> {
    let mut report = vec![in alloc; FIRST]?;
    match write_report(alloc, net, settled, &mut report) {
        Ok(()) => Ok(report),
        Err(why) => {
            let is_write = matches!(why, TextRefusal::Fault(TextFault::Write));
            refused(
                rt,
                "write_report",
                is_write && report.as_slice().starts_with(&[FIRST]),
            );
            write_again(alloc, net, settled)
        }
    }
}

fn write_again(alloc: Global, net: &Net<Steps>, settled: Settled) -> Result<Vec<u8>, Stop> {
    let mut report = Vec::new(alloc);
    match write_report(alloc, net, settled, &mut report) {
        Ok(()) => Ok(report),
        Err(_) => Err(Stop::Memory),
    }
}

/// The network's report has the lines of the example.
pub(crate) fn is_reported(
    rt: &impl Print,
    alloc: Global,
    net: &Net<Steps>,
    settled: Settled,
    example: Example,
) -> Result<(), Stop> {
    let report = report(rt, alloc, net, settled)?;
    let Ok(text) = str::from_utf8(report.as_slice()) else {
        return Err(wrong(rt, "write_report"));
    };
    for line in example.lines() {
        check(rt, "write_report", text.contains(line));
    }
    Ok(())
}

fn settle(rt: &impl Print, alloc: Global, net: &mut Net<Steps>) -> Result<Settled, Stop> {
    again!(rt, "Net::settle", net.settle(alloc, ENOUGH), NetFault::Memory => !net.is_quiet())
}

/// The networks settle.
pub(crate) fn settling(rt: &impl Print, alloc: Global) -> Result<(), Stop> {
    for example in BOTH {
        let mut net = fresh(rt, alloc, example)?;
        let settled = settle(rt, alloc, &mut net)?;
        is_reported(rt, alloc, &net, settled, example)?;
    }
    Ok(())
}

fn settle_with<R: Print + Threads + Wait + Sync>(
    rt: &R,
    alloc: Global,
    net: &mut Net<Steps>,
) -> Result<Settled, Stop> {
    again!(rt, "Net::settle_with", net.settle_with(rt, alloc, 2, ENOUGH), NetFault::Memory => !net.is_quiet())
}

/// The networks settle with two workers.
pub(crate) fn settling_with<R: Print + Threads + Wait + Sync>(
    rt: &R,
    alloc: Global,
) -> Result<(), Stop> {
    for example in BOTH {
        let mut net = fresh(rt, alloc, example)?;
        let settled = settle_with(rt, alloc, &mut net)?;
        is_reported(rt, alloc, &net, settled, example)?;
    }
    Ok(())
}
