//! Records that are run chunk by chunk, by several workers.
use crate::check::{check, is_due};
use crate::networks::planned;
use flow_stream::{ChunkFault, Form, Span, Stream, StreamFault};
use std::alloc::Global;
use std::io::BufReader;
use std::process::Abort;
use std::sync::Wait;
use std::thread::Threads;
use std::time::{Clock, CpuClock};

/// A chain, and a block that works on four records at a time, so long on each that several workers share them.
const NETWORK: &str = r#"format = 1
block = [
  { name = "in", kind = "buffer", input = true },
  { name = "cents", kind = "transform", lanes = 2, work = ["int", "mul 100"] },
  { name = "out", kind = "action", work = [] },
  { name = "slow", kind = "transform_many", input = true, lanes = 4, work = ["int", "repeat 1000", "repeat 100", "mul 0", "upto"] },
  { name = "none", kind = "action", work = [] },
]
link = [
  { from = "in", to = "cents", propagate = true },
  { from = "cents", to = "out", propagate = true },
  { from = "slow", to = "none", propagate = true },
]
"#;

/// Three chunks of four, the last of which has a fault.
const RECORDS: &[u8] =
    b"slow,1\nin,1\nslow,2\nin,2\nin,3\nslow,3\nin,4\nslow,4\nin,5\nin,x\nslow,5\nin,6\n";

const WRITTEN: &str = "out,100\nout,200\nout,300\nout,400\n";

/// Adds what so many workers write of the records, and tells why the stream ends, if not for want of records.
fn write_all(
    rt: &(impl Abort + Print + Threads + Wait + Clock + CpuClock + Sync),
    alloc: Global,
    workers: usize,
    text: &mut Vec<u8>,
) -> Option<StreamFault> {
    let plan = planned(rt, alloc, NETWORK.as_bytes());
    let reader = match BufReader::with_capacity(alloc, 64, RECORDS) {
        Ok(reader) => reader,
        Err(_) => panic!(rt; "out of memory"),
    };
    let mut stream = Stream::new(alloc, plan, reader, 4, Form::Csv);
    for _ in RECORDS {
        match stream.advance(rt, alloc, workers, text) {
            Ok((_, 0)) => break,
            Ok((next, _)) => stream = next,
            Err(fault) => return Some(fault),
        }
    }
    None
}

#[test]
fn any_number_of_workers_writes_the_same(rt: HostRuntime) {
    let span = Span { first: 9, last: 12 };
    let due = StreamFault::Chunk(span, ChunkFault::Incomplete);
    for workers in [0, 1, 2, 64, 65] {
        let mut text = Vec::new(rt.alloc());
        let fault = write_all(&rt, rt.alloc(), workers, &mut text);
        let text = str::from_utf8(&text).unwrap_or("no UTF-8");
        is_due(&rt, "what is written", WRITTEN, text);
        check(&rt, "why it ends", fault == Some(due));
    }
}
