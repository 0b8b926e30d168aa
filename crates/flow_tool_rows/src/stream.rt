//! Records that are run chunk by chunk.
use crate::check::{add, are_due, bytes_of, check, given, has_rows, is_due, number, two_cells};
use crate::networks::planned;
use flow_outcome::{ResultsForm, write_results};
use flow_split::Records;
use flow_stream::{Form, Stream, StreamFault};
use std::alloc::Global;
use std::io;
use std::io::{BufReader, ErrorKind, Write};
use std::process::Abort;
use std::sync::Wait;
use std::thread::Threads;
use std::time::{Clock, CpuClock};

const CHAIN: &str = r#"format = 1
block = [
  { name = "in", kind = "buffer", input = true },
  { name = "cents", kind = "transform", work = ["int", "mul 100"] },
  { name = "out", kind = "action", work = [] },
  { name = "names", kind = "action", input = true, work = [] },
]
link = [
  { from = "in", to = "cents", propagate = true },
  { from = "cents", to = "out", propagate = true },
]
"#;

const PAIRS: &str = r#"format = 1
block = [
  { name = "a", kind = "transform", input = true, work = ["int"] },
  { name = "b", kind = "buffer", input = true },
  { name = "pairs", kind = "join" },
  { name = "nested", kind = "join" },
  { name = "c", kind = "buffer", input = true },
  { name = "rows", kind = "action", work = [] },
]
link = [
  { from = "a", to = "pairs", port = 0, propagate = true },
  { from = "b", to = "pairs", port = 1, propagate = true },
  { from = "pairs", to = "nested", port = 0, propagate = true },
  { from = "c", to = "nested", port = 1, propagate = true },
  { from = "nested", to = "rows", propagate = true },
]
"#;

/// In each row the name of a situation, a network, how many records a chunk has, how many are skipped, the records, and what is
/// written of them; behind `! ` why it ends, if not for want of records. Bytes are as `bytes_of` reads them.
const CHUNKS: &str = r#"
no records | chain | 2 | 0 | nothing | nothing
chunks, and a rest | chain | 2 | 0 | in,1~names,x~in,2~in,3~names,"y,~"~ | out,100~names,x~out,200~out,300~names,"y,~"~
one chunk of more than there are | chain | 9 | 0 | names,x~in,1^~in,2 | out,100~out,200~names,x~
a chunk with a fault, and nothing of it | chain | 2 | 0 | in,1~in,2~in,3~in,x~in,5~ | out,100~out,200~! records 3 to 4: their run ends with status 1
from the chunk that had the fault on | chain | 2 | 2 | in,1~in,2~in,3~in,4~in,5~ | out,300~out,400~out,500~
past the last record | chain | 2 | 9 | in,1~in,2~ | nothing
a record that can't be read has its number among all | chain | 2 | 1 | in~in,2~in,3~in,4~~none,5~in,6~ | out,200~out,300~! records 4 to 5: 11 UnknownInput record 5
a chunk without a partner | pairs | 3 | 0 | a,1~b,x~c,y~b,z~c,2~a,2~a,3~b,4~b,5~ | rows,"[1,""x""]",y~rows,"[2,""z""]",2~! records 7 to 9: their run ends with status 1
records that are no UTF-8 | chain | 1 | 0 | names,Ã©~names,ÿ~ | names,Ã©~! records 2 to 2: 10 NotUtf8 record 2
a byte order mark in front of all | chain | 1 | 0 | ï»¿"in",1^in,2^~^~in,3 | out,100~out,200~out,300~
a byte order mark in front of a chunk | chain | 1 | 0 | in,1~ï»¿in,2~ | out,100~! records 2 to 2: 11 UnknownInput record 2
a part of a byte order mark | chain | 1 | 0 | ï» | ! records 1 to 1: 9 Csv record 1
quotes that are not closed | chain | 1 | 0 | names,"a""~b"~names,"c~names,d~ | names,"a""~b"~names,"c~names,d~"~
"#;

/// The network with this name.
fn network_of(rt: &(impl Abort + Print), name: &str) -> &'static str {
    match name {
        "chain" => CHAIN,
        "pairs" => PAIRS,
        _ => panic!(rt; "no network: {name}"),
    }
}

/// A stream of the records in these bytes, in chunks of so many, whose reader holds so many bytes.
fn opened<'r>(
    rt: &(impl Abort + Print),
    alloc: Global,
    network: &str,
    (records, room): (&'r [u8], usize),
    size: u64,
    form: Form,
) -> Stream<&'r [u8]> {
    let plan = planned(rt, alloc, network.as_bytes());
    let reader = BufReader::with_capacity(alloc, room, records);
    Stream::new(alloc, plan, given(rt, "a reader", reader), size, form)
}

/// Why a stream ended, as a row tells it.
fn told_of(rt: &(impl Abort + Print), alloc: Global, fault: StreamFault) -> String {
    let told = match fault {
        StreamFault::Chunk(span, why) => format!(in alloc; "! {span}: {why}"),
        StreamFault::Closed(span) => format!(in alloc; "! {span}: nobody takes it"),
        StreamFault::Write(span) => format!(in alloc; "! {span}: not written"),
    };
    given(rt, "a fault", told)
}

/// What a stream writes behind so many records, and why it ends, if not for want of records.
fn streamed(
    rt: &(impl Abort + Print + Threads + Wait + Clock + CpuClock + Sync),
    alloc: Global,
    stream: Stream<&[u8]>,
    skipped: u64,
) -> Vec<u8> {
    let mut stream = stream;
    given(rt, "records to skip", stream.skip(skipped));
    let mut text = Vec::new(alloc);
    for _ in 0..u64::MAX {
        match stream.advance(rt, alloc, 1, &mut text) {
            Ok((_, 0)) => break,
            Ok((next, _)) => stream = next,
            Err(fault) => {
                let told = told_of(rt, alloc, fault);
                add(rt, &mut text, told.as_bytes());
                break;
            }
        }
    }
    text
}

/// Tests that of a row is written what is due, from a reader that holds so many bytes.
fn is_streamed(
    rt: &(impl Abort + Print + Threads + Wait + Clock + CpuClock + Sync),
    alloc: Global,
    row: &str,
    room: usize,
) {
    let (_, others) = two_cells(rt, row);
    let (name, others) = two_cells(rt, others);
    let (size, others) = two_cells(rt, others);
    let (skipped, others) = two_cells(rt, others);
    let (words, due) = two_cells(rt, others);
    let records = bytes_of(rt, alloc, words);
    let (size, skipped) = (number(rt, size) as u64, number(rt, skipped) as u64);
    let held = (records.as_slice(), room);
    let stream = opened(rt, alloc, network_of(rt, name), held, size, Form::Csv);
    let came = streamed(rt, alloc, stream, skipped);
    are_due(rt, row, &bytes_of(rt, alloc, due), &came);
}

#[test]
fn chunks_are_run_by_themselves(rt: HostRuntime) {
    has_rows(&rt, CHUNKS, 13);
    for row in CHUNKS.lines().skip(1) {
        is_streamed(&rt, rt.alloc(), row, 1);
        is_streamed(&rt, rt.alloc(), row, 3);
        is_streamed(&rt, rt.alloc(), row, 4_096);
    }
}

/// The text with this number of all texts of up to three bytes that matter to where records end, and these bytes behind it.
///
/// Two such bytes bring a reader of CSV to each place where it can stand, and the third takes it on from there.
fn text_with(rt: &impl Abort, alloc: Global, number: usize, behind: &[u8]) -> Vec<u8> {
    let mut text = Vec::new(alloc);
    let mut rest = number;
    for _ in 0..3 {
        let bytes: &[u8] = match rest % 6 {
            0 => b"a",
            1 => b",",
            2 => b"\"",
            3 => b"\n",
            4 => b"\r",
            _ => b"",
        };
        add(rt, &mut text, bytes);
        rest /= 6;
    }
    add(rt, &mut text, behind);
    text
}

/// How many records a run reads of a text.
fn count_of(rt: &(impl Abort + Print), alloc: Global, text: &[u8]) -> u64 {
    let mut records = Records::new(alloc, text);
    for _ in text {
        if !given(rt, "a record", records.advance()) {
            break;
        }
    }
    records.number()
}

/// Tests that with these bytes behind it each text has as many records for a stream as for a run.
fn ends_as_a_run(rt: &(impl Abort + Print), alloc: Global, behind: &[u8]) {
    for number in 0..216 {
        let text = text_with(rt, alloc, number, behind);
        let mut stream = opened(rt, alloc, CHAIN, (text.as_slice(), 4_096), 1, Form::Csv);
        given(rt, "records", stream.skip(9));
        let due = count_of(rt, alloc, &text);
        check(rt, "as many records", stream.number() == due);
    }
}

/// What stands behind a text tells, by how many records there are, whether the text ends in front of a record, in a field, in quotes,
/// or in front of a field; there a reader goes on as it does behind a quote.
#[test]
fn records_end_where_a_run_ends_them(rt: HostRuntime) {
    ends_as_a_run(&rt, rt.alloc(), b"");
    ends_as_a_run(&rt, rt.alloc(), b"\na");
    ends_as_a_run(&rt, rt.alloc(), b"\"\na");
}

/// Texts that need quotes or escapes, and rows in rows.
const AWKWARD: &[u8] =
    b"a,1\nb,\"x \"\"y\"\"\"\nc,\"\"\na,-2\nb,\"\\\x01\x7f,\"\nc,\"line\r\nend\"\n";

/// What a stream writes of these records in one chunk.
fn written(
    rt: &(impl Abort + Print + Threads + Wait + Clock + CpuClock + Sync),
    alloc: Global,
    network: &str,
    records: &[u8],
    form: Form,
) -> Vec<u8> {
    let stream = opened(rt, alloc, network, (records, 4_096), 100, form);
    streamed(rt, alloc, stream, 0)
}

/// Tests that what a stream writes in two forms are the results of its report.
fn is_as_reported(
    rt: &(impl Abort + Print + Threads + Wait + Clock + CpuClock + Sync),
    alloc: Global,
    network: &str,
    records: &[u8],
) {
    let report = written(rt, alloc, network, records, Form::Report);
    for (form, printed) in [
        (Form::Csv, ResultsForm::Csv),
        (Form::JsonLines, ResultsForm::JsonLines),
    ] {
        let mut due = Vec::new(alloc);
        let results = write_results(alloc, &report, &[], printed, &mut due);
        given(rt, "results", results);
        are_due(
            rt,
            "results",
            &due,
            &written(rt, alloc, network, records, form),
        );
    }
}

#[test]
fn results_are_those_of_the_reports(rt: HostRuntime) {
    is_as_reported(&rt, rt.alloc(), PAIRS, AWKWARD);
    let records = b"names,\"a,b\"\nin,007\nnames,\nin,-1\nnames,' \"\n";
    is_as_reported(&rt, rt.alloc(), CHAIN, records);
}

#[test]
fn each_chunk_has_its_report(rt: HostRuntime) {
    let alloc = rt.alloc();
    let records: &[u8] = b"in,1\nin,2\n";
    let stream = opened(&rt, alloc, CHAIN, (records, 4_096), 1, Form::Report);
    let came = streamed(&rt, alloc, stream, 0);
    let text = given(&rt, "reports", str::from_utf8(&came));
    check(&rt, "two reports", text.split("quiet\n").count() == 3);
    check(&rt, "the first", text.contains("record [100]\n"));
    check(&rt, "the second", text.contains("record [200]\n"));
}

/// A writer that takes so many bytes, and then nothing.
#[derive(Drop)]
struct Narrow {
    taken: Vec<u8>,
    room: usize,
    failure: ErrorKind,
}

impl Write for Narrow {
    fn write(&mut self, bytes: &[u8]) -> io::Result<usize> {
        let count = bytes.len().min(self.room);
        if count == 0 && !bytes.is_empty() {
            return Err(io::Error::from(self.failure));
        }
        let part = bytes.get(..count).unwrap_or(&[]);
        if self.taken.extend_from_slice(part).is_err() {
            return Err(io::Error::from(ErrorKind::OutOfMemory));
        }
        self.room = self.room.saturating_sub(count);
        Ok(count)
    }

    fn flush(&mut self) -> io::Result<()> {
        Ok(())
    }
}

/// Tests that a stream whose writer takes just its first chunk ends for this.
fn ends_for(
    rt: &(impl Abort + Print + Threads + Wait + Clock + CpuClock + Sync),
    alloc: Global,
    failure: ErrorKind,
    due: &str,
) {
    let records: &[u8] = b"in,1\nin,2\nin,3\nin,4\n";
    let stream = opened(rt, alloc, CHAIN, (records, 4_096), 2, Form::Csv);
    let mut writer = Narrow {
        taken: Vec::new(alloc),
        room: 16,
        failure,
    };
    let (next, _) = given(
        rt,
        "the first chunk",
        stream.advance(rt, alloc, 1, &mut writer),
    );
    are_due(rt, "the first chunk", b"out,100\nout,200\n", &writer.taken);
    match next.advance(rt, alloc, 1, &mut writer) {
        Ok(_) => panic!(rt; "no failure"),
        Err(fault) => is_due(rt, due, due, told_of(rt, alloc, fault).as_str()),
    }
}

#[test]
fn a_writer_that_fails_is_told(rt: HostRuntime) {
    let alloc = rt.alloc();
    ends_for(
        &rt,
        alloc,
        ErrorKind::BrokenPipe,
        "! records 3 to 4: nobody takes it",
    );
    ends_for(
        &rt,
        alloc,
        ErrorKind::OutOfMemory,
        "! records 3 to 4: memory",
    );
    ends_for(
        &rt,
        alloc,
        ErrorKind::Other,
        "! records 3 to 4: not written",
    );
}
