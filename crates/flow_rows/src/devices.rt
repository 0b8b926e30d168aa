//! Readers and writers that fail.
use crate::told::{ran, told_by};
use flow_link::PlanFault;
use flow_net::Settled;
use flow_run::{Ran, RunRefusal, write_refusal};
use flow_text::TextFault;
use flow_trial::{ENOUGH, is_refusal};
use std::alloc::Global;
use std::io;
use std::io::{Read, Write};
use std::sync::Wait;
use std::test::Fail;
use std::thread::Threads;
use std::time::{Clock, CpuClock};

/// Gives one byte a call, and fails at the call with this number.
#[derive(Drop)]
struct FailingReader {
    text: &'static [u8],
    calls: usize,
}

impl Read for FailingReader {
    fn read(&mut self, buffer: &mut [u8]) -> io::Result<usize> {
        if self.calls == 0 {
            return Err(io::Error::from(io::ErrorKind::BrokenPipe));
        }
        self.calls -= 1;
        let most = buffer.len().min(1);
        self.text.read(&mut buffer[..most])
    }
}

/// Takes two bytes a call, and fails at the call with this number.
#[derive(Drop)]
struct FailingWriter {
    calls: usize,
}

impl Write for FailingWriter {
    fn write(&mut self, bytes: &[u8]) -> io::Result<usize> {
        if self.calls == 0 {
            return Err(io::Error::from(io::ErrorKind::BrokenPipe));
        }
        self.calls -= 1;
        Ok(bytes.len().min(2))
    }

    fn flush(&mut self) -> io::Result<()> {
        Ok(())
    }
}

const PAIR: &[u8] = br#"format = 1
block = [{name = "in", kind = "buffer", input = true}, {name = "out", kind = "action", work = []}]
link = [{from = "in", to = "out", propagate = true}]
"#;

const TWO: &[u8] = b"in,a\nin,b\n";

const COMPLETE: Ran = Ran {
    settled: Settled::Quiet,
    complete: true,
};

// A reader that has given all its bytes is read once more.
#[test]
fn a_reader_that_fails_at_any_call_is_told(rt: HostRuntime) -> Result<(), Fail> {
    for calls in 0..TWO.len() + 1 {
        let reader = FailingReader { text: TWO, calls };
        let told = told_by(&rt, rt.alloc(), PAIR, reader, ENOUGH)?;
        let is_due = told.status == 5 && is_refusal(told.text.as_slice(), "12 Read");
        assert!(rt; is_due, "at call {calls}");
    }
    Ok(())
}

fn run_to(
    rt: &(impl Threads + Wait + Clock + CpuClock + Sync),
    alloc: Global,
    writer: &mut FailingWriter,
) -> Result<Ran, RunRefusal> {
    ran(rt, alloc, PAIR, TWO, writer, 1, ENOUGH)
}

#[test]
fn a_writer_that_fails_at_any_call_is_told(rt: HostRuntime) {
    let mut endless = FailingWriter { calls: 1_000 };
    assert!(rt; run_to(&rt, rt.alloc(), &mut endless) == Ok(COMPLETE));
    for calls in 0..1_000 - endless.calls.min(1_000) {
        let answer = run_to(&rt, rt.alloc(), &mut FailingWriter { calls });
        let failed = RunRefusal::Text(TextFault::Write);
        assert!(rt; answer == Err(failed), "at call {calls}");
    }
}

#[test]
fn a_refusal_tells_of_a_failing_writer(rt: HostRuntime) {
    let refusal = RunRefusal::Text(TextFault::Plan(PlanFault::Cycle));
    let calls_of_line = "flow_run: 8 Plan 9 Cycle\n".len();
    let mut enough = FailingWriter {
        calls: calls_of_line,
    };
    assert!(rt; write_refusal(&refusal, &mut enough) == Ok(()));
    for calls in 0..calls_of_line - enough.calls.min(calls_of_line) {
        let answer = write_refusal(&refusal, &mut FailingWriter { calls });
        assert!(rt; answer == Err(TextFault::Write), "at call {calls}");
    }
}
