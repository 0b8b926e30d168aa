//! A network that is run over the records of a reader, chunk by chunk.
ghost use Rattle.std.specs.Prelude.{◌≡◌, IfOk};
ghost use Rattle.flow_link.specs.Planned.{layout_of};

use crate::fault::{ChunkFault, Span, StreamFault, unwritten};
use crate::form::{Form, page_of};
use crate::run::{plan_of, run_chunk};
use crate::texts::Texts;
use flow_link::Plan;
use flow_text::write_bytes;
use flow_value::Steps;
use std::alloc::Global;
use std::io;
use std::io::{BufReader, Read, Write};
use std::sync::Wait;
use std::thread::Threads;
use std::time::{Clock, CpuClock};

/// A network, and records for it. Each chunk is run by a network of its own, so nothing is held from one to the next, and no more than
/// one is in memory.
#[derive(Drop)]
pub struct Stream<R> {
    plan: Plan<Steps>,
    texts: Texts<R>,
    size: u64,
    form: Form,
}

impl<R: Read + Drop> Stream<R> {
    /// A stream before its first record, in chunks of so many.
    pub fn new(
        alloc: Global,
        plan: Plan<Steps>,
        reader: BufReader<R>,
        size: u64,
        form: Form,
    ) -> Stream<R> {
        Stream {
            plan,
            texts: Texts::new(alloc, reader),
            size,
            form,
        }
    }

    /// How many records were read.
    pub fn number(&self) -> u64 {
        self.texts.number()
    }

    /// Goes past the next records, so many where there are as many. What they have is not looked at.
    pub fn skip(&mut self, count: u64) -> Result<(), StreamFault> {
        match self.texts.skip(count) {
            Ok(()) => Ok(()),
            Err(fault) => {
                let read = self.texts.number();
                Err(StreamFault::Chunk(span_of(read, read), fault))
            }
        }
    }

    /// Runs the next chunk by so many workers, writes what its actions recorded, and tells how many records it had: 0 where there are
    /// none any more, and nothing is written then. Nothing is written either of a chunk whose run does not end with status 0.
    ///
    /// One worker does the events one after another. More help where messages are worked on for long; they are 64 at most. It waits for
    /// its threads.
    pub fn advance<C: Threads + Wait + Clock + CpuClock + Sync, W: Write>(
        self,
        rt: &C,
        alloc: Global,
        workers: usize,
        writer: &mut W,
    ) -> Result<(Stream<R>, u64), StreamFault> {
        let Stream {
            mut plan,
            mut texts,
            size,
            form,
        } = self;
        let before = texts.number();
        let taken = texts.advance(size);
        let span = span_of(before, texts.number());
        let count = match taken {
            Ok(count) => count,
            Err(fault) => return Err(StreamFault::Chunk(span, fault)),
        };
        if count > 0 {
            let text = texts.text();
            let (same, page) = match run_and_print(rt, alloc, plan, text, before, workers, form) {
                Ok(done) => done,
                Err(fault) => return Err(StreamFault::Chunk(span, fault)),
            };
            plan = same;
            if let Err(error) = send(&page, writer) {
                return Err(unwritten(span, &error));
            }
        }
        let next = Stream {
            plan,
            texts,
            size,
            form,
        };
        Ok((next, count))
    }
}

/// The records behind so many, up to the last that was read; at least one, which the reader failed at.
fn span_of(before: u64, number: u64) -> Span {
    let first = before.saturating_add(1);
    Span {
        first,
        last: number.max(first),
    }
}

/// Runs a chunk, whose records are behind so many. The plan comes back, with what is written of the run.
fn run_and_print<C: Threads + Wait + Clock + CpuClock + Sync>(
    rt: &C,
    alloc: Global,
    plan: Plan<Steps>,
    text: &[u8],
    before: u64,
    workers: usize,
    form: Form,
) -> Result<(Plan<Steps>, Vec<u8>), ChunkFault>
    ensures same_plan { IfOk result (λ done. layout_of done.0 ≡ layout_of plan) }
{
    let net = run_chunk(rt, alloc, plan, text, before, workers)?;
    let page = page_of(alloc, &net, form)?;
    Ok((plan_of(net), page))
}

/// Writes a page, and sends it on.
fn send<W: Write>(page: &[u8], writer: &mut W) -> io::Result<()> {
    write_bytes(writer, page)?;
    writer.flush()
}
