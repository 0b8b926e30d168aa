//! Reads a whole report.
ghost use Rattle.std.specs.Prelude.{◌≡◌, ◌++◌, codes, IfOk, IfSome};
ghost use Rattle.std.specs.List.{flat_map};
ghost use Rattle.flow_reading.specs.Line.{line_text};
ghost use Rattle.flow_reading.specs.Printed.{numbered_text, state_text, settled_text, ports_text, link_text, kept_text};
ghost use Rattle.flow_reading.specs.Printed.{title_text, body_text, report_text};

use crate::fault::{ReadError, ReportFault};
use crate::line::{Lines, behind, number_of, split_word};
use crate::list::PrintedList;
use std::alloc::Global;

/// How many bytes the longest name has.
const LONGEST_NAME: usize = 64;

/// How a block ended.
#[derive(Clone, Copy)]
pub enum State {
    /// It would take more.
    Open,
    /// It takes no more, and is not through.
    Completing,
    Done,
    /// With this number.
    Faulted(u32),
}

/// How a run ended.
#[derive(Clone, Copy)]
pub enum Settled {
    /// Nothing could move any more.
    Quiet,
    /// It was stopped at its limit.
    Stopped,
}

/// What a block took at a port.
#[derive(Clone, Copy)]
pub struct PortReport<'a> {
    pub taken: PrintedList<'a>,
    /// What it took there and is not done with.
    pub held: PrintedList<'a>,
}

/// What a block gave over a link.
#[derive(Clone, Copy)]
pub struct LinkReport<'a> {
    /// The number of the link in its network.
    pub number: u32,
    pub given: PrintedList<'a>,
}

/// What a block keeps at the end.
#[derive(Clone, Copy)]
pub enum Kept<'a> {
    /// The results of an action.
    Record(PrintedList<'a>),
    /// What another block made and did not give.
    Left(PrintedList<'a>),
}

/// What a report says of a block.
#[derive(Drop)]
pub struct BlockReport<'a> {
    pub name: &'a str,
    pub state: State,
    /// What waits at an input.
    pub input: Option<PrintedList<'a>>,
    /// The ports in order, at least one.
    pub ports: Vec<PortReport<'a>>,
    /// The links out of the block, in order.
    pub links: Vec<LinkReport<'a>>,
    /// What it gave over its exit, if it has one.
    pub exit: Option<PrintedList<'a>>,
    pub kept: Kept<'a>,
}

/// The report of a run.
#[derive(Drop)]
pub struct Report<'a> {
    /// The blocks in the order of their network.
    pub blocks: Vec<BlockReport<'a>>,
    pub settled: Settled,
}

/// Reads a report. Its lists are checked, and stay pieces of the text.
///
/// The time is linear in the length of the text. The memory is for blocks, ports and links, and not for values.
pub fn read_report(alloc: Global, text: &[u8]) -> Result<Report<'_>, ReadError>
    ensures { IfOk result (λ report. text.now ≡ report_text report) }
{
    check_utf8(text)?;
    let mut lines = Lines::new(text);
    let mut blocks = Vec::new(alloc);
    while let Some(title) = lines.take(b"block ") {
        blocks.push(read_block(alloc, &mut lines, title)?)?;
    }
    let settled = read_settled(&mut lines)?;
    if lines.is_over() {
        Ok(Report { blocks, settled })
    } else {
        Err(lines.behind())
    }
}

fn check_utf8(text: &[u8]) -> Result<(), ReadError> {
    match simdutf8::compat::from_utf8(text) {
        Ok(_) => Ok(()),
        Err(error) => {
            let valid = &text[..error.valid_up_to()];
            Err(ReadError::Fault {
                line: line_feeds(valid).saturating_add(1),
                fault: ReportFault::NotUtf8,
            })
        }
    }
}

fn line_feeds(text: &[u8]) -> usize {
    let mut count = 0usize;
    for byte in text {
        if *byte == b'\n' {
            count = count.saturating_add(1);
        }
    }
    count
}

/// Reads the last line.
fn read_settled(lines: &mut Lines) -> Result<Settled, ReadError>
    ensures { IfOk result (λ settled. lines.old.rest.now ≡ settled_text settled ++ lines.new.rest.now) }
{
    if lines.take_whole(b"quiet\n") {
        return Ok(Settled::Quiet);
    }
    if lines.take_whole(b"stopped\n") {
        return Ok(Settled::Stopped);
    }
    Err(lines.stray())
}

/// Reads the lines of the block with this title.
fn read_block<'a>(
    alloc: Global,
    lines: &mut Lines<'a>,
    title: &'a [u8],
) -> Result<BlockReport<'a>, ReadError>
    ensures title { IfOk result (λ block. title.now ≡ title_text block) }
    ensures body { IfOk result (λ block. lines.old.rest.now ≡ body_text block ++ lines.new.rest.now) }
{
    let Some((name, state)) = split_word(title) else {
        return Err(lines.last(ReportFault::State));
    };
    let name = read_name(lines, name)?;
    let state = read_state(lines, state)?;
    let input = lines.take_list(b"input ")?;
    let ports = read_ports(alloc, lines)?;
    let links = read_links(alloc, lines)?;
    let exit = lines.take_list(b"exit ")?;
    let kept = read_kept(lines)?;
    Ok(BlockReport {
        name,
        state,
        input,
        ports,
        links,
        exit,
        kept,
    })
}

fn read_name<'a>(lines: &Lines<'a>, name: &'a [u8]) -> Result<&'a str, ReadError>
    ensures { IfOk result (λ read. read.now ≡ name.now) }
{
    if !is_name(name) {
        return Err(lines.last(ReportFault::Name));
    }
    match str::from_utf8(name) {
        Ok(name) => Ok(name),
        Err(_) => Err(lines.last(ReportFault::Name)),
    }
}

fn is_name(name: &[u8]) -> bool {
    for byte in name {
        if !is_of_name(*byte) {
            return false;
        }
    }
    !name.is_empty() && name.len() <= LONGEST_NAME
}

fn is_of_name(byte: u8) -> bool {
    byte.is_ascii_alphanumeric() || matches!(byte, b'_' | b'-' | b'.')
}

fn read_state(lines: &Lines, state: &[u8]) -> Result<State, ReadError>
    ensures { IfOk result (λ read. state.now ≡ state_text read) }
{
    match state {
        b"open" => Ok(State::Open),
        b"completing" => Ok(State::Completing),
        b"done" => Ok(State::Done),
        _ => match read_faulted(state) {
            Some(faulted) => Ok(faulted),
            None => Err(lines.last(ReportFault::State)),
        },
    }
}

fn read_faulted(state: &[u8]) -> Option<State>
    ensures { IfSome result (λ read. state.now ≡ state_text read) }
{
    let number = number_of(behind(state, b"faulted ")?)?;
    Some(State::Faulted(number))
}

fn read_ports<'a>(alloc: Global, lines: &mut Lines<'a>) -> Result<Vec<PortReport<'a>>, ReadError>
    ensures { IfOk result (λ ports. lines.old.rest.now ≡ ports_text 0 ports.items ++ lines.new.rest.now) }
{
    let mut ports = Vec::new(alloc);
    while let Some((number, taken)) = lines.take_numbered(b"port ")? {
        if number as usize != ports.len() {
            return Err(lines.last(ReportFault::Number));
        }
        let held = read_held(lines, number)?;
        ports.push(PortReport { taken, held })?;
    }
    if ports.is_empty() {
        return Err(lines.stray());
    }
    Ok(ports)
}

/// Reads what is held at this port.
fn read_held<'a>(lines: &mut Lines<'a>, port: u32) -> Result<PrintedList<'a>, ReadError>
    ensures { IfOk result (λ held. lines.old.rest.now ≡ line_text (codes "held ") (numbered_text port held)
        ++ lines.new.rest.now) }
{
    match lines.take_numbered(b"held ")? {
        Some((number, held)) if number == port => Ok(held),
        Some(_) => Err(lines.last(ReportFault::Number)),
        None => Err(lines.stray()),
    }
}

fn read_links<'a>(alloc: Global, lines: &mut Lines<'a>) -> Result<Vec<LinkReport<'a>>, ReadError>
    ensures { IfOk result (λ links. lines.old.rest.now ≡ flat_map link_text links.items ++ lines.new.rest.now) }
{
    let mut links = Vec::new(alloc);
    let mut least = 0;
    while let Some((number, given)) = lines.take_numbered(b"link ")? {
        if number < least {
            return Err(lines.last(ReportFault::Number));
        }
        links.push(LinkReport { number, given })?;
        least = number.saturating_add(1);
    }
    Ok(links)
}

fn read_kept<'a>(lines: &mut Lines<'a>) -> Result<Kept<'a>, ReadError>
    ensures { IfOk result (λ kept. lines.old.rest.now ≡ kept_text kept ++ lines.new.rest.now) }
{
    if let Some(recorded) = lines.take_list(b"record ")? {
        return Ok(Kept::Record(recorded));
    }
    match lines.take_list(b"left ")? {
        Some(left) => Ok(Kept::Left(left)),
        None => Err(lines.stray()),
    }
}
