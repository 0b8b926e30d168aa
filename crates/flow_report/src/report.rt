//! Prints what a run left behind: the lines of a report, one for each part of a block.
ghost use Rattle.std.specs.Prelude.{◌≡◌, ◌+◌, ◌-◌, true, false, ◌∷◌, ◌++◌, [], length, drop, take, count_by, ◌<◌, ◌≤◌};
ghost use Rattle.std.specs.Prelude.{if◌then◌else◌, IfErr, OnOk};
ghost use Rattle.std.specs.Io.KnownBytes.{Appends};
ghost use Rattle.flow_report.specs.Written.{StaysInFront};
ghost use Rattle.flow_link.specs.Layout.{input_link};
ghost use Rattle.flow_link.specs.Plan.{begins_at, port_count};
ghost use Rattle.flow_link.specs.declared.draft.BlockKind.TheVariants.{Action};
ghost use Rattle.flow_link.specs.Trace.{took_at, took_over, gave_over, block_of, link_of, marks_of, trace_of, waits_over};
ghost use Rattle.flow_report.specs.Report.{state_word, block_line, input_line, port_line, held_line, link_line};
ghost use Rattle.flow_report.specs.Report.{exit_line, settled_line, last_line, is_input, is_output, between_count};
ghost use Rattle.flow_report.specs.Report.{input_link_number, exit_link_number, input_part, exit_part, last_part};
ghost use Rattle.flow_report.specs.Report.{all_ports, all_links, block_report, report, run_in};
ghost use Rattle.flow_report.specs.Given.{lists_of, given_lists};
ghost use Rattle.flow_report.specs.KeptList.{Fits};
ghost use Rattle.flow_report.specs.Printed.{list_text};

use crate::given::sort_given;
use crate::kept_list::KeptList;
use crate::list_line::{
    write_given_line, write_number, write_parts_line, write_printed_line, write_sorted_line,
    write_taken_line,
};
use crate::piece::write_bytes;
use crate::same::{
    hands_all_on, hands_on, is_from, leads_alone, link_of_port, may_show_again, records_all,
    took_all_posted,
};
use crate::seen::{block_at, block_count, held_at, left_at, link_at, link_count};
use flow_fault_text::{TextFault, TextRefusal};
use flow_link::{BlockDef, BlockKind, Link, LinkId, Mark};
use flow_net::{Net, Settled, State};
use flow_value::{Kept, Steps, Value};
use std::alloc::Global;
use std::io;
use std::io::Write;

/// So many links of a block are each read from its journal: what it gave is sorted only for more. To sort costs about as
/// much as six walks through the journal.
const FEW_LINKS: usize = 8;

// How many values the journal took over this link.
fn count_taken(journal: &[Mark], link: LinkId) -> usize
    ensures { result ≡ length (took_over link journal.now) }
{
    let mut count = 0;
    for mark in journal {
        if is_taken_over(mark, link) {
            count += 1;
        }
    }
    count
}

fn is_taken_over(mark: &Mark, link: LinkId) -> bool
    ensures { length (took_over link (mark.now ∷ [])) ≡ (if result then 1 else 0) }
{
    match mark {
        Mark::Took(_, over, _) => *over == link,
        _ => false,
    }
}

fn write_state<W: Write>(writer: &mut W, state: State) -> io::Result<()>
    ensures written { OnOk result (Appends (W.contents writer.old) (W.contents writer.new) (state_word state)) }
    ensures kept { StaysInFront (W.contents writer.old) (W.contents writer.new) }
{
    match state {
        State::Open => write_bytes(writer, b"open"),
        State::Completing => write_bytes(writer, b"completing"),
        State::Done => write_bytes(writer, b"done"),
        State::Faulted(number) => {
            write_bytes(writer, b"faulted ")?;
            write_number(writer, u64::from(number))
        }
    }
}

/// Writes the line of a block's name and state.
fn write_block_line<W: Write>(writer: &mut W, name: &str, state: State) -> io::Result<()>
    ensures written { OnOk result (Appends (W.contents writer.old) (W.contents writer.new)
        (block_line name.now state)) }
    ensures kept { StaysInFront (W.contents writer.old) (W.contents writer.new) }
{
    write_bytes(writer, b"block ")?;
    write_bytes(writer, name.as_bytes())?;
    write_bytes(writer, b" ")?;
    write_state(writer, state)?;
    write_bytes(writer, b"\n")
}

// Those of the posted values that were not taken, of which there are so many that were.
fn not_taken(posted: &[Value], taken: usize) -> &[Value]
    ensures { result.now ≡ drop taken posted.now }
{
    &posted[taken.min(posted.len())..]
}

/// Writes the line of what waits at an input.
fn write_input_line<W: Write>(writer: &mut W, waits: &[Value]) -> io::Result<()>
    ensures written { OnOk result (Appends (W.contents writer.old) (W.contents writer.new) (input_line waits.now)) }
    ensures kept { StaysInFront (W.contents writer.old) (W.contents writer.new) }
{
    write_parts_line(writer, b"input", None, waits, &[])
}

/// Writes the line of what was taken at a port.
fn write_port_line<W: Write>(writer: &mut W, port: u32, journal: &[Mark]) -> io::Result<()>
    ensures written { OnOk result (Appends (W.contents writer.old) (W.contents writer.new)
        (port_line port journal.now)) }
    ensures kept { StaysInFront (W.contents writer.old) (W.contents writer.new) }
{
    write_taken_line(writer, b"port ", Some(u64::from(port)), journal, port)
}

/// Writes the line of what a port holds, given in two parts.
fn write_held_line<W: Write>(
    writer: &mut W,
    port: u32,
    front: &[Value],
    back: &[Value],
) -> io::Result<()>
    ensures written { OnOk result (Appends (W.contents writer.old) (W.contents writer.new)
        (held_line port (front.now ++ back.now))) }
    ensures kept { StaysInFront (W.contents writer.old) (W.contents writer.new) }
{
    write_parts_line(writer, b"held ", Some(u64::from(port)), front, back)
}

/// Writes the line of what was given over a link: that of its list, where the journal is sorted that far.
fn write_link_line<W: Write>(
    writer: &mut W,
    link: LinkId,
    journal: &[Mark],
    lists: &[Vec<&Kept>],
) -> io::Result<()>
    requires { lists_of lists.now ≡ given_lists (length lists.now) journal.now }
    ensures written { OnOk result (Appends (W.contents writer.old) (W.contents writer.new)
        (link_line link journal.now)) }
    ensures kept { StaysInFront (W.contents writer.old) (W.contents writer.new) }
{
    let place = link as usize;
    if place < lists.len() {
        return write_sorted_line(
            writer,
            b"link ",
            Some(u64::from(link)),
            lists[place].as_slice(),
        );
    }
    write_given_line(writer, b"link ", Some(u64::from(link)), journal, link)
}

/// Writes the line of what was given over an exit.
fn write_exit_line<W: Write>(writer: &mut W, link: LinkId, journal: &[Mark]) -> io::Result<()>
    ensures written { OnOk result (Appends (W.contents writer.old) (W.contents writer.new)
        (exit_line link journal.now)) }
    ensures kept { StaysInFront (W.contents writer.old) (W.contents writer.new) }
{
    write_given_line(writer, b"exit", None, journal, link)
}

/// Writes the line of the results that an action keeps.
fn write_record_line<W: Write>(writer: &mut W, recorded: &[Value]) -> io::Result<()>
    ensures written { OnOk result (Appends (W.contents writer.old) (W.contents writer.new)
        (last_line true recorded.now [])) }
    ensures kept { StaysInFront (W.contents writer.old) (W.contents writer.new) }
{
    write_parts_line(writer, b"record", None, recorded, &[])
}

/// Writes the line of the outputs that weren't given, in two parts.
fn write_left_line<W: Write>(writer: &mut W, front: &[Value], back: &[Value]) -> io::Result<()>
    ensures written { OnOk result (Appends (W.contents writer.old) (W.contents writer.new)
        (last_line false [] (front.now ++ back.now))) }
    ensures kept { StaysInFront (W.contents writer.old) (W.contents writer.new) }
{
    write_parts_line(writer, b"left", None, front, back)
}

/// Writes the last line.
fn write_settled_line<W: Write>(writer: &mut W, settled: Settled) -> io::Result<()>
    ensures written { OnOk result (Appends (W.contents writer.old) (W.contents writer.new) (settled_line settled)) }
    ensures kept { StaysInFront (W.contents writer.old) (W.contents writer.new) }
{
    match settled {
        Settled::Quiet => write_bytes(writer, b"quiet\n"),
        Settled::Stopped => write_bytes(writer, b"stopped\n"),
    }
}

// How many inputs have a smaller number.
fn inputs_before(net: &Net<Steps>, block: usize) -> usize
    requires { block ≤ length (run_in net.now).layout.blocks }
    ensures { result ≡ count_by is_input (take block (run_in net.now).layout.blocks) }
{
    let mut count = 0;
    for number in 0..block {
        if block_at(net, number).input {
            count += 1;
        }
    }
    count
}

// How many blocks with an exit have a smaller number.
fn exits_before(net: &Net<Steps>, block: usize) -> usize
    requires { block ≤ length (run_in net.now).layout.blocks }
    ensures { result ≡ count_by is_output (take block (run_in net.now).layout.blocks) }
{
    let mut count = 0;
    for number in 0..block {
        if block_at(net, number).output {
            count += 1;
        }
    }
    count
}

// How many of so many links lead from one block to another.
fn links_between(net: &Net<Steps>, links: LinkId) -> usize
    requires { links ≡ length (run_in net.now).layout.links }
    ensures { result ≡ between_count (run_in net.now) }
{
    let blocks = block_count(net);
    let inner = (links as usize).saturating_sub(inputs_before(net, blocks));
    inner.saturating_sub(exits_before(net, blocks))
}

// The number of the link of a block that is an input.
fn input_link_of(net: &Net<Steps>, block: usize) -> LinkId
    requires { block < length (run_in net.now).layout.blocks }
    ensures number { result ≡ input_link_number (run_in net.now) block }
    ensures leads { (block_of (run_in net.now) block).input ≡ true → link_of (run_in net.now) result ≡ input_link
        block }
{
    let links = link_count(net);
    let place = links_between(net, links) + inputs_before(net, block);
    place as LinkId
}

// The number of the link of a block with an exit.
fn exit_link_of(net: &Net<Steps>, block: usize) -> LinkId
    requires { block < length (run_in net.now).layout.blocks }
    ensures { result ≡ exit_link_number (run_in net.now) block }
{
    let links = link_count(net);
    let inputs = inputs_before(net, block_count(net));
    let inner = (links as usize).saturating_sub(inputs);
    let between = inner.saturating_sub(exits_before(net, block_count(net)));
    let place = between + inputs + exits_before(net, block);
    place as LinkId
}

fn ports_of(block: &BlockDef<Steps>) -> u32
    ensures { result ≡ port_count block.now }
{
    match block.kind {
        BlockKind::Join | BlockKind::BatchedJoin => block.ports.unwrap_or(2),
        _ => 1,
    }
}

// Whether the list of what a port took is the one that is kept.
fn is_kept_of_port(net: &Net<Steps>, kept: &KeptList, block: usize, port: u32) -> bool
    requires known { block < length (run_in net.now).layout.blocks }
    requires fits { Fits (run_in net.now) kept.now }
    ensures { result ≡ true → kept.now.text.items ≡ list_text (took_at port (marks_of (run_in net.now) block)) }
{
    match link_of_port(net, kept.all_taken(), block, port) {
        Some(link) => kept.is_of_link(link),
        None => false,
    }
}

// Whether the list of what a port took is kept now. Another list is kept in its place only where other lines may have it.
fn keep_port(net: &Net<Steps>, kept: &mut KeptList, block: usize, port: u32) -> bool
    requires known { block < length (run_in net.now).layout.blocks }
    requires fits { Fits (run_in net.now) kept.old }
    ensures fits { Fits (run_in net.now) kept.new }
    ensures text { result ≡ true → kept.new.text.items ≡ list_text (took_at port (marks_of (run_in net.now) block)) }
{
    if is_kept_of_port(net, kept, block, port) {
        kept.add_port(block, port);
        return true;
    }
    may_show_again(block_at(net, block)) && kept.keep_taken(net.journal(block), block, port)
}

fn write_port<W: Write>(
    writer: &mut W,
    net: &Net<Steps>,
    kept: &mut KeptList,
    block: usize,
    port: u32,
) -> io::Result<()>
    requires known { block < length (run_in net.now).layout.blocks }
    requires fits { Fits (run_in net.now) kept.old }
    ensures fits { Fits (run_in net.now) kept.new }
    ensures written { OnOk result (Appends (W.contents writer.old) (W.contents writer.new)
        (port_line port (marks_of (run_in net.now) block))) }
    ensures kept { StaysInFront (W.contents writer.old) (W.contents writer.new) }
{
    if keep_port(net, kept, block, port) {
        return write_printed_line(writer, b"port ", Some(u64::from(port)), kept.text());
    }
    write_port_line(writer, port, net.journal(block))
}

fn write_ports<W: Write>(
    writer: &mut W,
    net: &Net<Steps>,
    kept: &mut KeptList,
    block: usize,
) -> io::Result<()>
    requires known { block < length (run_in net.now).layout.blocks }
    requires fits { Fits (run_in net.now) kept.old }
    ensures fits { Fits (run_in net.now) kept.new }
    ensures written { OnOk result (Appends (W.contents writer.old) (W.contents writer.new)
        (all_ports (run_in net.now) block)) }
    ensures kept { StaysInFront (W.contents writer.old) (W.contents writer.new) }
{
    for port in 0..ports_of(block_at(net, block)) {
        write_port(writer, net, kept, block, port)?;
        let (front, back) = held_at(net, block, port);
        write_held_line(writer, port, front, back)?;
    }
    Ok(())
}

// Sorts what a block gave once it has a line for a few links, so that its journal is walked through once for all other
// lines. Where memory is out, it is walked through for each.
fn sort_for_many<'a>(
    alloc: Global,
    lists: &mut Vec<Vec<&'a Kept>>,
    lines: usize,
    journal: &'a [Mark],
    links: usize,
)
    requires { lists_of lists.now.items ≡ given_lists (length lists.now.items) journal.now }
    ensures { lists_of lists.new.items ≡ given_lists (length lists.new.items) journal.now }
{
    if lines == FEW_LINKS {
        match sort_given(alloc, journal, links) {
            Ok(sorted) => *lists = sorted,
            Err(_) => {}
        }
    }
}

// Whether the list of what was given over a link is kept now. Another list is kept in its place only where other lines may
// have it, and none of the block has that one.
fn keep_link(net: &Net<Steps>, kept: &mut KeptList, block: usize, link: LinkId) -> bool
    requires known { block < length (run_in net.now).layout.blocks }
    requires link { link < length (run_in net.now).layout.links }
    requires from { begins_at block (link_of (run_in net.now) link).source ≡ true }
    requires fits { Fits (run_in net.now) kept.old }
    ensures fits { Fits (run_in net.now) kept.new }
    ensures text { result ≡ true → kept.new.text.items ≡ list_text (gave_over link (marks_of (run_in net.now) block)) }
{
    if kept.is_of_port(block, 0) && hands_all_on(net, block, link) {
        kept.add_link(link);
        return true;
    }
    !hands_on(block_at(net, block).kind)
        && leads_alone(net, link)
        && kept.keep_given(net.journal(block), link)
}

// Writes the line of a link. What the block gave may be sorted by link.
fn write_link<W: Write>(
    writer: &mut W,
    net: &Net<Steps>,
    kept: &mut KeptList,
    block: usize,
    link: LinkId,
    lists: &[Vec<&Kept>],
) -> io::Result<()>
    requires known { block < length (run_in net.now).layout.blocks }
    requires link { link < length (run_in net.now).layout.links }
    requires from { begins_at block (link_of (run_in net.now) link).source ≡ true }
    requires sorted { lists_of lists.now ≡ given_lists (length lists.now) (marks_of (run_in net.now) block) }
    requires fits { Fits (run_in net.now) kept.old }
    ensures fits { Fits (run_in net.now) kept.new }
    ensures written { OnOk result (Appends (W.contents writer.old) (W.contents writer.new)
        (link_line link (marks_of (run_in net.now) block))) }
    ensures kept { StaysInFront (W.contents writer.old) (W.contents writer.new) }
{
    if lists.is_empty() && keep_link(net, kept, block, link) {
        return write_printed_line(writer, b"link ", Some(u64::from(link)), kept.text());
    }
    write_link_line(writer, link, net.journal(block), lists)
}

fn write_links<W: Write>(
    alloc: Global,
    writer: &mut W,
    net: &Net<Steps>,
    kept: &mut KeptList,
    block: usize,
) -> io::Result<()>
    requires known { block < length (run_in net.now).layout.blocks }
    requires fits { Fits (run_in net.now) kept.old }
    ensures fits { Fits (run_in net.now) kept.new }
    ensures written { OnOk result (Appends (W.contents writer.old) (W.contents writer.new)
        (all_links (run_in net.now) block)) }
    ensures kept { StaysInFront (W.contents writer.old) (W.contents writer.new) }
{
    let journal = net.journal(block);
    let links = links_between(net, link_count(net));
    let count = links as LinkId;
    let mut lists = Vec::new(alloc);
    let mut lines: usize = 0;
    for id in 0..count {
        if is_from(link_at(net, id), block) {
            sort_for_many(alloc, &mut lists, lines, journal, links);
            write_link(writer, net, kept, block, id, lists.as_slice())?;
            lines = lines.saturating_add(1);
        }
    }
    Ok(())
}

/// What waits at the input of a block that is one.
pub(crate) fn waiting(net: &Net<Steps>, block: usize) -> &[Value]
    requires known { block < length (run_in net.now).layout.blocks }
    requires is_input { (block_of (run_in net.now) block).input ≡ true }
    ensures { result.now ≡ waits_over (run_in net.now) block (input_link_number (run_in net.now) block) }
{
    let link = input_link_of(net, block);
    if took_all_posted(net, block, link) {
        return &[];
    }
    let taken = count_taken(net.journal(block), link);
    not_taken(net.posted(block), taken)
}

fn write_input<W: Write>(writer: &mut W, net: &Net<Steps>, block: usize) -> io::Result<()>
    requires { block < length (run_in net.now).layout.blocks }
    ensures written { OnOk result (Appends (W.contents writer.old) (W.contents writer.new)
        (input_part (run_in net.now) block)) }
    ensures kept { StaysInFront (W.contents writer.old) (W.contents writer.new) }
{
    if block_at(net, block).input {
        write_input_line(writer, waiting(net, block))?;
    }
    Ok(())
}

fn write_exit<W: Write>(writer: &mut W, net: &Net<Steps>, block: usize) -> io::Result<()>
    requires { block < length (run_in net.now).layout.blocks }
    ensures written { OnOk result (Appends (W.contents writer.old) (W.contents writer.new)
        (exit_part (run_in net.now) block)) }
    ensures kept { StaysInFront (W.contents writer.old) (W.contents writer.new) }
{
    if block_at(net, block).output {
        write_exit_line(writer, exit_link_of(net, block), net.journal(block))?;
    }
    Ok(())
}

// Writes the line of the results that an action keeps.
fn write_record<W: Write>(
    writer: &mut W,
    net: &Net<Steps>,
    kept: &KeptList,
    block: usize,
) -> io::Result<()>
    requires known { block < length (run_in net.now).layout.blocks }
    requires action { (block_of (run_in net.now) block).kind ≡ Action }
    requires fits { Fits (run_in net.now) kept.now }
    ensures written { OnOk result (Appends (W.contents writer.old) (W.contents writer.new)
        (last_line true (trace_of (run_in net.now) block).recorded [])) }
    ensures kept { StaysInFront (W.contents writer.old) (W.contents writer.new) }
{
    if kept.is_of_port(block, 0) && records_all(net, block) {
        return write_printed_line(writer, b"record", None, kept.text());
    }
    write_record_line(writer, net.record(block))
}

fn write_last<W: Write>(
    writer: &mut W,
    net: &Net<Steps>,
    kept: &KeptList,
    block: usize,
) -> io::Result<()>
    requires known { block < length (run_in net.now).layout.blocks }
    requires fits { Fits (run_in net.now) kept.now }
    ensures written { OnOk result (Appends (W.contents writer.old) (W.contents writer.new)
        (last_part (run_in net.now) block)) }
    ensures kept { StaysInFront (W.contents writer.old) (W.contents writer.new) }
{
    match block_at(net, block).kind {
        BlockKind::Action => write_record(writer, net, kept, block),
        _ => {
            let (front, back) = left_at(net, block);
            write_left_line(writer, front, back)
        }
    }
}

fn write_block<W: Write>(
    alloc: Global,
    writer: &mut W,
    net: &Net<Steps>,
    kept: &mut KeptList,
    block: usize,
) -> io::Result<()>
    requires known { block < length (run_in net.now).layout.blocks }
    requires fits { Fits (run_in net.now) kept.old }
    ensures fits { Fits (run_in net.now) kept.new }
    ensures written { OnOk result (Appends (W.contents writer.old) (W.contents writer.new)
        (block_report (run_in net.now) block)) }
    ensures kept { StaysInFront (W.contents writer.old) (W.contents writer.new) }
{
    write_block_line(writer, block_at(net, block).name.as_str(), net.state(block))?;
    write_input(writer, net, block)?;
    write_ports(writer, net, kept, block)?;
    write_links(alloc, writer, net, kept, block)?;
    write_exit(writer, net, block)?;
    write_last(writer, net, kept, block)
}

/// Writes the report of a network that stopped so.
fn write_lines<W: Write>(
    alloc: Global,
    writer: &mut W,
    net: &Net<Steps>,
    settled: Settled,
) -> io::Result<()>
    ensures written { OnOk result (Appends (W.contents writer.old) (W.contents writer.new)
        (report (run_in net.now) settled)) }
    ensures kept { StaysInFront (W.contents writer.old) (W.contents writer.new) }
{
    let mut kept = KeptList::new(alloc, net.is_quiet());
    for block in 0..block_count(net) {
        write_block(alloc, writer, net, &mut kept, block)?;
    }
    write_settled_line(writer, settled)
}

/// Writes the report of a network that stopped so, in many small pieces: the writer should gather them.
///
/// The memory is for the text of one list, which may stand in several lines, and for what a block with many links gave,
/// sorted by link. Where there is none, the report is the same, and takes longer.
pub fn write_report<W: Write>(
    alloc: Global,
    net: &Net<Steps>,
    settled: Settled,
    writer: &mut W,
) -> Result<(), TextRefusal>
    ensures written { OnOk result (Appends (W.contents writer.old) (W.contents writer.new)
        (report (run_in net.now) settled)) }
    ensures refused { IfErr result (λ refusal. refusal ≡ TextRefusal.Fault TextFault.Write) }
    ensures kept { StaysInFront (W.contents writer.old) (W.contents writer.new) }
{
    match write_lines(alloc, writer, net, settled) {
        Ok(()) => Ok(()),
        Err(_) => Err(TextRefusal::Fault(TextFault::Write)),
    }
}
