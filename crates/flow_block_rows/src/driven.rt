//! Blocks that copy, and blocks with two ports, by the calls that all blocks have in common. The test plays what is at the
//! far end of each link.
ghost use Rattle.std.specs.Prelude.{◌≡◌, ◌<◌, [], ◌∷◌, length};
ghost use Rattle.flow_link.specs.declared.draft.BlockKind.TheVariants as kind;
ghost use Rattle.flow_intake.specs.Calls.{port_closes};
ghost use Rattle.flow_intake.specs.Port.{fresh_port, fresh_end, coming};
ghost use Rattle.flow_block.specs.Block.{port_at, with_port};
ghost use Rattle.flow_block.specs.BlockFits.{fresh_block};
ghost use Rattle.flow_block_rows.specs.Driven.{Rests, two_ports, link_to};

use crate::script::{does, takes};
use crate::shared::{header, one_rule, tells, two_rules};
use flow_block::Block;
use flow_intake::Intake;
use flow_link::{BlockKind, DataflowBlock, LinkId, Outcome, SourceBlock, TargetBlock};
use flow_value::{MessageStatus, Parcel, Value};
use std::alloc::Global;
use std::process::Abort;

/// A port with room for so many messages, or for any number, into which this link leads.
fn port(rt: &impl Abort, alloc: Global, capacity: Option<u32>, link: LinkId) -> Intake
    ensures { result ≡ record (fresh_port capacity) { ends = fresh_end link ∷ [] } }
{
    let mut port = Intake::new(alloc, capacity);
    let Ok(()) = port.add_link(link) else {
        panic!(rt; "out of memory");
    };
    port
}

/// Two ports for any number of messages; link 0 leads into the first, and link 1 into the second.
fn ports(rt: &impl Abort, alloc: Global) -> Vec<Intake>
    ensures { result.items ≡ two_ports }
{
    let first = port(rt, alloc, None, 0);
    let second = port(rt, alloc, None, 1);
    let Ok(ports) = vec![in alloc; first, second] else {
        panic!(rt; "out of memory");
    };
    ports
}

/// A join with two ports, and link 7 out of it.
fn join(rt: &impl Abort, alloc: Global) -> Block
    ensures { result ≡ fresh_block kind.Join 1 0 two_ports (link_to 7 ∷ []) }
{
    let ports = ports(rt, alloc);
    let rules = one_rule(rt, alloc, 7);
    let Ok(join) = Block::new(alloc, BlockKind::Join, 1, 0, ports, rules) else {
        panic!(rt; "out of memory");
    };
    join
}

/// A block of this kind, with so many messages in a row, and with room for so many messages, or for any number. Link 0 leads
/// into it, and links 7 and 8 lead out of it.
pub(crate) fn block(
    rt: &impl Abort,
    alloc: Global,
    kind: BlockKind,
    size: u32,
    capacity: Option<u32>,
) -> Block
    ensures { result ≡ fresh_block kind 1 size
        (record (fresh_port capacity) { ends = fresh_end 0 ∷ [] } ∷ []) (link_to 7 ∷ link_to 8 ∷ []) }
{
    let port = port(rt, alloc, capacity, 0);
    let Ok(ports) = vec![in alloc; port] else {
        panic!(rt; "out of memory");
    };
    let rules = two_rules(rt, alloc, 7, 8);
    let Ok(block) = Block::new(alloc, kind, 1, size, ports, rules) else {
        panic!(rt; "out of memory");
    };
    block
}

/// The target takes a value over this link.
pub(crate) fn take_value<T: TargetBlock>(
    rt: &impl Abort,
    alloc: Global,
    target: &mut T,
    link: LinkId,
    value: Value,
)
    requires link { link < 2 }
    requires rests { Rests (T.target_stage target.old) }
    ensures { Rests (T.target_stage target.new) }
{
    let Ok(parcel) = Parcel::new(alloc, value) else {
        panic!(rt; "out of memory");
    };
    let header = header(rt, 1);
    let Ok(MessageStatus::Accepted) = target.offer_message(alloc, link, header, true) else {
        panic!(rt; "it is not accepted");
    };
    target.hand_over(link, header, parcel);
}

/// The next message that the source offers, which is taken at once: its link, its number among the source's messages, and
/// its value. None, where it offers nothing.
pub(crate) fn give<S: SourceBlock>(
    rt: &impl Abort,
    alloc: Global,
    source: &mut S,
) -> Option<(LinkId, u64, Value)> {
    let Ok(offer) = source.next_offer(alloc) else {
        panic!(rt; "out of memory");
    };
    let (link, header) = offer?;
    source.note_answer(link, header, MessageStatus::Accepted);
    let Some(parcel) = source.consume_message(link, header) else {
        panic!(rt; "it is not there");
    };
    let (value, _copy) = parcel.into_parts();
    Some((link, header.id(), value))
}

#[test]
fn a_broadcast_copies_to_each_link(rt: HostRuntime) {
    let (rt, alloc) = (&rt, rt.alloc());
    let mut source = block(rt, alloc, BlockKind::Broadcast, 0, None);
    takes(rt, alloc, &mut source, "0 5, 0 6");
    let first = "makes; gives 7 1 5; makes nothing; puts 8 1; makes";
    let second = "gives 7 2 6; gives 8 2 6; puts nothing";
    does(rt, alloc, &mut source, first);
    does(rt, alloc, &mut source, second);
}

/// The first port takes nothing more, since no message comes there.
#[tactic(auto, using(flow_block_law::proofs::NothingComes::ports_come_to_rest))]
fn close_first(block: &mut Block)
    requires there { 0 < length block.old.ports }
    requires rests { coming (port_at 0 block.old) ≡ 0 }
    ensures { block.new ≡ with_port 0 port_closes block.old }
{
    DataflowBlock::complete(block, 0);
}

#[test]
fn a_join_that_has_told_its_end_takes_nothing_more(rt: HostRuntime) {
    let (rt, alloc) = (&rt, rt.alloc());
    let mut join = join(rt, alloc);
    close_first(&mut join);
    tells(rt, &mut join, Some(Outcome::Done));
    let one = header(rt, 1);
    let Ok(MessageStatus::DecliningPermanently) = join.offer_message(alloc, 1, one, true) else {
        panic!(rt; "it takes one more");
    };
    tells(rt, &mut join, Some(Outcome::Done));
}
