//! Joins that reserve, by the calls that all blocks have in common. The test plays what is at the far end of each link.
ghost use Rattle.std.specs.Prelude.{◌≡◌, true, None, [], ◌∷◌};
ghost use Rattle.flow_link.specs.StagesMove.{MovesTo};
ghost use Rattle.flow_link.specs.declared.stage.TargetStage.TheVariants.{Free, Postponed, Asking, Holding};
ghost use Rattle.flow_intake.specs.Port.{fresh_port, fresh_end};
ghost use Rattle.flow_block.specs.Traits.{target_over};
ghost use Rattle.flow_kinds.specs.ReservingJoin.{fresh_join};
ghost use Rattle.flow_block_rows.specs.Driven.{reserving_ports, two_sources, link_to};

use crate::check::check;
use crate::shared::{has_row, header, makes, one_rule, parcel};
use flow_group::Source;
use flow_intake::Intake;
use flow_kinds::ReservingJoin;
use flow_link::{LinkId, TargetBlock, Wish, WishAnswer};
use flow_value::{MessageHeader, MessageStatus};
use std::alloc::Global;
use std::process::Abort;

/// A port that reserves, into which this link leads.
fn port(rt: &impl Abort, alloc: Global, link: LinkId) -> Intake
    ensures { result ≡ record (fresh_port None) { reserves = true; ends = fresh_end link ∷ [] } }
{
    let mut port = Intake::reserving(alloc, None);
    let Ok(()) = port.add_link(link) else {
        panic!(rt; "out of memory");
    };
    port
}

/// A join with two ports. Link 0 leads into the first from block 5, link 1 into the second from block 3, and link 7 out of it.
fn join(rt: &impl Abort, alloc: Global) -> ReservingJoin
    ensures { result ≡ fresh_join reserving_ports two_sources (link_to 7 ∷ []) }
{
    let first = port(rt, alloc, 0);
    let second = port(rt, alloc, 1);
    let Ok(ports) = vec![in alloc; first, second] else {
        panic!(rt; "out of memory");
    };
    let Ok(sources) = vec![in alloc; Source { link: 0, block: 5 }, Source { link: 1, block: 3 }]
    else {
        panic!(rt; "out of memory");
    };
    let rules = one_rule(rt, alloc, 7);
    let Ok(join) = ReservingJoin::of_parts(alloc, ports, sources, rules) else {
        panic!(rt; "out of memory");
    };
    join
}

/// A join that puts off a message over each of its links.
fn offered(rt: &impl Abort, alloc: Global, one: MessageHeader, two: MessageHeader) -> ReservingJoin
    ensures first { target_over result.block.ports 0 ≡ Postponed one }
    ensures second { target_over result.block.ports 1 ≡ Postponed two }
{
    let mut join = join(rt, alloc);
    offer(rt, alloc, &mut join, 0, one);
    offer(rt, alloc, &mut join, 1, two);
    join
}

/// The target puts off the offer over this link.
pub(crate) fn offer<T: TargetBlock>(
    rt: &impl Abort,
    alloc: Global,
    target: &mut T,
    link: LinkId,
    header: MessageHeader,
)
    requires { T.target_stage target.old link ≡ Free }
    ensures { MovesTo (Postponed header) link (T.target_stage target.old) (T.target_stage target.new) }
{
    let Ok(MessageStatus::Postponed) = target.offer_message(alloc, link, header, true) else {
        panic!(rt; "it is not put off");
    };
}

/// The target asks for the message over this link.
pub(crate) fn asks<T: TargetBlock>(
    rt: &impl Abort,
    target: &mut T,
    link: LinkId,
    header: MessageHeader,
)
    requires { T.target_stage target.old link ≡ Postponed header }
    ensures { MovesTo (Asking header) link (T.target_stage target.old) (T.target_stage target.new) }
{
    if target.next_wish() != Wish::Ask(link) {
        panic!(rt; "it asks for something else");
    }
}

/// The target takes the message over this link, which is kept for it.
fn claims<T: TargetBlock>(
    rt: &impl Abort,
    alloc: Global,
    target: &mut T,
    link: LinkId,
    header: MessageHeader,
    number: i64,
)
    requires { T.target_stage target.old link ≡ Holding header }
    ensures { MovesTo Free link (T.target_stage target.old) (T.target_stage target.new) }
{
    if target.next_wish() != Wish::Claim(link) {
        panic!(rt; "it claims something else");
    }
    target.hand_over(link, header, parcel(rt, alloc, number));
}

/// The target gives up the message over this link, which is kept for it.
fn gives_up<T: TargetBlock>(rt: &impl Abort, target: &mut T, link: LinkId, header: MessageHeader)
    requires { T.target_stage target.old link ≡ Holding header }
    ensures { MovesTo (Postponed header) link (T.target_stage target.old) (T.target_stage target.new) }
{
    if target.next_wish() != Wish::Release(link) {
        panic!(rt; "it does not give it up");
    }
}

/// The target waits for others.
pub(crate) fn waits<T: TargetBlock>(rt: &impl Abort, target: &mut T)
    ensures { target.new ≡ target.old }
{
    if target.next_wish() != Wish::None {
        panic!(rt; "it wishes for something");
    }
}

#[test]
fn it_takes_one_message_of_each_port(rt: HostRuntime) {
    let (rt, alloc) = (&rt, rt.alloc());
    let (one, two) = (header(rt, 1), header(rt, 2));
    let mut join = join(rt, alloc);
    offer(rt, alloc, &mut join, 0, one);
    waits(rt, &mut join);
    offer(rt, alloc, &mut join, 1, two);
    asks(rt, &mut join, 1, two);
    waits(rt, &mut join);
    join.note_wish(1, WishAnswer::Held);
    asks(rt, &mut join, 0, one);
    join.note_wish(0, WishAnswer::Held);
    claims(rt, alloc, &mut join, 0, one, 5);
    makes(rt, alloc, &mut join, false);
    claims(rt, alloc, &mut join, 1, two, 9);
    makes(rt, alloc, &mut join, true);
    check(rt, "it has a tuple", has_row(join.left(), &[5, 9]));
}

#[test]
fn one_that_is_withdrawn_gives_up_the_other(rt: HostRuntime) {
    let (rt, alloc) = (&rt, rt.alloc());
    let (one, two) = (header(rt, 1), header(rt, 2));
    let mut join = offered(rt, alloc, one, two);
    asks(rt, &mut join, 1, two);
    join.note_wish(1, WishAnswer::Held);
    join.note_wish(0, WishAnswer::Withdrawn);
    gives_up(rt, &mut join, 1, two);
    waits(rt, &mut join);
}

#[test]
fn two_joins_never_tear_a_pair(rt: HostRuntime) {
    let (rt, alloc) = (&rt, rt.alloc());
    let (one, two) = (header(rt, 1), header(rt, 2));
    let mut first = offered(rt, alloc, one, two);
    let mut second = offered(rt, alloc, one, two);
    asks(rt, &mut first, 1, two);
    asks(rt, &mut second, 1, two);
    first.note_wish(1, WishAnswer::Held);
    second.note_wish(1, WishAnswer::NotAvailable);
    waits(rt, &mut second);
    asks(rt, &mut first, 0, one);
    first.note_wish(0, WishAnswer::Held);
    claims(rt, alloc, &mut first, 0, one, 5);
    second.note_wish(0, WishAnswer::Withdrawn);
    claims(rt, alloc, &mut first, 1, two, 9);
    waits(rt, &mut second);
    makes(rt, alloc, &mut first, true);
    makes(rt, alloc, &mut second, false);
}
