//! A target that refuses for good, by both ends in turn on one thread.
ghost use Rattle.std.specs.Prelude.{◌≡◌};

use crate::hand_over::new_link;
use flow_link::{Phase, Refusal, word_of};
use flow_value::MessageHeader;
use std::alloc::Global;
use std::process::Abort;

/// The first message over a link.
fn first(rt: &impl Abort) -> MessageHeader
    ensures { result ≡ 1 }
{
    match MessageHeader::new(1) {
        Some(header) => header,
        None => panic!(rt; "no id"),
    }
}

// the target refuses what it has seen offered: the word that the source then sees, and the link's last phase
fn refused_at_once(rt: &impl Abort, alloc: Global) -> (u64, Phase) {
    let Ok((wire, mut source, mut target)) = new_link(alloc, false) else {
        panic!(rt; "out of memory");
    };
    source.offer(&wire, first(rt));
    let Phase::Offered(_) = target.look(&wire) else {
        panic!(rt; "at once: not offered");
    };
    target.refuse(&wire, Refusal::PortEnded);
    let Phase::Refused = source.look(&wire) else {
        panic!(rt; "at once: not refused");
    };
    let word = wire.peek();
    (word, wire.close(source, target).phase)
}

// the target refuses what it had postponed: whether it was first, and the link's last phase
fn refused_late(rt: &impl Abort, alloc: Global) -> (bool, Phase) {
    let Ok((wire, mut source, mut target)) = new_link(alloc, false) else {
        panic!(rt; "out of memory");
    };
    source.offer(&wire, first(rt));
    let Phase::Offered(offered) = target.look(&wire) else {
        panic!(rt; "late: not offered");
    };
    target.postpone(&wire, offered);
    let refused = target.refuse_postponed(&wire, offered, Refusal::OwnFault);
    (refused, wire.close(source, target).phase)
}

// the source takes its offer back before the target refuses it: whether the target was first, and the link's last phase
fn refused_too_late(rt: &impl Abort, alloc: Global) -> (bool, Phase) {
    let Ok((wire, mut source, mut target)) = new_link(alloc, false) else {
        panic!(rt; "out of memory");
    };
    source.offer(&wire, first(rt));
    let Phase::Offered(offered) = target.look(&wire) else {
        panic!(rt; "too late: not offered");
    };
    target.postpone(&wire, offered);
    let Phase::Postponed(waiting) = source.look(&wire) else {
        panic!(rt; "too late: not postponed");
    };
    assert!(rt; source.withdraw(&wire, waiting), "too late: not withdrawn");
    let refused = target.refuse_postponed(&wire, offered, Refusal::OwnFault);
    (refused, wire.close(source, target).phase)
}

#[test]
fn targets_refuse_for_good(rt: HostRuntime) {
    let alloc = rt.alloc();
    let at_once = refused_at_once(&rt, alloc);
    assert!(rt;
        at_once == (word_of(Phase::Refused), Phase::Refused),
        "at once: {at_once:?}"
    );
    let late = refused_late(&rt, alloc);
    assert!(rt; late == (true, Phase::Refused), "late: {late:?}");
    let too_late = refused_too_late(&rt, alloc);
    assert!(rt; too_late == (false, Phase::Idle), "too late: {too_late:?}");
}
