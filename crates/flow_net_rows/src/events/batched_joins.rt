//! Batched joins: groups of so many messages from all ports.
use crate::events::cases::check_cases;
use flow_net::{Net, Settled};
use flow_trial::{Asked, BATCHED_JOINS, came_to, do_first, in_order, read_case};
use flow_value::Steps;
use std::alloc::Global;
use std::test::Fail;

#[test]
fn batched_joins_make_groups(rt: HostRuntime) -> Result<(), Fail> {
    check_cases(&rt, rt.alloc(), BATCHED_JOINS)
}

/// Two sources, of which the first is block 0, gives over link 0, and is posted to over link 3.
const TWO_SOURCES: &str = r#"batched join groups, one source first
l* buffer, r* buffer, j batched_join ports 2 size 3, out action(), l => j, r => j port 1, j => out
l,1 l,2 r,9
0 block l done ; block r done ; block j done ; block out done ; record [[["1","2"],["9"]]]"#;

/// Whether this is asked of the first source or one of its links.
fn is_of_first(asked: &Asked) -> bool {
    match asked {
        Asked::Link(id, _) => *id == 0 || *id == 3,
        Asked::Make(number) | Asked::Begin(number) | Asked::Fault(number) => *number == 0,
        Asked::End(number, _) | Asked::Complete(number, _) | Asked::Done(number) => *number == 0,
    }
}

/// All that may be asked of the first source and its links.
fn of_first(alloc: Global, net: &Net<Steps>) -> Result<Vec<Asked>, Fail> {
    let mut choices = Vec::new(alloc);
    for asked in &in_order(alloc, net.plan(), true, false)? {
        if is_of_first(asked) {
            choices.push(*asked)?;
        }
    }
    Ok(choices)
}

#[test]
fn one_source_may_be_done_before_the_other(rt: HostRuntime) -> Result<(), Fail> {
    let alloc = rt.alloc();
    let case = read_case(TWO_SOURCES).ok_or("no case")?;
    let mut net = case.network(alloc).ok_or("no network")?;
    let choices = of_first(alloc, &net)?;
    assert!(rt; !do_first(alloc, &mut net, choices.as_slice())?);
    let waits = r#"block l done ; held 0 ["1","2"]"#;
    assert!(rt; came_to(alloc, &net, &[waits])?.is_some());
    assert!(rt; net.settle(alloc, 10_000) == Ok(Settled::Quiet));
    assert!(rt; case.is_met(alloc, &net));
    Ok(())
}

#[test]
fn groups_are_the_same_with_three_workers(rt: HostRuntime) -> Result<(), Fail> {
    let case = read_case(TWO_SOURCES).ok_or("no case")?;
    let mut net = case.network(rt.alloc()).ok_or("no network")?;
    assert!(rt; net.settle_with(&rt, rt.alloc(), 3, 10_000) == Ok(Settled::Quiet));
    assert!(rt; case.is_met(rt.alloc(), &net));
    Ok(())
}
