//! Blocks with two ports, by their types.
use crate::check::check;
use crate::driven::give;
use crate::plans::{batched_join, block, reserving_join};
use crate::reserving::{asks, offer};
use crate::script::{does, takes};
use crate::shared::{header, is_row, makes};
use flow_kinds::GreedyJoin;
use flow_link::{BlockKind, TargetBlock, Wish, WishAnswer};
use flow_value::Value;

#[test]
fn a_greedy_join_makes_tuples(rt: HostRuntime) {
    let (rt, alloc) = (&rt, rt.alloc());
    let mut join: GreedyJoin = block(rt, alloc, BlockKind::Join);
    takes(rt, alloc, &mut join, "0 5, 0 6, 1 9");
    does(rt, alloc, &mut join, "hands 2 1 (5,9); hands nothing");
    check(rt, "its ports", join.block().port_count() == 2);
}

/// The group is a row of two rows, which words cannot write.
#[test]
fn a_batched_join_groups_as_messages_came(rt: HostRuntime) {
    let (rt, alloc) = (&rt, rt.alloc());
    let mut join = batched_join(rt, alloc);
    takes(rt, alloc, &mut join, "1 9, 0 5, 0 6");
    does(rt, alloc, &mut join, "makes; makes nothing");
    check(rt, "one waits", join.waiting() == 1);
    let Some((2, 1, group)) = give(rt, alloc, &mut join) else {
        panic!(rt; "it has no first group");
    };
    check(rt, "its group", is_group(&group, 5, 9));
    does(rt, alloc, &mut join, "ends not");
}

/// Whether a value is a row of two rows, each of one of these numbers.
fn is_group(value: &Value, left: i64, right: i64) -> bool {
    match value.as_items() {
        Some([first, second]) => is_row(first, &[left]) && is_row(second, &[right]),
        _ => false,
    }
}

#[test]
fn a_reserving_join_takes_one_of_each_or_none(rt: HostRuntime) {
    let (rt, alloc) = (&rt, rt.alloc());
    let mut join = reserving_join(rt, alloc);
    let (one, two) = (header(rt, 1), header(rt, 2));
    offer(rt, alloc, &mut join, 1, two);
    offer(rt, alloc, &mut join, 0, one);
    asks(rt, &mut join, 0, one);
    join.note_wish(0, WishAnswer::Held);
    asks(rt, &mut join, 1, two);
    join.note_wish(1, WishAnswer::NotAvailable);
    check(rt, "it gives one up", join.next_wish() == Wish::Release(0));
    check(rt, "it waits", join.next_wish() == Wish::None);
    makes(rt, alloc, &mut join, false);
    check(rt, "it has none", join.left().is_empty());
}
