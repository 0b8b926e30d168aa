//! A task is kept back when the others are gathered.

use crate::ends::has_ended;
use crate::midway::parse_three;
use crate::networks::network_of;
use flow_board::{GatherFault, Parts, Scattered, gather, scatter};
use flow_net::Settled;

#[test]
fn the_second_task_is_missing(rt: HostRuntime) {
    let alloc = rt.alloc();
    let case = parse_three(&rt);
    let Ok(scattered) = scatter(alloc, network_of(&rt, alloc, &case)) else {
        panic!(rt; "out of memory");
    };
    let Scattered {
        board,
        mut tasks,
        entries,
        exits,
        ..
    } = scattered;
    assert!(rt; tasks.len() == 4 && entries.is_empty() && exits.is_empty());
    let second = tasks.remove(1);
    let parts = Parts {
        board,
        tasks,
        entries,
        exits,
    };
    let Err((mut parts, fault)) = gather(alloc, parts) else {
        panic!(rt; "the second task is not missing");
    };
    assert!(rt; fault == GatherFault::Missing(1));
    assert!(rt; parts.tasks.len() == 3);
    let Ok(()) = parts.tasks.push(second) else {
        panic!(rt; "out of memory");
    };
    let Ok(mut net) = gather(alloc, parts) else {
        panic!(rt; "the parts are not gathered");
    };
    assert!(rt; net.settle(alloc, 1_000) == Ok(Settled::Quiet));
    has_ended(&rt, alloc, &net, &case);
}
