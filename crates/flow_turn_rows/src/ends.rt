//! Whether runs came to what is due of them.

use crate::networks::{case_of, network_of};
use crate::turned::{Way, turned};
use flow_net::Net;
use flow_trial::{Case, FAULTS, TABLES};
use flow_value::Steps;
use std::alloc::Global;
use std::process::Abort;
use std::thread::Threads;

/// Asserts that a network is quiet, and has come to what is due of this case.
pub(crate) fn has_ended(rt: &impl Abort, alloc: Global, net: &Net<Steps>, case: &Case) {
    let name = case.name;
    if !net.is_quiet() || !case.is_met(alloc, net) {
        panic!(rt; "{name}");
    }
}

/// Asserts that each case of a table comes to its end where the tasks are turned so.
fn check_each(rt: &(impl Abort + Threads + Sync), alloc: Global, table: &str, way: Way) {
    for lines in table.trim().split("\n\n") {
        let case = case_of(rt, lines);
        let net = turned(rt, alloc, network_of(rt, alloc, &case), way);
        has_ended(rt, alloc, &net, &case);
    }
}

/// Asserts the same of all tables.
pub(crate) fn check_all(rt: &(impl Abort + Threads + Sync), alloc: Global, way: Way) {
    for table in TABLES {
        check_each(rt, alloc, table, way);
    }
    check_each(rt, alloc, FAULTS, way);
}
