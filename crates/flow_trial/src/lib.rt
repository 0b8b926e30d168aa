//! What the tests share: networks that are drawn in a line, tables of them with what each comes to, and schedules of events.
#![tactic(auto)]

mod asked;
mod cases;
mod drawn;
mod lines;
mod nets;
mod schedules;
mod shares;
mod tables;

pub use asked::{Asked, Results, is_done, run_job};
pub use cases::{Case, read_case};
pub use drawn::{add, chain};
pub use lines::{has_lines, is_refusal, is_report};
pub use nets::{ENOUGH, PAIR, THREE, came_to, network, settles};
pub use schedules::{do_first, in_order, wander};
pub use shares::share;
pub use tables::{
    BATCHED_JOINS, BATCHES, BROADCASTS, CHAINS, CROWDED, FAULTS, JOINS, LINKS, PAIRED, RESERVING,
    SHARED, TABLES, WORKS, WRITE_ONCES,
};
