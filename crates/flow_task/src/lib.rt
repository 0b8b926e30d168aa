//! The parts of a scattered network: its board, the tasks that threads turn, the entries and exits of callers, and the watches. They are
//! made of the blocks, links, inputs and exits of a network that is apart, and taken apart again. No network is named here.
//!
//! Proved: a turn does events that come next, at most as many as it may, and says Idle, Moved or Ended only where
//! that is so (specs/Laned.antt and its neighbours); journals go on; entries and exits tell what became of values; a
//! ticket in a lane is out in its block. Which parts cross threads is a law of each type.
//! Tested: turns and ports, in flow_board_rows and flow_turn_rows.
//! Neither: when memory is out; how fast turns are; what `peek` tells; that a look or a read really looks; that a
//! task ends as soon as it may; that a lane's task tells its own block.
#![tactic(auto)]

mod apart;
mod at;
mod board;
mod callers;
mod close;
mod entry;
mod exit;
mod frame;
mod gate;
mod input_calls;
mod input_task;
mod jobs;
mod lane_rows;
mod lane_task;
mod laned;
mod laws;
mod make;
mod missing;
mod numbered;
mod over;
mod own;
mod room;
mod shared_laws;
mod sources;
mod targets;
mod task;
mod turn;
mod wires;
mod words;

pub use apart::{Blocks, Exits, Inputs};
pub use at::{EntryAt, ExitAt, TaskAt, WatchAt};
pub use board::Board;
pub use frame::Frame;
pub use gate::{Gate, OpenGate};
pub use laws::{
    entries_cross, exit_ends_cross, exits_cross, inputs_cross, intakes_cross, link_ends_cross,
    marks_cross, nodes_cross, outlets_cross, same_end, spreads_cross, tasks_cross, values_cross,
    watches_agree, watches_cross,
};
pub use numbered::{Entry, Exit, Parts, Scattered, Task, Watch};
pub use shared_laws::boards_are_shared;
pub use wires::{Wired, make_wires};
