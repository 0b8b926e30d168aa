//! Blocks on threads. A network is scattered into tasks, one for each block, each input and each lane, over links that they share; each is
//! turned on any thread, one turn at a time; and wherever the turns stop, the parts are gathered to a lawful network. The parts themselves
//! are those of `flow_task`.
//!
//! Proved: `scatter` gives all parts of the network, each once, with its journals; `gather` gives back a lawful
//! network with exactly the journals of the tasks, wherever the turns stopped, or the parts, with the least number
//! that is missing.
//! Tested: chains and tables of networks, turned by one thread and by two, stopped after any number of turns and gone
//! on from; parts that are kept back.
//! Neither: when memory is out.
#![tactic(auto)]

mod gathering;
mod home;
mod scattering;

pub use flow_task::{
    Board, Entry, EntryAt, Exit, ExitAt, Gate, OpenGate, Parts, Scattered, Task, TaskAt, Watch,
    WatchAt, boards_are_shared, entries_cross, exit_ends_cross, exits_cross, inputs_cross,
    intakes_cross, link_ends_cross, marks_cross, nodes_cross, outlets_cross, same_end,
    spreads_cross, tasks_cross, values_cross, watches_agree, watches_cross,
};
pub use gathering::{GatherFault, gather};
pub use scattering::scatter;
