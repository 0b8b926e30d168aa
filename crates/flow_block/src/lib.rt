//! Blocks as plain values: what a block takes, makes and gives, with its own side of each link.
//!
//! A [`Block`] has ports, at which messages wait, and exits, over which it gives what it made. It works on the message
//! that waits longest, and a batch on those that make a row:
//!
//! call          kind of block    what becomes of the message
//! `hand_on`     buffer           it is there to be given
//! `put_out`     both transforms  its results are there to be given
//! `record`      action           its results are kept
//! `make_row`    batch            a row of it and those behind it is there to be given
//! `make_tuple`  join             a row of it and one from each other port is there to be given
//! `make_group`  batched join     a row of rows of it and the next ones, a row for each port, is there to be given
//! `copy_next`   broadcast        each link is given a copy of it
//! `fail`        all with work    it stays, and the ports take no more
//! `begin`       all with work    it stays, and is worked on beside others
//! `end_job`     all with work    its results come out in its turn, or its fault stands
//!
//! Room at the ports comes back when what was made of a message is wholly given. A [`Node`] is a block with its
//! journal.
//!
//! Contracts see plain data (`specs/Block.antt`, `specs/Node.antt`), and each call as a function on them. A call that
//! takes memory may be refused, and then nothing has changed; all other calls take none.
//!
//! What follows from these functions alone, as that each call keeps a block in order, stands in `flow_block_law`.
//!
//! Proved: each call of `Block` and `Node` is an exact function on plain data (specs/Block.antt, Node.antt,
//! Jobs.antt, Traits.antt). A call that takes memory may be refused, and then nothing has changed; all others take
//! none, as a fact of the types. Ids are refused exactly where one above 2^59 - 1 would be needed.
//! Tested: that calls succeed where memory is ample.
//! Neither: a broadcast driven by hand takes no offer back, so it is done only when each target consumed what it put
//! off.
#![tactic(auto)]

mod answer;
mod block;
mod by_link;
mod copies;
mod copying;
mod groups;
mod jobs;
mod moves;
mod node;
mod own;
mod passes;
mod peeks;
mod planned;
mod ports;
mod traits;
mod tuples;
mod work;

pub use block::Block;
pub use jobs::Answer;
pub use node::Node;
pub use planned::{Route, is_exit, port_of, ports_of, routes_of, rules_from, sources_of};
