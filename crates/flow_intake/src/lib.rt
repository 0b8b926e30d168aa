//! The target's side of links: one port of a block, with its ends of the links that lead into it.
//!
//! state of the port       what it answers to an offer, in this order
//! it takes no more        for good that it declines
//! it reserves             that it may come back, or that it declines a message that it may not come back for
//! room, nobody waits      that it accepts
//! else                    that it may come back, or that it declines
//!
//! Contracts see a port as plain data (`specs/Port.antt`), and each call as a function on them (`specs/Calls.antt`).
//! A driver that knows the places of its links uses the calls by place: it looks, asks what its end would do, and does
//! it. Whoever plays the far ends itself uses the calls by link (`specs/ByLink.antt`). When a port is in order, and
//! that each call keeps it so, is in `specs/PortLaw.antt` and `specs/PortKeeps.antt`.
//!
//! Proved: each call is an exact function on the port as plain data (specs/Calls.antt, ByLink.antt), and keeps a port
//! in order; what it took and what comes fit into the capacity. Where memory is out, the port is as it was.
//! Tested: that calls which take memory succeed where it is ample.
#![tactic(auto)]

mod end;
mod ends;
mod intake;
mod laws;
mod queue;

pub use end::of_lower_link;
pub use intake::Intake;
pub use laws::{calls_keep_ports_in_order, ports_answer_in_order, ports_in_order_and_not};
