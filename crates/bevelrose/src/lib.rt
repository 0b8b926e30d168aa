//! Bevelrose under one name: what a program takes to draft a network, to run it, to send to it and to receive from it while it runs, and to
//! tell what came of it.
//!
//! ```
//! let plan = Draft::new(alloc)
//!     .block(BlockDef::named(alloc, "prices", BlockKind::Buffer)?.input())?
//!     .block(BlockDef::named(alloc, "cents", BlockKind::Action)?.work(Steps::read(alloc, &["mul 100"])?))?
//!     .link(LinkDef::between(alloc, "prices", "cents")?.propagate())?
//!     .check(alloc)?;
//! let mut inputs = Inputs::of(alloc, plan)?;
//! inputs.post("prices", Value::Int(12))?;
//! let mut net = inputs.start(alloc)?;
//! net.settle(alloc, 10_000)?;
//! let cents = record_of(&net, "cents");
//! ```
//!
//! for                    take
//! a network              Draft, BlockDef, LinkDef, Plan
//! values                 Value, Text, Row
//! functions              Steps, When; a Work of one's own
//! what is posted         Inputs
//! a run                  Net::settle; run_paced, run_workers; run_open
//! calls in mid-run       NetEntry, NetExit
//! what came of it        record_of, state_of, Net, write_report; shown
//!
//! Proved: no function of its own: it gives out what the crates below promise.
#![tactic(auto)]

pub use flow_board::{OpenGate, Parts, gather};
pub use flow_crew::{RunFault, run_workers};
pub use flow_front::{EndRefused, Inputs, PostRefused, record_of, state_of};
pub use flow_link::{
    BlockDef, BlockKind, Draft, DraftRefused, Ending, LinkDef, Plan, PlanFault, PlanRefusal,
};
pub use flow_net::{Net, NetEntry, NetExit, NetFault, Settled, State};
pub use flow_open::{Ended, OpenFault, Opened, Sender, SenderState, run_open};
pub use flow_pace::{Start, run_paced};
pub use flow_poll::{
    Post, Receipt, Receive, ReceivePort, Received, SendAsync, SendFault, SendPort, Sent,
};
pub use flow_report::{is_complete, write_report};
pub use flow_shown::{InReport, shown};
pub use flow_value::{Row, Runs, Step, Steps, StepsError, Text, Value, When, Work, WorkFault};
