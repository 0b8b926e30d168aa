//! One lane that a block and the thread of the lane share: its phase in a word, a job or its result in a slot beside it, and
//! a side for each.
//!
//! Each phase is left by one side alone, and that side's own stage tells it. So each move is a store, without a lock, and
//! nothing is ever compared and lost.
//!
//! phase      what is in the slot            who leaves it
//! Free       nothing                        block: put, end
//! Job        the job that was put           lane: open
//! Working    nothing: the job is in hand    lane: finish
//! Result     what came of that job          block: fetch
//! Fetching   nothing: that is in hand       block: clear
//! Ended      nothing                        nobody
//!
//! A look is a load. A put loads first, and where the lane is not free it hands the job back. Where it is free, only the
//! block can reach the slot from that load to the store of Job. From open to finish only the lane can, and from fetch to
//! clear only the block.
//!
//! A block has its side of each of its lanes in a [`BlockLanes`], and the thread that does the jobs of a lane has its side in a
//! [`LaneEnd`]. With the tables that they share, these are [`JobLanes`] and [`JobLane`].
//!
//! Proved: between any two atomic steps the slot and both sides stand as the phase says (specs/Rule.antt). No ticket
//! stands in two lanes of a block; what comes out of a lane is the result of the job that was put there; each item
//! crosses threads where its works do.
//! Tested: two threads get 1,000 jobs done through one lane and through two, faults among them; a lane closed at each
//! phase.
//! Neither: that a job is ever opened, or a result ever there; when memory is out in `new`; by which work `next_job`
//! makes a job.
#![tactic(auto)]

mod block_lanes;
mod block_side;
mod item;
mod job_lane;
mod job_lanes;
mod lane_end;
mod lane_side;
mod laws;
mod phase;
mod plays;
mod standing;
mod table;
mod view;

pub use block_lanes::BlockLanes;
pub use block_side::BlockSide;
pub use item::LaneItem;
pub use job_lane::JobLane;
pub use job_lanes::JobLanes;
pub use lane_end::LaneEnd;
pub use lane_side::LaneSide;
pub use laws::{ends_cross, items_cross, job_lanes_cross, lanes_cross, results_cross, sides_cross};
pub use phase::LanePhase;
pub use standing::Standing;
pub use table::{Lane, LaneRule, LaneState};
pub use view::View;
