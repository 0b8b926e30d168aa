//! What lies in the slot of a lane's table.
use flow_exec::{Job, JobResult};
use flow_value::Runs;

/// A job on its way to the lane, or what came of it on its way back.
#[derive(Drop)]
pub enum LaneItem<W: Runs> {
    Job(Job<W>),
    Result(JobResult<W>),
}
