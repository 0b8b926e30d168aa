//! The jobs that the tests of lanes put, and what comes of them. The function gives three times a number, and faults on a text.
use crate::jobs::one_step;
use flow_exec::{Job, JobResult};
use flow_link::BlockKind;
use flow_value::{Steps, Text, Value};
use std::alloc::{AllocError, Global};
use std::process::Abort;
use std::sync::Arc;

/// The fault of a step that wants a number.
const NOT_INT: u32 = 1;

/// The function that gives three times a number.
pub(crate) fn function(rt: &impl Abort, alloc: Global) -> Arc<Steps, Global> {
    one_step(rt, alloc, "mul 3")
}

/// Whether the job with this ticket is of a text, as every tenth is.
fn is_of_text(ticket: u32) -> bool {
    ticket % 10 == 9
}

/// The job of a transform with this function and this ticket: its message is the ticket's number, or a text.
pub(crate) fn job(
    alloc: Global,
    work: &Arc<Steps, Global>,
    ticket: u32,
) -> Result<Job<Steps>, AllocError> {
    let message = if is_of_text(ticket) {
        Value::Text(Text::from_str(alloc, "no number")?)
    } else {
        Value::Int(i64::from(ticket))
    };
    let work = work.clone()?;
    Ok(Job::new(Some(work), BlockKind::Transform, message, u64::from(ticket)))
}

/// The job with this ticket, with a function of its own.
pub(crate) fn own_job(rt: &impl Abort, alloc: Global, ticket: u32) -> Job<Steps> {
    let work = function(rt, alloc);
    let Ok(job) = job(alloc, &work, ticket) else {
        panic!(rt; "out of memory");
    };
    job
}

/// Whether it is what has to come of the job with this ticket.
pub(crate) fn is_result_of(done: JobResult<Steps>, ticket: u32) -> bool {
    let (job, answer) = done.into_parts();
    let is_right = match answer.into_made() {
        Ok(values) => !is_of_text(ticket) && is_triple(&values, ticket),
        Err(number) => is_of_text(ticket) && number == NOT_INT,
    };
    is_right && job.ticket() == u64::from(ticket)
}

// whether they are three times the ticket's number, and nothing else
fn is_triple(values: &[Value], ticket: u32) -> bool {
    let [value] = values else { return false };
    value.as_int() == i64::from(ticket).checked_mul(3)
}
