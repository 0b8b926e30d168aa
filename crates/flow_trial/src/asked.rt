//! Events that are asked of a network.
use flow_exec::{Job, JobResult};
use flow_link::{LinkId, Move, PortId};
use flow_net::{Event, Net, NetFault, Stepped};
use flow_value::Steps;
use std::alloc::Global;
use std::test::Fail;

/// Something that may be asked of a network: a move of a link, or what a block does by itself.
#[derive(Clone, Copy)]
pub enum Asked {
    Link(LinkId, Move),
    Make(usize),
    Begin(usize),
    /// That a result of the block comes back: the one with this ticket, or the first.
    End(usize, Option<u64>),
    Complete(usize, PortId),
    Fault(usize),
    Done(usize),
}

/// Results of jobs that were run and not taken back yet, each with the number of its block.
pub type Results = Vec<(usize, JobResult<Steps>)>;

/// Whether this is a result of the block, and has the ticket that is asked for.
fn is_result(held: &(usize, JobResult<Steps>), number: usize, ticket: Option<u64>) -> bool {
    match ticket {
        Some(ticket) => held.0 == number && held.1.job().ticket() == ticket,
        None => held.0 == number,
    }
}

impl Asked {
    /// The event, with a result of the block where one comes back; none where there is no such result.
    fn event(self, results: &mut Results) -> Option<Event<Steps>> {
        Some(match self {
            Asked::Link(id, step) => Event::Link(id, step),
            Asked::Make(number) => Event::Make(number),
            Asked::Begin(number) => Event::Begin(number),
            Asked::End(number, ticket) => {
                let place = results
                    .iter()
                    .position(|held| is_result(held, number, ticket))?;
                Event::End(number, results.remove(place).1)
            }
            Asked::Complete(number, port) => Event::Complete(number, port),
            Asked::Fault(number) => Event::Fault(number),
            Asked::Done(number) => Event::Done(number),
        })
    }
}

/// What came of a job.
pub fn run_job(alloc: Global, job: Job<Steps>) -> Result<JobResult<Steps>, Fail> {
    match job.run(alloc) {
        Ok(done) => Ok(done),
        Err(_) => Err(Fail::new("out of memory")),
    }
}

/// Asks for this event. Tells whether it is done; where it is not, it has to come back as not enabled. A job that begins
/// is run at once, and its result kept.
pub fn is_done(
    alloc: Global,
    net: &mut Net<Steps>,
    results: &mut Results,
    asked: Asked,
) -> Result<bool, Fail> {
    let Some(event) = asked.event(results) else {
        return Ok(false);
    };
    match (net.event(alloc, event), asked) {
        (Ok(Stepped::Began(job)), Asked::Begin(number)) => {
            results.push((number, run_job(alloc, job)?))?;
            Ok(true)
        }
        (Ok(Stepped::Moved), _) => Ok(true),
        (Ok(_), _) => Err(Fail::new("a job began that was not asked for")),
        (Err((back, fault)), _) => {
            if fault != NetFault::NotEnabled {
                return Err(Fail::new("an event was refused for want of ids or memory"));
            }
            if let Event::End(number, done) = back {
                results.push((number, done))?;
            }
            Ok(false)
        }
    }
}
