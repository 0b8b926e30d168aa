//! What came of a job.
ghost use Rattle.std.specs.Prelude.{◌≡◌, MatchResult};
ghost use Rattle.flow_exec.specs.Jobs.{work_in, kind_in, message_in};
ghost use Rattle.flow_exec.specs.Works.{results_by};

use crate::job::Job;
use crate::work::answer_of;
use flow_block::Answer;
use flow_value::Runs;
use std::alloc::Global;

/// A job that was done: what came of its message.
#[derive(Drop)]
pub struct JobResult<W: Runs> {
    job: Job<W>,
    answer: Answer,
    ghost made: { answer ≡ results_by (work_in job) (kind_in job) W.meaning (message_in job) },
}

impl<W: Runs> Job<W> {
    ghost use Rattle.flow_exec.specs.Results.{job_in};

    /// Works on the message. Where memory is out, the job comes back.
    pub fn run(self, alloc: Global) -> Result<JobResult<W>, Job<W>>
        ensures { MatchResult result (λ done. job_in done ≡ self) (λ job. job ≡ self) }
    {
        match answer_of(alloc, self.kind(), self.work(), self.message()) {
            Ok(answer) => Ok(JobResult { job: self, answer }),
            Err(_) => Err(self),
        }
    }
}

impl<W: Runs> JobResult<W> {
    ghost use Rattle.flow_exec.specs.Results.{job_in, IsOnly};

    /// The result of a job that gave this answer.
    pub fn new(job: Job<W>, answer: Answer) -> JobResult<W>
        requires { answer ≡ results_by (work_in job) (kind_in job) W.meaning (message_in job) }
        ensures job { job_in result ≡ job }
        ensures only { IsOnly result }
    {
        JobResult { job, answer }
    }

    /// The job.
    pub fn job(&self) -> &Job<W>
        ensures { result.now ≡ job_in self.now }
    {
        &self.job
    }

    /// The job, and what came of its message.
    pub fn into_parts(self) -> (Job<W>, Answer)
        ensures job { result.0 ≡ job_in self }
        ensures answer { result.1 ≡ results_by (work_in (job_in self)) (kind_in (job_in self)) W.meaning
            (message_in (job_in self)) }
    {
        (self.job, self.answer)
    }
}
