//! The processor time that a thread has used. It is a hint, of which no contract speaks.
use std::time::CpuClock;

/// How many milliseconds of it this thread has used. Those in which it had lost the processor don't count, so events that are short are
/// short on a busy machine, too. It is 0 where it can't be read.
pub(crate) fn used<R: CpuClock>(rt: &R) -> u64 {
    match rt.thread_cpu_time() {
        Ok(time) => time
            .as_secs()
            .saturating_mul(1_000)
            .saturating_add(time.subsec_millis() as u64),
        Err(_) => 0,
    }
}
