//! One thread turns all tasks of each run.

use crate::ends::check_all;
use crate::turned::Way;

#[test]
fn runs_end_by_one_thread(rt: HostRuntime) {
    check_all(&rt, rt.alloc(), Way::Alone(64));
    check_all(&rt, rt.alloc(), Way::Alone(1));
}
