//! Two threads turn the tasks of each run at once.

use crate::ends::check_all;
use crate::turned::Way;

#[test]
fn runs_end_by_two_threads(rt: HostRuntime) {
    check_all(&rt, rt.alloc(), Way::Both(64));
    check_all(&rt, rt.alloc(), Way::Both(1));
}
