//! Texts of cases, none of which fails.

use flow_script::judge_text;
use std::alloc::AllocGlobal;
use std::process::Abort;
use std::random::RandomSource;

/// Asserts that a text has so many cases, and that none of them fails.
pub(crate) fn check(
    rt: &(impl Abort + RandomSource + AllocGlobal),
    topic: &str,
    cases: u64,
    text: &str,
) {
    let judged = judge_text(rt, rt.alloc(), topic, text);
    if judged.cases != cases || judged.failed != 0 {
        let print = judged.print.as_str();
        panic!(rt; "{print}");
    }
}
