//! Whether a report shows in which order the blocks of a network took their turns.
use flow_block::rules_from;
use flow_link::Plan;
use flow_outlet::LinkRule;
use std::alloc::{AllocError, Global};

/// Whether no report of a network of this plan shows in which order its blocks took their turns, but where one faults or the limit ends a
/// run. So it is where one link leads into each block, nothing that is copied takes the place of another element, and no message goes to
/// whichever target has room: then what comes to a block, and in which order, rests on its source alone. It is a hint: where it is
/// wrong, another lawful run is chosen.
pub(crate) fn hides_turns<W>(alloc: Global, plan: &Plan<W>) -> Result<bool, AllocError> {
    for number in 0..plan.block_count() {
        let rules = rules_from(alloc, plan, number)?;
        let shares = plan.block(number).kind.unit().shares();
        if !leads_alone(&rules, shares) {
            return Ok(false);
        }
    }
    Ok(true)
}

/// Whether over these links out of a block all comes to their targets that comes there, and each message at once: of links out of a block
/// that gives each message to one of them, that is asked only where there are several.
fn leads_alone(rules: &[LinkRule], shares: bool) -> bool {
    let waits = shares && rules.len() < 2;
    rules.iter().all(|rule| rule.sole && (waits || rule.steady))
}
