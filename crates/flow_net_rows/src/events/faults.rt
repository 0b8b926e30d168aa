//! Two faults that come over links into one block: which of them counts.
use flow_link::{LinkEnd, Move};
use flow_trial::{Asked, is_done, read_case};
use std::test::Fail;

/// Link 0 leads into the second port of a join, and link 1 into its first; the inputs fault with 5 and with 9.
const CROSSED: &str = "faults that cross
a* buffer, b* buffer, j join, a => j port 1, b => j port 0
a!5 b!9
1 block j faulted 5";

#[test]
fn the_fault_over_the_lower_link_counts(rt: HostRuntime) -> Result<(), Fail> {
    let case = read_case(CROSSED).ok_or("no case")?;
    let mut net = case.network(rt.alloc()).ok_or("no network")?;
    let mut results = Vec::new(rt.alloc());
    let (five, nine) = (Move::End(LinkEnd::Fault(5)), Move::End(LinkEnd::Fault(9)));
    let steps = [
        Asked::Link(3, nine),
        Asked::Fault(1),
        Asked::Link(1, nine),
        Asked::Link(2, five),
        Asked::Fault(0),
        Asked::Link(0, five),
        Asked::Fault(2),
    ];
    for asked in steps.iter() {
        assert!(rt; is_done(rt.alloc(), &mut net, &mut results, *asked)?);
    }
    assert!(rt; case.is_met(rt.alloc(), &net));
    Ok(())
}
