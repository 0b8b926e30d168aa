//! Exits: a caller may receive from a block, but nobody asks here, so each message that is offered there is put off.
use crate::events::cases::{check_cases, fault_of};
use flow_link::{Place, PlanFault};
use std::test::Fail;

/// Drafts with exits, and the fault of each; none where it is a plan.
const DRAFTS: &[(&str, Option<PlanFault>)] = &[
    ("b buffer output true", None),
    ("b* broadcast output true", None),
    ("b* write_once output true", None),
    ("b* transform(int) output true", None),
    ("b* transform_many(int) output true", None),
    ("b* batch size 2 output true", None),
    ("b join output true", None),
    ("b join greedy false output true", None),
    ("b batched_join size 2 output true", None),
    // An action gives nothing.
    (
        "b* action() output true",
        Some(PlanFault::BadOption(Place::Block(0))),
    ),
    (
        "a* buffer output true, b action() output true, a => b",
        Some(PlanFault::BadOption(Place::Block(1))),
    ),
];

#[test]
fn every_block_but_an_action_may_have_an_exit(rt: HostRuntime) -> Result<(), Fail> {
    for (drawn, fault) in DRAFTS {
        assert!(rt; fault_of(rt.alloc(), drawn)? == *fault, "{drawn}");
    }
    Ok(())
}

const EXITS: &str = r#"
nobody asks
b* buffer output true
b,1 b,2
1 block b completing ; input [] ; port 0 ["1","2"] ; held 0 [] ; exit [] ; left ["1","2"] ; quiet

nothing to ask for
b* buffer output true
none
0 block b done ; exit [] ; left [] ; quiet

an exit is the last link of its block
b* buffer output true, a action(), b => a
b,1 b,2
0 block b done ; link 0 ["1","2"] ; exit [] ; left [] ; block a done ; record ["1","2"] ; quiet

an exit admits what a link does not
in* buffer, t transform(int) output true, a action(), in => t, t => a when even
in,1 in,2
1 block t completing ; port 0 ["1","2"] ; held 0 [] ; link 1 [] ; exit [] ; left [1,2] ; block a open ; record [] ; quiet

a copy that nobody asks for
in* buffer, s broadcast output true, a action(), in => s, s => a
in,1 in,2
0 block s done ; link 1 ["1","2"] ; exit [] ; left [] ; block a done ; record ["1","2"] ; quiet

an element is left for an exit
w* write_once output true, a action(), w => a
w,7
1 block w completing ; link 0 ["7"] ; exit [] ; left ["7"] ; block a open ; record ["7"] ; quiet

a fault
in* buffer, t transform(int) output true, in => t
in,1 in,x in,2
1 block t faulted 1 ; port 0 ["1","x","2"] ; held 0 ["x","2"] ; exit [] ; left [1] ; quiet
1 block t faulted 1 ; port 0 ["1","x"] ; held 0 ["x"] ; exit [] ; left [1] ; quiet
"#;

#[test]
fn what_nobody_asks_for_stays_in_its_block(rt: HostRuntime) -> Result<(), Fail> {
    check_cases(&rt, rt.alloc(), EXITS)
}
