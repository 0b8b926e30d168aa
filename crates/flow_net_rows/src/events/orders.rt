//! Networks that are driven event by event: what may happen, and what comes of it in whatever order it happens.
use crate::events::check::check;
use flow_link::{Ending, Mark};
use flow_net::{Settled, State};
use flow_trial::{PAIR, THREE, came_to, network, settles, wander};
use std::alloc::Global;
use std::test::Fail;

/// What a network comes to: its name, the network, drawn, the values that are posted, how they end, and lines of the
/// report. Where there are several lists of lines, each schedule comes to one of them, and each comes of some schedule.
type Case = (
    &'static str,
    &'static str,
    &'static str,
    Ending,
    &'static [&'static str],
);

const CASES: &[Case] = &[
    (
        "parse three",
        THREE,
        "'1 '2 '3",
        Ending::Complete,
        &["block in done ; block t done ; block out done ; record [1,2,3]"],
    ),
    (
        "nothing posted",
        THREE,
        "none",
        Ending::Complete,
        &["block in done ; block t done ; block out done ; record []"],
    ),
    (
        "a transform as input",
        r#"in transform ["int"] => out action ["add 1"]"#,
        "'1 '-1",
        Ending::Complete,
        &["block in done ; block out done ; record [2,0]"],
    ),
    (
        "two transforms",
        r#"in buffer => t transform ["int", "add 1"] => u transform ["mul 2"] => out action []"#,
        "'1 '2 '3",
        Ending::Complete,
        &["block in done ; block t done ; block u done ; block out done ; record [4,6,8]"],
    ),
    (
        "two buffers and several results",
        r#"in buffer => b buffer => out action ["int", "upto"]"#,
        "'3 '0 '2",
        Ending::Complete,
        &["block in done ; block b done ; block out done ; record [0,1,2,0,1]"],
    ),
    (
        "a plain link",
        r#"in buffer => t transform ["int"] -> out action []"#,
        "'1 '2",
        Ending::Complete,
        &["block in done ; block t done ; block out open ; record [1,2]"],
    ),
    (
        "an open input",
        THREE,
        "'1 '2",
        Ending::Open,
        &["block in open ; block t open ; block out open ; record [1,2]"],
    ),
    (
        "a fault behind what is recorded",
        r#"in buffer => out action ["int"]"#,
        "'1 x '3",
        Ending::Complete,
        &[
            r#"block in done ; left [] ; block out faulted 1 ; held 0 ["x","3"] ; record [1]"#,
            r#"block in completing ; left ["3"] ; block out faulted 1 ; held 0 ["x"] ; record [1]"#,
        ],
    ),
    (
        "a fault in the middle",
        THREE,
        "'1 x",
        Ending::Complete,
        &[
            r#"block t faulted 1 ; held 0 ["x"] ; left [1] ; block out faulted 1 ; record []"#,
            r#"block t faulted 1 ; held 0 ["x"] ; left [] ; block out faulted 1 ; record [1]"#,
        ],
    ),
    (
        "a faulting input",
        PAIR,
        "'1",
        Ending::Fault(5),
        &[
            r#"block in faulted 5 ; left ["1"] ; block out faulted 5 ; held 0 [] ; record []"#,
            r#"block in faulted 5 ; left [] ; block out faulted 5 ; held 0 [] ; record ["1"]"#,
        ],
    ),
    (
        "a faulting input before a transform",
        THREE,
        "'1",
        Ending::Fault(5),
        &[
            r#"left ["1"] ; block t faulted 5 ; held 0 [] ; left [] ; block out faulted 5 ; record []"#,
            r#"left [] ; block t faulted 5 ; held 0 [] ; left [1] ; block out faulted 5 ; record []"#,
            r#"left [] ; block t faulted 5 ; held 0 [] ; left [] ; block out faulted 5 ; record [1]"#,
        ],
    ),
];

/// The cases. A table is read here alone, since each function that names it would be proved with all of it.
fn cases() -> &'static [Case] {
    CASES
}

/// Where a network comes to by the schedule with this seed.
fn end_by_seed(alloc: Global, case: &Case, seed: u64) -> Result<Option<usize>, Fail> {
    let (_, drawn, words, ending, lists) = *case;
    let mut net = network(alloc, drawn, words, ending)?;
    if wander(alloc, &mut net, seed)? {
        Ok(came_to(alloc, &net, lists)?)
    } else {
        Ok(None)
    }
}

/// How many schedules each network is driven by.
const SEEDS: u64 = 128;

#[test]
fn seeded_schedules_agree(rt: HostRuntime) -> Result<(), Fail> {
    for case in cases() {
        let name = case.0;
        let mut ends = Vec::new(rt.alloc());
        for seed in 0..SEEDS {
            let end = end_by_seed(rt.alloc(), case, seed)?;
            assert!(rt; end.is_some(), "{name}, seed {seed}");
            ends.push(end)?;
        }
        for place in 0..case.4.len() {
            check(&rt, name, ends.contains(&Some(place)));
        }
    }
    Ok(())
}

#[test]
fn networks_settle_in_one_of_their_ends(rt: HostRuntime) -> Result<(), Fail> {
    for (name, drawn, words, ending, lists) in cases() {
        let mut net = network(rt.alloc(), drawn, words, *ending)?;
        check(&rt, name, settles(rt.alloc(), &mut net));
        check(&rt, name, came_to(rt.alloc(), &net, lists)?.is_some());
    }
    Ok(())
}

// Each event of a chain counts: 48 moves, 3 makes, 6 jobs that begin, 6 results, 3 completions and 3 ends.
#[test]
fn settle_in_two_parts(rt: HostRuntime) -> Result<(), Fail> {
    let alloc = rt.alloc();
    for limit in 0..70 {
        let mut net = network(alloc, THREE, "'1 '2 '3", Ending::Complete)?;
        let is_last = limit == 69;
        let first = if is_last {
            Settled::Quiet
        } else {
            Settled::Stopped
        };
        assert!(rt; net.settle(alloc, limit) == Ok(first), "{limit}");
        assert!(rt; net.is_quiet() == is_last, "{limit}");
        let is_due = settles(alloc, &mut net)
            && came_to(alloc, &net, &["block out done ; record [1,2,3]"])?.is_some();
        assert!(rt; is_due, "{limit}");
    }
    Ok(())
}

#[test]
fn a_network_shows_its_parts(rt: HostRuntime) -> Result<(), Fail> {
    let alloc = rt.alloc();
    let mut net = network(alloc, THREE, "'1 x", Ending::Complete)?;
    assert!(rt; settles(alloc, &mut net));
    assert!(rt; net.plan().block_count() == 3);
    assert!(rt; net.state(0) == State::Done && net.state(1) == State::Faulted(1));
    assert!(rt; matches!(net.journal(0), [Mark::Took(0, 2, _), .., Mark::Done]));
    assert!(rt; net.posted(0).len() == 2 && net.posted(1).is_empty());
    let held = r#"block t faulted 1 ; held 0 ["x"]"#;
    assert!(rt; came_to(alloc, &net, &[held])?.is_some());
    let (left, more) = net.left(1);
    assert!(rt; left.len() + more.len() + net.record(2).len() == 1);
    Ok(())
}
