//! Links of plans, with what no text says of them, and how far a message has come over one.
use crate::check::check;
use crate::shared::{header, text};
use flow_link::{
    BlockDef, BlockKind, Draft, Ending, Link, LinkDef, LinkEnd, LinkSource, LinkTarget, Mark, Move,
    Phase, Place, Plan, PlanFault, PlanRefusal, Posted, are_numbered, phase_of, plan_check,
    step_of, word_of,
};
use flow_value::{Steps, When};
use std::alloc::Global;
use std::mem::size_of;
use std::process::Abort;

/// The kind of the source, a port, a capacity and a predicate.
type Options = (BlockKind, Option<u32>, Option<u32>, Option<When>);

/// What is wrong, options of a link from a block to a buffer and of both blocks, and the fault of the draft.
const WRONG: &[(&str, Options, PlanFault)] = &[
    (
        "a port that there is not",
        (BlockKind::Buffer, Some(1), None, None),
        PlanFault::Port(0),
    ),
    (
        "the port comes first",
        (BlockKind::Action, Some(1), Some(0), None),
        PlanFault::Port(0),
    ),
    (
        "an action gives nothing",
        (BlockKind::Action, None, Some(0), None),
        PlanFault::NoOutput(0),
    ),
    (
        "no room",
        (BlockKind::Buffer, None, Some(0), None),
        PlanFault::BadOption(Place::Block(0)),
    ),
    (
        "too much room",
        (BlockKind::Buffer, None, Some(2_147_483_648), None),
        PlanFault::BadOption(Place::Block(0)),
    ),
];

/// A block and a buffer, of which the first is an input and linked to the second.
fn draft(rt: &impl Abort, alloc: Global, options: &Options) -> Draft<Steps> {
    let (source, port, capacity, when) = *options;
    let mut first = block(rt, alloc, "a", source, capacity);
    first.input = true;
    let mut blocks = Vec::new(alloc);
    assert!(rt; blocks.push(first).is_ok());
    assert!(rt;
        blocks
            .push(block(rt, alloc, "b", BlockKind::Buffer, capacity))
            .is_ok()
    );
    let mut links = Vec::new(alloc);
    assert!(rt; links.push(link(rt, alloc, port, when)).is_ok());
    Draft { blocks, links }
}

fn block(
    rt: &impl Abort,
    alloc: Global,
    name: &str,
    kind: BlockKind,
    capacity: Option<u32>,
) -> BlockDef<Steps> {
    let mut block = BlockDef::new(text(rt, alloc, name), kind);
    block.capacity = capacity;
    block
}

fn link(rt: &impl Abort, alloc: Global, port: Option<u32>, when: Option<When>) -> LinkDef {
    let mut link = LinkDef::new(text(rt, alloc, "a"), text(rt, alloc, "b"));
    link.port = port;
    link.when = when;
    link.propagate = true;
    link
}

/// The plan of a draft with which nothing is wrong.
fn plan(rt: &impl Abort, alloc: Global, draft: Draft<Steps>) -> Plan<Steps> {
    let Ok(plan) = plan_check(alloc, draft) else {
        panic!(rt; "something is wrong with the draft");
    };
    plan
}

#[test]
fn a_refused_draft_comes_back(rt: HostRuntime) {
    let (rt, alloc) = (&rt, rt.alloc());
    for (name, options, fault) in WRONG {
        let Err((back, refusal)) = plan_check(alloc, draft(rt, alloc, options)) else {
            panic!(rt; "{name}");
        };
        check(rt, name, refusal == PlanRefusal::Fault(*fault));
        check(rt, name, back.blocks.len() == 2 && back.links.len() == 1);
    }
}

/// So many buffers that all have one name make no plan, for this.
fn are_refused(rt: &impl Abort, alloc: Global, count: u32, fault: PlanFault) {
    let mut blocks = Vec::new(alloc);
    for _ in 0..count {
        assert!(rt;
            blocks
                .push(block(rt, alloc, "a", BlockKind::Buffer, None))
                .is_ok()
        );
    }
    let links = Vec::new(alloc);
    let Err((_back, refusal)) = plan_check(alloc, Draft { blocks, links }) else {
        panic!(rt; "they make a plan");
    };
    if refusal != PlanRefusal::Fault(fault) {
        panic!(rt; "they are refused for something else");
    }
}

#[test]
fn too_many_blocks_come_before_their_names(rt: HostRuntime) {
    are_refused(&rt, rt.alloc(), 257, PlanFault::Limit);
    are_refused(&rt, rt.alloc(), 256, PlanFault::DuplicateName(1));
}

/// Whether a link leads from there to there, and says nothing of its messages.
fn leads(link: Link, source: LinkSource, target: LinkTarget) -> bool {
    link.source == source
        && link.target == target
        && link.propagate
        && link.when == When::Any
        && link.max.is_none()
}

#[test]
fn links_of_inputs_follow_those_of_the_draft(rt: HostRuntime) {
    let (rt, alloc) = (&rt, rt.alloc());
    let draft = draft(rt, alloc, &(BlockKind::Buffer, Some(0), None, None));
    let plan = plan(rt, alloc, draft);
    assert!(rt; plan.block_count() == 2 && plan.link_count() == 2);
    check(
        rt,
        "names",
        plan.find("b") == Some(1) && plan.find("c").is_none(),
    );
    check(rt, "inputs", plan.block(0).input && !plan.block(1).input);
    let (first, second) = (plan.link(0), plan.link(1));
    check(
        rt,
        "between",
        leads(first, LinkSource::Block(0), LinkTarget::Port(1, 0)),
    );
    check(rt, "its source", second.source == LinkSource::Input(0));
    check(rt, "its target", second.target == LinkTarget::Port(0, 0));
}

#[test]
fn links_of_exits_follow_those_of_inputs(rt: HostRuntime) {
    let (rt, alloc) = (&rt, rt.alloc());
    let mut draft = draft(rt, alloc, &(BlockKind::Buffer, None, None, None));
    for block in &mut draft.blocks {
        block.output = true;
    }
    let plan = plan(rt, alloc, draft);
    assert!(rt; plan.link_count() == 4 && plan.input_count() == 1);
    check(rt, "in", plan.link(1).target == LinkTarget::Port(0, 0));
    check(
        rt,
        "out of a",
        leads(plan.link(2), LinkSource::Block(0), LinkTarget::Exit),
    );
    check(
        rt,
        "out of b",
        leads(plan.link(3), LinkSource::Block(1), LinkTarget::Exit),
    );
}

#[test]
fn a_mark_takes_24_bytes(rt: HostRuntime) {
    check(&rt, "a mark", size_of::<Mark>() == 24);
}

/// How an input may end, and whether it has the number of a fault if it needs one.
const ENDINGS: &[(Ending, bool)] = &[
    (Ending::Open, true),
    (Ending::Complete, true),
    (Ending::Fault(0), false),
    (Ending::Fault(1), true),
];

#[test]
fn no_input_ends_by_fault_0(rt: HostRuntime) {
    let alloc = rt.alloc();
    for (ending, numbered) in ENDINGS {
        check(&rt, "one", ending.is_numbered() == *numbered);
        check(
            &rt,
            "a list",
            are_numbered(&[posted(alloc, *ending)]) == *numbered,
        );
    }
}

/// An input to which nothing is posted, and which ends so.
fn posted(alloc: Global, ending: Ending) -> Posted {
    let values = Vec::new(alloc);
    Posted { values, ending }
}

/// Asserts that a phase has this word, and the word this phase.
fn has_word(rt: &impl Abort, phase: Phase, word: u64) {
    assert!(rt;
        word_of(phase) == word && phase_of(word) == Some(phase),
        "{word}"
    );
}

#[test]
fn phases_have_their_words(rt: HostRuntime) {
    has_word(&rt, Phase::Idle, 0);
    has_word(
        &rt,
        Phase::Wanted(header(&rt, 1)),
        2_305_843_009_213_693_953,
    );
    has_word(&rt, Phase::Refused, 5_188_146_770_730_811_392);
    has_word(
        &rt,
        Phase::Ended(LinkEnd::Fault(7)),
        6_917_529_027_641_081_863,
    );
    // A message needs an id, a fault has a number that is not too great, and there are thirteen kinds of phase.
    check(&rt, "no id", phase_of(2_305_843_009_213_693_952).is_none());
    check(
        &rt,
        "too great",
        phase_of(6_917_529_031_936_049_152).is_none(),
    );
    check(
        &rt,
        "no kind",
        phase_of(7_493_989_779_944_505_344).is_none(),
    );
}

/// The phase to which this move leads, by which the first message stays under way or is there. A link that is refused does not move.
fn moved(rt: &impl Abort, phase: Phase, step: Move) -> Phase {
    assert!(rt; step_of(Phase::Refused, step).is_none());
    let Some(next) = step_of(phase, step) else {
        panic!(rt; "it is not allowed");
    };
    assert!(rt; next == Phase::Idle || next.id() == Some(header(rt, 1)));
    next
}

#[test]
fn a_message_crosses(rt: HostRuntime) {
    let rt = &rt;
    let phase = moved(rt, Phase::Idle, Move::Offer(header(rt, 1)));
    let phase = moved(rt, phase, Move::Postpone);
    let phase = moved(rt, phase, Move::Ask);
    let phase = moved(rt, phase, Move::Hold);
    let phase = moved(rt, phase, Move::Claim);
    let phase = moved(rt, phase, Move::Give);
    let phase = moved(rt, phase, Move::Open);
    let phase = moved(rt, phase, Move::Close);
    assert!(rt; phase == Phase::Idle);
}
