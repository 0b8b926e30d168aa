//! Which sorts of values go through a network: numbers, texts, rows.
ghost use Rattle.std.specs.Prelude.{IfSome, IsTrue};
ghost use Rattle.flow_hints.specs.Told.{FaultsAtEach};

use crate::ways::{Way, Ways, port_count};
use flow_link::{BlockDef, BlockUnit};
use flow_value::{Step, Steps, When};
use std::alloc::{AllocError, Global};

/// The sorts of values that may come somewhere.
#[derive(Clone, Copy)]
pub(crate) struct Sorts {
    pub(crate) numbers: bool,
    pub(crate) texts: bool,
    pub(crate) rows: bool,
    /// How many items a row has at most, where that is known.
    pub(crate) most_items: Option<u32>,
}

const NONE: Sorts = Sorts {
    numbers: false,
    texts: false,
    rows: false,
    most_items: None,
};

const ALL: Sorts = Sorts {
    numbers: true,
    texts: true,
    rows: true,
    most_items: None,
};

const NUMBERS: Sorts = Sorts {
    numbers: true,
    texts: false,
    rows: false,
    most_items: None,
};

const TEXTS: Sorts = Sorts {
    numbers: false,
    texts: true,
    rows: false,
    most_items: None,
};

const ROWS: Sorts = Sorts {
    numbers: false,
    texts: false,
    rows: true,
    most_items: None,
};

impl Sorts {
    /// Whether no value comes at all.
    pub(crate) fn is_none(self) -> bool {
        !self.numbers && !self.texts && !self.rows
    }

    fn differ(self, other: Sorts) -> bool {
        self.numbers != other.numbers
            || self.texts != other.texts
            || self.rows != other.rows
            || self.most_items != other.most_items
    }

    fn with(self, other: Sorts) -> Sorts {
        let most_items = match (self.most_items, other.most_items) {
            _ if !self.rows => other.most_items,
            _ if !other.rows => self.most_items,
            (Some(one), Some(other)) => Some(one.max(other)),
            (Some(_), None) | (None, _) => None,
        };
        Sorts {
            numbers: self.numbers || other.numbers,
            texts: self.texts || other.texts,
            rows: self.rows || other.rows,
            most_items,
        }
    }

    /// The sorts, in words.
    pub(crate) fn words(self) -> &'static str {
        match (self.numbers, self.texts, self.rows) {
            (true, false, false) => "numbers",
            (false, true, false) => "texts",
            (false, false, true) => "rows",
            (false, true, true) => "texts and rows",
            (true, true, false) => "numbers and texts",
            (true, false, true) => "numbers and rows",
            (true, true, true) => "values of each sort",
            (false, false, false) => "nothing",
        }
    }
}

// Whether it is sure that a step faults at each value of these sorts.
fn faults_at_each(step: Step, sorts: Sorts) -> bool
    ensures { IsTrue result → FaultsAtEach step sorts }
{
    match step {
        Step::Id | Step::Repeat(_) => false,
        Step::ToInt | Step::ToText => !sorts.numbers && !sorts.texts,
        Step::Add(_) | Step::Mul(_) | Step::Reject(_) | Step::Upto => !sorts.numbers,
        Step::Field(item) => match sorts.most_items {
            Some(most) => !sorts.rows || most <= u32::from(item),
            None => !sorts.rows,
        },
        Step::Len => !sorts.texts && !sorts.rows,
        Step::Sum | Step::Spread => !sorts.rows,
    }
}

// What a step may give for values of these sorts.
fn after_step(step: Step, sorts: Sorts) -> Sorts {
    if faults_at_each(step, sorts) {
        return NONE;
    }
    match step {
        Step::Repeat(0) => NONE,
        Step::Id | Step::Repeat(_) => sorts,
        Step::ToInt
        | Step::Add(_)
        | Step::Mul(_)
        | Step::Len
        | Step::Sum
        | Step::Reject(_)
        | Step::Upto => NUMBERS,
        Step::ToText => TEXTS,
        Step::Field(_) | Step::Spread => ALL,
    }
}

fn after_steps(steps: &[Step], sorts: Sorts) -> Sorts {
    let mut sorts = sorts;
    for step in steps {
        sorts = after_step(*step, sorts);
    }
    sorts
}

/// A step that faults at each value that comes to it, and of which sorts those are.
#[derive(Clone, Copy)]
pub(crate) struct Faulting {
    pub(crate) at: usize,
    pub(crate) step: Step,
    pub(crate) sorts: Sorts,
}

/// The first of these steps that surely faults at each value that comes to it, where values of these sorts come to the first.
pub(crate) fn faulting_step(steps: &[Step], sorts: Sorts) -> Option<Faulting>
    ensures { IfSome result (λ found. FaultsAtEach found.step found.sorts) }
{
    let mut sorts = sorts;
    for (at, step) in steps.iter().enumerate() {
        let step = *step;
        if !sorts.is_none() && faults_at_each(step, sorts) {
            return Some(Faulting { at, step, sorts });
        }
        sorts = after_step(step, sorts);
    }
    None
}

// What a block may give where these sorts come into it.
fn given(block: &BlockDef<Steps>, sorts: Sorts) -> Sorts {
    if block.kind.gives_nothing() || sorts.is_none() {
        return NONE;
    }
    match block.kind.unit() {
        BlockUnit::Message => match &block.work {
            Some(steps) => after_steps(steps.as_slice(), sorts),
            None => sorts,
        },
        BlockUnit::Row => Sorts {
            most_items: block.size,
            ..ROWS
        },
        BlockUnit::Tuple | BlockUnit::Group => Sorts {
            most_items: Some(port_count(block)),
            ..ROWS
        },
        BlockUnit::Copy | BlockUnit::OneCopy => sorts,
    }
}

// What of these sorts may cross a link.
fn crossing(way: Way, sorts: Sorts) -> Sorts {
    match way.when {
        When::Any => sorts,
        When::Even | When::Odd | When::Lt(_) | When::Ge(_) | When::Eq(_) => {
            if sorts.numbers { NUMBERS } else { NONE }
        }
    }
}

/// The sorts of values that may come into each block and that it may give.
#[derive(Drop)]
pub(crate) struct Flow {
    coming: Vec<Sorts>,
    given: Vec<Sorts>,
}

impl Flow {
    /// What may come into this block.
    pub(crate) fn into_block(&self, block: usize) -> Sorts {
        self.coming.get(block).copied().unwrap_or(ALL)
    }

    /// What this block may give.
    pub(crate) fn out_of(&self, block: usize) -> Sorts {
        self.given.get(block).copied().unwrap_or(ALL)
    }

    // Adds what comes into a block over its links, and what it then gives.
    fn add_block(&mut self, ways: &Ways<'_>, number: usize, block: &BlockDef<Steps>) {
        let mut coming = if block.input { TEXTS } else { NONE };
        for way in &ways.ways {
            if way.target == number {
                coming = coming.with(crossing(*way, self.out_of(way.source)));
            }
        }
        if number < self.coming.len() && number < self.given.len() {
            self.coming[number] = coming;
            self.given[number] = given(block, coming);
        }
    }
}

/// The sorts of values that go through a network whose records are texts.
pub(crate) fn flow_of(alloc: Global, ways: &Ways<'_>) -> Result<Flow, AllocError> {
    let count = ways.blocks.len();
    let mut flow = Flow {
        coming: vec![in alloc; NONE; count]?,
        given: vec![in alloc; NONE; count]?,
    };
    // a plan has no circle, so that after as many rounds as there are blocks nothing changes
    for _ in 0..count {
        if !add_round(&mut flow, ways) {
            break;
        }
    }
    Ok(flow)
}

// Goes over the blocks once, and answers whether something changed.
fn add_round(flow: &mut Flow, ways: &Ways<'_>) -> bool {
    let mut changed = false;
    for (number, block) in ways.blocks.iter().enumerate() {
        let before = flow.out_of(number);
        flow.add_block(ways, number, block);
        changed = changed || flow.out_of(number).differ(before);
    }
    changed
}
