//! Flaws of functions and predicates: texts that are no step, and no predicate.
use crate::finding::{Flaw, add_flaw, is_full};
use crate::hint::{Hint, near_or};
use crate::network::Network;
use flow_fault_text::{TextFault, TextPlace};
use flow_hints::quoted;
use flow_spans::{Part, Span};
use flow_value::{Steps, StepsError, When};
use std::alloc::{AllocError, Global};
use std::fmt;

/// The most steps of a function.
const MOST_STEPS: usize = 16;

/// The name of a step or of a predicate, and the range of its number if it has one.
struct Word {
    name: &'static str,
    number: Option<(i64, i64)>,
}

macro_rules! alone {
    ($name:literal) => {
        Word {
            name: $name,
            number: None,
        }
    };
}

macro_rules! with_number {
    ($name:literal, $low:expr, $high:expr) => {
        Word {
            name: $name,
            number: Some(($low, $high)),
        }
    };
}

/// A sort of words: how one is called, the words, and their names.
#[derive(Clone, Copy)]
struct Sort {
    name: &'static str,
    words: &'static [Word],
    names: &'static [&'static str],
}

const STEP: Sort = Sort {
    name: "step",
    words: STEPS,
    names: STEP_NAMES,
};

const PREDICATE: Sort = Sort {
    name: "predicate",
    words: PREDICATES,
    names: PREDICATE_NAMES,
};

const STEPS: &[Word] = &[
    alone!("id"),
    alone!("int"),
    alone!("text"),
    with_number!("add", i64::MIN, i64::MAX),
    with_number!("mul", i64::MIN, i64::MAX),
    with_number!("field", 0, 4_095),
    alone!("len"),
    alone!("sum"),
    with_number!("reject", i64::MIN, i64::MAX),
    alone!("spread"),
    alone!("upto"),
    with_number!("repeat", 0, 1_000),
];

const STEP_NAMES: &[&str] = &[
    "id", "int", "text", "add", "mul", "field", "len", "sum", "reject", "spread", "upto", "repeat",
];

const PREDICATES: &[Word] = &[
    alone!("any"),
    alone!("even"),
    alone!("odd"),
    with_number!("lt", i64::MIN, i64::MAX),
    with_number!("ge", i64::MIN, i64::MAX),
    with_number!("eq", i64::MIN, i64::MAX),
];

const PREDICATE_NAMES: &[&str] = &["any", "even", "odd", "lt", "ge", "eq"];

/// Adds the flaws of the function of this block.
pub(crate) fn add_work_flaws(
    alloc: Global,
    network: Network<'_>,
    block: usize,
    flaws: &mut Vec<Flaw>,
) -> Result<(), AllocError> {
    if is_full(flaws) {
        return Ok(());
    }
    for (number, item) in network.items(block, "work").iter().enumerate() {
        let Some(text) = item.as_str() else {
            return Ok(());
        };
        if number >= MOST_STEPS {
            return add_many_steps(alloc, network, block, flaws);
        }
        add_step_flaw(alloc, network, block, number, text, flaws)?;
    }
    Ok(())
}

// Adds that a function has too many steps, at the first of them.
fn add_many_steps(
    alloc: Global,
    network: Network<'_>,
    block: usize,
    flaws: &mut Vec<Flaw>,
) -> Result<(), AllocError> {
    let count = network.items(block, "work").len();
    let span = network.item_span(alloc, Part::Block(block), "work", MOST_STEPS)?;
    add_flaw(
        alloc,
        flaws,
        TextFault::BadWork(TextPlace::Block(block)),
        span,
        format_args!("a function has {MOST_STEPS} steps at most, and this one has {count}."),
    )
}

// Adds that a text is no step, if it is none.
fn add_step_flaw(
    alloc: Global,
    network: Network<'_>,
    block: usize,
    number: usize,
    text: &str,
    flaws: &mut Vec<Flaw>,
) -> Result<(), AllocError> {
    if is_step(alloc, text)? {
        return Ok(());
    }
    let span = network.item_span(alloc, Part::Block(block), "work", number)?;
    let fault = TextFault::BadWork(TextPlace::Block(block));
    add_trouble(alloc, text, STEP, fault, span, flaws)
}

fn is_step(alloc: Global, text: &str) -> Result<bool, AllocError> {
    match Steps::read(alloc, &[text]) {
        Ok(_) => Ok(true),
        Err(StepsError::BadStep(_)) => Ok(false),
        Err(StepsError::Memory) => Err(AllocError),
    }
}

/// Adds the flaw of the predicate of this link, if it has one.
pub(crate) fn add_when_flaw(
    alloc: Global,
    network: Network<'_>,
    link: usize,
    flaws: &mut Vec<Flaw>,
) -> Result<(), AllocError> {
    let part = Part::Link(link);
    let Some(text) = network.text_at(part, "when") else {
        return Ok(());
    };
    if When::read(text).is_some() || is_full(flaws) {
        return Ok(());
    }
    let span = network.value_span(part, "when");
    let fault = TextFault::BadWhen(TextPlace::Link(link));
    add_trouble(alloc, text, PREDICATE, fault, span, flaws)
}

// Adds why a text is no word of this sort.
fn add_trouble(
    alloc: Global,
    text: &str,
    sort: Sort,
    fault: TextFault,
    span: Span,
    flaws: &mut Vec<Flaw>,
) -> Result<(), AllocError> {
    let (name, number) = match text.trim().split_once(" ") {
        Some((name, number)) => (name, Some(number)),
        None => (text.trim(), None),
    };
    let shown = quoted(alloc, text)?;
    let kind = sort.name;
    let message = match word_named(sort.words, name) {
        Some(word) => {
            let trouble = Trouble { word, text, number };
            format!(in alloc; "{shown} is no {kind}.{trouble}")?
        }
        None => {
            let all = Hint::OneOf(" There are", sort.names);
            let hint = near_or(alloc, name, sort.names, all)?;
            format!(in alloc; "{shown} is no {kind}.{hint}")?
        }
    };
    add_flaw(alloc, flaws, fault, span, message)
}

// The word with this name.
fn word_named(words: &'static [Word], name: &str) -> Option<&'static Word> {
    for word in words {
        if word.name == name {
            return Some(word);
        }
    }
    None
}

// A text that begins with a word and is none: the word, and what stands behind it and a blank.
#[derive(Clone, Copy)]
struct Trouble<'t> {
    word: &'static Word,
    text: &'t str,
    number: Option<&'t str>,
}

impl fmt::Display for Trouble<'_> {
    fn fmt<W: fmt::Write>(&self, f: &mut fmt::Formatter<W>) -> fmt::Result {
        let name = self.word.name;
        if self.text != self.text.trim() {
            return write!(
                f,
                " Write {name:?} without a blank in front of it or behind it."
            );
        }
        let Some((low, high)) = self.word.number else {
            return write!(f, " {name:?} stands alone.");
        };
        match self.number {
            None => write!(f, " {name:?} needs a number, as in \"{name} 1\"."),
            Some(number) if number.trim() != number => {
                write!(f, " One blank stands between {name:?} and its number.")
            }
            Some(number) if is_number(number) => {
                write!(f, " The number of {name:?} is from {low} to {high}.")
            }
            Some(_) => f.write_str(" Its number is a minus sign or none, and digits."),
        }
    }
}

// Whether a text is an optional minus sign and digits.
fn is_number(text: &str) -> bool {
    let digits = text.strip_prefix("-").unwrap_or(text);
    for byte in digits.bytes() {
        if !byte.is_ascii_digit() {
            return false;
        }
    }
    !digits.is_empty()
}
