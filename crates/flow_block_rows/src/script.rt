//! Lines of calls that all blocks have in common. The test plays what is at the far end of each link.
//!
//! A block takes messages such as `0 5, 1 '6`: the number 5 over link 0, and then the text 6 over link 1. A source does calls
//! with a semicolon between them:
//!
//! call              what has to come of it
//! makes             it makes something; `makes nothing` where there is nothing to make
//! gives 7 1 5       it offers its message 1 over link 7, which takes it, and that is 5; `gives nothing` where nothing is offered
//! hands 7 1 5       it makes what it can, and gives that; `hands nothing` where it has nothing to make and nothing to give
//! puts 8 1          it offers its message 1 over link 8, which puts it off; `puts nothing` where nothing is offered
//! ends done         it has ended so, or `ends faulted 3`; `ends not` where it goes on
ghost use Rattle.flow_block_rows.specs.Driven.{Rests};

use crate::driven::{give, take_value};
use crate::reserved::put_off;
use flow_link::{LinkId, Outcome, SourceBlock, TargetBlock};
use flow_value::Value;
use flow_words::{atom, values_of};
use std::alloc::Global;
use std::process::Abort;

/// The target takes these messages, each over link 0 or 1.
pub(crate) fn takes<T: TargetBlock>(rt: &impl Abort, alloc: Global, target: &mut T, messages: &str)
    requires { Rests (T.target_stage target.old) }
    ensures { Rests (T.target_stage target.new) }
{
    for message in messages.split(", ") {
        if let Some(word) = message.strip_prefix("0 ") {
            take_value(rt, alloc, target, 0, value(rt, alloc, word));
        } else if let Some(word) = message.strip_prefix("1 ") {
            take_value(rt, alloc, target, 1, value(rt, alloc, word));
        } else {
            panic!(rt; "no message: {message}");
        }
    }
}

fn value(rt: &impl Abort, alloc: Global, word: &str) -> Value {
    match atom(alloc, word) {
        Ok(value) => value,
        Err(_) => panic!(rt; "out of memory"),
    }
}

/// The source does these calls, and of each comes what has to.
pub(crate) fn does<S: SourceBlock>(rt: &impl Abort, alloc: Global, source: &mut S, calls: &str) {
    for call in calls.split("; ") {
        let (word, others) = call.split_once(" ").unwrap_or((call, ""));
        match word {
            "makes" => check_made(rt, make(rt, alloc, source), others),
            "gives" => gives(rt, alloc, source, others),
            "hands" => hands(rt, alloc, source, others),
            "puts" => puts(rt, alloc, source, others),
            "ends" => check_end(rt, source.completion(), others),
            _ => panic!(rt; "no such call: {call}"),
        }
    }
}

/// Whether the source makes something.
fn make<S: SourceBlock>(rt: &impl Abort, alloc: Global, source: &mut S) -> bool {
    match source.make(alloc) {
        Ok(made) => made,
        Err(_) => panic!(rt; "out of memory or of ids"),
    }
}

fn check_made(rt: &impl Abort, made: bool, wanted: &str) {
    let holds = match wanted {
        "" => made,
        "nothing" => !made,
        _ => false,
    };
    if !holds {
        panic!(rt; "makes {wanted}");
    }
}

fn check_end(rt: &impl Abort, came: Option<Outcome>, wanted: &str) {
    let holds = match came {
        None => wanted == "not",
        Some(Outcome::Done) => wanted == "done",
        Some(Outcome::Faulted(number)) => {
            let digits = wanted.strip_prefix("faulted ").unwrap_or("");
            digits.parse::<u32>().ok() == Some(number)
        }
    };
    if !holds {
        panic!(rt; "ends {wanted}");
    }
}

/// Tests that a source that offers this message next gives it, or that it offers nothing.
fn gives<S: SourceBlock>(rt: &impl Abort, alloc: Global, source: &mut S, wanted: &str) {
    let holds = match give(rt, alloc, source) {
        Some((link, id, value)) => match after_two(wanted, link, id) {
            Some(word) => is_written(rt, alloc, &value, word),
            None => false,
        },
        None => wanted == "nothing",
    };
    if !holds {
        panic!(rt; "gives {wanted}");
    }
}

fn hands<S: SourceBlock>(rt: &impl Abort, alloc: Global, source: &mut S, wanted: &str) {
    if make(rt, alloc, source) && wanted == "nothing" {
        panic!(rt; "hands nothing: it makes more");
    }
    gives(rt, alloc, source, wanted);
}

/// Tests that the source offers this message next, which is put off, or nothing.
fn puts<S: SourceBlock>(rt: &impl Abort, alloc: Global, source: &mut S, wanted: &str) {
    let holds = match put_off(rt, alloc, source) {
        Some((link, header)) => after_two(wanted, link, header.id()) == Some(""),
        None => wanted == "nothing",
    };
    if !holds {
        panic!(rt; "puts {wanted}");
    }
}

/// What stands behind this link and this id in words that begin with them.
fn after_two(words: &str, link: LinkId, id: u64) -> Option<&str> {
    let (first, others) = words.split_once(" ")?;
    let (second, others) = others.split_once(" ").unwrap_or((others, ""));
    if first.parse::<LinkId>().ok()? == link && second.parse::<u64>().ok()? == id {
        Some(others)
    } else {
        None
    }
}

/// Whether a value is the one that the word is.
fn is_written(rt: &impl Abort, alloc: Global, value: &Value, word: &str) -> bool {
    let Ok(values) = values_of(alloc, word) else {
        panic!(rt; "out of memory");
    };
    match values.as_slice() {
        [only] => only == value,
        _ => false,
    }
}
