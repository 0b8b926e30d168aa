//! All that is to be said of a network's text.
ghost use Rattle.std.specs.Prelude.{◌≡◌, ◌<◌, length, IfOk, IfSome};
ghost use Rattle.flow_explain.specs.Answers.{IsAnswerTo};
ghost use Rattle.flow_fault_text.specs.declared.fault.TextFault.{TextFault};

use crate::encoding::{BadByte, bad_byte, ends_network, is_utf_16, without_mark};
use crate::finding::{Flaw, add_flaw};
use crate::keys::part_at;
use crate::network::Network;
use crate::plan::add_plan_flaws;
use crate::shape::{add_misfits, add_missing_keys, add_unknown_keys};
use crate::words::{add_when_flaw, add_work_flaws};
use flow_fault_text::{TextFault, TextPlace, TextRefusal};
use flow_hints::{Warning, warnings_of};
use flow_link::{Place, PlanFault};
use flow_plan_text::read_plan;
use flow_spans::{Part, Span, line_span, places_in};
use std::alloc::{AllocError, Global};

/// The format of networks that are read.
const FORMAT: i64 = 1;

/// What is to be said of a network's text. Spans count from behind a byte order mark.
#[derive(Drop)]
pub enum Answer {
    /// It is accepted, though some of it was hardly meant so.
    Accepted(Vec<Warning>),
    /// It is refused for the first flaw, and would be for the others. They are in the order of the text.
    Refused(Flaw, Vec<Flaw>),
}

/// What is to be said of a network's text: a flaw where `read_plan` refuses it, and none where it does not.
///
/// The first flaw has the fault that `read_plan` answers. At most a hundred others are told.
pub fn explain_network(alloc: Global, text: &[u8]) -> Result<Answer, AllocError>
    ensures { IfOk result (IsAnswerTo text.now) }
{
    match read_plan(alloc, text) {
        Ok(plan) => {
            // a network that is accepted is UTF-8
            let text = str::from_utf8(without_mark(text)).unwrap_or("");
            Ok(Answer::Accepted(warnings_of(alloc, text, &plan)?))
        }
        Err(TextRefusal::Memory) => Err(AllocError),
        Err(TextRefusal::Fault(fault)) => {
            let (first, others) = flaws_of(alloc, without_mark(text), fault)?;
            Ok(Answer::Refused(first, others))
        }
    }
}

// The flaws of a text that is refused for this fault, the flaw with this fault first.
fn flaws_of(alloc: Global, text: &[u8], fault: TextFault) -> Result<(Flaw, Vec<Flaw>), AllocError>
    ensures { IfOk result (λ found. found.0.fault ≡ fault) }
{
    let mut flaws = all_flaws(alloc, text)?;
    flaws.sort_by_key(|flaw| flaw.span.start)?;
    let first = match first_with(&flaws, fault) {
        Some(at) => flaws.remove(at),
        None => untold(alloc, text, fault)?,
    };
    let Flaw { span, message, .. } = first;
    let first = Flaw {
        fault,
        span,
        message,
    };
    Ok((first, flaws))
}

// The first of these flaws that has this fault.
fn first_with(flaws: &[Flaw], fault: TextFault) -> Option<usize>
    ensures { IfSome result (λ at. at < length flaws.now) }
{
    for (at, flaw) in flaws.iter().enumerate() {
        if flaw.fault == fault {
            return Some(at);
        }
    }
    None
}

// The flaws that are found in a text.
fn all_flaws(alloc: Global, text: &[u8]) -> Result<Vec<Flaw>, AllocError> {
    let mut flaws = Vec::new(alloc);
    match toml::table_from_slice(alloc, text) {
        Ok(top) => {
            if let Ok(text) = str::from_utf8(text) {
                let places = places_in(alloc, text)?;
                let network = Network::new(text, &top, &places);
                add_flaws(alloc, network, &mut flaws)?;
            }
        }
        Err(error) => match error.span() {
            Some(range) => {
                let span = Span::new(range.start, range.end);
                add_syntax_flaw(alloc, text, span, error.message(), &mut flaws)?;
            }
            None => return Err(AllocError),
        },
    }
    Ok(flaws)
}

// Adds why a text is no TOML.
fn add_syntax_flaw(
    alloc: Global,
    text: &[u8],
    span: Span,
    message: &str,
    flaws: &mut Vec<Flaw>,
) -> Result<(), AllocError> {
    let fault = TextFault::Syntax;
    if is_utf_16(text) {
        let message = "the text is UTF-16; store it as UTF-8.";
        return add_flaw(alloc, flaws, fault, span, message);
    }
    if let Some((_, byte)) = bad_byte(text) {
        let words = BadByte(byte);
        return add_flaw(
            alloc,
            flaws,
            fault,
            span,
            format_args!("the text is {words}."),
        );
    }
    let line = line_span(text, span.start);
    if ends_network(text.get(line.start..line.end).unwrap_or(&[])) {
        let message =
            "a line %% ends a network where its records follow; here the network stands alone.";
        return add_flaw(alloc, flaws, fault, span, message);
    }
    let message = format_args!("the text is no TOML: {message}.");
    add_flaw(alloc, flaws, fault, span, message)
}

// Adds the flaws of a text that is TOML, in the order in which faults are looked for: so the first is among them even
// where not all are told.
fn add_flaws(alloc: Global, network: Network<'_>, flaws: &mut Vec<Flaw>) -> Result<(), AllocError> {
    if let Some(format) = other_format(network) {
        let span = network.value_span(Part::Top, "format");
        let message = format_args!("the format is {format}, and format {FORMAT} is read.");
        return add_flaw(alloc, flaws, TextFault::BadFormat, span, message);
    }
    add_key_flaws(alloc, network, flaws)?;
    add_word_flaws(alloc, network, flaws)?;
    add_plan_flaws(alloc, network, flaws)
}

// The format, where it is a number and not the one that is read.
fn other_format(network: Network<'_>) -> Option<i64> {
    let format = network.value(Part::Top, "format")?.as_integer()?;
    if format == FORMAT { None } else { Some(format) }
}

// Adds the flaws of all keys and of the types of their values.
fn add_key_flaws(
    alloc: Global,
    network: Network<'_>,
    flaws: &mut Vec<Flaw>,
) -> Result<(), AllocError> {
    for number in 0..network.part_count() {
        add_unknown_keys(alloc, network, network.part(number), flaws)?;
    }
    for number in 0..network.part_count() {
        add_missing_keys(alloc, network, network.part(number), flaws)?;
    }
    for number in 0..network.part_count() {
        add_misfits(alloc, network, network.part(number), flaws)?;
    }
    Ok(())
}

// Adds the flaws of all functions, and then of all predicates.
fn add_word_flaws(
    alloc: Global,
    network: Network<'_>,
    flaws: &mut Vec<Flaw>,
) -> Result<(), AllocError> {
    for block in 0..network.block_count() {
        add_work_flaws(alloc, network, block, flaws)?;
    }
    for link in 0..network.link_count() {
        add_when_flaw(alloc, network, link, flaws)?;
    }
    Ok(())
}

// What is said of a fault for which no flaw was found.
fn untold(alloc: Global, text: &[u8], fault: TextFault) -> Result<Flaw, AllocError> {
    let places = match str::from_utf8(text) {
        Ok(text) => places_in(alloc, text)?,
        Err(_) => places_in(alloc, "")?,
    };
    let span = match place_of_fault(fault) {
        Some(place) => places.table(part_at(place)),
        None => None,
    };
    Ok(Flaw {
        fault,
        span: span.unwrap_or(Span::new(0, 0)),
        message: String::from_str(alloc, fault_words(fault))?,
    })
}

// The place at which a fault stands, if it has one in a network.
fn place_of_fault(fault: TextFault) -> Option<TextPlace> {
    match fault {
        TextFault::UnknownKey(place)
        | TextFault::MissingKey(place)
        | TextFault::WrongType(place)
        | TextFault::BadWork(place)
        | TextFault::BadWhen(place) => Some(place),
        TextFault::Plan(fault) => place_of_plan_fault(fault),
        TextFault::Syntax
        | TextFault::BadFormat
        | TextFault::Csv(_)
        | TextFault::NotUtf8(_)
        | TextFault::UnknownInput(_)
        | TextFault::Read
        | TextFault::Write => None,
    }
}

fn place_of_plan_fault(fault: PlanFault) -> Option<TextPlace> {
    match fault {
        PlanFault::DuplicateName(block)
        | PlanFault::CapacityBelowSize(block)
        | PlanFault::SharedSource(block)
        | PlanFault::BadOption(Place::Block(block)) => Some(TextPlace::Block(block)),
        PlanFault::UnknownBlock(link)
        | PlanFault::Port(link)
        | PlanFault::NoOutput(link)
        | PlanFault::BadOption(Place::Link(link)) => Some(TextPlace::Link(link)),
        PlanFault::Limit | PlanFault::Cycle => None,
    }
}

// What a fault is, in words.
fn fault_words(fault: TextFault) -> &'static str {
    match fault {
        TextFault::Syntax => "the text is no TOML.",
        TextFault::UnknownKey(_) => "there is a key here that networks do not have.",
        TextFault::MissingKey(_) => "a key that is required is not here.",
        TextFault::WrongType(_) => "a value here is of another type than its key wants.",
        TextFault::BadWork(_) => "a function here has a step that there is not.",
        TextFault::BadWhen(_) => "the predicate here is none.",
        TextFault::BadFormat => "the format is another one.",
        TextFault::Plan(_) => "this makes no plan.",
        TextFault::Csv(_) => "a record has two fields.",
        TextFault::NotUtf8(_) => "a field of the record is no UTF-8.",
        TextFault::UnknownInput(_) => "the record names no input.",
        TextFault::Read => "reading failed.",
        TextFault::Write => "writing failed.",
    }
}
