//! Flaws of keys, and of the types of their values.
use crate::finding::{Flaw, add_flaw, is_full};
use crate::hint::{Hint, near_or};
use crate::keys::{Form, KINDS, Key, key_names, keys_of, kind_named, knows, place_of, plural};
use crate::network::{Network, first_other, items_of};
use flow_fault_text::TextFault;
use flow_hints::{nearest, quoted};
use flow_spans::Part;
use std::alloc::{AllocError, Global};
use std::fmt;
use toml::Value;

/// Adds the keys that this part has, and that such parts do not have.
pub(crate) fn add_unknown_keys(
    alloc: Global,
    network: Network<'_>,
    part: Part,
    flaws: &mut Vec<Flaw>,
) -> Result<(), AllocError> {
    let Some(table) = network.table(part) else {
        return Ok(());
    };
    for key in table.keys() {
        if !knows(part, key.as_str()) && !is_full(flaws) {
            add_unknown_key(alloc, network, part, key.as_str(), flaws)?;
        }
    }
    Ok(())
}

fn add_unknown_key(
    alloc: Global,
    network: Network<'_>,
    part: Part,
    key: &str,
    flaws: &mut Vec<Flaw>,
) -> Result<(), AllocError> {
    let title = network.title(part);
    let plural = plural(part);
    let hint = key_hint(alloc, part, key)?;
    let name = quoted(alloc, key)?;
    add_flaw(
        alloc,
        flaws,
        TextFault::UnknownKey(place_of(part)),
        network.key_span(part, key),
        format_args!("{title} has a key {name}, which {plural} do not have.{hint}"),
    )
}

// What may have been meant by a key that a part does not have.
fn key_hint(alloc: Global, part: Part, key: &str) -> Result<Hint<'static>, AllocError> {
    if key == "ordered" || key == "groups" {
        return Ok(Hint::Words(" It is not built yet."));
    }
    near_or(alloc, key, key_names(part), Hint::Words(home_of(key)))
}

// Where a key belongs.
fn home_of(key: &str) -> &'static str {
    if knows(Part::Block(0), key) {
        " It is a key of blocks."
    } else if knows(Part::Link(0), key) {
        " It is a key of links."
    } else if knows(Part::Top, key) {
        " It stands before the first block."
    } else {
        ""
    }
}

/// Whether a part has a key that may be this one, and is told as unknown.
pub(crate) fn is_misspelt(
    alloc: Global,
    network: Network<'_>,
    part: Part,
    key: &str,
) -> Result<bool, AllocError> {
    let Some(table) = network.table(part) else {
        return Ok(false);
    };
    for other in table.keys() {
        let other = other.as_str();
        if !knows(part, other) && nearest(alloc, other, key_names(part))? == Some(key) {
            return Ok(true);
        }
    }
    Ok(false)
}

/// Adds the keys that this part lacks.
pub(crate) fn add_missing_keys(
    alloc: Global,
    network: Network<'_>,
    part: Part,
    flaws: &mut Vec<Flaw>,
) -> Result<(), AllocError> {
    for key in keys_of(part) {
        if key.is_required && network.value(part, key.name).is_none() {
            add_missing(alloc, network, part, key, flaws)?;
        }
    }
    Ok(())
}

// Adds a key that a part lacks, unless it is there in another spelling.
fn add_missing(
    alloc: Global,
    network: Network<'_>,
    part: Part,
    key: &Key,
    flaws: &mut Vec<Flaw>,
) -> Result<(), AllocError> {
    if is_full(flaws) || is_misspelt(alloc, network, part, key.name)? {
        return Ok(());
    }
    let title = network.title(part);
    let name = key.name;
    let plural = plural(part);
    add_flaw(
        alloc,
        flaws,
        TextFault::MissingKey(place_of(part)),
        network.span_of(part),
        format_args!("{title} has no key {name:?}, which all {plural} have."),
    )
}

/// Adds the values of this part that are not what their keys want.
pub(crate) fn add_misfits(
    alloc: Global,
    network: Network<'_>,
    part: Part,
    flaws: &mut Vec<Flaw>,
) -> Result<(), AllocError> {
    for key in keys_of(part) {
        if let Some(value) = network.value(part, key.name) {
            add_misfit(alloc, network, part, key, value, flaws)?;
        }
    }
    Ok(())
}

fn add_misfit(
    alloc: Global,
    network: Network<'_>,
    part: Part,
    key: &Key,
    value: &Value,
    flaws: &mut Vec<Flaw>,
) -> Result<(), AllocError> {
    if fits(key.form, value) || is_full(flaws) {
        return Ok(());
    }
    match (key.form, value.as_str()) {
        (Form::Kind, Some(word)) => add_unknown_kind(alloc, network, part, word, flaws),
        _ => add_wrong_type(alloc, network, part, key, value, flaws),
    }
}

/// Whether a value is of this form.
pub(crate) fn fits(form: Form, value: &Value) -> bool {
    match form {
        Form::Boolean => value.is_bool(),
        Form::Integer => value.is_integer(),
        Form::Count => match value.as_integer() {
            Some(number) => u32::try_from(number).is_ok(),
            None => false,
        },
        Form::Text => value.is_str(),
        Form::Kind => match value.as_str() {
            Some(word) => kind_named(word).is_some(),
            None => false,
        },
        Form::Texts | Form::Tables => value.is_array() && bad_item(form, value).is_none(),
    }
}

// The number of the first item of an array that is not what items are to be.
fn bad_item(form: Form, value: &Value) -> Option<usize> {
    match form {
        Form::Texts => first_other(items_of(value), false),
        Form::Tables => first_other(items_of(value), true),
        Form::Boolean | Form::Integer | Form::Count | Form::Text | Form::Kind => None,
    }
}

fn add_unknown_kind(
    alloc: Global,
    network: Network<'_>,
    part: Part,
    word: &str,
    flaws: &mut Vec<Flaw>,
) -> Result<(), AllocError> {
    let fault = TextFault::WrongType(place_of(part));
    let span = network.value_span(part, "kind");
    let hint = near_or(alloc, word, KINDS, Hint::OneOf(" The kinds are", KINDS))?;
    let name = quoted(alloc, word)?;
    add_flaw(
        alloc,
        flaws,
        fault,
        span,
        format_args!("{name} is no kind of block.{hint}"),
    )
}

fn add_wrong_type(
    alloc: Global,
    network: Network<'_>,
    part: Part,
    key: &Key,
    value: &Value,
    flaws: &mut Vec<Flaw>,
) -> Result<(), AllocError> {
    let fault = TextFault::WrongType(place_of(part));
    let title = network.title(part);
    let name = key.name;
    let wanted = wanted(key);
    let item = bad_item(key.form, value);
    let span = match item {
        Some(item) => network.item_span(alloc, part, name, item)?,
        None => network.value_span(part, name),
    };
    let found = Found { item, value };
    add_flaw(
        alloc,
        flaws,
        fault,
        span,
        format_args!("{name:?} of {title} is to be {wanted}, and {found}."),
    )
}

// What the value at a key is to be, in words.
fn wanted(key: &Key) -> &'static str {
    match key.form {
        Form::Boolean => "true or false",
        Form::Integer => "a whole number",
        Form::Count => "a whole number from 0 to 4294967295",
        Form::Text => "a text in quotes",
        Form::Kind => "the word for a kind of block in quotes",
        Form::Texts => "an array of texts in quotes",
        Form::Tables => "an array of tables, each under a header in double brackets",
    }
}

// What a value is, in words, or which item of it is not what items are to be.
#[derive(Clone, Copy)]
struct Found<'v> {
    item: Option<usize>,
    value: &'v Value,
}

impl fmt::Display for Found<'_> {
    fn fmt<W: fmt::Write>(&self, f: &mut fmt::Formatter<W>) -> fmt::Result {
        if let Some(item) = self.item {
            return write!(f, "has something else as item {item}");
        }
        match self.value {
            Value::Integer(number) => write!(f, "is {number}"),
            Value::String(_) => f.write_str("is a text"),
            Value::Float(_) => f.write_str("is a number with a fraction"),
            Value::Boolean(flag) => write!(f, "is {flag}"),
            Value::Datetime(_) => f.write_str("is a date or a time"),
            Value::Array(_) => f.write_str("is an array"),
            Value::Table(_) => f.write_str("is a table"),
        }
    }
}
