//! A value as a journal keeps it.
ghost use Rattle.std.specs.Prelude.{◌≡◌};
ghost use Rattle.flow_value.specs.Parts.{is_plain_text};
ghost use Rattle.flow_value.specs.Seen.{value_of_ref};

use crate::short::Short;
use crate::value::{Bytes, Content, Row, Text, Value};
use std::alloc::Global;
use std::fmt;
use std::marker::Model;
use std::sync::Arc;

/// A value in 16 bytes, where it takes 24 while it is worked on: a journal has many of them. Contracts see the value.
#[derive(Drop)]
pub struct Kept {
    held: Held,
}

/// A value with one number for its kind.
#[derive(Drop)]
enum Held {
    Int(i64),
    Short(Short),
    Long(Arc<Content, Global>),
    Row(Row),
}

impl Model for Kept {
    ghost use Rattle.std.specs.Coded.{codes};
    ghost use Rattle.flow_value.specs.declared.value.Value.{Value as Seen};
    ghost use Rattle.flow_value.specs.contracts.value.Value as content;
    ghost use Rattle.flow_value.specs.Held.{value_of};

    ghost Value = { Seen };

    ghost coded = { Prim.hlevel (codes, content.the_row.coded) };

    ghost view = { λ k. value_of k.held };
}

/// What a value is, seen where it stands.
#[derive(Clone, Copy)]
pub enum ValueRef<'v> {
    /// A whole number.
    Int(i64),
    /// The content of a text.
    Text(&'v str),
    /// The values of a row.
    Row(&'v [Value]),
}

/// A value, seen where it stands, and whether it is a text of plain bytes alone.
#[derive(Clone, Copy)]
pub struct Seen<'v> {
    /// What it is.
    pub value: ValueRef<'v>,
    is_plain: bool,
    ghost told: { is_plain ≡ is_plain_text (value_of_ref value) },
}

impl<'v> Seen<'v> {
    /// Whether it is a text of plain bytes alone. It is known without a look at them.
    #[inline(always)]
    pub fn is_plain_text(&self) -> bool
        ensures { result ≡ is_plain_text (value_of_ref self.now.value) }
    {
        self.is_plain
    }
}

impl Kept {
    /// The value, to be kept.
    #[inline(always)]
    pub fn new(value: Value) -> Kept
        ensures { result ≡ value }
    {
        let held = match value {
            Value::Int(number) => Held::Int(number),
            Value::Text(
                Text {
                    bytes: Bytes::Short(short),
                },
            ) => Held::Short(short),
            Value::Text(
                Text {
                    bytes: Bytes::Long(content),
                },
            ) => Held::Long(content),
            Value::Row(row) => Held::Row(row),
        };
        Kept { held }
    }

    /// The value, where it stands.
    #[tactic(auto, using(crate::proofs::SeenAgain::row_again))]
    #[inline(always)]
    pub fn seen(&self) -> Seen<'_>
        ensures { value_of_ref result.value ≡ self.now }
    {
        match &self.held {
            Held::Int(number) => Seen {
                value: ValueRef::Int(*number),
                is_plain: false,
            },
            Held::Short(short) => Seen {
                value: ValueRef::Text(short.as_str()),
                is_plain: short.is_plain(),
            },
            Held::Long(content) => Seen {
                value: ValueRef::Text(content.bytes.as_str()),
                is_plain: content.is_plain,
            },
            Held::Row(row) => Seen {
                value: ValueRef::Row(row.items()),
                is_plain: false,
            },
        }
    }
}

impl Value {
    /// The value, where it stands.
    #[tactic(auto, using(crate::proofs::SeenAgain::row_again))]
    #[inline(always)]
    pub fn seen(&self) -> Seen<'_>
        ensures { value_of_ref result.value ≡ self.now }
    {
        match self {
            Value::Int(number) => Seen {
                value: ValueRef::Int(*number),
                is_plain: false,
            },
            Value::Text(text) => Seen {
                value: ValueRef::Text(text.as_str()),
                is_plain: text.is_plain(),
            },
            Value::Row(row) => Seen {
                value: ValueRef::Row(row.items()),
                is_plain: false,
            },
        }
    }
}

impl fmt::Debug for Kept {
    fn fmt<W: fmt::Write>(&self, f: &mut fmt::Formatter<W>) -> fmt::Result {
        match self.seen().value {
            ValueRef::Int(number) => fmt::Debug::fmt(&number, f),
            ValueRef::Text(text) => fmt::Debug::fmt(text, f),
            ValueRef::Row(values) => fmt::Debug::fmt(values, f),
        }
    }
}
