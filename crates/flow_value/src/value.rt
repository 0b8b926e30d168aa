//! The values that flow: numbers, texts, and rows of values.
//!
//! A text and a row hide how they are kept, so that two of them are equal where their contents are.
ghost use Rattle.std.specs.Prelude.{◌≡◌, ◌<◌, ◌^◌, ◌↔◌, [], length, IsTrue, IfOk, IfSome, IsUtf8, MatchResult, string_bytes};
ghost use Rattle.std.specs.Option.{option_copied};
ghost use Rattle.std.specs.Cmp.{decided, partial_equiv_from_equiv};
ghost use Rattle.std.proofs.lemmas.Slice.Eq.{bytes_eq-Decides};
ghost use Rattle.flow_value.specs.Plain.{all_plain};
ghost use Rattle.flow_value.specs.Head.{bytes_in};

use crate::plain::are_plain;
use crate::short::Short;
use std::alloc::{AllocError, Global};
use std::marker::Model;
use std::sync::Arc;

/// What a message carries.
#[cycle(value)]
#[derive(Debug, Drop)]
pub enum Value {
    /// A whole number.
    Int(i64),
    /// A text.
    Text(Text),
    /// Values one after another, of any kinds.
    Row(Row),
}

/// A text. Contracts see its UTF-8 bytes.
///
/// A short text stands in the value itself. A longer one never changes, so its copies share the content with it, on any
/// thread: a copy takes no memory but where their number can be counted no further.
#[derive(Debug, Drop)]
pub struct Text {
    pub(crate) bytes: Bytes,
}

impl Model for Text {
    ghost use Rattle.std.specs.Prelude.{List, ℕ};
    ghost use Rattle.flow_value.specs.Content.{bytes_of};

    ghost Value = { List ℕ };

    ghost view = { λ t. bytes_of t.bytes };
}

/// Values in a row. Contracts see the list of them, as `Items`.
///
/// It keeps them behind one pointer, so that a [`Value`] is small.
#[cycle(value)]
#[derive(Debug, Drop)]
pub struct Row {
    items: Arc<Vec<Value>, Global>,
}

impl Model for Row {
    ghost use Rattle.flow_value.specs.Items.{Items, items_code, value_count};

    ghost Value = { Items };

    ghost coded = { items_code };

    ghost use Rattle.flow_value.specs.View.{items_from};
    ghost use Rattle.std.specs.Arc.{arc_value};

    ghost view = { λ r. items_from (arc_value r.items).items };

    ghost size = { value_count };

    ghost use Rattle.std.proofs.Common.{arith};
    ghost use Rattle.flow_value.specs.RowFalls.{most_le-value_count};

    ghost size_decreases = { λ a h. Prim.omega (arith, most_le-value_count (arc_value a.items).items) };
}

/// The bytes of a text: few of them stand here, more of them in memory that its copies share.
#[derive(Debug, Drop)]
pub(crate) enum Bytes {
    Short(Short),
    Long(Arc<Content, Global>),
}

/// The content of a longer text. Whether it is plain is found out once, since a text is printed many times.
#[derive(Debug, Drop)]
pub(crate) struct Content {
    pub(crate) bytes: String,
    pub(crate) is_plain: bool,
    ghost told: { is_plain ≡ all_plain (string_bytes bytes) },
}

impl Text {
    /// A text with a copy of this content.
    pub fn from_str(alloc: Global, content: &str) -> Result<Text, AllocError>
        ensures { IfOk result (λ text. text ≡ content.now) }
    {
        if content.len() > Short::MOST {
            return Text::long(alloc, content);
        }
        Ok(Text {
            bytes: Bytes::Short(Short::from_str(content)),
        })
    }

    /// The text with these bytes, where they are few, plain ASCII: that takes no memory, and one look tells that they are UTF-8. None
    /// says nothing of them.
    #[inline(always)]
    pub fn from_plain_ascii(bytes: &[u8]) -> Option<Text>
        ensures is { IfSome result (λ text. text ≡ bytes.now) }
        ensures utf8 { IfSome result (λ _. IsUtf8 bytes.now) }
    {
        let short = Short::from_plain_ascii(bytes)?;
        Some(Text {
            bytes: Bytes::Short(short),
        })
    }

    // A text whose content its copies share.
    fn long(alloc: Global, content: &str) -> Result<Text, AllocError>
        ensures { IfOk result (λ text. text ≡ content.now) }
    {
        let content = Content {
            bytes: String::from_str(alloc, content)?,
            is_plain: are_plain(content.as_bytes()),
        };
        Ok(Text {
            bytes: Bytes::Long(Arc::new(alloc, content)?),
        })
    }

    /// The text with this content; where there is no memory to share it, the content comes back.
    pub fn new(alloc: Global, content: String) -> Result<Text, String>
        ensures { MatchResult result (λ text. text ≡ string_bytes content) (λ back. back ≡ content) }
    {
        match Text::from_str(alloc, content.as_str()) {
            Ok(text) => Ok(text),
            Err(_) => Err(content),
        }
    }

    /// The content.
    pub fn as_str(&self) -> &str
        ensures { result.now ≡ self.now }
    {
        match &self.bytes {
            Bytes::Short(short) => short.as_str(),
            Bytes::Long(content) => content.bytes.as_str(),
        }
    }

    /// How many bytes its UTF-8 form has.
    pub fn len(&self) -> usize
        ensures count { result ≡ length self.now }
        ensures small { result < 2 ^ 63 }
    {
        self.as_str().len()
    }

    /// Whether it has no bytes.
    pub fn is_empty(&self) -> bool
        ensures { IsTrue result ↔ (self.now ≡ []) }
    {
        self.as_str().is_empty()
    }

    /// Whether each byte is plain: no control byte, no double quote and no backslash. It is known without a look at them.
    pub fn is_plain(&self) -> bool
        ensures { result ≡ all_plain self.now }
    {
        match &self.bytes {
            Bytes::Short(short) => short.is_plain(),
            Bytes::Long(content) => content.is_plain,
        }
    }

    /// A copy of the content in memory of its own; where there is no memory for it, the text comes back.
    pub fn into_string(self, alloc: Global) -> Result<String, Text>
        ensures { MatchResult result (λ content. string_bytes content ≡ self) (λ back. back ≡ self) }
    {
        match String::from_str(alloc, self.as_str()) {
            Ok(content) => Ok(content),
            Err(_) => Err(self),
        }
    }

    /// A second text with the same content. A longer one is shared, and takes memory only where as many texts share the
    /// content as can be counted: then the copy has a content of its own.
    pub fn copy(&self, alloc: Global) -> Result<Text, AllocError>
        ensures { IfOk result (λ text. text ≡ self.now) }
    {
        match &self.bytes {
            Bytes::Short(short) => Ok(Text {
                bytes: Bytes::Short(*short),
            }),
            Bytes::Long(content) => match Arc::try_clone(content) {
                Ok(content) => Ok(Text {
                    bytes: Bytes::Long(content),
                }),
                Err(_) => self.copy_content(alloc),
            },
        }
    }

    // Cold, as it is where a text is shared more often than can be counted.
    #[cold]
    fn copy_content(&self, alloc: Global) -> Result<Text, AllocError>
        ensures { IfOk result (λ text. text ≡ self.now) }
    {
        Text::from_str(alloc, self.as_str())
    }
}

impl Row {
    ghost use Rattle.flow_value.specs.View.{items_from, values_of};

    /// The row of these values; where there is no memory for it, the values come back.
    pub fn new(alloc: Global, items: Vec<Value>) -> Result<Row, Vec<Value>>
        ensures { MatchResult result (λ row. row ≡ items_from items.items) (λ back. back ≡ items) }
    {
        match Arc::new(alloc, items) {
            Ok(items) => Ok(Row { items }),
            Err(refused) => Err(refused.value),
        }
    }

    /// The values, in order.
    pub fn items(&self) -> &[Value]
        ensures { result.now ≡ values_of self.now }
    {
        self.items.as_slice()
    }

    /// How many values it has.
    pub fn len(&self) -> usize
        ensures count { result ≡ length (values_of self.now) }
        ensures small { result < 2 ^ 63 }
    {
        self.items.len()
    }

    /// Whether it has no values.
    pub fn is_empty(&self) -> bool
        ensures { IsTrue result ↔ (values_of self.now ≡ []) }
    {
        self.items.is_empty()
    }

    /// The values, given back, or copies of them where another row shares them; where there is no memory for the copies,
    /// the row comes back.
    pub fn into_items(self, alloc: Global) -> Result<Vec<Value>, Row>
        ensures { MatchResult result (λ items. items.items ≡ values_of self) (λ back. back ≡ self) }
    {
        match Arc::try_unwrap(self.items) {
            Ok(items) => Ok(items),
            Err(items) => match copies_of(alloc, items.as_slice()) {
                Ok(copies) => Ok(copies),
                Err(_) => Err(Row { items }),
            },
        }
    }

    /// A second row with the same values, which it shares. It takes memory only where as many rows share the values as can
    /// be counted: then it has values of its own.
    #[cycle(copy)]
    pub fn copy(&self, alloc: Global) -> Result<Row, AllocError>
        ensures { IfOk result (λ row. row ≡ self.now) }
    {
        match Arc::try_clone(&self.items) {
            Ok(items) => Ok(Row { items }),
            Err(_) => self.copy_items(alloc),
        }
    }

    // Cold, as it is where a row is shared more often than can be counted.
    #[cold]
    #[cycle(copy)]
    fn copy_items(&self, alloc: Global) -> Result<Row, AllocError>
        ensures { IfOk result (λ row. row ≡ self.now) }
    {
        let items = copies_of(alloc, self.items.as_slice())?;
        Ok(Row {
            items: Arc::new(alloc, items)?,
        })
    }

    #[cycle(same)]
    fn is_same(&self, other: &Row) -> bool
        ensures { IsTrue result ↔ (self.now ≡ other.now) }
    {
        if self.len() != other.len() {
            return false;
        }
        for (at, item) in self.items.iter().enumerate() {
            if !item.is_same(&other.items[at]) {
                return false;
            }
        }
        true
    }
}

/// A value that is this text.
#[inline(always)]
fn of_short(short: &Short) -> Value
    ensures { result ≡ Value.Text (bytes_in short.now.head short.now.cells) }
{
    Value::Text(Text {
        bytes: Bytes::Short(*short),
    })
}

/// A list of copies of these values.
#[cycle(copy)]
fn copies_of(alloc: Global, items: &[Value]) -> Result<Vec<Value>, AllocError>
    ensures { IfOk result (λ copies. copies.items ≡ items.now) }
{
    let mut copies = Vec::with_capacity(alloc, items.len())?;
    for item in items {
        copies.push(item.copy_any(alloc)?)?;
    }
    Ok(copies)
}

impl Value {
    ghost use Rattle.flow_value.specs.Parts.{int_part, text_part, row_part};

    /// The number, if the value is one.
    pub fn as_int(&self) -> Option<i64>
        ensures { result ≡ int_part self.now }
    {
        match self {
            Value::Int(number) => Some(*number),
            _ => None,
        }
    }

    /// The content of the text, if the value is one.
    pub fn as_str(&self) -> Option<&str>
        ensures { option_copied result ≡ text_part self.now }
    {
        match self {
            Value::Text(text) => Some(text.as_str()),
            _ => None,
        }
    }

    /// The values of the row, if the value is one.
    pub fn as_items(&self) -> Option<&[Value]>
        ensures { option_copied result ≡ row_part self.now }
    {
        match self {
            Value::Row(row) => Some(row.items()),
            _ => None,
        }
    }

    /// A second value with the same content.
    // A number and a short text are copied where this is called.
    #[inline(always)]
    pub fn copy(&self, alloc: Global) -> Result<Value, AllocError>
        ensures { IfOk result (λ value. value ≡ self.now) }
    {
        match self {
            Value::Int(number) => Ok(Value::Int(*number)),
            Value::Text(
                Text {
                    bytes: Bytes::Short(short),
                },
            ) => Ok(Value::Text(Text {
                bytes: Bytes::Short(*short),
            })),
            Value::Text(_) | Value::Row(_) => self.copy_any(alloc),
        }
    }

    /// Two more values with the same content.
    // A number and a short text are copied where this is called.
    #[inline(always)]
    pub(crate) fn copy_twice(&self, alloc: Global) -> Result<(Value, Value), AllocError>
        ensures { IfOk result (λ copies. (copies.0 ≡ self.now) × (copies.1 ≡ self.now)) }
    {
        match self {
            Value::Int(number) => Ok((Value::Int(*number), Value::Int(*number))),
            Value::Text(
                Text {
                    bytes: Bytes::Short(short),
                },
            ) => Ok((of_short(short), of_short(short))),
            Value::Text(_) | Value::Row(_) => { Ok((self.copy_any(alloc)?, self.copy_any(alloc)?)) }
        }
    }

    #[inline(never)]
    #[cycle(copy)]
    fn copy_any(&self, alloc: Global) -> Result<Value, AllocError>
        ensures { IfOk result (λ value. value ≡ self.now) }
    {
        match self {
            Value::Int(number) => Ok(Value::Int(*number)),
            Value::Text(text) => Ok(Value::Text(text.copy(alloc)?)),
            Value::Row(row) => Ok(Value::Row(row.copy(alloc)?)),
        }
    }

    #[cycle(same)]
    fn is_same(&self, other: &Value) -> bool
        ensures { IsTrue result ↔ (self.now ≡ other.now) }
    {
        match (self, other) {
            (Value::Int(mine), Value::Int(theirs)) => mine == theirs,
            (Value::Text(mine), Value::Text(theirs)) => mine.as_str() == theirs.as_str(),
            (Value::Row(mine), Value::Row(theirs)) => mine.is_same(theirs),
            _ => false,
        }
    }
}

impl PartialEq for Text {
    ghost use Rattle.std.specs.Str.{bytes_eq};

    ghost eq = { bytes_eq };

    ghost laws = { partial_equiv_from_equiv (decided bytes_eq bytes_eq-Decides) };

    fn eq(&self, other: &Text) -> bool {
        self.as_str() == other.as_str()
    }
}

impl Eq for Text {
    ghost use Rattle.std.specs.Str.{bytes_eq};

    ghost laws = { decided bytes_eq bytes_eq-Decides };
}

impl PartialEq for Row {
    ghost use Rattle.flow_value.specs.Same.{same_items, same_items-Decides};

    ghost eq = { same_items };

    ghost laws = { partial_equiv_from_equiv (decided same_items same_items-Decides) };

    fn eq(&self, other: &Row) -> bool {
        self.is_same(other)
    }
}

impl Eq for Row {
    ghost use Rattle.flow_value.specs.Same.{same_items, same_items-Decides};

    ghost laws = { decided same_items same_items-Decides };
}

impl PartialEq for Value {
    ghost use Rattle.flow_value.specs.Same.{same_value, same_value-Decides};

    ghost eq = { same_value };

    ghost laws = { partial_equiv_from_equiv (decided same_value same_value-Decides) };

    fn eq(&self, other: &Value) -> bool {
        self.is_same(other)
    }
}

impl Eq for Value {
    ghost use Rattle.flow_value.specs.Same.{same_value, same_value-Decides};

    ghost laws = { decided same_value same_value-Decides };
}
