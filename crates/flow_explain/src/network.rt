//! A network's text that is TOML: what stands in it, and where.
use crate::keys::kind_named;
use flow_link::BlockKind;
use flow_spans::{Part, Places, Span};
use std::alloc::{AllocError, Global};
use std::fmt;
use toml::{Table, Value};

/// A text that is TOML, its tables, and where they stand.
#[derive(Clone, Copy)]
pub(crate) struct Network<'t> {
    text: &'t str,
    top: &'t Table,
    // none where there is no array of tables
    blocks: &'t [Value],
    links: &'t [Value],
    places: &'t Places,
}

// The tables of the array at this key; none where there is no such array.
fn list<'t>(top: &'t Table, key: &str) -> &'t [Value] {
    match top.get(key) {
        Some(value) => tables_of(value),
        None => &[],
    }
}

/// The items of an array; none where a value is no array.
pub(crate) fn items_of(value: &Value) -> &[Value] {
    match value.as_array() {
        Some(items) => items.as_slice(),
        None => &[],
    }
}

// The items of an array of tables; none where a value is no such array.
fn tables_of(value: &Value) -> &[Value] {
    let items = items_of(value);
    match first_other(items, true) {
        Some(_) => &[],
        None => items,
    }
}

/// The number of the first item that is no table, or no text where texts are wanted.
pub(crate) fn first_other(items: &[Value], wants_tables: bool) -> Option<usize> {
    for (number, item) in items.iter().enumerate() {
        let is_wanted = if wants_tables {
            item.is_table()
        } else {
            item.is_str()
        };
        if !is_wanted {
            return Some(number);
        }
    }
    None
}

impl<'t> Network<'t> {
    pub(crate) fn new(text: &'t str, top: &'t Table, places: &'t Places) -> Network<'t> {
        Network {
            text,
            top,
            blocks: list(top, "block"),
            links: list(top, "link"),
            places,
        }
    }

    /// How many blocks there are; none where they are no array of tables.
    pub(crate) fn block_count(self) -> usize {
        self.blocks.len()
    }

    /// How many links there are; none where they are no array of tables.
    pub(crate) fn link_count(self) -> usize {
        self.links.len()
    }

    /// How many parts there are: the network itself, its blocks and its links.
    pub(crate) fn part_count(self) -> usize {
        self.blocks
            .len()
            .saturating_add(self.links.len())
            .saturating_add(1)
    }

    /// The part with this number, in the order in which faults are looked for.
    pub(crate) fn part(self, number: usize) -> Part {
        match number.checked_sub(1) {
            None => Part::Top,
            Some(block) if block < self.blocks.len() => Part::Block(block),
            Some(behind) => Part::Link(behind - self.blocks.len()),
        }
    }

    /// The table of a part.
    pub(crate) fn table(self, part: Part) -> Option<&'t Table> {
        match part {
            Part::Top => Some(self.top),
            Part::Block(number) => self.blocks.get(number)?.as_table(),
            Part::Link(number) => self.links.get(number)?.as_table(),
        }
    }

    /// The value at a key of a part.
    pub(crate) fn value(self, part: Part, key: &str) -> Option<&'t Value> {
        self.table(part)?.get(key)
    }

    /// The text at a key of a part.
    pub(crate) fn text_at(self, part: Part, key: &str) -> Option<&'t str> {
        self.value(part, key)?.as_str()
    }

    /// The items of the array at a key of a block; none where there is no array.
    pub(crate) fn items(self, block: usize, key: &str) -> &'t [Value] {
        match self.value(Part::Block(block), key) {
            Some(value) => items_of(value),
            None => &[],
        }
    }

    /// The count at a key of a part.
    pub(crate) fn count_at(self, part: Part, key: &str) -> Option<u32> {
        match u32::try_from(self.value(part, key)?.as_integer()?) {
            Ok(count) => Some(count),
            Err(_) => None,
        }
    }

    /// Whether the value at a key of a part is true.
    pub(crate) fn flag_at(self, part: Part, key: &str) -> bool {
        match self.value(part, key) {
            Some(value) => value.as_bool().unwrap_or(false),
            None => false,
        }
    }

    /// The kind of the block with this number.
    pub(crate) fn kind_of(self, block: usize) -> Option<BlockKind> {
        kind_named(self.text_at(Part::Block(block), "kind")?)
    }

    /// The name of the block with this number, if its name is a text.
    pub(crate) fn name_of(self, block: usize) -> Option<&'t str> {
        self.text_at(Part::Block(block), "name")
    }

    /// Where a part begins.
    pub(crate) fn span_of(self, part: Part) -> Span {
        self.places.table(part).unwrap_or(Span::new(0, 0))
    }

    /// Where a key of a part stands, or where the part begins.
    pub(crate) fn key_span(self, part: Part, key: &str) -> Span {
        match self.places.key(part, key) {
            Some(span) => span,
            None => self.span_of(part),
        }
    }

    /// Where the value at a key of a part stands, or where the part begins.
    pub(crate) fn value_span(self, part: Part, key: &str) -> Span {
        match self.places.value(part, key) {
            Some(span) => span,
            None => self.span_of(part),
        }
    }

    /// Where an item of the array at a key of a part stands, or where the part begins.
    pub(crate) fn item_span(
        self,
        alloc: Global,
        part: Part,
        key: &str,
        item: usize,
    ) -> Result<Span, AllocError> {
        let value = self.value_span(part, key);
        let found = flow_spans::item_span(alloc, self.text, value, item)?;
        Ok(found.unwrap_or(value))
    }

    /// A part, as it is told.
    pub(crate) fn title(self, part: Part) -> Title<'t> {
        let name = match part {
            Part::Block(number) => self.name_of(number),
            Part::Top | Part::Link(_) => None,
        };
        Title { part, name }
    }
}

/// A part, as it is told: a block by its name too, unless that is long.
#[derive(Clone, Copy)]
pub(crate) struct Title<'t> {
    part: Part,
    name: Option<&'t str>,
}

impl fmt::Display for Title<'_> {
    fn fmt<W: fmt::Write>(&self, f: &mut fmt::Formatter<W>) -> fmt::Result {
        match self.part {
            Part::Top => f.write_str("the network"),
            Part::Block(number) => match self.name {
                Some(name) if name.len() <= 64 => write!(f, "block {number} {name:?}"),
                _ => write!(f, "block {number}"),
            },
            Part::Link(number) => write!(f, "link {number}"),
        }
    }
}
