//! What is found of a network's text, to be looked up.
ghost use Rattle.std.specs.Prelude.{OnOk};

use crate::span::Span;
use std::alloc::{AllocError, Global};

/// A part of a network's text that has keys of its own.
#[derive(Clone, Copy, PartialEq, Eq)]
pub enum Part {
    /// The text outside its blocks and links.
    Top,
    /// This block, from 0.
    Block(usize),
    /// This link, from 0.
    Link(usize),
}

// Where the table of a block or a link begins.
#[derive(Drop)]
struct TablePlace {
    part: Part,
    span: Span,
}

// Where a key of a part stands, and its value.
#[derive(Drop)]
struct KeyPlace {
    part: Part,
    key: String,
    name: Span,
    value: Span,
}

/// Where the tables, keys and values of a network's text stand.
#[derive(Drop)]
pub struct Places {
    tables: Vec<TablePlace>,
    keys: Vec<KeyPlace>,
}

impl Places {
    /// No places.
    pub(crate) fn new(alloc: Global) -> Places {
        Places {
            tables: Vec::new(alloc),
            keys: Vec::new(alloc),
        }
    }

    pub(crate) fn add_table(&mut self, part: Part, span: Span) -> Result<(), AllocError> {
        self.tables.push(TablePlace { part, span })?;
        Ok(())
    }

    pub(crate) fn add_key(
        &mut self,
        part: Part,
        key: String,
        name: Span,
        value: Span,
    ) -> Result<(), AllocError> {
        self.keys.push(KeyPlace {
            part,
            key,
            name,
            value,
        })?;
        Ok(())
    }

    fn place(&self, part: Part, key: &str) -> Option<&KeyPlace> {
        for place in &self.keys {
            if place.part == part && place.key.as_str() == key {
                return Some(place);
            }
        }
        None
    }

    /// Where the table of a block or a link begins: its header, or the whole table where it stands on one line.
    pub fn table(&self, part: Part) -> Option<Span> {
        for table in &self.tables {
            if table.part == part {
                return Some(table.span);
            }
        }
        None
    }

    /// Where a part has this key.
    pub fn key(&self, part: Part, key: &str) -> Option<Span> {
        match self.place(part, key) {
            Some(place) => Some(place.name),
            None => None,
        }
    }

    /// Where the value of a part's key stands.
    pub fn value(&self, part: Part, key: &str) -> Option<Span> {
        match self.place(part, key) {
            Some(place) => Some(place.value),
            None => None,
        }
    }
}
