//! Goes over the text of a network, and keeps where its tables, keys and values stand.
use crate::cursor::{Cursor, FoundKey};
use crate::places::{Part, Places};
use crate::span::Span;
use std::alloc::{AllocError, Global};
use toml_parser::Key;

// Whose keys are defined by the lines that follow a header.
#[derive(Clone, Copy)]
enum Owner {
    Part(Part),
    // A table inside a part: its keys are no keys of the part.
    Inner,
}

// The two arrays of tables of a network.
#[derive(Clone, Copy)]
enum List {
    Blocks,
    Links,
}

impl List {
    fn named(key: &str) -> Option<List> {
        match key {
            "block" => Some(List::Blocks),
            "link" => Some(List::Links),
            _ => None,
        }
    }

    fn part(self, number: usize) -> Part {
        match self {
            List::Blocks => Part::Block(number),
            List::Links => Part::Link(number),
        }
    }
}

// A header: its key, and whether it is one of an array of tables.
#[derive(Drop)]
struct Header<'t> {
    found: FoundKey<'t>,
    is_array: bool,
    behind: Cursor<'t>,
}

// A key, its value, where the value begins, and the place behind it.
#[derive(Drop)]
struct Pair<'t> {
    found: FoundKey<'t>,
    value: Span,
    start: Cursor<'t>,
    behind: Cursor<'t>,
}

// What was found so far.
#[derive(Drop)]
struct Walk {
    places: Places,
    owner: Owner,
    blocks: usize,
    links: usize,
}

/// Where the tables, keys and values of this text stand, up to where it is no TOML.
pub fn places_in(alloc: Global, text: &str) -> Result<Places, AllocError> {
    let mut walk = Walk::new(alloc);
    let mut here = Cursor::new(text, 0);
    if here.starts_with("\u{feff}") {
        here = here.plus(3);
    }
    for _ in 0..text.len() {
        here = here.after_blank();
        match walk.take_line(alloc, here)? {
            Some(behind) => here = behind,
            None => break,
        }
    }
    Ok(walk.places)
}

/// Where the item with this number stands in the array that this range of a text is.
pub fn item_span(
    alloc: Global,
    text: &str,
    array: Span,
    number: usize,
) -> Result<Option<Span>, AllocError> {
    let Some(mut here) = Cursor::new(text, array.start).after_byte(b'[') else {
        return Ok(None);
    };
    for at in 0..text.len() {
        let Some((item, behind)) = next_item(alloc, here)? else {
            return Ok(None);
        };
        if at == number {
            return Ok(Some(item));
        }
        here = behind;
    }
    Ok(None)
}

// The next item of an array, and the place behind it and its comma.
fn next_item<'t>(
    alloc: Global,
    here: Cursor<'t>,
) -> Result<Option<(Span, Cursor<'t>)>, AllocError> {
    let start = here.after_blank();
    let Some(end) = start.after_value(alloc)? else {
        return Ok(None);
    };
    Ok(Some((start.span_to(end), after_comma(end))))
}

// Behind the comma that comes next, or before what comes in its place.
fn after_comma(here: Cursor<'_>) -> Cursor<'_> {
    let here = here.after_blank();
    match here.after_byte(b',') {
        Some(behind) => behind,
        None => here,
    }
}

// The key and the value here.
fn read_pair<'t>(alloc: Global, here: Cursor<'t>) -> Result<Option<Pair<'t>>, AllocError> {
    let Some(found) = here.key(alloc)? else {
        return Ok(None);
    };
    let Some(start) = found.behind.after_byte(b'=') else {
        return Ok(None);
    };
    match start.after_value(alloc)? {
        Some(behind) => Ok(Some(Pair {
            found,
            value: start.span_to(behind),
            start,
            behind,
        })),
        None => Ok(None),
    }
}

// The header here, and the place behind it.
fn read_header<'t>(alloc: Global, here: Cursor<'t>) -> Result<Option<Header<'t>>, AllocError> {
    let is_array = here.starts_with("[[");
    let start = here.plus(if is_array { 2 } else { 1 }).after_space();
    let Some(found) = start.key(alloc)? else {
        return Ok(None);
    };
    let behind = found.behind.plus(if is_array { 2 } else { 1 });
    Ok(Some(Header {
        found,
        is_array,
        behind,
    }))
}

// The first part of a key.
fn first_part(key: Key) -> String {
    let Key { path, last } = key;
    match path.into_iter().next() {
        Some(first) => first,
        None => last,
    }
}

// The second part of a key, if it has two.
fn second_part(key: Key) -> Option<String> {
    let Key { path, last } = key;
    let mut parts = path.into_iter();
    parts.next()?;
    match parts.next() {
        Some(second) => Some(second),
        None => Some(last),
    }
}

impl Walk {
    fn new(alloc: Global) -> Walk {
        Walk {
            places: Places::new(alloc),
            owner: Owner::Part(Part::Top),
            blocks: 0,
            links: 0,
        }
    }

    // Takes the header or the pair here, and answers the place behind it; nothing where there is neither.
    fn take_line<'t>(
        &mut self,
        alloc: Global,
        here: Cursor<'t>,
    ) -> Result<Option<Cursor<'t>>, AllocError> {
        if here.byte() == b'[' {
            let Some(header) = read_header(alloc, here)? else {
                return Ok(None);
            };
            let behind = header.behind;
            self.take_header(header, here.span_to(behind))?;
            Ok(Some(behind))
        } else {
            let Some(pair) = read_pair(alloc, here)? else {
                return Ok(None);
            };
            let behind = pair.behind;
            self.take_pair(alloc, pair)?;
            Ok(Some(behind))
        }
    }

    fn count(&mut self, list: List) -> &mut usize {
        match list {
            List::Blocks => &mut self.blocks,
            List::Links => &mut self.links,
        }
    }

    // The last table of an array of tables that has begun.
    fn last_part(&self, list: List) -> Option<Part> {
        let count = match list {
            List::Blocks => self.blocks,
            List::Links => self.links,
        };
        match count.checked_sub(1) {
            Some(last) => Some(list.part(last)),
            None => None,
        }
    }

    fn begin_part(&mut self, list: List, span: Span) -> Result<Part, AllocError> {
        let count = self.count(list);
        let part = list.part(*count);
        *count = count.saturating_add(1);
        self.places.add_table(part, span)?;
        Ok(part)
    }

    fn take_header(&mut self, header: Header<'_>, span: Span) -> Result<(), AllocError> {
        let FoundKey {
            key,
            span: name,
            ..
        } = header.found;
        let list = List::named(key.path.first().unwrap_or(&key.last).as_str());
        if key.path.is_empty() && header.is_array {
            if let Some(list) = list {
                self.owner = Owner::Part(self.begin_part(list, span)?);
                return Ok(());
            }
        }
        self.owner = Owner::Inner;
        let part = match list {
            Some(list) => self.last_part(list),
            None => None,
        };
        match part {
            Some(part) => match second_part(key) {
                Some(second) => self.places.add_key(part, second, name, span),
                None => Ok(()),
            },
            None => self.places.add_key(Part::Top, first_part(key), name, span),
        }
    }

    fn take_pair(&mut self, alloc: Global, pair: Pair<'_>) -> Result<(), AllocError> {
        let Owner::Part(part) = self.owner else {
            return Ok(());
        };
        let Pair {
            found,
            value,
            start,
            ..
        } = pair;
        let FoundKey { key, span, .. } = found;
        if part == Part::Top && key.path.is_empty() {
            if let Some(list) = List::named(key.last.as_str()) {
                self.take_tables(alloc, list, start)?;
            }
        }
        self.places.add_key(part, first_part(key), span, value)
    }

    // Takes the tables of the array here, if one is here.
    fn take_tables(
        &mut self,
        alloc: Global,
        list: List,
        start: Cursor<'_>,
    ) -> Result<(), AllocError> {
        let Some(mut here) = start.after_byte(b'[') else {
            return Ok(());
        };
        for _ in 0..start.left() {
            let Some((item, behind)) = next_item(alloc, here)? else {
                return Ok(());
            };
            let part = self.begin_part(list, item)?;
            self.take_members(alloc, part, here.after_blank())?;
            here = behind;
        }
        Ok(())
    }

    // Takes the pairs of the table in braces here, if one is here.
    fn take_members(
        &mut self,
        alloc: Global,
        part: Part,
        start: Cursor<'_>,
    ) -> Result<(), AllocError> {
        let Some(mut here) = start.after_byte(b'{') else {
            return Ok(());
        };
        for _ in 0..start.left() {
            let Some(pair) = read_pair(alloc, here.after_blank())? else {
                return Ok(());
            };
            let Pair {
                found,
                value,
                behind,
                ..
            } = pair;
            let FoundKey { key, span, .. } = found;
            self.places.add_key(part, first_part(key), span, value)?;
            here = after_comma(behind);
        }
        Ok(())
    }
}
