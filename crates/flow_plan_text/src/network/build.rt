//! Makes the blocks and links of a draft out of tables whose keys are as they should be.
ghost use Rattle.std.specs.Prelude.{◌≡◌, Some, true, map, option_map, is_some, IfOk, MatchResult};
ghost use Rattle.toml.specs.Data.{as_table};
ghost use Rattle.toml.specs.View.{view, table_view, items_view};
ghost use Rattle.flow_plan_text.specs.Keys.{all_items};
ghost use Rattle.flow_plan_text.specs.Read.{text_at, kind_at, flag_at, choice_at, count_at, texts_of, texts, IsWork, IsWhen};
ghost use Rattle.flow_plan_text.specs.Read.{IsBlock, IsLink, AreEach, is_sound, is_sound_in};
ghost use Rattle.flow_plan_text.specs.Built.{IsWorkRefusal, IsWhenRefusal, IsBlocksRefusal, IsLinksRefusal};

use super::keys::{Part, count_of, kind_of, value_at};
use flow_fault_text::{TextFault, TextPlace, TextRefusal};
use flow_link::{BlockDef, BlockKind, LinkDef};
use flow_value::{Steps, StepsError, Text, When};
use std::alloc::{AllocError, Global};
use toml::{Table, Value};

/// The blocks that these tables are.
pub(super) fn blocks(alloc: Global, tables: &[Value]) -> Result<Vec<BlockDef<Steps>>, TextRefusal>
    requires { all_items (is_sound_in Part.Block) (items_view tables.now) ≡ true }
    ensures { MatchResult result
        (λ blocks. AreEach IsBlock (items_view tables.now) blocks.items)
        (IsBlocksRefusal tables.now) }
{
    let mut blocks = Vec::new(alloc);
    for (number, value) in tables.iter().enumerate() {
        let table = table_of(value);
        let block = block(alloc, table, TextPlace::Block(number))?;
        blocks.push(block)?;
    }
    Ok(blocks)
}

/// The links that these tables are.
pub(super) fn links(alloc: Global, tables: &[Value]) -> Result<Vec<LinkDef>, TextRefusal>
    requires { all_items (is_sound_in Part.Link) (items_view tables.now) ≡ true }
    ensures { MatchResult result
        (λ links. AreEach IsLink (items_view tables.now) links.items)
        (IsLinksRefusal tables.now) }
{
    let mut links = Vec::new(alloc);
    for (number, value) in tables.iter().enumerate() {
        let table = table_of(value);
        let link = link(alloc, table, TextPlace::Link(number))?;
        links.push(link)?;
    }
    Ok(links)
}

/// The table that a value is.
fn table_of(value: &Value) -> &Table
    requires { is_some (as_table (view value.now)) ≡ true }
    ensures { as_table (view value.now) ≡ Some (table_view result.now) }
{
    match value.as_table() {
        Some(table) => table,
        None => unreachable!(),
    }
}

fn block(alloc: Global, table: &Table, place: TextPlace) -> Result<BlockDef<Steps>, TextRefusal>
    requires { is_sound Part.Block (table_view table.now) ≡ true }
    ensures { MatchResult result (IsBlock (table_view table.now)) (IsWorkRefusal (table_view table.now) place) }
{
    let work = work(alloc, table, place)?;
    Ok(BlockDef {
        name: Text::from_str(alloc, text(table, "name"))?,
        kind: kind(table),
        input: flag(table, "input"),
        output: false,
        capacity: count(table, "capacity"),
        work,
        lanes: count(table, "lanes"),
        size: count(table, "size"),
        ports: count(table, "ports"),
        greedy: choice(table, "greedy"),
    })
}

fn link(alloc: Global, table: &Table, place: TextPlace) -> Result<LinkDef, TextRefusal>
    requires { is_sound Part.Link (table_view table.now) ≡ true }
    ensures { MatchResult result (IsLink (table_view table.now)) (IsWhenRefusal (table_view table.now) place) }
{
    let when = when(table, place)?;
    Ok(LinkDef {
        from: Text::from_str(alloc, text(table, "from"))?,
        to: Text::from_str(alloc, text(table, "to"))?,
        port: count(table, "port"),
        when,
        max: count(table, "max"),
        propagate: flag(table, "propagate"),
    })
}

/// The text at a key that is required.
fn text<'a>(table: &'a Table, key: &str) -> &'a str
    requires { is_some (text_at key.now (table_view table.now)) ≡ true }
    ensures { text_at key.now (table_view table.now) ≡ Some result.now }
{
    match text_or_none(table, key) {
        Some(text) => text,
        None => unreachable!(),
    }
}

fn text_or_none<'a>(table: &'a Table, key: &str) -> Option<&'a str>
    ensures { option_map (λ text. text.now) result ≡ text_at key.now (table_view table.now) }
{
    match value_at(table, key) {
        Some(value) => value.as_str(),
        None => None,
    }
}

fn kind(table: &Table) -> BlockKind
    requires { is_some (kind_at (table_view table.now)) ≡ true }
    ensures { kind_at (table_view table.now) ≡ Some result }
{
    match text_or_none(table, "kind") {
        Some(word) => match kind_of(word) {
            Some(kind) => kind,
            None => unreachable!(),
        },
        None => unreachable!(),
    }
}

/// Whether the value at a key is true.
fn flag(table: &Table, key: &str) -> bool
    ensures { result ≡ flag_at key.now (table_view table.now) }
{
    choice(table, key).unwrap_or(false)
}

/// The boolean at a key, if it is there.
fn choice(table: &Table, key: &str) -> Option<bool>
    ensures { result ≡ choice_at key.now (table_view table.now) }
{
    match value_at(table, key) {
        Some(value) => value.as_bool(),
        None => None,
    }
}

/// The count at a key, if it is there.
fn count(table: &Table, key: &str) -> Option<u32>
    ensures { result ≡ count_at key.now (table_view table.now) }
{
    match value_at(table, key) {
        Some(value) => count_of(value),
        None => None,
    }
}

/// The predicate at the key `when`, if it is there.
fn when(table: &Table, place: TextPlace) -> Result<Option<When>, TextRefusal>
    ensures { MatchResult result (IsWhen (table_view table.now)) (IsWhenRefusal (table_view table.now) place) }
{
    let Some(text) = text_or_none(table, "when") else {
        return Ok(None);
    };
    match When::read(text) {
        Some(when) => Ok(Some(when)),
        None => Err(TextRefusal::Fault(TextFault::BadWhen(place))),
    }
}

/// The function at the key `work`, if it is there.
fn work(alloc: Global, table: &Table, place: TextPlace) -> Result<Option<Steps>, TextRefusal>
    ensures { MatchResult result (IsWork (table_view table.now)) (IsWorkRefusal (table_view table.now) place) }
{
    let Some(value) = value_at(table, "work") else {
        return Ok(None);
    };
    let texts = texts_of(alloc, value)?;
    match Steps::read(alloc, texts.as_slice()) {
        Ok(steps) => Ok(Some(steps)),
        Err(StepsError::BadStep(_)) => Err(TextRefusal::Fault(TextFault::BadWork(place))),
        Err(StepsError::Memory) => Err(TextRefusal::Memory),
    }
}

fn texts_of(alloc: Global, value: &Value) -> Result<Vec<&str>, AllocError>
    ensures { IfOk result (λ all. map (λ text. text.now) all.items ≡ texts_of (view value.now)) }
{
    match value.as_array() {
        Some(items) => texts_among(alloc, items.as_slice()),
        None => Ok(Vec::new(alloc)),
    }
}

fn texts_among(alloc: Global, items: &[Value]) -> Result<Vec<&str>, AllocError>
    ensures { IfOk result (λ all. map (λ text. text.now) all.items ≡ texts (items_view items.now)) }
{
    let mut all = Vec::new(alloc);
    for item in items {
        if let Some(text) = item.as_str() {
            all.push(text)?;
        }
    }
    Ok(all)
}
