//! The keys of a network's text, the types of their values, and what can be wrong with the keys of one table.
ghost use Rattle.std.specs.Prelude.{◌≡◌, map, option_map};
ghost use Rattle.toml.specs.View.{view, table_view, items_view};
ghost use Rattle.flow_plan_text.specs.Keys.{rules_of, kind_named, is_table, fits, knows, is_wrong, all_items, is_text};
ghost use Rattle.flow_plan_text.specs.Keys.{as_count, is_missed, is_misfit};
ghost use Rattle.flow_plan_text.specs.Passes.{is_wrong_in, section, tables_of};
ghost use Rattle.flow_plan_text.specs.Rules.{rule_of};
ghost use Rattle.toml.specs.Data.{get_member};

use flow_link::BlockKind;
use toml::{Table, Value};

/// A part of the text that has keys of its own.
#[derive(Clone, Copy)]
pub(super) enum Part {
    Top,
    Block,
    Link,
}

/// What the value at a key is to be.
#[derive(Clone, Copy)]
pub(super) enum Form {
    Boolean,
    Integer,
    /// An integer of 0 to 4,294,967,295.
    Count,
    Text,
    /// The word for a kind of block.
    Kind,
    /// An array of texts.
    Texts,
    /// An array of tables.
    Tables,
}

/// What can be wrong with the keys of a table.
#[derive(Clone, Copy)]
pub(super) enum Check {
    /// It has a key that its part does not know.
    UnknownKey,
    /// It lacks a key that its part requires.
    MissingKey,
    /// A value is not what its key wants.
    WrongType,
}

/// A key, and what its value is to be.
#[derive(Clone, Copy)]
struct Key {
    name: &'static str,
    form: Form,
    is_required: bool,
}

const TOP: &[Key] = &[
    Key {
        name: "format",
        form: Form::Integer,
        is_required: true,
    },
    Key {
        name: "block",
        form: Form::Tables,
        is_required: true,
    },
    Key {
        name: "link",
        form: Form::Tables,
        is_required: false,
    },
];

const BLOCK: &[Key] = &[
    Key {
        name: "name",
        form: Form::Text,
        is_required: true,
    },
    Key {
        name: "kind",
        form: Form::Kind,
        is_required: true,
    },
    Key {
        name: "input",
        form: Form::Boolean,
        is_required: false,
    },
    Key {
        name: "capacity",
        form: Form::Count,
        is_required: false,
    },
    Key {
        name: "work",
        form: Form::Texts,
        is_required: false,
    },
    Key {
        name: "lanes",
        form: Form::Count,
        is_required: false,
    },
    Key {
        name: "size",
        form: Form::Count,
        is_required: false,
    },
    Key {
        name: "ports",
        form: Form::Count,
        is_required: false,
    },
    Key {
        name: "greedy",
        form: Form::Boolean,
        is_required: false,
    },
];

const LINK: &[Key] = &[
    Key {
        name: "from",
        form: Form::Text,
        is_required: true,
    },
    Key {
        name: "to",
        form: Form::Text,
        is_required: true,
    },
    Key {
        name: "port",
        form: Form::Count,
        is_required: false,
    },
    Key {
        name: "when",
        form: Form::Text,
        is_required: false,
    },
    Key {
        name: "max",
        form: Form::Count,
        is_required: false,
    },
    Key {
        name: "propagate",
        form: Form::Boolean,
        is_required: false,
    },
];

impl Part {
    /// The keys that this part has.
    fn keys(self) -> &'static [Key]
        ensures { map rule_of result.now ≡ rules_of self }
    {
        match self {
            Part::Top => TOP,
            Part::Block => BLOCK,
            Part::Link => LINK,
        }
    }
}

/// The kind that a word names.
pub(super) fn kind_of(word: &str) -> Option<BlockKind>
    ensures { result ≡ kind_named word.now }
{
    match word {
        "buffer" => Some(BlockKind::Buffer),
        "broadcast" => Some(BlockKind::Broadcast),
        "write_once" => Some(BlockKind::WriteOnce),
        "action" => Some(BlockKind::Action),
        "transform" => Some(BlockKind::Transform),
        "transform_many" => Some(BlockKind::TransformMany),
        "batch" => Some(BlockKind::Batch),
        "join" => Some(BlockKind::Join),
        "batched_join" => Some(BlockKind::BatchedJoin),
        _ => None,
    }
}

/// The count that a value is.
pub(super) fn count_of(value: &Value) -> Option<u32>
    ensures { result ≡ as_count (view value.now) }
{
    match u32::try_from(value.as_integer()?) {
        Ok(count) => Some(count),
        Err(_) => None,
    }
}

impl Form {
    /// Whether the value is of this form.
    fn fits(self, value: &Value) -> bool
        ensures { result ≡ fits self (view value.now) }
    {
        match self {
            Form::Boolean => value.is_bool(),
            Form::Integer => value.is_integer(),
            Form::Count => count_of(value).is_some(),
            Form::Text => value.is_str(),
            Form::Kind => match value.as_str() {
                Some(word) => kind_of(word).is_some(),
                None => false,
            },
            Form::Texts => match value.as_array() {
                Some(items) => are_texts(items.as_slice()),
                None => false,
            },
            Form::Tables => match value.as_array() {
                Some(items) => are_tables(items.as_slice()),
                None => false,
            },
        }
    }
}

fn are_texts(items: &[Value]) -> bool
    ensures { result ≡ all_items is_text (items_view items.now) }
{
    items.iter().all(|item| item.is_str())
}

fn are_tables(items: &[Value]) -> bool
    ensures { result ≡ all_items is_table (items_view items.now) }
{
    items.iter().all(|item| item.is_table())
}

impl Check {
    /// Whether this is wrong with the table.
    pub(super) fn fails(self, part: Part, table: &Table) -> bool
        ensures { result ≡ is_wrong self part (table_view table.now) }
    {
        match self {
            Check::UnknownKey => part.has_unknown(table),
            Check::MissingKey => part.has_missed(table),
            Check::WrongType => part.has_misfit(table),
        }
    }

    /// Whether this is wrong with the table that the value is.
    pub(super) fn fails_in(self, part: Part, value: &Value) -> bool
        ensures { result ≡ is_wrong_in self part (view value.now) }
    {
        match value.as_table() {
            Some(table) => self.fails(part, table),
            None => false,
        }
    }
}

impl Part {
    fn has_unknown(self, table: &Table) -> bool
        ensures { result ≡ is_wrong Check.UnknownKey self (table_view table.now) }
    {
        table.keys().any(|key| !self.knows(key.as_str()))
    }

    fn has_missed(self, table: &Table) -> bool
        ensures { result ≡ is_wrong Check.MissingKey self (table_view table.now) }
    {
        self.keys().iter().any(|key| key.is_missed(table))
    }

    fn has_misfit(self, table: &Table) -> bool
        ensures { result ≡ is_wrong Check.WrongType self (table_view table.now) }
    {
        self.keys().iter().any(|key| key.is_misfit(table))
    }

    fn knows(self, name: &str) -> bool
        ensures { result ≡ knows self name.now }
    {
        self.keys().iter().any(|key| key.name == name)
    }
}

impl Key {
    /// Whether the table lacks the key and it is required.
    fn is_missed(&self, table: &Table) -> bool
        ensures { result ≡ is_missed (table_view table.now) (rule_of self.now) }
    {
        self.is_required && table.get(self.name).is_none()
    }

    /// Whether the value at the key is not of its form.
    fn is_misfit(&self, table: &Table) -> bool
        ensures { result ≡ is_misfit (table_view table.now) (rule_of self.now) }
    {
        match table.get(self.name) {
            Some(value) => !self.form.fits(value),
            None => false,
        }
    }
}

/// The value at a key.
pub(super) fn value_at<'a>(table: &'a Table, key: &str) -> Option<&'a Value>
    ensures { option_map (λ value. view value.now) result ≡ get_member key.now (table_view table.now) }
{
    table.get(key)
}

/// The tables at a key: none where there is no array of tables.
pub(super) fn section<'a>(top: &'a Table, key: &str) -> &'a [Value]
    ensures { items_view result.now ≡ section key.now (table_view top.now) }
{
    match value_at(top, key) {
        Some(value) => tables_of(value),
        None => &[],
    }
}

fn tables_of(value: &Value) -> &[Value]
    ensures { items_view result.now ≡ tables_of (view value.now) }
{
    match value.as_array() {
        Some(items) if are_tables(items.as_slice()) => items.as_slice(),
        _ => &[],
    }
}
