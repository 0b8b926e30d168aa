//! The keys of a network's text, and the words for kinds of block.
use flow_fault_text::TextPlace;
use flow_link::BlockKind;
use flow_spans::Part;

/// What the value at a key is to be.
#[derive(Clone, Copy)]
pub(crate) enum Form {
    Boolean,
    Integer,
    /// An integer of 0 to 4,294,967,295.
    Count,
    Text,
    /// The word for a kind of block.
    Kind,
    Texts,
    Tables,
}

/// A key, what its value is to be, and whether each such part has to have it.
#[derive(Clone, Copy)]
pub(crate) struct Key {
    pub(crate) name: &'static str,
    pub(crate) form: Form,
    pub(crate) is_required: bool,
}

macro_rules! key {
    ($name:literal, $form:ident) => {
        Key {
            name: $name,
            form: Form::$form,
            is_required: false,
        }
    };
    ($name:literal, $form:ident, required) => {
        Key {
            name: $name,
            form: Form::$form,
            is_required: true,
        }
    };
}

const TOP: &[Key] = &[
    key!("format", Integer, required),
    key!("block", Tables, required),
    key!("link", Tables),
];

const BLOCK: &[Key] = &[
    key!("name", Text, required),
    key!("kind", Kind, required),
    key!("input", Boolean),
    key!("capacity", Count),
    key!("work", Texts),
    key!("lanes", Count),
    key!("size", Count),
    key!("ports", Count),
    key!("greedy", Boolean),
];

const LINK: &[Key] = &[
    key!("from", Text, required),
    key!("to", Text, required),
    key!("port", Count),
    key!("when", Text),
    key!("max", Count),
    key!("propagate", Boolean),
];

const TOP_NAMES: &[&str] = &["format", "block", "link"];

const BLOCK_NAMES: &[&str] = &[
    "name", "kind", "input", "capacity", "work", "lanes", "size", "ports", "greedy",
];

const LINK_NAMES: &[&str] = &["from", "to", "port", "when", "max", "propagate"];

/// The words for the kinds of block.
pub(crate) const KINDS: &[&str] = &[
    "buffer",
    "broadcast",
    "write_once",
    "action",
    "transform",
    "transform_many",
    "batch",
    "join",
    "batched_join",
];

/// The keys that a part may have.
pub(crate) fn keys_of(part: Part) -> &'static [Key] {
    match part {
        Part::Top => TOP,
        Part::Block(_) => BLOCK,
        Part::Link(_) => LINK,
    }
}

/// The names of the keys that a part may have.
pub(crate) fn key_names(part: Part) -> &'static [&'static str] {
    match part {
        Part::Top => TOP_NAMES,
        Part::Block(_) => BLOCK_NAMES,
        Part::Link(_) => LINK_NAMES,
    }
}

/// Whether a part may have this key.
pub(crate) fn knows(part: Part, key: &str) -> bool {
    key_names(part).contains(&key)
}

/// The word for all parts of a sort.
pub(crate) fn plural(part: Part) -> &'static str {
    match part {
        Part::Top => "networks",
        Part::Block(_) => "blocks",
        Part::Link(_) => "links",
    }
}

/// The kind that a word names.
pub(crate) fn kind_named(word: &str) -> Option<BlockKind> {
    match word {
        "buffer" => Some(BlockKind::Buffer),
        "broadcast" => Some(BlockKind::Broadcast),
        "write_once" => Some(BlockKind::WriteOnce),
        "action" => Some(BlockKind::Action),
        "transform" => Some(BlockKind::Transform),
        "transform_many" => Some(BlockKind::TransformMany),
        "batch" => Some(BlockKind::Batch),
        "join" => Some(BlockKind::Join),
        "batched_join" => Some(BlockKind::BatchedJoin),
        _ => None,
    }
}

/// The word for a kind, as it is told of one block.
pub(crate) fn kind_word(kind: BlockKind) -> &'static str {
    match kind {
        BlockKind::Buffer => "a buffer",
        BlockKind::Broadcast => "a broadcast",
        BlockKind::WriteOnce => "a write_once block",
        BlockKind::Action => "an action",
        BlockKind::Transform => "a transform",
        BlockKind::TransformMany => "a transform_many block",
        BlockKind::Batch => "a batch",
        BlockKind::Join => "a join",
        BlockKind::BatchedJoin => "a batched_join",
    }
}

/// The place of a fault that stands at a part.
pub(crate) fn place_of(part: Part) -> TextPlace {
    match part {
        Part::Top => TextPlace::Top,
        Part::Block(number) => TextPlace::Block(number),
        Part::Link(number) => TextPlace::Link(number),
    }
}

/// The part at which a fault stands.
pub(crate) fn part_at(place: TextPlace) -> Part {
    match place {
        TextPlace::Top => Part::Top,
        TextPlace::Block(number) => Part::Block(number),
        TextPlace::Link(number) => Part::Link(number),
    }
}
