//! Which options each kind of block has, and their ranges, as they are told.
use flow_link::{BlockKind, OptionRule};

/// The options of a block, by their keys.
pub(crate) const OPTIONS: &[&str] = &[
    "input", "capacity", "work", "lanes", "size", "ports", "greedy",
];

/// Whether a block of this kind may have this option.
pub(crate) fn allows(kind: BlockKind, option: &str) -> bool {
    rule_of(kind, option).allows(true)
}

/// The first option that each block of this kind needs, if there is one.
pub(crate) fn needed(kind: BlockKind) -> Option<&'static str> {
    for option in OPTIONS {
        if !rule_of(kind, option).allows(false) {
            return Some(*option);
        }
    }
    None
}

/// The rule that blocks of this kind have for an option.
fn rule_of(kind: BlockKind, option: &str) -> OptionRule {
    let rules = kind.options();
    match option {
        "input" => rules.input,
        "capacity" => rules.capacity,
        "work" => rules.work,
        "lanes" => rules.lanes,
        "size" => rules.size,
        "ports" => rules.ports,
        "greedy" => rules.greedy,
        _ => OptionRule::Forbidden,
    }
}

/// The least and the greatest value of a number that is an option.
pub(crate) fn range_of(option: &str) -> Option<(u32, u32)> {
    match option {
        "capacity" | "max" => Some((1, 2_147_483_647)),
        "lanes" => Some((1, 16)),
        "size" => Some((1, 4_096)),
        "ports" => Some((2, 3)),
        _ => None,
    }
}

/// Whether a text is a name of a block.
pub(crate) fn is_name(name: &str) -> bool {
    for byte in name.bytes() {
        if !is_name_byte(byte) {
            return false;
        }
    }
    !name.is_empty() && name.len() <= 64
}

fn is_name_byte(byte: u8) -> bool {
    byte.is_ascii_alphanumeric() || byte == b'_' || byte == b'-' || byte == b'.'
}
