//! What is drawn, part by part.

/// A block or a link as it is drawn.
#[derive(Clone, Copy)]
pub struct Drawn<'a> {
    /// The block, with a star behind it where it is an input, or the block that a link comes from.
    pub first: &'a str,
    /// The kind with its function, or the block that a link leads to.
    pub second: &'a str,
    /// Whether it is a link, and then whether it propagates.
    pub link: Option<bool>,
    /// What stands behind, in pairs of a word and its value.
    pub options: &'a str,
}

/// The first word of a text, and what stands behind it.
pub fn split_word(text: &str) -> (&str, &str) {
    text.split_once(" ").unwrap_or((text, ""))
}

/// The kind of a block with its function, if it has one, or the sign of a link; and what stands behind it.
fn split_kind(text: &str) -> (&str, &str) {
    match text.split_once(")") {
        Some((kind, options)) => (kind, options.strip_prefix(" ").unwrap_or(options)),
        None => split_word(text),
    }
}

/// The block or the link that is drawn so.
pub fn read_drawn(text: &str) -> Drawn<'_> {
    let (first, others) = split_word(text);
    let (second, options) = split_kind(others);
    let (target, behind) = split_word(options);
    match second {
        "=>" => Drawn {
            first,
            second: target,
            link: Some(true),
            options: behind,
        },
        "->" => Drawn {
            first,
            second: target,
            link: Some(false),
            options: behind,
        },
        _ => Drawn {
            first,
            second,
            link: None,
            options,
        },
    }
}

impl Drawn<'_> {
    /// The value of an option.
    pub(crate) fn option(&self, word: &str) -> Option<&str> {
        let mut rest = self.options;
        for _ in 0..self.options.len() {
            let (key, others) = split_word(rest);
            let (value, behind) = split_word(others);
            if key == word {
                return Some(value);
            }
            rest = behind;
        }
        None
    }

    /// The number of an option.
    pub(crate) fn number(&self, word: &str) -> Option<u32> {
        self.option(word)?.parse::<u32>().ok()
    }

    /// The word of the kind, and the steps of its function if it has one, between which a plus sign stands.
    pub fn kind_and_work(&self) -> (&str, Option<&str>) {
        match self.second.split_once("(") {
            Some((kind, work)) => (kind, Some(work)),
            None => (self.second, None),
        }
    }

    /// The name of the block, and whether it is an input.
    pub fn name(&self) -> (&str, bool) {
        match self.first.strip_suffix("*") {
            Some(name) => (name, true),
            None => (self.first, false),
        }
    }
}
