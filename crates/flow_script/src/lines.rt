//! Lines of scripts, and the words in them.

use flow_drawn::split_word;
use flow_link::Ending;

/// A line: its words, and what it has to answer, if that is stated.
#[derive(Clone, Copy)]
pub(crate) struct Line<'a> {
    /// All words.
    pub(crate) words: &'a str,
    /// The first one, and what stands behind it.
    pub(crate) word: &'a str,
    pub(crate) behind: &'a str,
    /// Of what stands behind it, the first word, and the others.
    pub(crate) name: &'a str,
    pub(crate) rest: &'a str,
    pub(crate) wanted: Option<&'a str>,
}

/// The line that is written so.
pub(crate) fn read_line(text: &str) -> Line<'_> {
    let (words, wanted) = match text.split_once(" : ") {
        Some((words, wanted)) => (words, Some(wanted)),
        None => (text, None),
    };
    let (word, behind) = split_word(words);
    let (name, rest) = split_word(behind);
    Line {
        words,
        word,
        behind,
        name,
        rest,
        wanted,
    }
}

/// Whether one of these texts, between which ` | ` stands, is this one.
pub(crate) fn is_one_of(texts: &str, text: &str) -> bool {
    for other in texts.split(" | ") {
        if other == text {
            return true;
        }
    }
    false
}

/// The number that a word is, or this one where there is no word.
pub(crate) fn number_or(word: &str, number: u64) -> Option<u64> {
    if word.is_empty() {
        Some(number)
    } else {
        word.parse::<u64>().ok()
    }
}

/// How an input ends, by these words.
pub(crate) fn ending_of(words: &str) -> Option<Ending> {
    match words {
        "open" => Some(Ending::Open),
        "complete" => Some(Ending::Complete),
        _ => match words.strip_prefix("fault ") {
            Some(digits) => digits.parse::<u32>().ok().map(Ending::Fault),
            None => None,
        },
    }
}
