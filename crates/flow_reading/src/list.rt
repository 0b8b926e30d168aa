//! Lists of values, as a report prints them.
ghost use Rattle.std.specs.Prelude.{◌≡◌, ℕ, ◌<◌, ◌≤◌, ◌++◌, length, IfSome};
ghost use Rattle.flow_reading.specs.Printed.{list_text};

use crate::token::{Token, first_token};

/// A list of values, as a piece of a report.
#[derive(Clone, Copy)]
pub struct PrintedList<'a> {
    text: &'a [u8],
    count: usize,
}

/// What a value is.
#[derive(Clone, Copy)]
pub enum ValueKind {
    /// An integer of 64 bits: digits, with `-` in front if it is negative.
    Int,
    /// A text between double quotes, with its escapes.
    Text,
    /// A list of values, which stands for one value.
    Row,
}

/// A value, as a piece of a report.
#[derive(Clone, Copy)]
pub struct PrintedValue<'a> {
    pub kind: ValueKind,
    /// What is printed of the value, with quotes or brackets.
    pub text: &'a [u8],
}

/// The values of a list, in order.
#[derive(Clone, Copy, Drop)]
pub struct PrintedValues<'a> {
    rest: &'a [u8],
}

/// What stands before a place in a list.
#[derive(Clone, Copy)]
enum Before {
    Nothing,
    Open,
    Comma,
    Value,
}

/// What is known of a list as far as it is read.
#[derive(Clone, Copy)]
struct Scan {
    before: Before,
    depth: usize,
    count: usize,
}

impl Scan {
    /// Goes on behind this token; none where it can't stand here.
    fn behind(self, token: Token) -> Option<Scan> {
        match token {
            Token::Open => self.behind_open(),
            Token::Close => self.behind_close(),
            Token::Comma => {
                if !self.takes_value() && self.depth > 0 {
                    Some(Scan {
                        before: Before::Comma,
                        ..self
                    })
                } else {
                    None
                }
            }
            Token::Int | Token::Text => {
                if self.takes_value() && self.depth > 0 {
                    Some(Scan {
                        before: Before::Value,
                        ..self.counted()
                    })
                } else {
                    None
                }
            }
        }
    }

    fn behind_open(self) -> Option<Scan> {
        if !self.takes_value() {
            return None;
        }
        let counted = self.counted();
        Some(Scan {
            before: Before::Open,
            depth: self.depth.saturating_add(1),
            ..counted
        })
    }

    fn behind_close(self) -> Option<Scan> {
        match self.before {
            Before::Open | Before::Value => Some(Scan {
                before: Before::Value,
                depth: self.depth.checked_sub(1)?,
                ..self
            }),
            Before::Nothing | Before::Comma => None,
        }
    }

    fn takes_value(self) -> bool {
        match self.before {
            Before::Nothing | Before::Open | Before::Comma => true,
            Before::Value => false,
        }
    }

    /// The same with one more value, if it stands in the list itself.
    fn counted(self) -> Scan {
        if self.depth == 1 {
            Scan {
                count: self.count.saturating_add(1),
                ..self
            }
        } else {
            self
        }
    }
}

/// The list that a text is; none where it is no list.
pub(crate) fn read_list(text: &[u8]) -> Option<PrintedList<'_>>
    ensures { IfSome result (λ list. list_text list ≡ text.now) }
{
    let mut scan = Scan {
        before: Before::Nothing,
        depth: 0,
        count: 0,
    };
    let mut rest = text;
    while let Some((token, len)) = first_token(rest) {
        scan = scan.behind(token)?;
        rest = &rest[len..];
    }
    if rest.is_empty() && !scan.takes_value() && scan.depth == 0 {
        Some(PrintedList {
            text,
            count: scan.count,
        })
    } else {
        None
    }
}

impl<'a> PrintedList<'a> {
    /// How many values the list has.
    pub fn len(&self) -> usize {
        self.count
    }

    pub fn is_empty(&self) -> bool {
        self.count == 0
    }

    /// What is printed of the list, with its brackets.
    pub fn text(&self) -> &'a [u8] {
        self.text
    }

    /// What is printed between the brackets: the values, with commas between them.
    pub fn inner(&self) -> &'a [u8] {
        match self.text {
            [_, inner @ .., _] => inner,
            _ => &[],
        }
    }

    /// The values, in order.
    pub fn items(&self) -> PrintedValues<'a> {
        PrintedValues { rest: self.inner() }
    }
}

impl<'a> PrintedValue<'a> {
    /// What stands between the quotes of a text, with its escapes, or between the brackets of a row; all of an integer.
    pub fn content(&self) -> &'a [u8] {
        match (self.kind, self.text) {
            (ValueKind::Text | ValueKind::Row, [_, content @ .., _]) => content,
            _ => self.text,
        }
    }

    /// The values of a row; none where this is no row.
    pub fn row(&self) -> Option<PrintedValues<'a>> {
        match self.kind {
            ValueKind::Row => Some(PrintedValues {
                rest: self.content(),
            }),
            ValueKind::Int | ValueKind::Text => None,
        }
    }
}

/// How many bytes the row has with which a text begins.
fn row_len(text: &[u8]) -> Option<usize>
    ensures { IfSome result (λ len. (0 < len) × (len ≤ length text.now)) }
{
    let mut depth = 0usize;
    let mut read = 0;
    while let Some((token, len)) = first_token(&text[read..]) {
        read += len;
        match token {
            Token::Open => depth = depth.saturating_add(1),
            Token::Close => depth = depth.saturating_sub(1),
            Token::Comma | Token::Int | Token::Text => {}
        }
        if depth == 0 {
            return Some(read);
        }
    }
    None
}

/// What the value is with which a text begins, and how many bytes it has.
fn first_extent(text: &[u8]) -> Option<(ValueKind, usize)>
    ensures { IfSome result (λ found. (0 < found.1) × (found.1 ≤ length text.now)) }
{
    let (token, len) = first_token(text)?;
    match token {
        Token::Int => Some((ValueKind::Int, len)),
        Token::Text => Some((ValueKind::Text, len)),
        Token::Open => Some((ValueKind::Row, row_len(text)?)),
        Token::Close | Token::Comma => None,
    }
}

/// The value with which a text begins, and the text behind it.
fn first_item(text: &[u8]) -> Option<(PrintedValue<'_>, &[u8])>
    ensures parts { IfSome result (λ found. text.now ≡ found.0.text.now ++ found.1.now) }
    ensures shorter { IfSome result (λ found. length found.1.now < length text.now) }
{
    let (kind, len) = first_extent(text)?;
    Some((
        PrintedValue {
            kind,
            text: &text[..len],
        },
        &text[len..],
    ))
}

impl<'a> Iterator for PrintedValues<'a> {
    ghost use Rattle.std.specs.Iterator.{at_most};

    type Item = PrintedValue<'a>;

    ghost remaining = { λ items. at_most (length items.rest.now) };

    fn next(&mut self) -> Option<PrintedValue<'a>> {
        let (item, rest) = first_item(self.rest)?;
        self.rest = match rest {
            [b',', others @ ..] => others,
            _ => rest,
        };
        Some(item)
    }
}
