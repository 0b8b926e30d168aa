//! Which messages a link admits.
use flow_reading::{PrintedValue, ValueKind};
use std::fmt;

/// The predicate of a link; but for `Any` it admits numbers alone.
#[derive(Clone, Copy)]
pub enum Admits {
    Any,
    Even,
    Odd,
    /// A number below this one.
    Below(i64),
    /// A number that is at least this one.
    AtLeast(i64),
    /// This number.
    Only(i64),
}

impl Admits {
    /// Whether a printed value is admitted.
    pub fn admits(self, value: PrintedValue) -> bool {
        match self {
            Admits::Any => true,
            _ => match number_of(value) {
                Some(number) => self.admits_number(number),
                None => false,
            },
        }
    }

    fn admits_number(self, number: i64) -> bool {
        match self {
            Admits::Any => true,
            Admits::Even => number % 2 == 0,
            Admits::Odd => number % 2 != 0,
            Admits::Below(bound) => number < bound,
            Admits::AtLeast(bound) => number >= bound,
            Admits::Only(bound) => number == bound,
        }
    }
}

fn number_of(value: PrintedValue) -> Option<i64> {
    match value.kind {
        ValueKind::Int => str::from_utf8(value.text).ok()?.parse::<i64>().ok(),
        ValueKind::Text | ValueKind::Row => None,
    }
}

impl fmt::Display for Admits {
    fn fmt<W: fmt::Write>(&self, f: &mut fmt::Formatter<W>) -> fmt::Result {
        match *self {
            Admits::Any => f.write_str("any"),
            Admits::Even => f.write_str("even"),
            Admits::Odd => f.write_str("odd"),
            Admits::Below(bound) => write!(f, "lt {bound}"),
            Admits::AtLeast(bound) => write!(f, "ge {bound}"),
            Admits::Only(bound) => write!(f, "eq {bound}"),
        }
    }
}
