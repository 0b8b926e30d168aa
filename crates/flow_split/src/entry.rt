//! Records of a key, an input and a value, by numbers.

/// A record of a key, an input and a value, by its numbers, each from 0.
#[derive(Clone, Copy)]
pub struct Entry {
    /// The part that its key goes to.
    pub part: usize,
    /// The number of its key among those of the part, in the order in which they come.
    pub key: usize,
    /// The number of its input among those of all records, in the order in which they come.
    pub input: usize,
    /// The number of the record.
    pub record: usize,
}

/// By which number entries are sorted.
#[derive(Clone, Copy)]
pub enum By {
    /// That of the part.
    Part,
    /// That of the input.
    Input,
    /// That of the key and the input together, of which there are so many.
    Pair(usize),
}

impl Entry {
    /// The number by which the entry is sorted, if it is not too large.
    pub(crate) fn number_by(&self, which: By) -> Option<usize> {
        match which {
            By::Part => Some(self.part),
            By::Input => Some(self.input),
            By::Pair(inputs) => match self.key.checked_mul(inputs) {
                Some(first) => first.checked_add(self.input),
                None => None,
            },
        }
    }
}
