/// A given or a claim: a cell, counted from 1 in reading order, and its value.
#[derive(Clone, Copy, PartialEq, Eq, Debug)]
pub struct Entry {
    pub cell: u16,
    pub value: u8,
}
