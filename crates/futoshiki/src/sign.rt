/// A sign between two cells, counted from 1 in reading order: the lesser cell holds less than the greater.
#[derive(Clone, Copy, PartialEq, Eq, Debug)]
pub struct Sign {
    pub lesser: u16,
    pub greater: u16,
}
