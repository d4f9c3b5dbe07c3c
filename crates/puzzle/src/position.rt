use futoshiki::Side;

// Where a later word stands: in the list of a board of this side, after an end word or not, at this place, counted from 1.
#[derive(Clone, Copy)]
pub(crate) struct Position {
    pub(crate) side: Side,
    pub(crate) ended: bool,
    pub(crate) place: u32,
}
