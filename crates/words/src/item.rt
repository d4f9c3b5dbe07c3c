use crate::entry::Entry;
use futoshiki::Sign;

/// The number by which a board's word names the puzzle Futoshiki.
pub const FUTOSHIKI: u8 = 1;

/// What a word says.
#[derive(Clone, Copy, PartialEq, Eq, Debug)]
pub enum Item {
    /// A board: which puzzle, and its side.
    // The puzzle is a number and no enum: a board of another puzzle, of any number of four bits, is in form, and the reader refuses it.
    Board(u8, u8),
    /// A cell's value, given to the player.
    Given(Entry),
    /// A cell's value in the claimed solution.
    Claim(Entry),
    /// A sign: one cell holds less than another.
    Less(Sign),
    /// The end of the list.
    End,
}
