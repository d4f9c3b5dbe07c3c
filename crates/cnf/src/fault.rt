ghost use Rattle.std.specs.Prelude.{◌≡◌, Some};
ghost use Rattle.cnf.specs.Faults.{fault_row, fault_text};

use std::fmt;

/// Why something is refused.
#[derive(Clone, Copy, PartialEq, Eq, Debug)]
pub enum Fault {
    /// A word's kind is unknown, or a bit is set in it that must be 0.
    WordForm(u32),
    /// The first word is no board, a later one is, or a board's puzzle or side is out of range.
    BoardWord(u32),
    /// A word's cell or value is out of range.
    OutOfRange(u32),
    /// A record with the word's key is there already.
    KeyPresent(u32),
    /// A sign's cells share no side.
    NoSideShared(u32),
    /// No end word came (after the last word), or a word follows it.
    EndWord(u32),
    /// At the end word a cell lacks its claim.
    ClaimMissing(u32),
    /// The table for a word's record is full.
    TableFull(u32),
    /// A 129th literal to fix.
    FixFull,
    /// The source is not lawful: its first bad clause, or 0 for its number of variables or clauses.
    Unlawful(u32),
    /// The claim's length is not the number of variables (0), or this byte, counted from 1, is neither 0 nor 1.
    ClaimForm(u32),
    /// The first clause that is false under the claim.
    ClaimFalse(u32),
    /// A file has more than 65,536 bytes.
    TooManyBytes,
    /// The store holds a clause under this id.
    IdHeld,
    /// The clause is longer than the store's longest.
    TooLong,
    /// The clause costs more than the free units.
    NoRoom,
    /// The store holds no clause under this id.
    NotHeld,
}

impl Fault {
    /// The number by which the fault is told.
    pub fn number(self) -> u32
        ensures { result ≡ (fault_row self).0 }
    {
        match self {
            Fault::WordForm(_) => 1,
            Fault::BoardWord(_) => 2,
            Fault::OutOfRange(_) => 3,
            Fault::KeyPresent(_) => 4,
            Fault::NoSideShared(_) => 5,
            Fault::EndWord(_) => 6,
            Fault::ClaimMissing(_) => 7,
            Fault::TableFull(_) => 21,
            Fault::FixFull => 22,
            Fault::Unlawful(_) => 31,
            Fault::ClaimForm(_) => 32,
            Fault::ClaimFalse(_) => 33,
            Fault::TooManyBytes => 53,
            Fault::IdHeld => 61,
            Fault::TooLong => 62,
            Fault::NoRoom => 63,
            Fault::NotHeld => 64,
        }
    }

    /// Where it is: two places, the second 0 where one tells enough.
    pub fn places(self) -> (u32, u32)
        ensures { result ≡ (fault_row self).1 }
    {
        match self {
            Fault::WordForm(at)
            | Fault::BoardWord(at)
            | Fault::OutOfRange(at)
            | Fault::KeyPresent(at)
            | Fault::NoSideShared(at)
            | Fault::EndWord(at)
            | Fault::ClaimMissing(at)
            | Fault::TableFull(at)
            | Fault::Unlawful(at)
            | Fault::ClaimForm(at)
            | Fault::ClaimFalse(at) => (at, 0),
            Fault::FixFull => (129, 0),
            Fault::TooManyBytes | Fault::IdHeld | Fault::TooLong | Fault::NoRoom | Fault::NotHeld =>
                (0, 0),
        }
    }
}

impl fmt::Display for Fault {
    ghost output = { λ f. Some (fault_text f) };

    fn fmt<W: fmt::Write>(&self, f: &mut fmt::Formatter<W>) -> fmt::Result {
        let number = self.number();
        let (first, second) = self.places();
        write!(f, "refused {number} {first} {second}")
    }
}
