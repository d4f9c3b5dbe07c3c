ghost use Rattle.std.specs.Prelude.{◌≡◌, Some};
ghost use Rattle.drawing.specs.declared.undrawn.Undrawn.TheVariants.{Memory};
ghost use Rattle.drawing.specs.Texts.{undrawn_text};

use std::alloc::AllocError;
use std::error::Error;
use std::fmt;

/// Why a text gave no words.
#[derive(Clone, Copy, PartialEq, Eq, Debug)]
pub enum Undrawn {
    /// The line and the column, counted from 1, of the first character that has no place there.
    At(u32, u32),
    /// The text is well drawn, and there is no memory for its words.
    Memory,
}

impl From<AllocError> for Undrawn {
    ghost from_gives = { λ _ r. r ≡ Memory };

    fn from(_e: AllocError) -> Undrawn {
        Undrawn::Memory
    }
}

impl fmt::Display for Undrawn {
    ghost output = { λ u. Some (undrawn_text u) };

    fn fmt<W: fmt::Write>(&self, f: &mut fmt::Formatter<W>) -> fmt::Result {
        match self {
            Undrawn::At(line, column) => {
                write!(f, "does not fit at line {line}, column {column}")
            }
            Undrawn::Memory => f.write_str("no memory"),
        }
    }
}

impl Error for Undrawn {}
