ghost use Rattle.std.specs.Prelude.{◌≡◌};
ghost use Rattle.words.specs.Kinds.{code_of, Decodes};

/// What a word speaks of, by its highest four bits.
#[derive(Clone, Copy, PartialEq, Eq, Debug)]
pub(crate) enum Kind {
    Board = 1,
    Given = 2,
    Less = 3,
    Claim = 5,
    End = 15,
}

/// A code that names no kind.
#[derive(Clone, Copy, PartialEq, Eq, Debug)]
pub(crate) struct UnknownKind(pub u32);

impl TryFrom<u32> for Kind {
    type Error = UnknownKind;

    ghost try_from_gives = { Decodes };

    fn try_from(code: u32) -> Result<Self, UnknownKind> {
        match code {
            1 => Ok(Kind::Board),
            2 => Ok(Kind::Given),
            3 => Ok(Kind::Less),
            5 => Ok(Kind::Claim),
            15 => Ok(Kind::End),
            _ => Err(UnknownKind(code)),
        }
    }
}

impl From<Kind> for u32 {
    ghost from_gives = { λ kind code. code ≡ code_of kind };

    fn from(kind: Kind) -> u32 {
        kind as u32
    }
}
