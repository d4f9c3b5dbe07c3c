ghost use Rattle.std.specs.Prelude.{◌≡◌, MatchResult};
ghost use Rattle.cnf.specs.Tabled.{numbers_of};
ghost use Rattle.layers.specs.Fixed.{units_of, fixed_listing, source_below, fixed_literals, Fixed, NotFixed, FixMeans};

use crate::join::Join;
use crate::unmade::Unmade;
use arrayvec::ArrayVec;
use cnf::{ClauseId, Fault, Literal, Source};

/// The most literals that are fixed.
const MOST: usize = 128;

// Literals, each a clause of its own, over no variables.
#[derive(Drop)]
struct Units {
    literals: ArrayVec<Literal, MOST>,
}

/// The clauses of a source, and after them each of up to 128 literals as a clause of its own.
// A type of its own beside `Block`, with the same one-line calls: an alias of one generic type would make `Units` public.
#[derive(Drop)]
pub struct Fix<S> {
    joined: Join<S, Units>,
}

impl<S: Source> Fix<S> {
    /// Fixes literals, in their order, whether or not they name a variable of the source; more than 128 are refused.
    pub fn new(below: S, literals: &[Literal]) -> Result<Fix<S>, Unmade<S>>
        ensures answer { MatchResult result (Fixed below literals.now) (NotFixed below literals.now) }
        ensures models { FixMeans (S.vars below) (S.listing below) (numbers_of literals.now) }
    {
        match ArrayVec::try_from(literals) {
            Ok(literals) => Ok(Fix {
                joined: Join::new(below, Units { literals }),
            }),
            Err(_) => Err(Unmade {
                below,
                fault: Fault::FixFull,
            }),
        }
    }

    /// The source below.
    pub fn into_below(self) -> S
        ensures { result ≡ source_below self }
    {
        self.joined.into_parts().0
    }
}

#[tactic(auto, using(crate::proofs::Fixing::units))]
impl Source for Units {
    ghost vars = { λ _. 0 };

    ghost listing = { λ s. units_of (numbers_of s.literals.items) };

    fn variables(&self) -> u32 {
        0
    }

    fn clauses(&self) -> u32 {
        self.literals.len() as u32
    }

    fn length(&self, k: ClauseId) -> u32 {
        if 1 <= k.0 && k.0 as usize <= self.literals.len() {
            1
        } else {
            0
        }
    }

    fn literal(&self, k: ClauseId, j: u32) -> Literal {
        if k.0 == 0 {
            return Literal(0);
        }
        // the clause of each literal has this one literal
        match self.literals.get(k.0 as usize - 1) {
            Some(literal) if j == 1 => *literal,
            _ => Literal(0),
        }
    }
}

impl<S: Source> Source for Fix<S> {
    ghost vars = { λ s. S.Source.vars (source_below s) };

    ghost listing = { λ s. fixed_listing (S.Source.listing (source_below s)) (numbers_of (fixed_literals s)) };

    fn variables(&self) -> u32 {
        self.joined.variables()
    }

    fn clauses(&self) -> u32 {
        self.joined.clauses()
    }

    fn length(&self, k: ClauseId) -> u32 {
        self.joined.length(k)
    }

    fn literal(&self, k: ClauseId, j: u32) -> Literal {
        self.joined.literal(k, j)
    }
}
