ghost use Rattle.std.specs.Prelude.{◌≡◌, ◌≤◌, [], ◌∷◌, length, MatchResult};
ghost use Rattle.cnf.specs.Formula.{block_clause};
ghost use Rattle.cnf.specs.Checks.{assignment_of};
ghost use Rattle.layers.specs.Blocked.{blocked_listing, source_below, blocked_assignment, Blocked, NotBlocked, BlockMeans};

use crate::join::Join;
use crate::unmade::Unmade;
use arrayvec::ArrayVec;
use cnf::{ClauseId, Literal, Source, check_form};

/// The most variables of an assignment that is blocked.
const MOST: usize = 1024;

// As many values as there can be, all false.
static UNSET: [bool; MOST] = [false; MOST];

// The values of an assignment, as one clause that is false under it alone, over no variables.
#[derive(Drop)]
struct Denial {
    values: ArrayVec<bool, MOST>,
}

/// The clauses of a source, and after them one more, which is false under one assignment alone.
#[derive(Drop)]
pub struct Block<S> {
    joined: Join<S, Denial>,
}

// The values that the bytes of a claim give.
fn values_of(claim: &[u8]) -> ArrayVec<bool, MOST>
    requires { length claim.now ≤ 1024 }
    ensures { result.items ≡ assignment_of claim.now }
{
    // the length at once, and then each value in its place, which costs less than a push for each byte
    let mut values = ArrayVec::new();
    let Ok(()) = values.try_extend_from_slice(&UNSET[..claim.len()]) else {
        unreachable!();
    };
    let all = values.as_mut_slice();
    for (i, b) in claim.iter().enumerate() {
        all[i] = *b == 1;
    }
    values
}

impl<S: Source> Block<S> {
    /// Blocks an assignment, a byte for each variable, 1 for true and 0 for false; another form is refused.
    pub fn new(below: S, claim: &[u8]) -> Result<Block<S>, Unmade<S>>
        ensures answer { MatchResult result (Blocked (S.vars below) below claim.now) (NotBlocked (S.vars below) below claim.now) }
        ensures models { BlockMeans (S.vars below) (S.listing below) (assignment_of claim.now) }
    {
        match check_form(&below, claim) {
            Ok(()) => {
                let values = values_of(claim);
                Ok(Block {
                    joined: Join::new(below, Denial { values }),
                })
            }
            Err(fault) => Err(Unmade { below, fault }),
        }
    }

    /// The source below.
    pub fn into_below(self) -> S
        ensures { result ≡ source_below self }
    {
        self.joined.into_parts().0
    }
}

#[tactic(auto, using(crate::proofs::Blocking::denials))]
impl Source for Denial {
    ghost vars = { λ _. 0 };

    ghost listing = { λ s. block_clause s.values.items ∷ [] };

    fn variables(&self) -> u32 {
        0
    }

    fn clauses(&self) -> u32 {
        1
    }

    fn length(&self, k: ClauseId) -> u32 {
        if k.0 == 1 {
            self.values.len() as u32
        } else {
            0
        }
    }

    fn literal(&self, k: ClauseId, j: u32) -> Literal {
        if k.0 != 1 || j == 0 {
            return Literal(0);
        }
        // the literal of variable j that is false where j has its value
        match self.values.get(j as usize - 1) {
            Some(true) => Literal(-(j as i32)),
            Some(false) => Literal(j as i32),
            None => Literal(0),
        }
    }
}

impl<S: Source> Source for Block<S> {
    ghost vars = { λ s. S.Source.vars (source_below s) };

    ghost listing = { λ s. blocked_listing (S.Source.listing (source_below s)) (blocked_assignment s) };

    fn variables(&self) -> u32 {
        self.joined.variables()
    }

    fn clauses(&self) -> u32 {
        self.joined.clauses()
    }

    fn length(&self, k: ClauseId) -> u32 {
        self.joined.length(k)
    }

    fn literal(&self, k: ClauseId, j: u32) -> Literal {
        self.joined.literal(k, j)
    }
}
