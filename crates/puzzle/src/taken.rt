ghost use Rattle.std.specs.Prelude.{◌≡◌, take};

use futoshiki::Sign;
use words::Entry;

/// What a taken list has filled: the side of its board, and how many records stand in each table, from its start.
// The numbers stand beside the tables: by the rules of registers (docs/RULES.md) records lie in the caller's tables.
#[derive(Clone, Copy, PartialEq, Eq, Debug)]
pub struct Taken {
    pub side: u32,
    pub given_count: usize,
    pub claim_count: usize,
    pub sign_count: usize,
}

/// The records of a taken list, in the tables that it has filled, with the side of its board, a number as in `Taken`.
#[derive(Clone, Copy)]
pub struct Records<'g, 'c, 's> {
    pub side: u32,
    pub givens: &'g [Entry],
    pub claims: &'c [Entry],
    pub signs: &'s [Sign],
}

// The first slots of a table, so many of them; all, where it has fewer.
fn first<T>(table: &[T], count: usize) -> &[T]
    ensures { result.now ≡ take count table.now }
{
    &table[..count.min(table.len())]
}

impl Taken {
    /// The records in the tables that a taken list has filled: of each table the first slots, as many as are counted.
    pub fn records<'g, 'c, 's>(
        self,
        givens: &'g [Entry],
        claims: &'c [Entry],
        signs: &'s [Sign],
    ) -> Records<'g, 'c, 's>
        ensures side { result.side ≡ self.side }
        ensures givens { result.givens.now ≡ take self.given_count givens.now }
        ensures claims { result.claims.now ≡ take self.claim_count claims.now }
        ensures signs { result.signs.now ≡ take self.sign_count signs.now }
    {
        Records {
            side: self.side,
            givens: first(givens, self.given_count),
            claims: first(claims, self.claim_count),
            signs: first(signs, self.sign_count),
        }
    }
}
