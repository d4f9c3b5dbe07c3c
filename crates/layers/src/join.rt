ghost use Rattle.std.specs.Prelude.{◌≡◌, max};
ghost use Rattle.layers.specs.Joined.{joined_listing, JoinMeans};

use cnf::{ClauseId, LAST_CLAUSE, Literal, MANY_CLAUSES, Source};

/// Two sources as one: the variables of the larger, the clauses of the first, and after them those of the second.
#[derive(Drop)]
pub struct Join<P, Q> {
    first: P,
    second: Q,
}

impl<P: Source, Q: Source> Join<P, Q> {
    /// Joins two sources.
    pub fn new(first: P, second: Q) -> Join<P, Q>
        ensures parts { (result.first ≡ first) × (result.second ≡ second) }
        ensures models { JoinMeans (P.Source.vars first) (Q.Source.vars second) (P.Source.listing first) (Q.Source.listing second) }
    {
        Join { first, second }
    }

    /// The two sources.
    pub fn into_parts(self) -> (P, Q)
        ensures { (result.0 ≡ self.first) × (result.1 ≡ self.second) }
    {
        (self.first, self.second)
    }
}

#[tactic(auto, using(crate::proofs::Appended::appended))]
impl<P: Source, Q: Source> Source for Join<P, Q> {
    ghost vars = { λ s. max (P.Source.vars s.first) (Q.Source.vars s.second) };

    ghost listing = { λ s. joined_listing (P.Source.listing s.first) (Q.Source.listing s.second) };

    fn variables(&self) -> u32 {
        // the larger of two capped numbers is the larger one, capped
        self.first.variables().max(self.second.variables())
    }

    fn clauses(&self) -> u32 {
        // where one of the two numbers is capped, the sum is past the cap too
        (self.first.clauses() + self.second.clauses()).min(MANY_CLAUSES)
    }

    // Which source has clause k is asked in both questions: as a value it would be matched again in each.
    fn length(&self, k: ClauseId) -> u32 {
        let m = self.first.clauses();
        // up to m it is a clause of the first; where m is capped, so is every clause that is told
        if k.0 <= m {
            return self.first.length(k);
        }
        // the second may tell of its clause k - m, but the join does not
        if k.0 > LAST_CLAUSE {
            return 0;
        }
        self.second.length(ClauseId(k.0 - m))
    }

    fn literal(&self, k: ClauseId, j: u32) -> Literal {
        let m = self.first.clauses();
        if k.0 <= m {
            return self.first.literal(k, j);
        }
        if k.0 > LAST_CLAUSE {
            return Literal(0);
        }
        self.second.literal(ClauseId(k.0 - m), j)
    }
}
