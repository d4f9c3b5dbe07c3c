ghost use Rattle.std.specs.Prelude.{◌≡◌};
ghost use Rattle.cnf.specs.Told.{clause_at};
ghost use Rattle.cnf.specs.Tabled.{numbers_of, tabled};

use crate::literal::{ClauseId, Literal};
use crate::source::{LAST_CLAUSE, LAST_PLACE, MANY_CLAUSES, MANY_LITERALS, MANY_VARIABLES, Source};

/// Clauses in lent tables: clause k runs from the kth start up to the next, places counted from 0. Any tables are a source: a
/// clause whose starts fall or leave the literals is empty, and tables without starts list nothing.
// Two flat tables and no list of clauses: they are lent, and nothing is allocated (docs/RULES.md).
#[derive(Clone, Copy)]
pub struct ClauseTable<'l, 's> {
    pub variables: u32,
    pub literals: &'l [Literal],
    pub starts: &'s [u32],
}

impl<'l> ClauseTable<'l, '_> {
    // The literals of clause k; none where its starts fall or leave the literals.
    fn clause(&self, k: ClauseId) -> &'l [Literal]
        ensures { numbers_of result.now ≡ clause_at (tabled (numbers_of self.now.literals.now) self.now.starts.now) k.0 }
    {
        let i = k.0 as usize;
        if i == 0 || k.0 > LAST_CLAUSE || i >= self.starts.len() {
            return &[];
        }
        let start = self.starts[i - 1] as usize;
        let end = self.starts[i] as usize;
        self.literals.get(start..end).unwrap_or(&[])
    }
}

impl Source for ClauseTable<'_, '_> {
    ghost vars = { λ s. s.variables };

    ghost listing = { λ s. tabled (numbers_of s.literals.now) s.starts.now };

    fn variables(&self) -> u32 {
        self.variables.min(MANY_VARIABLES)
    }

    fn clauses(&self) -> u32 {
        let m = self.starts.len().saturating_sub(1);
        m.min(MANY_CLAUSES as usize) as u32
    }

    fn length(&self, k: ClauseId) -> u32 {
        self.clause(k).len().min(MANY_LITERALS as usize) as u32
    }

    fn literal(&self, k: ClauseId, j: u32) -> Literal {
        if j == 0 || j > LAST_PLACE {
            return Literal(0);
        }
        self.clause(k)
            .get(j as usize - 1)
            .copied()
            .unwrap_or(Literal(0))
    }
}
