ghost use Rattle.std.specs.Prelude.{IfOk};
ghost use Rattle.futoshiki.specs.Meaning.{source_variables, source_listing, TellsBoard};

use crate::draft::Draft;
use crate::rules::kept_side;
use crate::sign::Sign;
use cnf::{ClauseId, Literal, Source};
use std::alloc::{AllocError, Global};

// Room for the literals of the first clause, whatever the side is: a power of two, which the room that doubles stays.
const ROOM: usize = 16;

/// The clauses of a Futoshiki, listed once into a table, so that a clause is read without arithmetic.
#[derive(Drop)]
pub struct Futoshiki {
    variables: u32,
    clauses: Draft,
}

impl Futoshiki {
    /// Lists the clauses of a board; a board that breaks the rules has no variables and no clauses.
    pub fn new(heap: Global, side: u32, signs: &[Sign]) -> Result<Futoshiki, AllocError>
        ensures { IfOk result (λ s. TellsBoard side signs.now s) }
    {
        let Some(side) = kept_side(side, signs) else {
            let clauses = Draft::new(heap, 0)?;
            return Ok(Futoshiki {
                variables: 0,
                clauses,
            });
        };
        let mut clauses = Draft::new(heap, ROOM)?;
        clauses.five_groups(side, signs)?;
        Ok(Futoshiki {
            variables: side.variables(),
            clauses,
        })
    }
}

// Each question is the table's: the language has no shorter way to hand them on.
impl Source for Futoshiki {
    ghost vars = { source_variables };

    ghost listing = { source_listing };

    fn variables(&self) -> u32 {
        self.clauses.table(self.variables).variables()
    }

    fn clauses(&self) -> u32 {
        self.clauses.table(self.variables).clauses()
    }

    fn length(&self, k: ClauseId) -> u32 {
        self.clauses.table(self.variables).length(k)
    }

    fn literal(&self, k: ClauseId, j: u32) -> Literal {
        self.clauses.table(self.variables).literal(k, j)
    }
}
