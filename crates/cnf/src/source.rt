ghost use Rattle.std.specs.Prelude.{◌≡◌, ℕ, List};
ghost use Rattle.cnf.specs.Formula.{Clause};
ghost use Rattle.cnf.specs.Told.{told_variables, told_clauses, told_length, told_literal};

use crate::literal::{ClauseId, Literal};

/// What is told of a number of variables that is larger than 1,024.
pub const MANY_VARIABLES: u32 = 1025;

/// The last clause of which anything is told.
pub const LAST_CLAUSE: u32 = 65536;

/// What is told of a number of clauses that is larger.
pub const MANY_CLAUSES: u32 = 65537;

/// The last place of a clause of which anything is told.
pub const LAST_PLACE: u32 = 1024;

/// What is told of a length that is larger.
pub const MANY_LITERALS: u32 = 1025;

/// A source of clauses. It means a number of variables and a listing of clauses, of any size; its questions tell them up
/// to the caps, and none of them alters it.
// Numbers and no `Option`, by the rules of sources (docs/RULES.md): what is told is capped, and is 0 where there is none.
pub trait Source {
    ghost vars: { Self → ℕ };

    ghost listing: { Self → List Clause };

    /// The number of variables, or 1,025 when larger.
    fn variables(&self) -> u32
        ensures { result ≡ told_variables (vars self.now) };

    /// The number of listed clauses, or 65,537 when larger.
    fn clauses(&self) -> u32
        ensures { result ≡ told_clauses (listing self.now) };

    /// The length of clause k, or 1,025 when larger; 0 outside the listing and past clause 65,536.
    fn length(&self, k: ClauseId) -> u32
        ensures { result ≡ told_length (listing self.now) k.0 };

    /// Literal j of clause k, both counted from 1; 0 where there is none, past clause 65,536 and past place 1,024.
    fn literal(&self, k: ClauseId, j: u32) -> Literal
        ensures { result.0 ≡ told_literal (listing self.now) k.0 j };
}
