ghost use Rattle.std.specs.Prelude.{◌≡◌};
ghost use Rattle.cnf.specs.declared.fault.Fault.TheVariants.{ClaimFalse};
ghost use Rattle.cnf.specs.Formula.{value_of, literal_true, clause_true, Lawful};
ghost use Rattle.cnf.specs.Told.{clause_at};
ghost use Rattle.cnf.specs.Checks.{assignment_of, clauses_hold, told_clause, told_listing};
ghost use Rattle.cnf.specs.Laws.{TellsFirst};

use crate::fault::Fault;
use crate::literal::{ClauseId, Literal};
use crate::source::Source;

// The value of a variable under a claim; false where the claim gives it none.
fn value(claim: &[u8], v: u32) -> bool
    ensures { result ≡ value_of (assignment_of claim.now) v }
{
    v > 0 && claim.get(v as usize - 1).is_some_and(|b| *b == 1)
}

// Whether a literal is true under a claim.
fn literal_true(claim: &[u8], l: Literal) -> bool
    ensures { result ≡ literal_true (assignment_of claim.now) l.0 }
{
    let value = value(claim, l.size());
    if l.denies() { !value } else { value }
}

// Whether clause k, as it is told, is true under a claim.
fn clause_true<S: Source>(source: &S, k: ClauseId, claim: &[u8]) -> bool
    ensures { result ≡ clause_true (assignment_of claim.now) (told_clause (clause_at (S.listing source.now) k.0)) }
{
    // A `for`, here and below: the library says nothing of a chain over `1..=n`.
    for j in 1..=source.length(k) {
        if literal_true(claim, source.literal(k, j)) {
            return true;
        }
    }
    false
}

/// The first clause that is false under a claim, of the clauses as the source tells them.
pub fn check_model<S: Source>(source: &S, claim: &[u8]) -> Result<(), Fault>
    ensures answer { result ≡ clauses_hold (assignment_of claim.now) 1 (told_listing (S.listing source.now)) }
    ensures first { Lawful (S.vars source.now) (S.listing source.now) → TellsFirst (clause_true (assignment_of claim.now)) ClaimFalse (S.listing source.now) result }
{
    for k in 1..=source.clauses() {
        if !clause_true(source, ClauseId(k), claim) {
            return Err(Fault::ClaimFalse(k));
        }
    }
    Ok(())
}
