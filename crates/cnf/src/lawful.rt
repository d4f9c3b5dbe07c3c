ghost use Rattle.std.specs.Prelude.{◌≡◌, ℕ, ◌<◌, ◌≤◌, slice_index};
ghost use Rattle.cnf.specs.Formula.{proper_clause};
ghost use Rattle.cnf.specs.Checks.{lawful_answer};
ghost use Rattle.cnf.specs.Told.{clause_at};
ghost use Rattle.cnf.specs.Laws.{LawfulTold};

use crate::fault::Fault;
use crate::literal::ClauseId;
use crate::source::Source;

// The most variables, and the most clauses, of a lawful source.
const VARIABLES: u32 = 1024;

const CLAUSES: u32 = 65535;

/// Whether a source is lawful: 1 to 1,024 variables, at most 65,535 clauses, each literal of a variable from 1 to n, and
/// no variable twice in a clause.
pub fn check_lawful<S: Source>(source: &S) -> Result<(), Fault>
    ensures answer { result ≡ lawful_answer (S.vars source.now) (S.listing source.now) }
    ensures law { LawfulTold (S.vars source.now) (S.listing source.now) result }
{
    let n = source.variables();
    let m = source.clauses();
    if n == 0 || n > VARIABLES || m > CLAUSES {
        return Err(Fault::Unlawful(0));
    }
    let mut seen = [0u32; 1025];
    // A `for`: the library says nothing of a chain over `1..=n`.
    for k in 1..=m {
        if !clause_proper(source, ClauseId(k), n, &mut seen) {
            return Err(Fault::Unlawful(k));
        }
    }
    Ok(())
}

// Whether clause k is proper. A variable's stamp is the last clause that named it: before, each is below k, and after,
// none is above k.
fn clause_proper<S: Source>(source: &S, k: ClauseId, n: u32, seen: &mut [u32; 1025]) -> bool
    requires few { n ≤ 1024 }
    requires fresh { (v : ℕ) → slice_index seen.old v < k.0 }
    ensures answer { result ≡ proper_clause n (clause_at (S.listing source.now) k.0) }
    ensures stamps { (v : ℕ) → slice_index seen.new v ≤ k.0 }
{
    let len = source.length(k);
    if len > n {
        return false;
    }
    for j in 1..=len {
        let l = source.literal(k, j);
        if !l.names(n) {
            return false;
        }
        let v = l.size() as usize;
        if seen[v] == k.0 {
            return false;
        }
        seen[v] = k.0;
    }
    true
}
