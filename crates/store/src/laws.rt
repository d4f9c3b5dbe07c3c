ghost use Rattle.std.specs.Prelude.{◌≡◌, ℕ};
ghost use Rattle.cnf.specs.Formula.{Clause};
ghost use Rattle.store.specs.Tables.{Kind, Table, lookup, Ascending};
ghost use Rattle.store.specs.Laws.{LawfulTable, TableLaws};

use crate::store::Store;

/// Does nothing. Its contract is what holds of all lawful tables: what a put and a remove answer and leave, and that tables which
/// find the same under every id are the same.
pub fn table_laws()
    ensures laws { (k : Kind) (t : Table) (i : ℕ) (c : Clause) → LawfulTable k t → TableLaws k t i c }
    ensures same { (t u : Table) → Ascending 0 t → Ascending 0 u → ((i : ℕ) → lookup i t ≡ lookup i u) → t ≡ u }
{}

/// Does nothing. Its contract is that a store's table is lawful, so that the laws hold of it.
pub fn store_laws<S: Store>(store: &S)
    ensures lawful { LawfulTable S.kind (S.table store.now) }
    ensures laws { (i : ℕ) (c : Clause) → TableLaws S.kind (S.table store.now) i c }
{}
