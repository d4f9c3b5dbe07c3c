ghost use Rattle.std.specs.Prelude.{◌≡◌, ◌≤◌, [], length};
ghost use Rattle.cnf.specs.Tabled.{numbers_of};
ghost use Rattle.store.specs.Tables.{Kind, Table, costs, free_units, lookup, insert, erase, Ascending, put_answer, remove_answer, settled, length_in, literal_in, read_over};

use cnf::{ClauseId, Fault, Literal};

/// A store of clauses by id. Its kind is three fixed numbers, and it means a table from ids to clauses, ids ascending. A
/// refusal alters nothing, and no question alters the store.
pub trait Store {
    ghost kind: { Kind };

    ghost table: { Self → Table };

    /// Adds a clause under an id, if the id is not held, the clause not too long, and there is room for it.
    fn put(&mut self, id: ClauseId, literals: &[Literal]) -> Result<(), Fault>
        ensures answer { result ≡ put_answer kind (table self.old) id.0 (numbers_of literals.now) }
        ensures after { table self.new ≡ settled result (insert id.0 (numbers_of literals.now) (table self.old)) (table self.old) };

    /// Takes an id out, if it is held.
    fn remove(&mut self, id: ClauseId) -> Result<(), Fault>
        ensures answer { result ≡ remove_answer (table self.old) id.0 }
        ensures after { table self.new ≡ settled result (erase id.0 (table self.old)) (table self.old) };

    /// Takes all out.
    fn clear(&mut self)
        ensures { table self.new ≡ [] };

    /// The number of clauses held.
    fn held(&self) -> u32
        ensures { result ≡ length (table self.now) };

    /// The free units.
    fn free(&self) -> u32
        ensures { result ≡ free_units kind (table self.now) };

    /// The length of the clause under an id, where there is one.
    fn length(&self, id: ClauseId) -> Option<u32>
        ensures { result ≡ length_in (lookup id.0 (table self.now)) };

    /// Literal j of the clause under an id, counted from 1; 0 where there is none.
    // No `Option`: as of a source, 0 is told where there is none (docs/RULES.md).
    fn literal(&self, id: ClauseId, j: u32) -> Literal
        ensures { result.0 ≡ literal_in j (lookup id.0 (table self.now)) };

    /// The length of the clause under an id, where there is one, with its literals written to the beginning of a slice, as
    /// many as fit. One look-up for all of them, where a store answers it itself.
    // Into a lent slice, and the length as the answer: reading allocates nothing.
    fn read(&self, id: ClauseId, into: &mut [Literal]) -> Option<u32>
        ensures answer { result ≡ length_in (lookup id.0 (table self.now)) }
        ensures written { numbers_of into.new ≡ read_over (lookup id.0 (table self.now)) (numbers_of into.old) }
    {
        let len = self.length(id)?;
        let written = into.len().min(len as usize);
        for (j, slot) in into[..written].iter_mut().enumerate() {
            *slot = self.literal(id, j as u32 + 1);
        }
        Some(len)
    }

    ghost unit: { 1 ≤ kind.unit_size };

    ghost ascending: { (s : Self) → Ascending 0 (table s) };

    ghost within: { (s : Self) → costs kind (table s) ≤ kind.units };
}
