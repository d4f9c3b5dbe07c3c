ghost use Rattle.std.specs.Prelude.{◌≡◌, length, Some};
ghost use Rattle.cnf.specs.Tabled.{numbers_of};
ghost use Rattle.store.specs.Tables.{literal_in, read_over};
ghost use Rattle.store.specs.Rows.{clause_of, MadeOf};

use crate::entry::Entry;
use arrayvec::ArrayVec;
use cnf::Literal;

impl Entry {
    // An entry for a clause, unless it is too long.
    pub fn of(id: u32, literals: &[Literal]) -> Option<Entry>
        ensures { MadeOf id literals.now result }
    {
        let mut kept = ArrayVec::new();
        if kept.try_extend_from_slice(literals).is_err() {
            return None;
        }
        Some(Entry { id, literals: kept })
    }

    // The clause's length.
    pub fn length(&self) -> u32
        ensures { result ≡ length (clause_of self.now) }
    {
        self.literals.len() as u32
    }

    // Literal j of the clause, counted from 1; 0 where there is none.
    pub fn literal(&self, j: u32) -> Literal
        ensures { result.0 ≡ literal_in j (Some (clause_of self.now)) }
    {
        j.checked_sub(1)
            .and_then(|before| self.literals.get(before as usize))
            .copied()
            .unwrap_or(Literal(0))
    }

    // Writes the clause over the beginning of a slice, as many literals as fit.
    pub fn copy_to(&self, into: &mut [Literal])
        ensures { numbers_of into.new ≡ read_over (Some (clause_of self.now)) (numbers_of into.old) }
    {
        let n = into.len().min(self.literals.len());
        into[..n].copy_from_slice(&self.literals[..n]);
    }
}
