ghost use Rattle.std.specs.Prelude.{◌≡◌, ◌≤◌, true, [], IfOk, option_map, vec_len, vec_capacity};
ghost use Rattle.store.specs.Rows.{flat_kind, clause_of, rows_of, ids_ascend, place_in, FoundPlace};
ghost use Rattle.store.specs.Tables.{lookup};
ghost use Rattle.store.specs.Places.{ascending_from};
ghost use Rattle.store.specs.Stands.{rows_within};
ghost use Rattle.std.proofs.Common.{rules};

use crate::entry::{Entry, LONGEST};
use crate::store::Store;
use cnf::{ClauseId, Fault, Literal};
use std::alloc::{AllocError, Global};

/// The clauses that the flat store has room for.
const UNITS: usize = 64;

/// A store of at most 64 clauses of at most 32 literals, each in a unit of its own, in order of their ids. All its memory is
/// taken when it is made, so no call asks for more, as a map of the library would.
#[derive(Drop)]
pub struct FlatStore {
    entries: Vec<Entry>,
    ghost reserved: { 64 ≤ vec_capacity entries },
    ghost few: { vec_len entries ≤ 64 },
    ghost ordered: { ids_ascend 0 (rows_of entries.items) ≡ true },
}

impl FlatStore {
    /// An empty store, if there is memory for all that it may hold.
    pub fn new(heap: Global) -> Result<FlatStore, AllocError>
        ensures { IfOk result (λ s. rows_of s.entries.items ≡ []) }
    {
        let entries = Vec::with_capacity(heap, UNITS)?;
        Ok(FlatStore { entries })
    }

    // The number of clauses with a lesser id.
    // By hand: over the library's search the compiler leaves `insert` a call, which moves the later entries one by one, and not
    // as one block.
    fn place(&self, id: u32) -> usize
        ensures { result ≡ place_in id (rows_of self.now.entries.items) }
    {
        let mut low = 0;
        let mut high = self.entries.len();
        while low < high {
            let middle = (low + high) / 2;
            if self.entries[middle].id < id {
                low = middle + 1;
            } else {
                high = middle;
            }
        }
        low
    }

    // Where the clause under an id stands, or else where it would.
    fn find(&self, id: ClauseId) -> Result<usize, usize>
        ensures { FoundPlace id.0 self.now.entries.items result }
    {
        let at = self.place(id.0);
        if at >= self.entries.len() {
            return Err(at);
        }
        if self.entries[at].id != id.0 {
            return Err(at);
        }
        Ok(at)
    }

    // The entry of the clause under an id, where there is one.
    fn entry(&self, id: ClauseId) -> Option<&Entry>
        ensures { lookup id.0 (rows_of self.now.entries.items) ≡ option_map (λ e. clause_of e.now) result }
    {
        let at = self.find(id).ok()?;
        Some(&self.entries[at])
    }
}

impl Store for FlatStore {
    ghost kind = { flat_kind };

    ghost table = { λ s. rows_of s.entries.items };

    ghost unit = { Prim.search rules };

    ghost ascending = { λ s. ascending_from 0 (rows_of s.entries.items) s.ordered };

    ghost within = { λ s. rows_within s.entries.items _ s.entries.ok.0 s.few };

    fn put(&mut self, id: ClauseId, literals: &[Literal]) -> Result<(), Fault> {
        let Err(at) = self.find(id) else {
            return Err(Fault::IdHeld);
        };
        if literals.len() > LONGEST {
            return Err(Fault::TooLong);
        }
        if self.entries.len() >= UNITS {
            return Err(Fault::NoRoom);
        }
        // Made when all else is known, so that it is moved but once.
        let Some(entry) = Entry::of(id.0, literals) else {
            unreachable!()
        };
        // Never refused: room for as many entries as there are units was taken when the store was made.
        self.entries.insert(at, entry).map_err(|_| Fault::NoRoom)
    }

    fn remove(&mut self, id: ClauseId) -> Result<(), Fault> {
        let at = self.find(id).map_err(|_| Fault::NotHeld)?;
        self.entries.remove(at);
        Ok(())
    }

    fn clear(&mut self) {
        self.entries.clear();
    }

    fn held(&self) -> u32 {
        self.entries.len() as u32
    }

    fn free(&self) -> u32 {
        (UNITS - self.entries.len()) as u32
    }

    fn length(&self, id: ClauseId) -> Option<u32> {
        self.entry(id).map(Entry::length)
    }

    fn literal(&self, id: ClauseId, j: u32) -> Literal {
        self.entry(id).map_or(Literal(0), |entry| entry.literal(j))
    }

    fn read(&self, id: ClauseId, into: &mut [Literal]) -> Option<u32> {
        let entry = self.entry(id)?;
        entry.copy_to(into);
        Some(entry.length())
    }
}
