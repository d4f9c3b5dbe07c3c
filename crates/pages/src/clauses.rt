ghost use Rattle.std.specs.Prelude.{◌≡◌, ℕ, ◌≤◌, length, Some, None, MatchResult, MatchOption, IfSome};
ghost use Rattle.store.specs.Tables.{lookup};
ghost use Rattle.pages.specs.Chained.{page_chain, times_in, entry_clause, HeldAt, GapAt};
ghost use Rattle.pages.specs.Meant.{paged_table, clause_held};

use crate::entry::Entry;
use crate::paged::PagedStore;

impl PagedStore {
    // Where an id stands in the directory, or else where it would.
    pub(super) fn find(&self, id: u32) -> Result<usize, usize>
        ensures place { MatchResult result (λ at. HeldAt self.now.directory.items id at) (λ at. GapAt self.now.directory.items id at) }
        ensures clause { MatchResult result (λ at. lookup id (paged_table self.now) ≡ Some (clause_held self.now at)) (λ _. lookup id (paged_table self.now) ≡ None) }
    {
        self.directory.binary_search_by_key(&id, |e| e.id)
    }

    // The entry under an id, where there is one; its chain lies in the pages.
    pub(super) fn entry(&self, id: u32) -> Option<Entry>
        ensures clause { MatchOption result (lookup id (paged_table self.now) ≡ None) (λ e. lookup id (paged_table self.now) ≡ Some (entry_clause self.now.pages e)) }
        ensures size { IfSome result (λ e. length (entry_clause self.now.pages e) ≡ e.size) }
        ensures inside { IfSome result (λ e. (k : ℕ) → 1024 ≤ k → times_in k (page_chain self.now.pages e.pages e.head) ≡ 0) }
    {
        let at = self.find(id).ok()?;
        Some(self.directory[at])
    }
}
