ghost use Rattle.std.specs.Prelude.{◌≡◌, ◌<◌, ◌≤◌, [], length, IfOk, Err, vec_capacity, MatchResult};
ghost use Rattle.std.specs.List.{remove};
ghost use Rattle.std.specs.Vec.{vec_ptr};
ghost use Rattle.cnf.specs.Faults.{accepted};
ghost use Rattle.cnf.specs.Tabled.{numbers_of};
ghost use Rattle.store.specs.Tables.{insert, put_answer};
ghost use Rattle.pages.specs.Chained.{paged_kind, GapAt};
ghost use Rattle.pages.specs.Sizes.{pages_for};
ghost use Rattle.pages.specs.Meant.{paged_table};

use crate::entry::Entry;
use crate::page::{PAGES, all_pages, fill, pages_needed, walk};
use crate::paged::PagedStore;
use cnf::{Fault, Literal};
use std::alloc::{AllocError, Global};

// The most literals of a clause.
const LONGEST: usize = 1024;

impl PagedStore {
    /// An empty store, or the refusal of its memory.
    pub fn new(heap: Global) -> Result<PagedStore, AllocError>
        ensures { IfOk result (λ s. paged_table s ≡ []) }
    {
        let pages = all_pages();
        let directory = Vec::with_capacity(heap, PAGES as usize)?;
        Ok(PagedStore {
            pages,
            directory,
            first: 0,
            spare: PAGES,
        })
    }

    // Whether a clause is taken, and at which place of the directory.
    pub(super) fn admit(&self, id: u32, literals: &[Literal]) -> Result<usize, Fault>
        ensures answer { MatchResult result (λ _. put_answer paged_kind (paged_table self.now) id (numbers_of literals.now) ≡ accepted) (λ f. put_answer paged_kind (paged_table self.now) id (numbers_of literals.now) ≡ Err f) }
        ensures place { IfOk result (λ at. GapAt self.now.directory.items id at × (length literals.now ≤ 1024) × (pages_for (length literals.now) ≤ self.now.spare)) }
    {
        let Err(at) = self.find(id) else {
            return Err(Fault::IdHeld);
        };
        if literals.len() > LONGEST {
            return Err(Fault::TooLong);
        }
        if pages_needed(literals.len()) > self.spare {
            return Err(Fault::NoRoom);
        }
        Ok(at)
    }

    // Takes a clause in at its place: the first free pages, a chain already, become its chain. Nothing is allocated, since the
    // directory has room for as many entries as there are pages.
    pub(super) fn enter(&mut self, at: usize, id: u32, literals: &[Literal])
        requires gap { GapAt self.old.directory.items id at }
        requires short { length literals.now ≤ 1024 }
        requires room { pages_for (length literals.now) ≤ self.old.spare }
        ensures after { paged_table self.new ≡ insert id (numbers_of literals.now) (paged_table self.old) }
        ensures still { (vec_ptr self.new.directory ≡ vec_ptr self.old.directory) × (vec_capacity self.new.directory ≡ vec_capacity self.old.directory) }
    {
        let need = pages_needed(literals.len());
        let head = self.first;
        self.first = fill(&mut self.pages, head, need, literals);
        self.spare -= need;
        let entry = Entry {
            id,
            head,
            pages: need,
            size: literals.len() as u16,
        };
        drop(self.directory.insert(at, entry));
    }

    // Takes the clause at a place out: its chain goes in front of the free one.
    pub(super) fn release(&mut self, at: usize)
        requires { at < length self.old.directory.items }
        ensures { paged_table self.new ≡ remove (paged_table self.old) at }
    {
        let e = self.directory.remove(at);
        let last = walk(&self.pages, e.head, e.pages - 1);
        self.pages[last as usize].next = self.first;
        self.first = e.head;
        self.spare += e.pages;
    }
}
