ghost use Rattle.std.specs.Prelude.{◌≡◌, ℕ, ◌+◌, ◌<◌, ◌≤◌, vec_capacity};
ghost use Rattle.pages.specs.Chained.{owner_count, page_total, FullPages, RisingIds};

use crate::entry::Entry;
use crate::page::Page;

/// A store of 1,024 pages of eight literals. Every page is at each moment free or in the chain of exactly one clause; the free
/// chain begins at `first` and has `spare` pages. The directory has the clauses' entries, ids rising.
///
/// By the rules of stores (docs/RULES.md) all memory is taken when one is made. So a chain goes by the numbers of its pages, not by
/// boxes, and the directory is a `Vec` with its room, not a map.
#[derive(Drop)]
pub struct PagedStore {
    pub(super) pages: [Page; 1024],
    pub(super) directory: Vec<Entry>,
    pub(super) first: u16,
    pub(super) spare: u16,
    // The directory has room for as many entries as there are pages, so taking a clause in allocates nothing.
    ghost room: { 1024 ≤ vec_capacity directory },
    // A page is free or in an entry's chain.
    ghost all: { spare + page_total directory.items ≡ 1024 },
    // Every page stands exactly once in the free chain and the chains of all entries, and nothing else stands there.
    ghost one: { (k : ℕ) → k < 1024 → owner_count pages first spare directory.items k ≡ 1 },
    ghost none: { (k : ℕ) → 1024 ≤ k → owner_count pages first spare directory.items k ≡ 0 },
    // Every page has its eight literals.
    ghost full: { FullPages pages 1024 },
    // The ids rise, so that one is found by halving.
    ghost order: { RisingIds directory.items },
}
