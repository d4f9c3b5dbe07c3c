ghost use Rattle.std.specs.Prelude.{◌≡◌, ℕ, ◌+◌, ◌*◌, ◌/◌, ◌%◌, ◌<◌, ◌≤◌, length, slice_index_or};
ghost use Rattle.cnf.specs.Tabled.{no_literal};
ghost use Rattle.pages.specs.Chained.{no_page, page_next, page_chain, page_after, times_in, FullPages, LinkedLine};
ghost use Rattle.pages.specs.Sizes.{pages_for};

use cnf::Literal;
use std::array;

/// The number of pages.
pub(super) const PAGES: u16 = 1024;

/// The number of literals on a page.
pub(super) const EACH: usize = 8;

/// A page of literals, with the page that follows it in its chain.
#[derive(Clone, Copy)]
pub(super) struct Page {
    pub(super) next: u16,
    // That there are eight is said of all pages (`FullPages`): as a ghost field it was tried, and reads of pages by index did not prove.
    pub(super) literals: [Literal; EACH],
}

// All pages in one chain, each followed by the next one.
pub(super) fn all_pages() -> [Page; 1024]
    ensures linked { LinkedLine result 1024 }
    ensures full { FullPages result 1024 }
{
    array::from_fn(|i| Page {
        next: i as u16 + 1,
        literals: [Literal(0); EACH],
    })
}

// The number of pages that n literals take: a clause without literals takes one too.
pub(super) fn pages_needed(n: usize) -> u16
    requires { n ≤ 1024 }
    ensures { result ≡ pages_for n }
{
    n.div_ceil(EACH).max(1) as u16
}

// The page to which n steps lead, where all pages up to it are pages. That a chain stays among the pages is a clause, here and
// below, and no type: it is a fact on the pages, the chain's first one and its length together.
pub(super) fn walk(pages: &[Page; 1024], head: u16, n: u16) -> u16
    requires { (k : ℕ) → 1024 ≤ k → times_in k (page_chain pages.now (n + 1) head) ≡ 0 }
    ensures is { result ≡ page_after pages.now n head }
    ensures below { result < 1024 }
{
    let mut p = head;
    for _ in 0..n {
        p = pages[p as usize].next;
    }
    p
}

// The literals of one page, from a place on: as many as there are.
fn cut(literals: &[Literal], from: usize) -> [Literal; EACH]
    requires { from ≤ 8192 }
    ensures { (j : ℕ) → j < 8 → from + j < length literals.now → slice_index_or result j no_literal ≡ slice_index_or literals.now (from + j) no_literal }
{
    array::from_fn(|j| literals.get(from + j).copied().unwrap_or(Literal(0)))
}

// Writes literals to a chain of pages, eight to a page, and gives the page after the chain. No link is changed.
pub(super) fn fill(pages: &mut [Page; 1024], head: u16, need: u16, literals: &[Literal]) -> u16
    requires inside { (k : ℕ) → 1024 ≤ k → times_in k (page_chain pages.old need head) ≡ 0 }
    requires once { (k : ℕ) → times_in k (page_chain pages.old need head) ≤ 1 }
    requires full { FullPages pages.old 1024 }
    requires few { need ≤ 1024 }
    ensures after { result ≡ page_after pages.old need head }
    ensures links { (k : ℕ) → page_next pages.new k ≡ page_next pages.old k }
    ensures full { FullPages pages.new 1024 }
    ensures others { (k : ℕ) → times_in k (page_chain pages.old need head) ≡ 0 → slice_index_or pages.new k no_page ≡ slice_index_or pages.old k no_page }
    ensures text { (q : ℕ) → q < 8 * need → q < length literals.now → slice_index_or (slice_index_or pages.new (page_after pages.old (q / 8) head) no_page).literals (q % 8) no_literal ≡ slice_index_or literals.now q no_literal }
{
    let mut p = head;
    // By pages and not by chunks of the literals: a clause without literals takes a page too.
    for i in 0..need {
        let page = &mut pages[p as usize];
        page.literals = cut(literals, i as usize * EACH);
        p = page.next;
    }
    p
}
