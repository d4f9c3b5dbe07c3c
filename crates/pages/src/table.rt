ghost use Rattle.pages.specs.Chained.{paged_kind};
ghost use Rattle.pages.specs.Meant.{paged_table};
ghost use Rattle.pages.specs.Places.{ascending_table, table_within};
ghost use Rattle.pages.specs.Owners.{true_sizes};
ghost use Rattle.std.proofs.Common.{rules};

use crate::page::{EACH, PAGES, all_pages, pages_needed, walk};
use crate::paged::PagedStore;
use cnf::{ClauseId, Fault, Literal};
use store::Store;

impl Store for PagedStore {
    ghost kind = { paged_kind };

    ghost table = { paged_table };

    ghost unit = { Prim.search rules };

    ghost ascending = { λ s. ascending_table s.pages s.directory.items s.order };

    ghost within = { λ s. table_within s.pages s.spare s.directory.items s.all (true_sizes s.pages s.first s.spare s.directory.items 1024 s.none s.full) };

    fn put(&mut self, id: ClauseId, literals: &[Literal]) -> Result<(), Fault> {
        let at = self.admit(id.0, literals)?;
        self.enter(at, id.0, literals);
        Ok(())
    }

    fn remove(&mut self, id: ClauseId) -> Result<(), Fault> {
        let at = self.find(id.0).map_err(|_| Fault::NotHeld)?;
        self.release(at);
        Ok(())
    }

    fn clear(&mut self) {
        self.pages = all_pages();
        self.first = 0;
        self.spare = PAGES;
        self.directory.clear();
    }

    fn held(&self) -> u32 {
        self.directory.len() as u32
    }

    fn free(&self) -> u32 {
        self.spare as u32
    }

    fn length(&self, id: ClauseId) -> Option<u32> {
        Some(self.entry(id.0)?.size as u32)
    }

    fn literal(&self, id: ClauseId, j: u32) -> Literal {
        let Some(e) = self.entry(id.0) else {
            return Literal(0);
        };
        if j == 0 || j > e.size as u32 {
            return Literal(0);
        }
        let q = j as usize - 1;
        let p = walk(&self.pages, e.head, (q / EACH) as u16);
        self.pages[p as usize].literals[q % EACH]
    }

    fn read(&self, id: ClauseId, into: &mut [Literal]) -> Option<u32> {
        let e = self.entry(id.0)?;
        let n = into.len().min(e.size as usize);
        let mut p = e.head;
        // By the number of the page and no `chunks_mut`: after it nothing would be known of what was written.
        for i in 0..pages_needed(n) {
            let page = &self.pages[p as usize];
            let from = i as usize * EACH;
            let end = n.min(from + EACH);
            into[from..end].copy_from_slice(&page.literals[..end - from]);
            p = page.next;
        }
        Some(e.size as u32)
    }
}
