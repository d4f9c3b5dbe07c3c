// The paged store: 1,024 pages of eight literals, a clause in a chain of pages, and a directory of the clauses by id.
#![tactic(auto)]

mod changes;
mod clauses;
mod entry;
mod page;
mod paged;
mod table;

pub use paged::PagedStore;
