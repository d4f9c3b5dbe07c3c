// Clause stores: the interface, its laws, and a store of 64 clauses.
#![tactic(auto)]

mod entry;
mod flat;
mod laws;
mod store;

pub use flat::FlatStore;
pub use laws::{store_laws, table_laws};
pub use store::Store;
