// Literals, clauses and models, the interface of a clause source, the clause table, and the checks that a claim needs.
#![tactic(auto)]

mod claim;
mod fault;
mod form;
mod lawful;
mod literal;
mod model;
mod source;
mod table;

pub use claim::check_claim;
pub use fault::Fault;
pub use form::check_form;
pub use lawful::check_lawful;
pub use literal::{ClauseId, Literal};
pub use model::check_model;
pub use source::{LAST_CLAUSE, LAST_PLACE, MANY_CLAUSES, MANY_LITERALS, MANY_VARIABLES, Source};
pub use table::ClauseTable;
