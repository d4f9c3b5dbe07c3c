// The clauses of a Futoshiki, listed once from its side and its signs, as a source.
#![tactic(auto)]

mod draft;
mod groups;
mod keyed;
mod rules;
mod side;
mod sign;
mod source;

pub use rules::rules_kept;
pub use side::Side;
pub use sign::Sign;
pub use source::Futoshiki;
