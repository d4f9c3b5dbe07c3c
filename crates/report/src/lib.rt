// From a puzzle file's bytes to the report on it.
#![tactic(auto)]

mod judging;
mod verdict;

pub use judging::judge;
pub use verdict::Report;
