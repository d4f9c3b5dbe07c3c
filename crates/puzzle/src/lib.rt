// Reading a list of words into three registers, and what a taken list means.
#![tactic(auto)]

mod claim;
mod enter;
mod placed;
mod posing;
mod position;
mod reader;
mod reading;
mod registers;
mod sample;
mod taken;
mod task;

pub use claim::claimed_value;
pub use posing::pose;
pub use reading::read;
pub use sample::sample_words;
pub use taken::{Records, Taken};
pub use task::Task;
