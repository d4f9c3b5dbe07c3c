// A register of records that have a key, over a lent table.
#![tactic(auto)]

mod record;
mod refusal;
mod register;

pub use record::Record;
pub use refusal::Refusal;
pub use register::Register;
