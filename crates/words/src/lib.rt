// The words of a puzzle: what each says, and the words of a file's bytes.
#![tactic(auto)]

mod bytes;
mod entry;
mod item;
mod keyed;
mod kind;
mod layout;

pub use bytes::{bytes_of, words_of};
pub use entry::Entry;
pub use item::{FUTOSHIKI, Item};
pub use layout::{decode, encode};
