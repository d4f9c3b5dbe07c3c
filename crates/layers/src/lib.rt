// Layers over any source, each a source again: literals fixed, two sources joined, one assignment blocked.
#![tactic(auto)]

mod block;
mod fix;
mod join;
mod unmade;

pub use block::Block;
pub use fix::Fix;
pub use join::Join;
pub use unmade::Unmade;
