// A board drawn with its solution as a text: the puzzle's words that it stands for, and the text of a puzzle.
#![tactic(auto)]

mod board;
mod cells;
mod example;
mod frame;
mod grid;
mod listed;
mod shown;
mod taken;
mod undrawn;

pub use example::drawn_sample;
pub use shown::drawing_of;
pub use taken::words_of_drawing;
pub use undrawn::Undrawn;
