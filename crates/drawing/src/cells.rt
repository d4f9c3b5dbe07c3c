ghost use Rattle.std.specs.Prelude.{◌*◌};
ghost use Rattle.futoshiki.specs.Board.{InRange};

use crate::board::Board;

// A cell of a drawn board, by its number: they are counted from 1 in reading order.
#[derive(Clone, Copy)]
pub(crate) struct Cell<'t> {
    pub(crate) board: Board<'t>,
    pub(crate) number: usize,
    ghost on: { InRange (board.drawing.grid.side * board.drawing.grid.side) number },
}
