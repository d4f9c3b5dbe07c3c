ghost use Rattle.drawing.specs.Theorems.{WellDrawn};

use crate::frame::Drawing;

// A text that draws a board: each place fits, and it has no more bytes.
#[derive(Clone, Copy)]
pub(crate) struct Board<'t> {
    pub(crate) drawing: Drawing<'t>,
    ghost drawn: { WellDrawn drawing.grid.side drawing.text.now },
}
