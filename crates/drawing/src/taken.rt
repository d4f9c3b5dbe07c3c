ghost use Rattle.std.specs.Prelude.{◌≡◌, IfOk, Ok, MatchResult};
ghost use Rattle.drawing.specs.Drawn.{drawn_words, drawn_answer};
ghost use Rattle.drawing.specs.Theorems.{RefusedAs, DrawingStands};

use crate::board::Board;
use crate::frame::{Drawing, line_length};
use crate::grid::Grid;
use crate::listed::word_of;
use crate::undrawn::Undrawn;
use std::alloc::{AllocError, Global};
use words::{FUTOSHIKI, Item};

// The words of a drawn board.
fn all_words(heap: Global, board: &Board) -> Result<Vec<u32>, AllocError>
    ensures { IfOk result (λ ws. ws.items ≡ drawn_words board.now.drawing.grid.side board.now.drawing.text.now) }
{
    let mut words = Vec::new(heap);
    words.push(word_of(Item::Board(FUTOSHIKI, board.drawing.grid.side as u8)))?;
    board.list_givens(&mut words)?;
    board.list_signs(&mut words)?;
    board.list_claims(&mut words)?;
    words.push(word_of(Item::End))?;
    Ok(words)
}

/// The words of the board that a text draws, with its solution: the board, its givens, its signs, its claims, the end.
/// Any other text is refused at the first place that does not fit.
pub fn words_of_drawing(heap: Global, text: &[u8]) -> Result<Vec<u32>, Undrawn>
    ensures answer { MatchResult result (λ ws. drawn_answer text.now ≡ Ok ws.items) (RefusedAs text.now) }
    ensures stands { DrawingStands text.now }
{
    let characters = line_length(text);
    let Some(grid) = Grid::of_line(characters) else {
        return Err(Undrawn::At(1, characters as u32 + 1));
    };
    let drawing = Drawing { grid, text };
    let place = drawing.unfit_place();
    let end = grid.places();
    if place < end || text.len() > end {
        let (line, column) = grid.spot_of(place);
        return Err(Undrawn::At((line + 1) as u32, (column + 1) as u32));
    }
    Ok(all_words(heap, &Board { drawing })?)
}
