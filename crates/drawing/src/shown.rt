ghost use Rattle.std.specs.Prelude.{◌≡◌, ◌%◌, ◌≤◌, IfOk};
ghost use Rattle.puzzle.specs.Poses.{puzzle_in};
ghost use Rattle.drawing.specs.Redrawn.{is_given, is_signed, byte_between, frame_byte, row_byte, drawn_byte, drawn_text};
ghost use Rattle.drawing.specs.Theorems.{DrawsRight};

use crate::grid::Grid;
use futoshiki::Sign;
use puzzle::{Records, claimed_value};
use std::alloc::{AllocError, Global};

// A board and the grid of its side, in which it is drawn.
#[derive(Clone, Copy)]
struct Shown<'g, 'c, 's> {
    grid: Grid,
    board: Records<'g, 'c, 's>,
    ghost same: { grid.side ≡ board.side },
}

impl Shown<'_, '_, '_> {
    // Whether a cell is given.
    fn is_given(&self, cell: u16) -> bool
        ensures { result ≡ is_given self.now.board.givens.now cell }
    {
        self.board.givens.iter().any(|e| e.cell == cell)
    }

    // Whether some sign says that the first cell holds less than the second.
    fn is_signed(&self, lesser: u16, greater: u16) -> bool
        ensures { result ≡ is_signed self.now.board.signs.now lesser greater }
    {
        let sign = Sign { lesser, greater };
        self.board.signs.iter().any(|s| *s == sign)
    }

    // The byte between two cells: `less` where the first holds less, `more` where the second does, else `none`.
    fn between(&self, i: u16, j: u16, less: u8, more: u8, none: u8) -> u8
        ensures { result ≡ byte_between self.now.board.signs.now i j less more none }
    {
        if self.is_signed(i, j) {
            less
        } else if self.is_signed(j, i) {
            more
        } else {
            none
        }
    }

    // The byte in a column of a frame line.
    fn frame_byte(&self, line: usize, column: usize) -> u8
        requires { (line ≤ 1000) × (column ≤ 100) × (line % 2 ≡ 0) }
        ensures { result ≡ frame_byte self.now.grid.side self.now.board.signs.now line column }
    {
        if column % 4 == 0 {
            return b'+';
        }
        if column % 4 == 2 && 0 < line && line < 2 * self.grid.side {
            let above = self.grid.cell_in(line / 2 - 1, column / 4);
            let below = above + self.grid.side as u16;
            return self.between(above, below, b'^', b'v', b'-');
        }
        b'-'
    }

    // The byte in a column of a row of cells: by a remainder and no enum, as a cell is four columns wide.
    fn row_byte(&self, line: usize, column: usize) -> u8
        requires { (line ≤ 1000) × (column ≤ 100) }
        ensures { result ≡ row_byte self.now.grid.side (puzzle_in self.now.board) line column }
    {
        if column % 4 == 0 {
            if 0 < column && column < 4 * self.grid.side {
                let left = self.grid.cell_in(line / 2, column / 4 - 1);
                return self.between(left, left + 1, b'<', b'>', b'|');
            }
            return b'|';
        }
        let cell = self.grid.cell_in(line / 2, column / 4);
        match column % 4 {
            1 => if self.is_given(cell) { b'[' } else { b' ' },
            2 => b'0' + claimed_value(self.board.claims, usize::from(cell)) % 10,
            _ => if self.is_given(cell) { b']' } else { b' ' },
        }
    }

    // The byte at a place.
    fn byte_for(&self, k: usize) -> u8
        requires { k ≤ 722 }
        ensures { result ≡ drawn_byte (puzzle_in self.now.board) k }
    {
        let (line, column) = self.grid.spot_of(k);
        if column == 4 * self.grid.side + 1 {
            b'\n'
        } else if line % 2 == 0 {
            self.frame_byte(line, column)
        } else {
            self.row_byte(line, column)
        }
    }
}

/// The text that draws a board of side 9 at most, with the values that are claimed, in brackets where they are given; none for a larger side.
// Bytes, no `String`: they are what a file of the drawing has, and places are counted in bytes.
pub fn drawing_of(heap: Global, board: Records<'_, '_, '_>) -> Result<Vec<u8>, AllocError>
    ensures shown { IfOk result (λ bytes. bytes.items ≡ drawn_text (puzzle_in board.entry)) }
    ensures stands { DrawsRight }
{
    let mut text = Vec::new(heap);
    let Some(grid) = Grid::of_side(board.side) else {
        return Ok(text);
    };
    let shown = Shown { grid, board };
    // A loop and no chain: in one the closure would need clauses of its own, of what each place's byte is.
    for k in 0..grid.places() {
        text.push(shown.byte_for(k))?;
    }
    Ok(text)
}
