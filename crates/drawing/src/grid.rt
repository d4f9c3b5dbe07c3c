ghost use Rattle.std.specs.Prelude.{◌≡◌, ◌*◌, ◌/◌, ◌%◌, ◌<◌, ◌≤◌, true, false, MatchOption};
ghost use Rattle.futoshiki.specs.Board.{InRange};
ghost use Rattle.drawing.specs.Drawn.{line_of_side, line_width, whole_length, digit_place};
ghost use Rattle.drawing.specs.Redrawn.{cell_in};

// The lines and columns in which a board is drawn, by its side: 9 at most; sides 0 and 1 are drawn too.
#[derive(Clone, Copy)]
pub(crate) struct Grid {
    pub(crate) side: usize,
    ghost most: { side ≤ 9 },
}

impl Grid {
    // The grid of a side, if it is 9 at most.
    pub(crate) fn of_side(side: u32) -> Option<Grid>
        ensures { MatchOption result (9 < side) (λ grid. (grid.side ≡ side) × (side ≤ 9)) }
    {
        if side > 9 {
            return None;
        }
        Some(Grid {
            side: side as usize,
        })
    }

    // The grid that a first line of so many characters is drawn for.
    pub(crate) fn of_line(characters: usize) -> Option<Grid>
        ensures { MatchOption result (line_of_side characters ≡ false) (λ grid. (line_of_side characters ≡ true) × (grid.side ≡ characters / 4) × (2 ≤ grid.side)) }
    {
        let side = characters / 4;
        if characters % 4 == 1 && 2 <= side && side <= 9 {
            Some(Grid { side })
        } else {
            None
        }
    }

    // A line with its line feed.
    pub(crate) fn width(self) -> usize
        ensures { result ≡ line_width self.side }
    {
        4 * self.side + 2
    }

    // The places of a whole drawing.
    pub(crate) fn places(self) -> usize
        ensures is { result ≡ whole_length self.side }
        ensures most { result ≤ 722 }
    {
        (2 * self.side + 1) * self.width()
    }

    // The line and the column of a place, both from 0.
    pub(crate) fn spot_of(self, k: usize) -> (usize, usize)
        ensures line { result.0 ≡ k / line_width self.side }
        ensures column { result.1 ≡ k % line_width self.side }
    {
        let width = self.width();
        (k / width, k % width)
    }

    // The place of a cell's digit.
    pub(crate) fn place_of(self, cell: usize) -> usize
        requires { InRange (self.side * self.side) cell }
        ensures is { result ≡ digit_place self.side cell }
        ensures inside { (2 ≤ result) × (result ≤ 1000) }
    {
        let (row, column) = ((cell - 1) / self.side, (cell - 1) % self.side);
        (2 * row + 1) * self.width() + (4 * column + 2)
    }

    // The cell whose row and column, from 0, are these.
    // Their bounds are clauses and no type: a place past the drawing has no bound, and `spot_of` tells its line too.
    pub(crate) fn cell_in(self, row: usize, column: usize) -> u16
        requires { (row ≤ 1000) × (column ≤ 100) }
        ensures is { result ≡ cell_in self.side row column }
        ensures most { result ≤ 10000 }
    {
        (row * self.side + column + 1) as u16
    }
}
