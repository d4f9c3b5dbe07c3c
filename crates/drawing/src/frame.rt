ghost use Rattle.std.specs.Prelude.{◌≡◌, ◌-◌, ◌≤◌, slice_index};
ghost use Rattle.drawing.specs.Drawn.{first_line, frame_fits, row_fits, byte_fits, first_unfit};

use crate::grid::Grid;

// The characters of the longest line, and one more.
const LINE_AND_ONE: usize = 38;

// The characters of the first line, 38 at most.
pub(crate) fn line_length(text: &[u8]) -> usize
    ensures is { result ≡ first_line text.now }
    ensures most { result ≤ 38 }
{
    let start = &text[..LINE_AND_ONE.min(text.len())];
    start
        .iter()
        .position(|b| *b == b'\n')
        .unwrap_or(start.len())
}

impl Grid {
    // Whether a byte may stand in a column of a frame line: a sign only between two rows, in the middle under a cell.
    fn stands_in_frame(self, line: usize, column: usize, byte: u8) -> bool
        ensures { result ≡ frame_fits self.side line column byte }
    {
        if column % 4 == 0 {
            return byte == b'+';
        }
        if byte == b'-' {
            return true;
        }
        column % 4 == 2 && 0 < line && line < 2 * self.side && (byte == b'^' || byte == b'v')
    }

    // Whether a byte may stand in a column of a row of cells, by the byte two places before it. A remainder and no enum: a cell
    // is four columns wide, which are its border, its opening, its digit and its closing.
    fn stands_in_row(self, column: usize, byte: u8, opening: u8) -> bool
        ensures { result ≡ row_fits self.side column byte opening }
    {
        match column % 4 {
            0 => {
                byte == b'|'
                    || (0 < column && column < 4 * self.side && (byte == b'<' || byte == b'>'))
            }
            1 => byte == b' ' || byte == b'[',
            2 => b'1' <= byte && byte <= b'0' + self.side as u8,
            _ => byte == if opening == b'[' { b']' } else { b' ' },
        }
    }
}

// A text that is looked at as a drawing in a grid.
#[derive(Clone, Copy)]
pub(crate) struct Drawing<'t> {
    pub(crate) grid: Grid,
    pub(crate) text: &'t [u8],
}

impl Drawing<'_> {
    // The byte at a place, 0 after the last: 0 and no `Option`, as 0 is no byte of a drawing, so no place after the last fits.
    pub(crate) fn byte_at(&self, k: usize) -> u8
        ensures { result ≡ slice_index self.now.text.now k }
    {
        self.text.get(k).copied().unwrap_or(0)
    }

    // Whether the byte at a place may stand in a line and a column.
    fn stands(&self, k: usize, line: usize, column: usize) -> bool
        ensures { result ≡ byte_fits self.now.grid.side line column (slice_index self.now.text.now k) (slice_index self.now.text.now (k - 2)) }
    {
        let byte = self.byte_at(k);
        if column == 4 * self.grid.side + 1 {
            byte == b'\n'
        } else if line % 2 == 0 {
            self.grid.stands_in_frame(line, column, byte)
        } else {
            let opening = self.byte_at(k.saturating_sub(2));
            self.grid.stands_in_row(column, byte, opening)
        }
    }

    // The first place that does not fit; where all fit, the place after the last.
    pub(crate) fn unfit_place(&self) -> usize
        ensures is { result ≡ first_unfit self.now.grid.side self.now.text.now }
        ensures most { result ≤ 722 }
    {
        let width = self.grid.width();
        // line by line, so that no place is divided by the width to know its line and column
        for line in 0..2 * self.grid.side + 1 {
            let start = line * width;
            let unfit = (start..start + width).find(|k| {
                let column = k.saturating_sub(start);
                !self.stands(*k, line, column)
            });
            if let Some(k) = unfit {
                return k;
            }
        }
        self.grid.places()
    }
}
