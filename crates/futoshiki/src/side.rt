ghost use Rattle.std.specs.Prelude.{◌≡◌, ◌*◌, ◌<◌, ◌≤◌, ◌⊎◌, MatchOption};
ghost use Rattle.futoshiki.specs.Rules.{in_range};

// The smallest and the largest side of a board.
const LEAST_SIDE: u32 = 2;

const MOST_SIDE: u32 = 9;

/// The side of a board: the number of cells in each row and in each column, from 2 to 9.
#[derive(Clone, Copy, PartialEq, Eq, Debug)]
pub struct Side {
    pub(crate) n: u32,
    pub ghost least: { 2 ≤ n },
    pub ghost most: { n ≤ 9 },
}

impl Side {
    /// The side of this number; none where it is below 2 or above 9.
    pub fn new(n: u32) -> Option<Side>
        ensures { MatchOption result ((n < 2) ⊎ (9 < n)) (λ s. s.n ≡ n) }
    {
        if n < LEAST_SIDE || n > MOST_SIDE {
            return None;
        }
        Some(Side { n })
    }

    /// Its number.
    pub fn number(self) -> u32
        ensures number { result ≡ self.n }
        ensures least { 2 ≤ result }
        ensures most { result ≤ 9 }
    {
        self.n
    }

    /// The number of cells of the board.
    pub fn cells(self) -> u32
        ensures number { result ≡ self.n * self.n }
        ensures few { result ≤ 81 }
    {
        let n = self.n;
        n * n
    }

    /// The number of variables of the board: one for each value that a cell may hold.
    pub fn variables(self) -> u32
        ensures number { result ≡ self.n * self.n * self.n }
        ensures few { result ≤ 729 }
    {
        self.cells() * self.n
    }

    /// Whether a number is a cell of the board.
    pub fn has_cell(self, cell: u32) -> bool
        ensures { result ≡ in_range (self.n * self.n) cell }
    {
        (1..=self.cells()).contains(&cell)
    }

    /// Whether a number is a value that a cell of the board may hold.
    pub fn has_value(self, value: u32) -> bool
        ensures { result ≡ in_range self.n value }
    {
        (1..=self.n).contains(&value)
    }
}
