ghost use Rattle.std.specs.Prelude.{◌≡◌, ◌≤◌, true, false, ◌&&◌, Decides, ◌==◌, MatchOption};
ghost use Rattle.futoshiki.specs.Board.{row_of, column_of, differ_by_one, sharing_side};
ghost use Rattle.futoshiki.specs.Rules.{sign_kept, signs_kept, rules_kept, Rules};

use crate::side::Side;
use crate::sign::Sign;

// The row and the column of a cell.
fn place(side: Side, cell: u32) -> (u32, u32)
    requires { 1 ≤ cell }
    ensures { result ≡ (row_of side.n cell, column_of side.n cell) }
{
    ((cell - 1) / side.n + 1, (cell - 1) % side.n + 1)
}

// Whether two numbers are equal, and two others differ by one.
fn beside(a: u32, b: u32, c: u32, d: u32) -> bool
    ensures { result ≡ (a == b && differ_by_one c d) }
{
    a == b && c.abs_diff(d) == 1
}

// Whether two cells share a side.
fn share_side(side: Side, a: u32, b: u32) -> bool
    requires first_a { 1 ≤ a }
    requires first_b { 1 ≤ b }
    ensures { result ≡ sharing_side side.n a b }
{
    let (row_a, column_a) = place(side, a);
    let (row_b, column_b) = place(side, b);
    beside(row_a, row_b, column_a, column_b) || beside(column_a, column_b, row_a, row_b)
}

// Whether a sign's two cells stand on the board and share a side.
fn keeps(side: Side, sign: Sign) -> bool
    ensures { result ≡ sign_kept side.n sign }
{
    let lesser = u32::from(sign.lesser);
    let greater = u32::from(sign.greater);
    side.has_cell(lesser) && side.has_cell(greater) && share_side(side, lesser, greater)
}

// Whether every sign does.
fn all_keep(side: Side, signs: &[Sign]) -> bool
    ensures { result ≡ signs_kept side.n signs.now }
{
    signs.iter().all(|s| keeps(side, *s))
}

// The side of a board that keeps the rules.
pub(crate) fn kept_side(side: u32, signs: &[Sign]) -> Option<Side>
    ensures { MatchOption result (rules_kept side signs.now ≡ false) (λ s. (s.n ≡ side) × (rules_kept side signs.now ≡ true)) }
{
    let side = Side::new(side)?;
    if signs.len() <= (2 * side.cells()) as usize && all_keep(side, signs) {
        Some(side)
    } else {
        None
    }
}

/// Whether a board keeps the rules: a side from 2 to 9, both cells of every sign on the board and sharing a side, and at
/// most twice as many signs as cells, since more would sign some pair of cells twice.
pub fn rules_kept(side: u32, signs: &[Sign]) -> bool
    ensures answer { result ≡ rules_kept side signs.now }
    ensures words { Decides result (Rules side signs.now) }
{
    kept_side(side, signs).is_some()
}
