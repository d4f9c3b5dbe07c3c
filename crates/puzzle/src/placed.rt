ghost use Rattle.std.specs.Prelude.{◌≡◌, ℕ, Bool, true, ◌*◌, ◌&&◌};
ghost use Rattle.futoshiki.specs.Board.{sharing_side};
ghost use Rattle.futoshiki.specs.Rules.{in_range};
ghost use Rattle.puzzle.specs.Reading.{entry_ranged};

use futoshiki::{Side, Sign, rules_kept};
use register::Record;
use words::Entry;

// A record that speaks of a board's cells: a given or a claim, or a sign.
pub(crate) trait Placed: Record {
    ghost ranged: { ℕ → Self → Bool };

    ghost sided: { ℕ → Self → Bool };

    // Whether its cells stand on the board, and its value, if it has one, is one of 1 to the side.
    fn ranged(&self, side: Side) -> bool
        ensures { result ≡ ranged side.n self.now };

    // Whether its cells share a side, if it has two.
    fn sided(&self, side: Side) -> bool
        requires { ranged side.n self.now ≡ true }
        ensures { result ≡ sided side.n self.now };
}

impl Placed for Entry {
    ghost ranged = { entry_ranged };

    ghost sided = { λ _ _. true };

    fn ranged(&self, side: Side) -> bool {
        side.has_cell(u32::from(self.cell)) && side.has_value(u32::from(self.value))
    }

    fn sided(&self, _side: Side) -> bool {
        true
    }
}

impl Placed for Sign {
    ghost ranged = { λ N s. in_range (N * N) s.lesser && in_range (N * N) s.greater };

    ghost sided = { λ N s. sharing_side N s.lesser s.greater };

    fn ranged(&self, side: Side) -> bool {
        side.has_cell(u32::from(self.lesser)) && side.has_cell(u32::from(self.greater))
    }

    // both cells are on the board, so a board with this sign alone keeps the rules exactly if they share a side
    fn sided(&self, side: Side) -> bool {
        rules_kept(side.number(), &[*self])
    }
}
