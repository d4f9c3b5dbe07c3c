ghost use Rattle.std.specs.Prelude.{◌*◌, ◌≤◌, length, OnOk};
ghost use Rattle.std.specs.List.{flat_map, AllByRecursion};
ghost use Rattle.futoshiki.specs.Rules.{OnBoard, Rules};
ghost use Rattle.futoshiki.specs.Listing.{some_values, sign_clauses, five_groups};
ghost use Rattle.futoshiki.specs.Drafts.{RoomFor, GoesOn, no_two_along};

use crate::draft::Draft;
use crate::side::Side;
use crate::sign::Sign;
use std::alloc::AllocError;

impl Draft {
    // Lists group 1: each cell holds some value.
    fn some_values(&mut self, side: Side) -> Result<(), AllocError>
        requires { RoomFor self.old 729 }
        ensures { OnOk result (GoesOn self.old self.new (some_values side.n) 729) }
    {
        // From 0: before the variables of a cell lie those of so many whole cells.
        for i in 0..side.cells() {
            self.one_of(i * side.n + 1, side.n)?;
        }
        Ok(())
    }

    // Lists that no two variables of a line are true. A line has a variable every `step`; the lines start at 1, every
    // `inner`, and again every `outer`, so many times as the side each.
    fn no_two_along(
        &mut self,
        side: Side,
        outer: u32,
        inner: u32,
        step: u32,
    ) -> Result<(), AllocError>
        requires room { RoomFor self.old 13122 }
        requires small { (outer ≤ 81) × (inner ≤ 81) × (step ≤ 81) }
        ensures { OnOk result (GoesOn self.old self.new (no_two_along side.n outer inner step) 13122) }
    {
        // From 0, both: a line starts so many strides from the first one.
        for a in 0..side.n {
            for b in 0..side.n {
                self.no_two(a * outer + b * inner + 1, step, side.n)?;
            }
        }
        Ok(())
    }

    // Lists that the lesser cell of a sign holds less than the greater.
    fn sign_holds(&mut self, side: Side, sign: Sign) -> Result<(), AllocError>
        requires room { RoomFor self.old 162 }
        requires on { OnBoard side.n sign }
        ensures { OnOk result (GoesOn self.old self.new (sign_clauses side.n sign) 162) }
    {
        let lesser = (u32::from(sign.lesser) - 1) * side.n;
        let greater = (u32::from(sign.greater) - 1) * side.n;
        for a in 1..side.n + 1 {
            self.not_with(lesser + a, greater, 1, a)?;
        }
        Ok(())
    }

    // Lists group 5: every sign holds.
    fn signs_hold(&mut self, side: Side, signs: &[Sign]) -> Result<(), AllocError>
        requires room { RoomFor self.old 26244 }
        requires few { length signs.now ≤ 162 }
        requires on { AllByRecursion (OnBoard side.n) signs.now }
        ensures { OnOk result (GoesOn self.old self.new (flat_map (sign_clauses side.n) signs.now) 26244) }
    {
        for s in signs {
            self.sign_holds(side, *s)?;
        }
        Ok(())
    }

    // Lists the five groups of a board that keeps the rules. The next variable of a cell is one further, that of a row a
    // side, and that of a column a row.
    pub(crate) fn five_groups(&mut self, side: Side, signs: &[Sign]) -> Result<(), AllocError>
        requires room { RoomFor self.old 99000 }
        requires kept { Rules side.n signs.now }
        ensures { OnOk result (GoesOn self.old self.new (five_groups side.n signs.now) 99000) }
    {
        let n = side.n;
        self.some_values(side)?;
        self.no_two_along(side, n * n, n, 1)?;
        self.no_two_along(side, n * n, 1, n)?;
        self.no_two_along(side, n, 1, n * n)?;
        self.signs_hold(side, signs)
    }
}
