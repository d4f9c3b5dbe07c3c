ghost use Rattle.std.specs.Prelude.{◌≤◌};
ghost use Rattle.arrayvec.specs.ArrayVec.{array_vec_len};

use arrayvec::ArrayVec;
use cnf::Literal;

mod clause;

/// The longest clause that an entry holds.
pub const LONGEST: usize = 32;

/// A clause in place, under its id.
#[derive(Drop)]
pub struct Entry {
    pub id: u32,
    pub literals: ArrayVec<Literal, LONGEST>,
    ghost short: { array_vec_len literals ≤ 32 },
}
