ghost use Rattle.std.specs.Prelude.{vec_len};
ghost use Rattle.futoshiki.specs.Starts.{EndsAt, EndsAt-prop};

mod listing;

use cnf::Literal;

// The clauses listed so far: their literals one after another, and where each clause starts, the next one included.
#[derive(Drop)]
pub struct Draft {
    literals: Vec<Literal>,
    starts: Vec<u32>,
    ghost ended: { EndsAt (vec_len literals) starts.items } by { EndsAt-prop (vec_len literals) starts.items },
}
