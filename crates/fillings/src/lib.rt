// Futoshiki boards whose listings' models are exactly the fillings that keep the rules, one for one.
#![tactic(auto)]

ghost use Rattle.std.specs.Prelude.{IfOk};
ghost use Rattle.futoshiki.specs.Meaning.{TellsBoard};
ghost use Rattle.fillings.specs.Theorems.{BoardTheorem, sample_signs, SampleBoard};

use futoshiki::{Futoshiki, Sign};
use std::alloc::{AllocError, Global};

/// Lists the clauses of a board. Where the board keeps the rules, the models of its listing are the assignments of the
/// fillings that keep them, one for one, and the listing is lawful; where it breaks them, it has no variables and no
/// clauses.
pub fn board(heap: Global, side: u32, signs: &[Sign]) -> Result<Futoshiki, AllocError>
    ensures tells { IfOk result (λ s. TellsBoard side signs.now s) }
    ensures theorem { BoardTheorem side signs.now }
{
    Futoshiki::new(heap, side, signs)
}

/// The board of side 2 on which cell 1 holds less than cell 2.
pub fn sample_board(heap: Global) -> Result<Futoshiki, AllocError>
    ensures tells { IfOk result (λ s. TellsBoard 2 sample_signs s) }
    ensures sample { SampleBoard }
{
    board(
        heap,
        2,
        &[Sign {
            lesser: 1,
            greater: 2,
        }],
    )
}
