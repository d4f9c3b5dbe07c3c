ghost use Rattle.std.specs.Prelude.{◌≡◌, MatchResult};
ghost use Rattle.drawing.specs.declared.undrawn.Undrawn.TheVariants.{Memory};
ghost use Rattle.drawing.specs.Sample.{sample_answer, Sample};

use crate::taken::words_of_drawing;
use crate::undrawn::Undrawn;
use std::alloc::Global;

/// The words of a board of side 2: cell 1 holds less than cell 2, cell 2 more than cell 4, and cell 4 is given.
pub fn drawn_sample(heap: Global) -> Result<Vec<u32>, Undrawn>
    ensures words { MatchResult result (λ ws. ws.items ≡ sample_answer) (λ e. e ≡ Memory) }
    ensures sample { Sample }
{
    words_of_drawing(
        heap,
        b"+---+---+\n| 1 < 2 |\n+---+-v-+\n| 2 |[1]|\n+---+---+\n",
    )
}
