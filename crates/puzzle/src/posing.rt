ghost use Rattle.std.specs.Prelude.{◌≡◌, true, pos, is_ok, IfOk, MatchResult};
ghost use Rattle.cnf.specs.Tabled.{numbers_of};
ghost use Rattle.futoshiki.specs.Board.{variable_at};
ghost use Rattle.puzzle.specs.Reading.{read_list};
ghost use Rattle.puzzle.specs.Accepted.{Sound};
ghost use Rattle.puzzle.specs.Meaning.{given_literals, ample_tables};
ghost use Rattle.puzzle.specs.Poses.{puzzle_in, Poses, Posed};
ghost use Rattle.puzzle.specs.Theorems.{ListRead, TakenStands};

use crate::claim::claim_of;
use crate::reading::read;
use crate::taken::Records;
use crate::task::Task;
use cnf::{Fault, Literal};
use fillings::board;
use futoshiki::{Side, Sign};
use layers::Fix;
use std::alloc::{AllocError, Global};
use words::Entry;

// Tables that are never full: a board has at most 81 cells, and fewer than twice as many pairs of cells that share a side.
const CELLS: usize = 81;

const PAIRS: usize = 162;

// A given as a literal: the variable of its value.
fn literal(side: Side, g: Entry) -> Literal
    ensures { result.0 ≡ pos (variable_at side.n g.cell g.value) }
{
    Literal((u32::from(g.cell).saturating_sub(1) * side.number() + u32::from(g.value)) as i32)
}

// The givens as literals, in their order.
fn literals_of(heap: Global, side: Side, givens: &[Entry]) -> Result<Vec<Literal>, AllocError>
    ensures { IfOk result (λ v. numbers_of v.items ≡ given_literals side.n givens.now) }
{
    givens.iter().map(|g| literal(side, *g)).collect(heap)
}

// The task of a sound puzzle.
fn pose_sound(heap: Global, puzzle: Records<'_, '_, '_>) -> Result<Task, AllocError>
    requires { Sound (puzzle_in puzzle) }
    ensures { IfOk result (λ q. Poses (puzzle_in puzzle.entry) q) }
{
    // a sound puzzle has a side from 2 to 9, and at most 81 givens
    let side = Side::new(puzzle.side).unwrap();
    let rules = board(heap, puzzle.side, puzzle.signs)?;
    let literals = literals_of(heap, side, puzzle.givens)?;
    let claim = claim_of(heap, side, puzzle.claims)?;
    let source = Fix::new(rules, literals.as_slice()).unwrap();
    Ok(Task { source, claim })
}

/// The task that a puzzle's words pose: the source of a taken list with its claim, or the fault of a refused one; only for a
/// taken list can memory be short. Its tables are never full. For a taken list the source is lawful, its models are exactly
/// the assignments of the fillings that keep rules and givens, one for one, and the claim is the assignment of the claimed
/// filling.
// A `Result` in a `Result`: that memory was short is no answer on the puzzle.
pub fn pose(heap: Global, words: &[u32]) -> Result<Result<Task, Fault>, AllocError>
    ensures answer { MatchResult result (Posed (read_list ample_tables words.now)) (λ _. is_ok (read_list ample_tables words.now) ≡ true) }
    ensures forms { ListRead ample_tables words.now }
    ensures means { TakenStands ample_tables words.now }
{
    // Each caller of `read` makes tables of the sizes that it wants: a type of three arrays would fix them for all.
    let mut givens = [Entry { cell: 0, value: 0 }; CELLS];
    let mut claims = givens;
    let mut signs = [Sign {
        lesser: 0,
        greater: 0,
    }; PAIRS];
    match read(words, &mut givens, &mut claims, &mut signs) {
        Ok(taken) => {
            let puzzle = taken.records(&givens, &claims, &signs);
            Ok(Ok(pose_sound(heap, puzzle)?))
        }
        Err(fault) => Ok(Err(fault)),
    }
}
