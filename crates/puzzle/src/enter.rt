ghost use Rattle.std.specs.Prelude.{◌≡◌, [], ◌∷◌, ◌++◌, length, is_ok, if◌then◌else◌};
ghost use Rattle.futoshiki.specs.Board.{up_to};
ghost use Rattle.register.specs.Keys.{has_key};
ghost use Rattle.register.specs.Held.{records_in, slots_in};
ghost use Rattle.puzzle.specs.Reading.{all_claimed};
ghost use Rattle.puzzle.specs.Steps.{record_answer, end_answer, SameTable};

use crate::placed::Placed;
use crate::position::Position;
use cnf::Fault;
use register::Register;
use words::Entry;

// Takes a record, what a word says, into its register.
pub(crate) fn enter<R: Placed>(
    at: Position,
    r: R,
    register: &mut Register<'_, R>,
) -> Result<(), Fault>
    ensures answer { result ≡ record_answer (R.ranged at.side.n r) (has_key R.Key.eq R.keyed (records_in register.old) (R.keyed r)) (R.sided at.side.n r) at.ended at.place (length (records_in register.old)) (slots_in register.old) }
    ensures records { records_in register.new ≡ (if is_ok result then records_in register.old ++ r ∷ [] else records_in register.old) }
    ensures table { SameTable register.old register.new }
    ensures same { register.new.slots.ghost_name ≡ register.old.slots.ghost_name }
{
    if !r.ranged(at.side) {
        return Err(Fault::OutOfRange(at.place));
    }
    if register.contains(r.key()) {
        return Err(Fault::KeyPresent(at.place));
    }
    if !r.sided(at.side) {
        return Err(Fault::NoSideShared(at.place));
    }
    if at.ended {
        return Err(Fault::EndWord(at.place));
    }
    register.insert(r).map_err(|_| Fault::TableFull(at.place))
}

// Whether each of n cells is claimed.
fn all_claimed(n: u16, claims: &Register<'_, Entry>) -> bool
    ensures { result ≡ all_claimed (records_in claims.now) (up_to n) }
{
    // no `all`: the library's lemmas of iterators have none of `1..=n`
    for cell in 1..=n {
        if !claims.contains(cell) {
            return false;
        }
    }
    true
}

// Takes the end word.
pub(crate) fn end_list(at: Position, claims: &Register<'_, Entry>) -> Result<(), Fault>
    ensures { result ≡ end_answer at.side.n at.ended at.place (records_in claims.now) }
{
    if at.ended {
        return Err(Fault::EndWord(at.place));
    }
    if !all_claimed(at.side.cells() as u16, claims) {
        return Err(Fault::ClaimMissing(at.place));
    }
    Ok(())
}
