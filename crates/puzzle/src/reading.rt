ghost use Rattle.std.specs.Prelude.{◌≡◌, length};
ghost use Rattle.puzzle.specs.Reading.{read_list};
ghost use Rattle.puzzle.specs.Steps.{tables_held, Empty, SameSlots, Leaves};
ghost use Rattle.puzzle.specs.Filled.{tables_lent, counted, givens_left, claims_left, signs_left, entries_filled, signs_filled};
ghost use Rattle.puzzle.specs.Theorems.{ListRead, TakenStands};

use crate::registers::Registers;
use crate::taken::Taken;
use cnf::Fault;
use futoshiki::Sign;
use register::Register;
use words::Entry;

impl Registers<'_, '_, '_, '_, '_, '_> {
    // Reads a list into empty registers; a refused one leaves them empty.
    fn fill(&mut self, words: &[u32]) -> Result<Taken, Fault>
        requires { Empty self.old }
        ensures answer { result ≡ counted (read_list (tables_held self.old) words.now) }
        ensures leaves { Leaves (read_list (tables_held self.old) words.now) self.old self.new }
        ensures same { SameSlots self.old self.new }
    {
        match self.read_list(words) {
            Ok(side) => Ok(Taken {
                side: side.number(),
                given_count: self.givens.len(),
                claim_count: self.claims.len(),
                sign_count: self.signs.len(),
            }),
            Err(fault) => {
                self.givens.clear();
                self.claims.clear();
                self.signs.clear();
                Err(fault)
            }
        }
    }
}

/// Reads a puzzle's words into the caller's tables. A list is taken exactly when it is in form, and refused with its first
/// fault and the fault's place otherwise. A taken list leaves its records in order of arrival, and blank slots after them; a
/// refused one leaves all three tables blank.
pub fn read(
    words: &[u32],
    givens: &mut [Entry],
    claims: &mut [Entry],
    signs: &mut [Sign],
) -> Result<Taken, Fault>
    ensures answer { result ≡ counted (read_list (tables_lent givens.old claims.old signs.old) words.now) }
    ensures givens { givens.new ≡ entries_filled (length givens.old) (givens_left (read_list (tables_lent givens.old claims.old signs.old) words.now)) }
    ensures claims { claims.new ≡ entries_filled (length claims.old) (claims_left (read_list (tables_lent givens.old claims.old signs.old) words.now)) }
    ensures signs { signs.new ≡ signs_filled (length signs.old) (signs_left (read_list (tables_lent givens.old claims.old signs.old) words.now)) }
    ensures forms { ListRead (tables_lent givens.old claims.old signs.old) words.now }
    ensures means { TakenStands (tables_lent givens.old claims.old signs.old) words.now }
{
    let mut given = Register::new(givens);
    let mut claimed = Register::new(claims);
    let mut signed = Register::new(signs);
    let mut registers = Registers {
        givens: &mut given,
        claims: &mut claimed,
        signs: &mut signed,
    };
    registers.fill(words)
}
