ghost use Rattle.std.specs.Prelude.{◌≡◌, ◌++◌, map, IfOk, OnOk, nat_eq};
ghost use Rattle.futoshiki.specs.Board.{up_to};
ghost use Rattle.puzzle.specs.Meaning.{claim_at, byte_of, claim_bytes};

use futoshiki::Side;
use std::alloc::{AllocError, Global};
use words::Entry;

/// The value of a cell's first claim; 0 where there is none.
// A number and no `Option`, as it is drawn and compared: no value of a cell is 0.
pub fn claimed_value(claims: &[Entry], cell: usize) -> u8
    ensures { result ≡ claim_at claims.now cell }
{
    claims
        .iter()
        .find(|e| usize::from(e.cell) == cell)
        .map_or(0, |e| e.value)
}

// Adds the bytes of one cell: for each value from 1 to the side, whether the cell holds it.
fn push_cell(bytes: &mut Vec<u8>, side: Side, value: u8) -> Result<(), AllocError>
    ensures { OnOk result (bytes.new.items ≡ bytes.old.items ++ map byte_of (map (nat_eq value) (up_to side.n))) }
{
    for v in 1..=side.number() {
        bytes.push(u8::from(u32::from(value) == v))?;
    }
    Ok(())
}

// The claim of a puzzle: the assignment of the filling that its claims give, cell by cell.
pub(crate) fn claim_of(heap: Global, side: Side, claims: &[Entry]) -> Result<Vec<u8>, AllocError>
    ensures { IfOk result (λ v. v.items ≡ claim_bytes side.n claims.now) }
{
    let mut bytes = Vec::new(heap);
    for cell in 1..=side.cells() {
        push_cell(&mut bytes, side, claimed_value(claims, cell as usize))?;
    }
    Ok(bytes)
}
