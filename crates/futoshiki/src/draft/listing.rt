ghost use Rattle.std.specs.Prelude.{◌≡◌, ◌*◌, ◌≤◌, [], ◌∷◌, pos, neg_ℤ, IfOk, length, vec_len, OnOk};
ghost use Rattle.std.specs.List.{range_with_len};
ghost use Rattle.cnf.specs.Tabled.{numbers_of};
ghost use Rattle.futoshiki.specs.Listing.{not_both, one_of};
ghost use Rattle.futoshiki.specs.Drafts.{RoomFor, draft_listing, GoesOn, not_with, no_two_stepped};

use super::Draft;
use cnf::{ClauseTable, Literal};
use std::alloc::{AllocError, Global};
use std::array;

// The literal that denies a variable.
fn denial(x: u32) -> Literal
    requires { x ≤ 10000 }
    ensures { result.0 ≡ neg_ℤ (pos x) }
{
    Literal(-(x as i32))
}

// Each function that lists asks for its room: starts have 32 bits, and how much is still to be listed only its caller knows. What
// it asks of its numbers differs from one to the next.
impl Draft {
    // No clause yet, and room for some literals.
    pub(crate) fn new(heap: Global, room: usize) -> Result<Draft, AllocError>
        ensures { IfOk result (λ d. (draft_listing d ≡ []) × (vec_len d.literals ≡ 0)) }
    {
        let mut starts = Vec::new(heap);
        starts.push(0)?;
        let literals = Vec::with_capacity(heap, room)?;
        Ok(Draft { literals, starts })
    }

    // The same clauses as a table.
    pub(crate) fn table(&self, variables: u32) -> ClauseTable<'_, '_>
        ensures count { result.variables ≡ variables }
        ensures literals { result.literals.now ≡ self.now.literals.items }
        ensures starts { result.starts.now ≡ self.now.starts.items }
    {
        ClauseTable {
            variables,
            literals: self.literals.as_slice(),
            starts: self.starts.as_slice(),
        }
    }

    // Lists a clause. The room for its end is there before its literals come, so that a failure leaves no part of it.
    fn list(&mut self, clause: &[Literal]) -> Result<(), AllocError>
        requires room { RoomFor self.old (length clause.now) }
        ensures { OnOk result (GoesOn self.old self.new (numbers_of clause.now ∷ []) (length clause.now)) }
    {
        self.starts.reserve(1)?;
        self.literals.extend_from_slice(clause)?;
        self.starts.push_reserved(self.literals.len() as u32);
        Ok(())
    }

    // Lists that variables x and y are not both true.
    fn not_both(&mut self, x: u32, y: u32) -> Result<(), AllocError>
        requires room { RoomFor self.old 2 }
        requires small { (x ≤ 10000) × (y ≤ 10000) }
        ensures { OnOk result (GoesOn self.old self.new (not_both x y ∷ []) 2) }
    {
        self.list(&[denial(x), denial(y)])
    }

    // Lists that one of the `count` variables from `first` on is true.
    pub(crate) fn one_of(&mut self, first: u32, count: u32) -> Result<(), AllocError>
        requires room { RoomFor self.old 9 }
        requires small { (first ≤ 10000) × (count ≤ 9) }
        ensures { OnOk result (GoesOn self.old self.new (one_of (range_with_len first count) ∷ []) 9) }
    {
        let clause: [Literal; 9] = array::from_fn(|v| Literal((first + v as u32) as i32));
        self.list(&clause[..count as usize])
    }

    // Lists that x is not true with any of the `count` variables that follow y by steps.
    pub(crate) fn not_with(
        &mut self,
        x: u32,
        y: u32,
        step: u32,
        count: u32,
    ) -> Result<(), AllocError>
        requires room { RoomFor self.old 18 }
        requires small { (x ≤ 5000) × (y ≤ 5000) × (step ≤ 81) × (count ≤ 9) }
        ensures { OnOk result (GoesOn self.old self.new (not_with x y step count) 18) }
    {
        // No `1..=count`, here and below: its loop has two ways out, and each would need a longer invariant.
        for k in 1..count + 1 {
            self.not_both(x, y + k * step)?;
        }
        Ok(())
    }

    // Lists that no two of the `count` variables from `first` on, by steps, are true.
    pub(crate) fn no_two(&mut self, first: u32, step: u32, count: u32) -> Result<(), AllocError>
        requires room { RoomFor self.old 162 }
        requires small { (first ≤ 2000) × (step ≤ 81) × (count ≤ 9) }
        ensures { OnOk result (GoesOn self.old self.new (no_two_stepped first step count) 162) }
    {
        for j in 1..count + 1 {
            let x = first + (j - 1) * step;
            self.not_with(x, x, step, count - j)?;
        }
        Ok(())
    }
}
