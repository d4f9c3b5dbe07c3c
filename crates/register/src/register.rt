ghost use Rattle.std.specs.Prelude.{◌≡◌, ℕ, ◌≤◌, length, slice_index_or};

mod calls;

/// Records in order of arrival, in a lent table: the first slots, as many as are used; all others are blank.
// The number of used slots stands beside the slots: by the rules of registers (docs/RULES.md) records lie in the caller's table.
#[derive(Drop)]
pub struct Register<'a, R> {
    slots: &'a mut [R],
    used: usize,
    blank: R,
    ghost fits: { used ≤ length slots.now },
    ghost rest: { (k : ℕ) → used ≤ k → slice_index_or slots.now k blank ≡ blank },
}
