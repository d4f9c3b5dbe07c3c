ghost use Rattle.std.specs.Prelude.{◌≡◌, ◌≤◌};
ghost use Rattle.pages.specs.Sizes.{pages_for};

/// What the directory says of a clause: its id, the first page of its chain, how many pages that has, and its length.
#[derive(Clone, Copy)]
pub(super) struct Entry {
    pub(super) id: u32,
    pub(super) head: u16,
    pub(super) pages: u16,
    pub(super) size: u16,
    // The chain has the pages that the literals take, and these are no more than the longest clause has.
    ghost fitting: { pages ≡ pages_for size },
    ghost short: { size ≤ 1024 },
}
