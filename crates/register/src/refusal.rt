/// Why a record is refused.
#[derive(Clone, Copy, PartialEq, Eq, Debug)]
pub enum Refusal {
    /// A record with its key is there already.
    Present,
    /// Every slot is used.
    Full,
}
