use futoshiki::Sign;
use register::Register;
use words::Entry;

// What a list fills: a register of givens, one of claims and one of signs, each lent, over a table that is lent. Each loan
// has a lifetime of its own: the borrow checker takes no call at a lifetime and at one that it shares with another loan.
#[derive(Drop)]
pub struct Registers<'g, 'c, 's, 'x, 'y, 'z> {
    pub(crate) givens: &'g mut Register<'x, Entry>,
    pub(crate) claims: &'c mut Register<'y, Entry>,
    pub(crate) signs: &'s mut Register<'z, Sign>,
}
