ghost use Rattle.std.specs.Prelude.{◌≡◌, ◌&&◌, pos, negsuc, neg_ℤ, MatchOption, int_lt, nat_le};
ghost use Rattle.cnf.specs.Formula.{variable_of};

/// A literal: its variable's number, negative where it denies the variable.
#[derive(Clone, Copy, Default, PartialEq, Eq, Debug)]
pub struct Literal(pub i32);

/// The number under which a clause is known: a listed clause by its place, counted from 1.
#[derive(Clone, Copy, PartialEq, Eq, Debug)]
pub struct ClauseId(pub u32);

impl Literal {
    /// Whether it denies its variable.
    pub fn denies(self) -> bool
        ensures { result ≡ int_lt self.0 (pos 0) }
    {
        self.0 < 0
    }

    /// The number of its variable.
    pub fn size(self) -> u32
        ensures { result ≡ variable_of self.0 }
    {
        self.0.unsigned_abs()
    }

    /// Whether it names a variable from 1 to n.
    pub fn names(self, n: u32) -> bool
        ensures { result ≡ (nat_le 1 (variable_of self.0) && nat_le (variable_of self.0) n) }
    {
        (1..=n).contains(&self.size())
    }

    /// The literal of the other sign; none for the least number, whose negation is no 32-bit number.
    pub fn negated(self) -> Option<Literal>
        ensures { MatchOption result (self.0 ≡ negsuc 2147483647) (λ l. l.0 ≡ neg_ℤ self.0) }
    {
        self.0.checked_neg().map(Literal)
    }
}
