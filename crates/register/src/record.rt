ghost use Rattle.std.specs.Prelude.{◌≡◌};

/// A record that a register keeps: it has a key, and there is a blank record, all zero.
pub trait Record: Copy {
    /// What tells records of one kind apart.
    type Key: Copy + Eq;

    ghost keyed: { Self → Self.Key };

    ghost empty: { Self };

    /// The key, of which a register keeps no two.
    fn key(&self) -> Self::Key
        ensures { result ≡ keyed self.now };

    /// The blank record.
    fn blank() -> Self
        ensures { result ≡ empty };
}
