ghost use Rattle.std.specs.Prelude.{Some};
ghost use Rattle.report.specs.Texts.{report_text};

use cnf::Fault;
use std::fmt;

/// The report on a puzzle.
// No `Result`, which it has the shape of: it is printed, and a `Result` has no `Display`.
#[derive(Clone, Copy)]
pub enum Report {
    /// The claim stands: how many variables and clauses its source has.
    Source(u32, u32),
    /// Why it does not.
    Refusal(Fault),
}

impl fmt::Display for Report {
    ghost output = { λ r. Some (report_text r) };

    fn fmt<W: fmt::Write>(&self, f: &mut fmt::Formatter<W>) -> fmt::Result {
        match *self {
            Report::Source(n, m) => write!(f, "source {n} {m}"),
            Report::Refusal(fault) => write!(f, "{fault}"),
        }
    }
}
