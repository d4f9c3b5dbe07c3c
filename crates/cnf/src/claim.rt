ghost use Rattle.std.specs.Prelude.{◌≡◌, ◌↔◌};
ghost use Rattle.cnf.specs.Faults.{accepted};
ghost use Rattle.cnf.specs.Checks.{claim_answer};
ghost use Rattle.cnf.specs.Laws.{ClaimStands};

use crate::fault::Fault;
use crate::form::check_form;
use crate::lawful::check_lawful;
use crate::model::check_model;
use crate::source::Source;

/// Whether a claim stands: the source is lawful, then the claim has its form, then no clause is false under it.
pub fn check_claim<S: Source>(source: &S, claim: &[u8]) -> Result<(), Fault>
    ensures answer { result ≡ claim_answer (S.vars source.now) (S.listing source.now) claim.now }
    ensures stands { (result ≡ accepted) ↔ ClaimStands (S.vars source.now) (S.listing source.now) claim.now }
{
    check_lawful(source)?;
    check_form(source, claim)?;
    check_model(source, claim)
}
