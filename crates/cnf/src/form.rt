ghost use Rattle.std.specs.Prelude.{◌≡◌, ◌≤◌, length};
ghost use Rattle.cnf.specs.declared.fault.Fault.TheVariants.{ClaimForm};
ghost use Rattle.cnf.specs.Checks.{is_bit, form_answer};
ghost use Rattle.cnf.specs.Laws.{TellsFirst};

use crate::fault::Fault;
use crate::source::Source;

/// Whether a claim has its form: as many bytes as the source has variables, at most 1,024, each 0 or 1.
pub fn check_form<S: Source>(source: &S, claim: &[u8]) -> Result<(), Fault>
    ensures answer { result ≡ form_answer (S.vars source.now) claim.now }
    ensures first { S.vars source.now ≤ 1024 → length claim.now ≡ S.vars source.now → TellsFirst is_bit ClaimForm claim.now result }
{
    let n = source.variables();
    if n > 1024 || claim.len() != n as usize {
        return Err(Fault::ClaimForm(0));
    }
    if let Some(i) = claim.iter().position(|b| *b > 1) {
        return Err(Fault::ClaimForm(i as u32 + 1));
    }
    Ok(())
}
