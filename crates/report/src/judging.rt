ghost use Rattle.std.specs.Prelude.{◌≡◌, ◌≤◌, length, MatchResult};
ghost use Rattle.cnf.specs.Checks.{claim_answer};
ghost use Rattle.puzzle.specs.Poses.{fixed_variables, fixed_clauses};
ghost use Rattle.report.specs.Reported.{claim_report, reported};
ghost use Rattle.report.specs.Theorems.{ReportMeans};

use crate::verdict::Report;
use cnf::{Fault, Source, check_claim};
use puzzle::{Task, pose};
use std::alloc::{AllocError, Global};
use words::words_of;

// The most bytes of a puzzle file.
const LIMIT: usize = 65536;

// The report on a task: its source's numbers if the claim is one of its models, else the fault.
fn judge_task(task: &Task) -> Report
    ensures { result ≡ claim_report (fixed_variables task.now.source) (fixed_clauses task.now.source) (claim_answer (fixed_variables task.now.source) (fixed_clauses task.now.source) task.now.claim.items) }
{
    match check_claim(&task.source, task.claim.as_slice()) {
        Ok(()) => Report::Source(task.source.variables(), task.source.clauses()),
        Err(fault) => Report::Refusal(fault),
    }
}

/// The report on the bytes of a puzzle file. It tells the source's numbers exactly when the file is short enough, its words
/// are those of an accepted puzzle, and the claimed filling keeps the puzzle's rules and givens.
pub fn judge(heap: Global, bytes: &[u8]) -> Result<Report, AllocError>
    ensures answer { MatchResult result (λ x. x ≡ reported bytes.now) (λ _. length bytes.now ≤ 65536) }
    ensures means { ReportMeans bytes.now }
{
    if bytes.len() > LIMIT {
        return Ok(Report::Refusal(Fault::TooManyBytes));
    }
    let words = words_of(heap, bytes)?;
    match pose(heap, words.as_slice())? {
        Ok(task) => Ok(judge_task(&task)),
        Err(fault) => Ok(Report::Refusal(fault)),
    }
}
