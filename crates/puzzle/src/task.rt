use futoshiki::Futoshiki;
use layers::Fix;

/// A puzzle as a task: the clauses of board and signs with the givens fixed over them, and the claim, one byte for each variable.
#[derive(Drop)]
pub struct Task {
    pub source: Fix<Futoshiki>,
    pub claim: Vec<u8>,
}
