use cnf::Fault;

/// A making that was refused: the source below, given back, and why.
#[derive(Drop)]
pub struct Unmade<S> {
    pub below: S,
    pub fault: Fault,
}
