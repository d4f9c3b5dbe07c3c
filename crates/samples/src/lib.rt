// Tests of the crates below, with cases at the ends of every range and comparisons with plain evaluation.
#![tactic(auto)]

#[cfg(test)]
mod asked;
#[cfg(test)]
mod boards;
#[cfg(test)]
mod faults;
#[cfg(test)]
mod layers_told;
#[cfg(test)]
mod literals;
#[cfg(test)]
mod models;
#[cfg(test)]
mod puzzles;
#[cfg(test)]
mod sources;
#[cfg(test)]
mod stores;
