//! Candidates that are written by states and moves: what the walks over all rows take, from the start to a state that
//! is an end. specs/Walks.antt lists them; how many there are, and how many marks they have, is in counting.rt.
//! The program doesn't use them yet.
#![tactic(auto)]

mod counting;
mod law;
#[cfg(test)]
mod tests;
mod walker;

pub use counting::walk_sizes;
pub use law::walks_are_cut_anywhere;
pub use walker::{Move, STATE_LIMIT, Walker};
