//! The marks of a candidate, kept as a witness of its total, and the order in which an answer lists
//! candidates. Rankings are in specs/Rankings.antt, the order of candidates in specs/Shortlex.antt, that of
//! entries in specs/Before.antt, and the first few of a list in specs/Ranked.antt.
#![tactic(auto)]

mod laws;
mod witness;

pub use laws::{first_of_a_list, orders_are_rankings};
pub use witness::{Witness, joined, shortlex, shortlex_joined};
