//! The transition monoid of a deterministic automaton: the functions on its states that words of
//! letters have, numbered, with their table of products. specs/Auto.antt has automata and words,
//! specs/Functions.antt functions, specs/Numbering.antt their order, and specs/MonoidOf.antt the table.
#![tactic(auto)]

mod auto;
mod calls;
mod discovery;
mod function;
mod law;
mod monoid;
mod table;
#[cfg(test)]
mod tests;

pub use auto::{Auto, AutoFault, LETTER_LIMIT, STATE_LIMIT};
pub use calls::transition_monoid;
pub use law::{auto_limits, too_many_law, transition_laws};
pub use monoid::AutoMonoid;
