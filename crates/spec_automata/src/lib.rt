//! The automata of a specification: their moves by number, their transition monoids, and the first fault of those that
//! are not total or have too many functions. specs/Automata.antt has the automaton of a line, specs/Faults.antt the
//! faults, and specs/Ready.antt what is known of the lines before.
#![tactic(auto)]

mod automata;
mod fault;
mod moves;

pub use automata::checked_automata;
pub use fault::AutomataFault;
