//! The rules of a specification that need no name looked up: which parts stand once, which belong together, and
//! the limits of the language. specs/SpecRules.antt has them in their order.
//! src/parts_once.rt has the rules on parts, src/limits.rt the limits of a line.
#![tactic(auto)]

mod fault;
mod limits;
mod parts_once;
mod rules;

pub use fault::{Limit, RuleFault, SinglePart};
pub use rules::rule_fault;
