//! Reading the text of a specification. Its parts are types of gta_spec, which has the grammar too.
//! How a line is read from left to right is in specs/Rules.antt, and the refusals in their order are
//! in specs/Refused.antt. The whole as a function, `spec_of`, is in specs/Refusals.antt; that it gives
//! what the grammar and the refusals say is in specs/ByGrammar.antt.
#![tactic(auto)]

mod fault;
mod goals;
mod keep;
mod law;
mod line_rules;
mod measures;
mod reading;
mod rules;
mod source;
mod symbols;

pub use fault::SpecFault;
pub use gta_spec::Spec;
pub use law::reading_is_the_grammar;
pub use reading::{Read, first_version, read_spec};
