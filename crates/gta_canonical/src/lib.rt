//! Printing a specification. The canonical text is in specs/Canonical.antt; which specification a text
//! is, and which there are, is in gta_spec.
#![tactic(auto)]

mod keep_printing;
mod part_printing;
mod printing;
mod showing;

pub use showing::show_spec;
