//! Checks a specification and resolves its names to numbers. Which names are declared and used is in
//! specs/Names.antt, what a name becomes is in specs/Resolved.antt, and the faults in their order are in
//! specs/Faults.antt. The code looks names up in an index, which is in specs/Index.antt.
#![tactic(auto)]

mod checking;
mod declaring;
mod drafting;
mod fault;
mod gathering;
mod index;
mod joining;
mod law;
mod lists;
mod names;
mod naming;
mod resolving;
mod uses;

pub use checking::check;
pub use fault::CheckFault;
pub use gta_checked::{Checked, Rows};
pub use law::resolving_is_resolved_of;
