//! Specifications whose names are resolved to numbers, and the rows of a table, as types that keep their limits.
//! specs/Plain.antt has a checked specification with lists in place of vectors, and specs/Within.antt its limits.
#![tactic(auto)]

mod checked;
mod resolved;
mod rows;

pub use checked::Checked;
pub use resolved::{Atom, Case, Goal, Keep, Measure, Pick, Rank, Table, Term, Test};
pub use rows::Rows;
