//! Semirings of at most 16 elements that are given by the tables of their sums and products. Tables and semirings are
//! in table.rt, and how tables are looked at for the laws is in checks.rt. The laws by their numbers are in laws.rt.
//! limits.rt has the limits as numbers.
#![tactic(auto)]

mod checks;
mod laws;
mod limits;
mod table;
#[cfg(test)]
mod tests;

pub use checks::{Break, SemiringFault, check_semiring};
pub use laws::LAWS;
pub use limits::semiring_limits;
pub use table::{GREATEST_SIZE, RawSemiring, TableSemiring};
