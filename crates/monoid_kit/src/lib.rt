//! Finite monoids, in which tests are computed. The trait is in monoid.rt, and its laws in
//! specs/Monoid.antt; sums that stop one past a bound are in capped_sum.rt, sums of remainders in
//! modular.rt, and monoids that are given by a table in table.rt. law.rt has their limits as numbers.
//! span.rt has runs of neighbours that a left factor moves together.
#![tactic(auto)]

mod capped_sum;
mod checks;
mod law;
mod modular;
mod monoid;
mod span;
mod table;

pub use capped_sum::{CappedSum, GREATEST_BOUND};
pub use checks::{TableFault, check_table};
pub use law::monoid_limits;
pub use modular::{GREATEST_MODULUS, Modular};
pub use monoid::Monoid;
pub use span::Span;
pub use table::{GREATEST_TABLE, RawTable, TableMonoid};
