//! The best k candidates, as a semiring. An entry and the order of entries are in src/entry.rt, a list of entries
//! in src/best.rt, and the semiring in src/kit.rt: it is that of the first k (first_k) in the order of entries.
//! The operations are in specs/Best.antt. Entries whose marks are kept as runs are in src/run_entry.rt: the first k
//! of them (FirstK<RunsByTotal>) are made faster, and listed at the end.
#![tactic(auto)]

mod aggregate;
mod best;
mod entry;
mod kit;
mod run_entry;

pub use aggregate::{best_sums_are_aggregates, run_sums_are_aggregates};
pub use best::Best;
pub use entry::{ByTotal, Entry};
pub use kit::BestK;
pub use run_entry::{RunEntry, RunsByTotal, listed};
