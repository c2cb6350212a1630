//! Semirings, in which answers are computed. The trait is in semiring.rt, and its laws
//! in specs/Semiring.antt. How many there are is in count.rt, whether there is any in truth.rt,
//! and the greatest and the least sum of weights in max_plus.rt and min_plus.rt. Weights of three numbers are in
//! weight.rt, and the greatest sum of them in rank_plus.rt.
//! What their sums over a list are is in aggregates.rt.
#![tactic(auto)]

mod aggregates;
mod count;
mod max_plus;
mod min_plus;
mod rank_plus;
mod semiring;
mod truth;
mod weight;

pub use aggregates::sums_are_aggregates;
pub use count::Count;
pub use max_plus::MaxPlus;
pub use min_plus::MinPlus;
pub use rank_plus::RankPlus;
pub use semiring::Semiring;
pub use truth::Truth;
pub use weight::{Lex, Weight};
