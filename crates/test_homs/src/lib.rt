//! Tests as letters and keys: the product of a candidate's letters decides whether it passes.
//! specs/Homs.antt has keys and what they decide, specs/Hom.antt what a test is, specs/Kinds.antt the kinds of tests,
//! specs/Joined.antt the keys of all tests together, specs/Order.antt in which order, specs/Sizes.antt how many keys
//! there are, and specs/Negatives.antt the first value that a compared sum can't take.
#![tactic(auto)]

mod added;
mod compared;
mod fold;
mod joined;
mod kind;
mod kinds;
mod negatives;
mod order;
mod prepared;
mod remainder;
mod run;
mod tests_of;

pub use negatives::{Negative, first_negative};
pub use tests_of::{Tests, ValueFault, prepare_tests};
