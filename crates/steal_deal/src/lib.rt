//! Leaf numbers dealt in blocks, from which workers draw and steal.
//! specs/Partition.antt says which numbers a block has, specs/Rule.antt what holds between any two
//! steps of any workers, and specs/Draws.antt what one call gives.
#![tactic(auto)]

mod blocks;
mod dealing;
mod hand;
mod partition;
mod view;

pub use blocks::Blocks;
pub use dealing::{Dealt, deal};
pub use hand::{Drawn, Hand};
pub use partition::MOST_WORKERS;
