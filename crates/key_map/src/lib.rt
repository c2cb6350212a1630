//! Maps from the keys of a monoid to the values of a semiring, and their convolution.
//! The trait is in map_kit.rt, and the convolution in specs/Convolution.antt.
//! Maps that keep a list of slots are in sparse_kit.rt; their sums are taken in merge.rt,
//! and their products gathered in gather.rt over the rows of row.rt, or one after the other in collect.rt.
#![tactic(auto)]

mod collect;
mod gather;
mod map_kit;
mod merge;
mod row;
mod slot;
mod sparse_kit;

pub use map_kit::MapKit;
pub use slot::Slot;
pub use sparse_kit::SparseKit;
