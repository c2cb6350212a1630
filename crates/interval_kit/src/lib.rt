//! Intervals of rows, plans that give them values, and lists of bounds that cut the rows into leaves.
//! `lo..hi` is half-open, and rows count from 0. What a cut is stands in specs/Cut.antt.
#![tactic(auto)]

mod cut;
mod fused;
mod piece;

pub use cut::{Cut, CutFault, cut_at, cut_of};
pub use fused::Fused;
pub use piece::Piece;
