//! The shapes of candidates, and the candidates themselves as plain lists.
//! specs/Candidates.antt lists them; an answer is found without listing any.
//! How many there are, and how many marks they have, is in counting.rt.
#![tactic(auto)]

mod counting;
mod mark;
mod shape;

pub use counting::{EXTENT_CAP, Extent, sizes};
pub use mark::Mark;
pub use shape::Shape;
