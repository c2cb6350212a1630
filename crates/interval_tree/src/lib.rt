//! A tree of values over the rows of a plan that is edited: an edit makes the values anew on one path alone.
//! What it means that rows are edited is in specs/Editable.antt. What a tree holds is in specs/Tree.antt and
//! specs/Node.antt, and how many levels it has in specs/Levels.antt.
#![tactic(auto)]

mod build;
mod editable;
mod edits;
mod grown;
mod last_row;
mod node;
mod replace;
mod shrunk;
mod tree;

pub use editable::Editable;
pub use tree::Tree;
