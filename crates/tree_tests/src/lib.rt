//! Tests of interval_tree: rows that are set, pushed and popped, also where a leaf or a join finds no memory. They
//! stand in a crate of their own, since a crate with tests is proved twice.
#![tactic(auto)]

pub mod counting;
#[cfg(test)]
mod edits;
