//! What a worker's hand knows, for the rule of the blocks' table.
//! How a view begins, changes and is cut is in specs/Views.antt.
use crate::partition::Partition;
use std::collections::LinkedList;

/// No value of it is made: it stands in proofs alone.
pub struct View {
    pub partition: Partition,
    pub number: u32,
    // How many of the numbers after its own the hand may still give to new hands.
    pub spare: u32,
    // The leaf numbers that it got, in order.
    pub taken: LinkedList<u32>,
    // The blocks that it found empty, in order.
    pub met: LinkedList<u32>,
}
