//! Generators that are written by states and moves. What they generate is in specs/Walks.antt.

/// The most states of a walker.
pub const STATE_LIMIT: usize = 8;

/// At a row a move leads from one state to another, and takes the row with a label, or skips it. States and labels
/// count from 0; where no labels are declared every label is 0.
#[derive(Clone, Copy, PartialEq, Eq, Debug)]
pub struct Move {
    pub from: u32,
    pub to: u32,
    pub take: Option<u32>,
}

/// The states of a generator: how many there are, the one in which a walk starts, and whether it may end in each; and
/// the moves between them. Which walkers are valid is in specs/Walks.antt (`IsWalker`).
#[derive(Debug, Drop)]
pub struct Walker {
    pub states: u32,
    pub start: u32,
    pub ends: Vec<bool>,
    pub moves: Vec<Move>,
}
