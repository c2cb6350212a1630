//! Deterministic automata. What one is, and where its words lead, is in specs/Auto.antt.

/// The most states of an automaton.
pub const STATE_LIMIT: u32 = 16;

/// The most letters of an automaton.
pub const LETTER_LIMIT: u32 = 16;

/// A deterministic automaton whose states and letters are numbers. `moves` has the state to which
/// each letter leads from each state, letter by letter.
#[derive(Drop)]
pub struct Auto {
    pub states: u32,
    pub start: u32,
    pub letters: u32,
    pub moves: Vec<u32>,
}

/// Why an automaton gave no monoid.
#[derive(Clone, Copy, PartialEq, Eq, Debug)]
pub enum AutoFault {
    /// More than 64 different functions on the states are products of letters.
    TooMany,
    /// There was no memory for the functions or for their table.
    Memory,
}
