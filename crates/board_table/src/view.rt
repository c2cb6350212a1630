//! What the callers know of their board, for the rule of the table.
//! No value of these types is made: they stand in proofs alone.

use board_core::{Claim, Logged};
use std::collections::LinkedList;

/// What all callers of one board agree on. The board's rows are those of the plan.
pub struct Terms<F> {
    pub plan: F,
    pub room: u32,
    pub callers: u32,
}

/// What a seat knows.
pub struct Place<F> {
    pub terms: Terms<F>,
    pub number: u32,
    // How many of the numbers after its own the seat may still give to new seats.
    pub spare: u32,
    // The log as the seat last saw it.
    pub seen: LinkedList<Logged>,
    // The logs that a meeting took in. They stand here until a look shows that they are one.
    pub olds: LinkedList<LinkedList<Logged>>,
    // The entries of its number, and the claims of its number that are open.
    pub mine: LinkedList<Logged>,
    pub taken: LinkedList<Claim>,
    // How often the seat won the turn, and how often it tried and did not.
    pub won: u64,
    pub missed: u64,
    // Whether it holds the turn.
    pub holds: bool,
}

/// What a note knows.
pub struct Sheet<F> {
    pub terms: Terms<F>,
    pub seen: LinkedList<Logged>,
}

/// What stands in the table for a seat, a note or a note that was met.
pub enum View<F> {
    Seat(Place<F>),
    Note(Sheet<F>),
    Spent,
}
