//! Where workers work, and what one of them has with it.
//! What holds of both between two turns is in specs/Sites.antt.

use board_table::{Board, Seat};
use interval_kit::{Cut, Fused};
use steal_deal::{Blocks, Hand};

/// Where workers work: on the leaves of this cut, which the blocks deal, and on this board.
#[derive(Drop)]
pub(crate) struct Site<'a, F: Fused> {
    pub plan: &'a F,
    pub cut: &'a Cut,
    pub board: &'a Board<F>,
    pub blocks: &'a Blocks,
}

/// A worker's seat and hand, and how many leaves it took and how many pairs it claimed.
#[derive(Drop)]
pub(crate) struct Worker<F: Fused> {
    pub seat: Seat<F>,
    pub hand: Hand,
    pub leaves: u32,
    pub pairs: u32,
}
