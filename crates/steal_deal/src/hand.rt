//! A worker's token, and the two calls that draw a number with it.
//! What a call gives is in specs/Draws.antt, and what contracts see of a hand in specs/Hands.antt.
ghost use Rattle.std.specs.Prelude.{◌≡◌, ◌<◌, replicate, false};
ghost use Rattle.steal_deal.specs.Hands.{HandSeen, IsDealtWith, IsHand};
ghost use Rattle.steal_deal.specs.Views.{fresh};

use crate::blocks::{Blocks, Draw};
use crate::partition::MOST_WORKERS;
use crate::view::View;
use atomic_table::Seat;
use std::marker::Model;

/// What a draw gives: a leaf number, or that the block has no more.
#[derive(Clone, Copy, Debug, PartialEq, Eq)]
pub enum Drawn {
    Leaf(u32),
    Empty,
}

/// One worker's token. Contracts see its number, the leaf numbers that it got in order as `taken`,
/// and the blocks that it found empty as `met`.
#[derive(Drop)]
pub struct Hand {
    pub(crate) seat: Seat<(), View>,
    pub(crate) number: u32,
    pub(crate) met: [bool; MOST_WORKERS as usize],
}

impl Model for Hand {
    ghost Value = { HandSeen };

    ghost view = { λ h. record { table = h.seat.table_id; view = h.seat.me.0 } };

    ghost invariant = { λ h. IsHand h.number h.met h.seat.me.0 };
}

impl Hand {
    ghost use Rattle.steal_deal.specs.Draws.{Draws};

    /// The hand of a seat whose view has drawn nothing.
    pub(crate) fn of(seat: Seat<(), View>, number: u32) -> Hand
        requires fresh { seat.me.0 ≡ fresh seat.me.0.partition number seat.me.0.spare }
        requires in_range { number < seat.me.0.partition.workers }
        ensures { result ≡ record { table = seat.table_id; view = seat.me.0 } }
    {
        let met = none_met();
        Hand { seat, number, met }
    }

    /// Draws from the block of the hand's own number, as `steal` does. Takes no memory.
    pub fn pop(&mut self, blocks: &Blocks) -> Drawn
        requires dealt { IsDealtWith blocks.now self.old }
        ensures dealt { IsDealtWith blocks.now self.new }
        ensures draw { Draws self.old.view self.old.view.number result self.new.view }
    {
        let own = self.number;
        self.steal(blocks, own)
    }

    /// Draws once from a block. A leaf is the lowest number of the block that was not handed out.
    /// Empty comes only of a block that was met before, without a draw, or whose one draw found no
    /// number left. Takes no memory.
    pub fn steal(&mut self, blocks: &Blocks, from: u32) -> Drawn
        requires dealt { IsDealtWith blocks.now self.old }
        requires block { from < blocks.now.partition.workers }
        ensures dealt { IsDealtWith blocks.now self.new }
        ensures draw { Draws self.old.view from result self.new.view }
    {
        let partition = blocks.partition;
        if self.met[from as usize] {
            return Drawn::Empty;
        }
        let place = blocks
            .table
            .shared
            .fetch_add::<Draw>(&mut self.seat, from as usize, 1);
        if place < u64::from(partition.block_size(from)) {
            return Drawn::Leaf(partition.block_begin(from) + place as u32);
        }
        self.met[from as usize] = true;
        Drawn::Empty
    }
}

fn none_met() -> [bool; MOST_WORKERS as usize]
    ensures { result ≡ replicate MOST_WORKERS false }
{
    [false; MOST_WORKERS as usize]
}
