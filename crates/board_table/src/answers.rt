//! What the calls on a shared board answer.

use crate::seat::Seat;
use board_core::{Claim, Logged, Taken};
use interval_kit::{Fused, Piece};

/// The answer to an offer. A piece that isn't kept comes back.
#[derive(Drop)]
pub enum Offered<V> {
    Kept,
    /// The interval meets a held or a claimed one.
    Overlaps(Piece<V>),
    /// The board has no room for a further entry.
    Full(Piece<V>),
    /// Another caller had the turn.
    Busy(Piece<V>),
}

/// The answer to a claim.
#[derive(Drop)]
pub enum Claimed<V> {
    Pair(Taken<V>),
    /// No two held pieces are adjacent.
    NoPair,
    /// The board has no room for the entry of the claim and the one that closes it.
    Full,
    /// Another caller had the turn.
    Busy,
}

/// The answer to a pair that is settled.
#[derive(Drop)]
pub enum Settled<V> {
    Kept,
    /// Another caller had the turn. The pair and the value come back.
    Busy(Taken<V>, V),
}

/// The answer to a pair that is put back.
#[derive(Drop)]
pub enum PutBack<V> {
    Kept,
    /// Another caller had the turn. The pair comes back.
    Busy(Taken<V>),
}

/// What is left of a board that was closed.
#[derive(Drop)]
pub enum Leftover<F: Fused> {
    /// The board's own lists, the held pieces and the claims by ascending `lo`, and its log.
    Left {
        seat: Seat<F>,
        held: Vec<Piece<F::Value>>,
        claimed: Vec<Claim>,
        log: Vec<Logged>,
    },
    /// Another caller had the turn.
    Nothing(Seat<F>),
}
