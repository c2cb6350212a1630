//! What a board hands out and takes back: pairs, the claims that stand for them, and its answers.

use crate::event::Logged;
use interval_kit::Piece;

/// Stands on a board in place of the two pieces `lo..mid` and `mid..hi` that were handed to `who`.
#[derive(Clone, Copy, PartialEq, Eq, Debug)]
pub struct Claim {
    pub who: u32,
    pub lo: u32,
    pub mid: u32,
    pub hi: u32,
}

/// The two pieces of a claim. `left` ends where `right` begins.
#[derive(Drop)]
pub struct Taken<V> {
    pub who: u32,
    pub left: Piece<V>,
    pub right: Piece<V>,
}

/// The answer to an offer. A piece that isn't kept comes back.
#[derive(Drop)]
pub enum CoreOffered<V> {
    Kept,
    /// The interval meets a held or a claimed one.
    Overlaps(Piece<V>),
    /// The board has no room for a further entry.
    Full(Piece<V>),
}

/// The answer to a claim.
#[derive(Drop)]
pub enum CoreClaimed<V> {
    Pair(Taken<V>),
    /// No two held pieces are adjacent.
    NoPair,
    /// The board has no room for the entry of the claim and the one that closes it.
    Full,
}

/// A board's own lists: its held pieces and its claims, by ascending `lo`, and its log.
#[derive(Drop)]
pub struct Lists<V> {
    pub held: Vec<Piece<V>>,
    pub claimed: Vec<Claim>,
    pub log: Vec<Logged>,
}
