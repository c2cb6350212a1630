//! The board: its lists, and the calls on it. Each call is what specs/Calls.antt says.
//! The lists are in ascending order and have all their room from the start.
//! Pieces and claims stand in queues, where a put or a take moves the shorter side of its place:
//! pairs are mostly taken and settled near the front, and higher pieces come in near the back.

ghost use Rattle.std.specs.Prelude.{◌≡◌, ◌+◌, ◌<◌, ◌≤◌, ◌++◌, ◌∷◌, [], IfOk, IsTrue};
ghost use Rattle.std.specs.List.{list_any};
ghost use Rattle.std.specs.Vec.{vec_len, vec_capacity};
ghost use Rattle.std.specs.VecDeque.{deque_len, deque_capacity};
ghost use Rattle.board_core.specs.Ordered.{IsRisingBy};
ghost use Rattle.board_core.specs.Board.{empty, free, claim_of, is_same, IsClaim, put_piece};
ghost use Rattle.board_core.specs.Board.{without_claim, offer_entry, with_settle, with_put_back};
ghost use Rattle.board_core.specs.Calls.{Offers, Claims, AnswersPlainly};
ghost use Rattle.board_core.specs.Sound.{IsSound};

use crate::event::{Event, Logged, Reply};
use crate::places::{drop_claim, lies_clear, pair_place, put, take_pair};
use crate::taken::{Claim, CoreClaimed, CoreOffered, Lists, Taken};
use interval_kit::Piece;
use std::alloc::{AllocError, Global};
use std::collections::VecDeque;
use std::marker::Model;

#[cfg(test)]
mod tests;

/// Pieces that are held, claims for the pairs that were handed out, and the log of the calls that
/// changed the board. A contract sees it as a `PlainBoard`. No call after `new` takes memory.
#[derive(Drop)]
pub struct Core<V> {
    rows: u32,
    room: u32,
    held: VecDeque<Piece<V>>,
    claims: VecDeque<Claim>,
    log: Vec<Logged>,
}

impl<V> Model for Core<V> {
    ghost use Rattle.board_core.specs.Board.{PlainBoard, plain};
    ghost use Rattle.board_core.specs.Lists.{IsCore};

    ghost Value = { PlainBoard V };

    ghost view = { λ c. plain c.rows c.room c.held.items c.claims.items c.log.items };

    ghost invariant = { λ c. IsCore c.rows c.room c.held c.claims c.log };
}

impl<V> Core<V> {
    /// The calls that changed the board, from the first to the last. It takes no memory.
    pub fn log(&self) -> &[Logged]
        ensures log { result.now ≡ self.now.log }
        ensures sound { IsSound self.now }
    {
        &self.log
    }

    /// The board's own lists. It takes no memory, and time that grows with their lengths.
    pub fn into_lists(self) -> Lists<V>
        ensures held { result.held.items ≡ self.held }
        ensures claimed { result.claimed.items ≡ self.claims }
        ensures log { result.log.items ≡ self.log }
        ensures sound { IsSound self }
    {
        let Core {
            rows: _,
            room: _,
            held,
            claims,
            log,
        } = self;
        Lists {
            held: held.into_vec(),
            claimed: claims.into_vec(),
            log,
        }
    }

    fn free(&self) -> usize
        ensures { result ≡ free self.now }
    {
        self.room as usize - (self.log.len() + self.claims.len())
    }
}

impl<V: Drop> Core<V> {
    /// An empty board for the rows `0..rows`, whose log has room for `room` entries.
    /// It takes the memory of all later calls: `room` pieces, claims and entries.
    pub fn new(alloc: Global, rows: u32, room: u32) -> Result<Core<V>, AllocError>
        ensures empty { IfOk result (λ board. board ≡ empty rows room) }
    {
        Ok(Core {
            rows,
            room,
            held: VecDeque::with_capacity(alloc, room as usize)?,
            claims: VecDeque::with_capacity(alloc, room as usize)?,
            log: Vec::with_capacity(alloc, room as usize)?,
        })
    }

    /// Holds the piece. Overlaps and Full hand it back, and the board is as before.
    /// It finds the piece's place by halving, and looks at the neighbours alone.
    /// What is held below the place or above it then moves by one, whichever is less.
    pub fn offer(&mut self, who: u32, piece: Piece<V>) -> CoreOffered<V>
        requires nonempty { piece.lo < piece.hi }
        requires within { piece.hi ≤ self.old.rows }
        ensures answer { Offers self.old who piece result self.new }
        ensures sound { IsSound self.new }
    {
        let (lo, hi) = (piece.lo, piece.hi);
        if !lies_clear(&self.held, lo, hi) || !lies_clear(&self.claims, lo, hi) {
            return CoreOffered::Overlaps(piece);
        }
        if self.free() == 0 {
            return CoreOffered::Full(piece);
        }
        hold(&mut self.held, &mut self.log, who, piece);
        CoreOffered::Kept
    }

    /// Hands out the adjacent pair of held pieces that begins lowest. Both leave the held ones,
    /// and their joint interval is claimed until the pair is settled or put back.
    /// NoPair and Full leave the board as before. It walks over the held pieces up to the pair,
    /// and what is held below it or above it moves by two, whichever is less.
    pub fn claim(&mut self, who: u32) -> CoreClaimed<V>
        ensures answer { Claims self.old who result self.new }
        ensures plainly { AnswersPlainly self.old result self.new }
        ensures sound { IsSound self.new }
    {
        let Some(at) = pair_place(&self.held) else {
            return CoreClaimed::NoPair;
        };
        if self.free() < 2 {
            return CoreClaimed::Full;
        }
        let (left, right) = take_pair(&mut self.held, at);
        let (lo, mid, hi) = (left.lo, left.hi, right.hi);
        put(&mut self.claims, Claim { who, lo, mid, hi });
        let (event, reply) = (Event::Claim, Reply::Pair { lo, mid, hi });
        append(&mut self.log, Logged { who, event, reply });
        CoreClaimed::Pair(Taken { who, left, right })
    }

    /// Ends the claim, and holds the joint interval with the value.
    /// It finds the claim and the place by halving; the shorter side of each moves by one.
    pub fn settle(&mut self, taken: Taken<V>, value: V)
        requires is_claim { IsClaim taken self.old.claims }
        ensures settled { self.new ≡ with_settle self.old taken value }
        ensures sound { IsSound self.new }
    {
        let claim = claim_of(&taken);
        let Claim { who, lo, mid, hi } = claim;
        drop_claim(&mut self.claims, claim);
        put(&mut self.held, Piece { lo, hi, value });
        let (event, reply) = (Event::Settle { lo, mid, hi }, Reply::Kept);
        append(&mut self.log, Logged { who, event, reply });
    }

    /// Ends the claim, and holds both pieces again.
    /// It finds the claim and the places by halving; the shorter side of each moves by one.
    pub fn put_back(&mut self, taken: Taken<V>)
        requires is_claim { IsClaim taken self.old.claims }
        ensures put_back { self.new ≡ with_put_back self.old taken }
        ensures sound { IsSound self.new }
    {
        let Claim { who, lo, mid, hi } = claim_of(&taken);
        hold_again(&mut self.held, &mut self.claims, taken);
        let (event, reply) = (Event::PutBack { lo, mid, hi }, Reply::Kept);
        append(&mut self.log, Logged { who, event, reply });
    }
}

// An offer that is kept: the piece is held, and the log says so.
fn hold<V: Drop>(held: &mut VecDeque<Piece<V>>, log: &mut Vec<Logged>, who: u32, piece: Piece<V>)
    requires rises { IsRisingBy (λ p. p.lo) held.old.items }
    requires held_room { deque_len held.old < deque_capacity held.old }
    requires log_room { vec_len log.old < vec_capacity log.old }
    ensures held { held.new.items ≡ put_piece piece held.old.items }
    ensures held_len { deque_len held.new ≡ deque_len held.old + 1 }
    ensures held_capacity { deque_capacity held.old ≤ deque_capacity held.new }
    ensures log { log.new.items ≡ log.old.items ++ offer_entry who piece ∷ [] }
    ensures log_len { vec_len log.new ≡ vec_len log.old + 1 }
    ensures log_capacity { vec_capacity log.old ≤ vec_capacity log.new }
{
    let (lo, hi) = (piece.lo, piece.hi);
    put(held, piece);
    let (event, reply) = (Event::Offer { lo, hi }, Reply::Kept);
    append(log, Logged { who, event, reply });
}

// The claim ends, and both of its pieces are held. The right one goes first, since it begins higher.
fn hold_again<V: Drop>(held: &mut VecDeque<Piece<V>>, claims: &mut VecDeque<Claim>, taken: Taken<V>)
    requires held_rises { IsRisingBy (λ p. p.lo) held.old.items }
    requires right_rises { IsRisingBy (λ p. p.lo) (put_piece taken.right held.old.items) }
    requires held_room { deque_len held.old + 1 < deque_capacity held.old }
    requires claims_rise { IsRisingBy (λ c. c.lo) claims.old.items }
    requires is_open { IsTrue (list_any (λ c. is_same c (claim_of taken)) claims.old.items) }
    ensures held { held.new.items ≡ put_piece taken.left (put_piece taken.right held.old.items) }
    ensures held_len { deque_len held.new ≡ deque_len held.old + 2 }
    ensures held_capacity { deque_capacity held.old ≤ deque_capacity held.new }
    ensures claims { claims.new.items ≡ without_claim (claim_of taken) claims.old.items }
    ensures claims_len { deque_len claims.new + 1 ≡ deque_len claims.old }
    ensures claims_capacity { deque_capacity claims.new ≡ deque_capacity claims.old }
{
    drop_claim(claims, claim_of(&taken));
    put(held, taken.right);
    put(held, taken.left);
}

fn claim_of<V>(taken: &Taken<V>) -> Claim
    ensures { result ≡ claim_of taken.now }
{
    Claim {
        who: taken.who,
        lo: taken.left.lo,
        mid: taken.left.hi,
        hi: taken.right.hi,
    }
}

fn append(log: &mut Vec<Logged>, logged: Logged)
    requires room { vec_len log.old < vec_capacity log.old }
    ensures items { log.new.items ≡ log.old.items ++ logged ∷ [] }
    ensures len { vec_len log.new ≡ vec_len log.old + 1 }
    ensures capacity { vec_capacity log.old ≤ vec_capacity log.new }
{
    let Ok(()) = log.push(logged) else {
        unreachable!()
    };
}
