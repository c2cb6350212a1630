//! The longest piece at each bound of a cut: a list with a place for each bound.

ghost use Rattle.std.specs.Prelude.{◌≡◌, ◌≢◌, ℕ, ◌<◌, ◌≤◌, ◌==◌, All, Some, true, false};
ghost use Rattle.std.specs.Prelude.{length, slice_index, IfOk, MatchOption};
ghost use Rattle.std.specs.List.{list_any};
ghost use Rattle.std.specs.List.Sorted.{IsStrictlyIncreasing};
ghost use Rattle.std.specs.Vec.{vec_len};
ghost use Rattle.worker_pool.specs.Slots.{AreEmpty, AreLongest, KeepsLongest, slot_end};
ghost use Rattle.worker_pool.specs.Walk.{fits};

use interval_kit::Piece;
use std::alloc::{AllocError, Global};

/// At each bound the longest of the pieces whose intervals begin there and end at a bound.
/// The other pieces are dropped. It takes memory for a place at each bound.
pub(crate) fn longest_pieces<V: Drop>(
    alloc: Global,
    bounds: &[u32],
    pieces: Vec<Piece<V>>,
) -> Result<Vec<Option<Piece<V>>>, AllocError>
    requires rises { IsStrictlyIncreasing bounds.now }
    ensures len { IfOk result (λ slots. length slots.items ≡ length bounds.now) }
    ensures longest { IfOk result (λ slots. AreLongest bounds.now pieces.items 0 slots.items) }
{
    let mut slots = empty_slots(alloc, bounds.len())?;
    let places = slots.as_mut_slice();
    for piece in pieces {
        keep_longest(places, bounds, piece);
    }
    Ok(slots)
}

fn empty_slots<V: Drop>(alloc: Global, len: usize) -> Result<Vec<Option<Piece<V>>>, AllocError>
    ensures len { IfOk result (λ slots. vec_len slots ≡ len) }
    ensures empty { IfOk result (λ slots. AreEmpty slots.items) }
{
    let mut slots = Vec::with_capacity(alloc, len)?;
    for _ in 0..len {
        slots.push(None)?;
    }
    Ok(slots)
}

// Puts the piece where its interval begins, if it ends at a bound and no piece there is as long.
fn keep_longest<V: Drop>(slots: &mut [Option<Piece<V>>], bounds: &[u32], piece: Piece<V>)
    requires len { length slots.old ≡ length bounds.now }
    requires rises { IsStrictlyIncreasing bounds.now }
    ensures { KeepsLongest bounds.now piece slots.old slots.new }
{
    let Some(place) = place_of(bounds, &piece) else {
        return;
    };
    if slot_end(&slots[place]) < piece.hi {
        slots[place] = Some(piece);
    }
}

// Where the piece's interval begins, if it begins and ends at a bound.
fn place_of<V>(bounds: &[u32], piece: &Piece<V>) -> Option<usize>
    requires rises { IsStrictlyIncreasing bounds.now }
    ensures { MatchOption result
        ((j : ℕ) → j < length bounds.now
        → fits bounds.now (slice_index bounds.now j) piece.now ≡ false)
        (λ place. (place < length bounds.now) × (slice_index bounds.now place ≡ piece.now.lo)
        × (list_any (λ b. b == piece.now.hi) bounds.now ≡ true)) }
{
    index_of(bounds, piece.hi)?;
    index_of(bounds, piece.lo)
}

fn index_of(bounds: &[u32], bound: u32) -> Option<usize>
    requires rises { IsStrictlyIncreasing bounds.now }
    ensures { MatchOption result
        ((j : ℕ) → j < length bounds.now → slice_index bounds.now j ≢ bound)
        (λ j. (j < length bounds.now) × (slice_index bounds.now j ≡ bound)) }
{
    bounds.binary_search(&bound).ok()
}

fn slot_end<V>(slot: &Option<Piece<V>>) -> u32
    ensures { result ≡ slot_end slot.now }
{
    match slot {
        Some(piece) => piece.hi,
        None => 0,
    }
}
