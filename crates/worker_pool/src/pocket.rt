//! What a worker has in hand between two turns.

ghost use Rattle.std.specs.Prelude.{◌≡◌, ◌+◌, ◌≤◌, ◌<◌, [], ◌∷◌, ◌++◌};
ghost use Rattle.std.specs.Vec.{vec_len, vec_capacity};
ghost use Rattle.worker_pool.specs.Pockets.{pieces_in};

use board_core::Taken;
use interval_kit::Piece;

/// What a worker computed or was handed, and could not give to the board yet.
#[derive(Drop)]
pub(crate) enum Pocket<V> {
    Empty,
    /// A piece to offer.
    Offer(Piece<V>),
    /// A claimed pair to settle, with the value of its joint interval.
    Settle(Taken<V>, V),
    /// A claimed pair to put back.
    Return(Taken<V>),
}

impl<V: Drop> Pocket<V> {
    /// The pieces in hand, in the room that is given: a pair that has its joint value is one piece.
    pub(crate) fn into_pieces(self, mut room: Vec<Piece<V>>) -> Vec<Piece<V>>
        requires empty { room.items ≡ [] }
        requires room { 2 ≤ vec_capacity room }
        ensures { result.items ≡ pieces_in self }
    {
        match self {
            Pocket::Empty => (),
            Pocket::Offer(piece) => append(&mut room, piece),
            Pocket::Settle(taken, value) => {
                let (lo, hi) = (taken.left.lo, taken.right.hi);
                append(&mut room, Piece { lo, hi, value });
            }
            Pocket::Return(taken) => {
                append(&mut room, taken.left);
                append(&mut room, taken.right);
            }
        }
        room
    }
}

fn append<V: Drop>(pieces: &mut Vec<Piece<V>>, piece: Piece<V>)
    requires room { vec_len pieces.old < vec_capacity pieces.old }
    ensures items { pieces.new.items ≡ pieces.old.items ++ piece ∷ [] }
    ensures len { vec_len pieces.new ≡ vec_len pieces.old + 1 }
    ensures capacity { vec_capacity pieces.old ≤ vec_capacity pieces.new }
{
    let Ok(()) = pieces.push(piece) else {
        unreachable!()
    };
}
