//! Seats and notes: a seat for a further caller, and what one caller has seen told to another.

ghost use Rattle.std.specs.Prelude.{◌≡◌, ◌-◌, ◌≤◌};
ghost use Rattle.board_table.specs.Seen.{IsReady, new_seat};
ghost use Rattle.board_table.specs.Notes.{IsNoteOf, Meets};

use crate::board::Board;
use crate::note::Note;
use crate::seat::Seat;
use crate::table::{Look, Meet, Share, Tell};
use interval_kit::Fused;

impl<F: Fused> Board<F> {
    /// The old seat with one number less to give, and a new seat with the last of its numbers.
    /// Takes no memory.
    pub fn share(&self, mut seat: Seat<F>) -> (Seat<F>, Seat<F>)
        requires ready { IsReady self.now seat }
        requires spare { 1 ≤ seat.spare }
        ensures old { result.0 ≡ record seat { spare = seat.spare - 1 } }
        ensures new { result.1 ≡ new_seat seat }
    {
        let raw = self.table.shared.split_seat::<Share>(&mut seat.raw);
        let number = seat.number + seat.spare;
        seat.spare -= 1;
        let new = Seat {
            raw,
            number,
            spare: 0,
        };
        (seat, new)
    }

    /// A token of what the seat has seen. Takes no memory.
    pub fn note(&self, seat: &mut Seat<F>) -> Note<F>
        requires ready { IsReady self.now seat.old }
        ensures same { seat.new ≡ seat.old }
        ensures note { IsNoteOf seat.old result }
    {
        let raw = self.table.shared.split_seat::<Tell>(&mut seat.raw);
        Note { raw }
    }

    /// From now on the seat has seen what the note has. Takes no memory.
    pub fn meet(&self, seat: &mut Seat<F>, note: Note<F>)
        requires ready { IsReady self.now seat.old }
        requires note { note.table ≡ self.now }
        ensures ready { IsReady self.now seat.new }
        ensures meets { Meets seat.old note seat.new }
    {
        let shared = &self.table.shared;
        shared.join_seat::<Meet>(&mut seat.raw, note.raw);
        shared.load::<Look<F>>(&mut seat.raw, 0);
    }
}
