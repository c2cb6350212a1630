//! A caller's token.

use crate::table::Slot;
use crate::view::View;
use interval_kit::Fused;
use std::marker::Model;

pub type Raw<F> = atomic_table::Seat<Slot<F>, View<F>>;

/// One caller's token for a board. Contracts see its number, what it has seen of the log, its own
/// entries and open claims, and how often it won the turn or missed it.
#[derive(Drop)]
pub struct Seat<F: Fused> {
    pub(crate) raw: Raw<F>,
    pub(crate) number: u32,
    pub(crate) spare: u32,
}

impl<F: Fused> Model for Seat<F> {
    ghost use Rattle.board_table.specs.Seen.{SeatSeen, seat_seen, IsSeat};

    ghost Value = { SeatSeen F };

    ghost view = { λ s. seat_seen F.rows s.raw.table_id s.raw.me.0 };

    ghost invariant = { λ s. IsSeat s.number s.spare s.raw.me };
}

impl<F: Fused> Seat<F> {
    ghost use Rattle.std.specs.Prelude.{◌≡◌};

    pub(crate) fn number(&self) -> u32
        ensures { result ≡ self.now.number }
    {
        self.number
    }
}
