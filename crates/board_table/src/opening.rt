//! A new board, and its first seat.

ghost use Rattle.std.specs.Prelude.{◌≡◌, ◌≤◌, IfOk};
ghost use Rattle.board_table.specs.Seen.{IsReady, first_seat};

use crate::board::Board;
use crate::seat::Seat;
use crate::table::Opening;
use atomic_table::Table;
use board_core::Core;
use interval_kit::Fused;
use std::alloc::{AllocError, Global};
use std::snapshot::Snapshot;

/// An empty board of the plan's rows for `callers` seats, with room for `room` entries, and the
/// seat of number 0, which may give the others. It takes the memory of all later calls.
pub fn start<F: Fused>(
    alloc: Global,
    plan: &F,
    room: u32,
    callers: u32,
) -> Result<(Board<F>, Seat<F>), AllocError>
    requires some_callers { 1 ≤ callers }
    ensures seat { IfOk result
        (λ r. r.1 ≡ first_seat r.0 plan.now (F.rows plan.now) room callers) }
    ensures ready { IfOk result (λ r. IsReady r.0 r.1) }
{
    let core = Core::new(alloc, plan.rows(), room)?;
    let slots = Vec::from_array(alloc, [Some(core)])?;
    let opening = Opening {
        plan: Snapshot::of(plan),
        room,
        callers,
    };
    let Ok((table, raw)) = Table::new(alloc, &[0], slots, &opening) else {
        return Err(AllocError);
    };
    let seat = Seat {
        raw,
        number: 0,
        spare: callers - 1,
    };
    Ok((Board { table }, seat))
}
