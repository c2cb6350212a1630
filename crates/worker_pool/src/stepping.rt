//! One turn of a worker: what it has in hand goes first, then a leaf, then a pair.

ghost use Rattle.std.specs.Prelude.{◌≡◌, ◌+◌, ◌^◌, ◌<◌, ◌≤◌, [], length, slice_index};
ghost use Rattle.std.specs.List.Sorted.{IsStrictlyIncreasing};
ghost use Rattle.board_table.specs.Seen.{IsSameSeat};
ghost use Rattle.worker_pool.specs.Pockets.{IsInHand};
ghost use Rattle.worker_pool.specs.Sites.{IsAtWork, IsSite, TakesTurn, spent_by};

use crate::drawing::draw;
use crate::pocket::Pocket;
use crate::site::{Site, Worker};
use crate::turn::{Turn, leaf, offer, pair, put_back, settle};
use interval_kit::Fused;
use std::alloc::Global;
use std::sync::ledger::Ledger;
use steal_deal::Drawn;
use step_count::Steps;

/// Tries to deliver what is in hand. With nothing in hand, begins something new.
pub(crate) fn take_turn<F: Fused, L: Ledger>(
    alloc: Global,
    site: &Site<F>,
    worker: &mut Worker<F>,
    pocket: Pocket<F::Value>,
    steps: &mut Steps<L>,
) -> Turn<F::Value>
    requires site { IsSite F.rows site.now }
    requires at_work { IsAtWork site.now worker.old }
    requires in_hand { IsInHand F.rows F.stands worker.old.seat pocket }
    requires counted { worker.old.pairs ≤ length worker.old.seat.mine }
    ensures at_work { IsAtWork site.now worker.new }
    ensures same { IsSameSeat worker.old.seat worker.new.seat }
    ensures turn { TakesTurn F.rows F.stands site.now.cut.now worker.old pocket result worker.new }
    ensures cost { steps.new + spent_by F.leaf_bound F.join_bound site.now worker.old
        ≤ steps.old + spent_by F.leaf_bound F.join_bound site.now worker.new }
{
    match pocket {
        Pocket::Empty => begin(alloc, site, worker, steps),
        Pocket::Offer(piece) => offer(site.board, &mut worker.seat, piece),
        Pocket::Settle(taken, value) => settle(site.board, &mut worker.seat, taken, value),
        Pocket::Return(taken) => put_back(site.board, &mut worker.seat, taken),
    }
}

/// Draws a leaf and computes it. Where no leaf is left, claims a pair.
fn begin<F: Fused, L: Ledger>(
    alloc: Global,
    site: &Site<F>,
    worker: &mut Worker<F>,
    steps: &mut Steps<L>,
) -> Turn<F::Value>
    requires site { IsSite F.rows site.now }
    requires at_work { IsAtWork site.now worker.old }
    requires none_claimed { worker.old.seat.taken ≡ [] }
    requires counted { worker.old.pairs ≤ length worker.old.seat.mine }
    ensures at_work { IsAtWork site.now worker.new }
    ensures same { IsSameSeat worker.old.seat worker.new.seat }
    ensures turn { TakesTurn F.rows F.stands site.now.cut.now worker.old Pocket.Empty result
        worker.new }
    ensures cost { steps.new + spent_by F.leaf_bound F.join_bound site.now worker.old
        ≤ steps.old + spent_by F.leaf_bound F.join_bound site.now worker.new }
{
    match draw(&mut worker.hand, site.blocks) {
        Drawn::Leaf(number) => {
            let (lo, hi) = leaf_interval(site.cut.bounds(), number);
            worker.leaves += 1;
            leaf(alloc, site, &mut worker.seat, lo, hi, steps)
        }
        Drawn::Empty => pair(alloc, site, worker, steps),
    }
}

/// The rows of the leaf of this number. Rising 32-bit bounds are few enough to be counted.
fn leaf_interval(bounds: &[u32], number: u32) -> (u32, u32)
    requires rises { IsStrictlyIncreasing bounds.now }
    requires number { number + 1 < length bounds.now }
    ensures lo { result.0 ≡ slice_index bounds.now number }
    ensures hi { result.1 ≡ slice_index bounds.now (number + 1) }
    ensures few { length bounds.now ≤ 2 ^ 32 }
{
    let at = number as usize;
    (bounds[at], bounds[at + 1])
}
