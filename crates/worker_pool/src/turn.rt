//! One function for each kind of turn. Each tries at most once for each thing that it asks of the
//! board, and says what is in hand then.

ghost use Rattle.std.specs.Prelude.{◌≡◌, ◌+◌, ◌-◌, ◌<◌, ◌≤◌, [], ◌∷◌, Some, length};
ghost use Rattle.board_core.specs.Board.{claim_of};
ghost use Rattle.board_table.specs.Answers.{IsPair, StandsIn};
ghost use Rattle.board_table.specs.Seen.{IsReady, IsSameSeat};
ghost use Rattle.worker_pool.specs.Leaves.{HasMetAll};
ghost use Rattle.worker_pool.specs.Pockets.{IsStanding};
ghost use Rattle.worker_pool.specs.Turns.{IsNotDrained, LeafEnds, TurnEnds};
ghost use Rattle.worker_pool.specs.Sites.{IsAtWork, TakesTurn, spent_by};

use crate::pocket::Pocket;
use crate::site::{Site, Worker};
use board_core::Taken;
use board_table::{Board, Claimed, Offered, PutBack, Seat, Settled};
use interval_kit::{Fused, Piece};
use std::alloc::{AllocError, Global};
use std::sync::ledger::Ledger;
use step_count::Steps;

/// How a turn ends.
#[derive(Drop)]
pub(crate) enum Turn<V> {
    /// The board has all that was in hand.
    Went,
    /// Another caller had the board.
    Missed(Pocket<V>),
    /// The board doesn't take the piece.
    Refused(Piece<V>),
    /// The board has no pair, or no room for one.
    Drained,
    /// There was no memory for a leaf or a join, and nothing is in hand.
    Memory,
    /// There was no memory for a join, and another caller had the board as the pair was put back.
    Unreturned(Taken<V>),
}

/// Offers the piece.
pub(crate) fn offer<F: Fused>(
    board: &Board<F>,
    seat: &mut Seat<F>,
    piece: Piece<F::Value>,
) -> Turn<F::Value>
    requires ready { IsReady board.now seat.old }
    requires taken { seat.old.taken ≡ [] }
    requires stands { IsStanding F.rows F.stands seat.old.plan piece }
    ensures ready { IsReady board.now seat.new }
    ensures same { IsSameSeat seat.old seat.new }
    ensures undrained { IsNotDrained result }
    ensures turn { TurnEnds F.rows F.stands seat.old (Pocket.Offer piece) 0 result seat.new }
{
    match board.offer(seat, piece) {
        Offered::Kept => Turn::Went,
        Offered::Overlaps(piece) => Turn::Refused(piece),
        Offered::Full(piece) => Turn::Refused(piece),
        Offered::Busy(piece) => Turn::Missed(Pocket::Offer(piece)),
    }
}

/// Settles the pair.
pub(crate) fn settle<F: Fused>(
    board: &Board<F>,
    seat: &mut Seat<F>,
    taken: Taken<F::Value>,
    value: F::Value,
) -> Turn<F::Value>
    requires ready { IsReady board.now seat.old }
    requires taken { seat.old.taken ≡ claim_of taken ∷ [] }
    requires pair { IsPair F.rows F.stands seat.old.plan taken }
    requires stands { StandsIn F.stands seat.old.plan taken.left.lo taken.right.hi value }
    ensures ready { IsReady board.now seat.new }
    ensures same { IsSameSeat seat.old seat.new }
    ensures undrained { IsNotDrained result }
    ensures turn { TurnEnds F.rows F.stands seat.old (Pocket.Settle taken value) 0 result seat.new }
{
    match board.settle(seat, taken, value) {
        Settled::Kept => Turn::Went,
        Settled::Busy(taken, value) => Turn::Missed(Pocket::Settle(taken, value)),
    }
}

/// Puts back the pair, for whose join there was no memory.
pub(crate) fn put_back<F: Fused>(
    board: &Board<F>,
    seat: &mut Seat<F>,
    taken: Taken<F::Value>,
) -> Turn<F::Value>
    requires ready { IsReady board.now seat.old }
    requires taken { seat.old.taken ≡ claim_of taken ∷ [] }
    requires pair { IsPair F.rows F.stands seat.old.plan taken }
    ensures ready { IsReady board.now seat.new }
    ensures same { IsSameSeat seat.old seat.new }
    ensures undrained { IsNotDrained result }
    ensures turn { TurnEnds F.rows F.stands seat.old (Pocket.Return taken) 0 result seat.new }
{
    match board.put_back(seat, taken) {
        PutBack::Kept => Turn::Memory,
        PutBack::Busy(taken) => Turn::Unreturned(taken),
    }
}

/// Computes the leaf `lo..hi` and offers it.
pub(crate) fn leaf<F: Fused, L: Ledger>(
    alloc: Global,
    site: &Site<F>,
    seat: &mut Seat<F>,
    lo: u32,
    hi: u32,
    steps: &mut Steps<L>,
) -> Turn<F::Value>
    requires ready { IsReady site.now.board.now seat.old }
    requires taken { seat.old.taken ≡ [] }
    requires plan { seat.old.plan ≡ Some site.now.plan.now }
    requires nonempty { lo < hi }
    requires within { hi ≤ F.rows site.now.plan.now }
    ensures ready { IsReady site.now.board.now seat.new }
    ensures same { IsSameSeat seat.old seat.new }
    ensures undrained { IsNotDrained result }
    ensures turn { LeafEnds F.rows F.stands seat.old lo hi result seat.new }
    ensures cost { steps.new ≤ steps.old + F.leaf_bound site.now.plan.now (hi - lo) }
{
    let Ok(value) = site.plan.leaf(alloc, lo, hi, steps) else {
        return Turn::Memory;
    };
    offer(site.board, seat, Piece { lo, hi, value })
}

/// Claims a pair, joins it and settles it. Every block was found empty before.
pub(crate) fn pair<F: Fused, L: Ledger>(
    alloc: Global,
    site: &Site<F>,
    worker: &mut Worker<F>,
    steps: &mut Steps<L>,
) -> Turn<F::Value>
    requires at_work { IsAtWork site.now worker.old }
    requires taken { worker.old.seat.taken ≡ [] }
    requires none_left { HasMetAll worker.old.hand.view }
    requires counted { worker.old.pairs ≤ length worker.old.seat.mine }
    ensures at_work { IsAtWork site.now worker.new }
    ensures same { IsSameSeat worker.old.seat worker.new.seat }
    ensures turn { TakesTurn F.rows F.stands site.now.cut.now worker.old Pocket.Empty result
        worker.new }
    ensures cost { steps.new + spent_by F.leaf_bound F.join_bound site.now worker.old
        ≤ steps.old + spent_by F.leaf_bound F.join_bound site.now worker.new }
{
    match site.board.claim(&mut worker.seat) {
        Claimed::Pair(taken) => {
            worker.pairs += 1;
            join(alloc, site, &mut worker.seat, taken, steps)
        }
        Claimed::NoPair => Turn::Drained,
        Claimed::Full => Turn::Drained,
        Claimed::Busy => Turn::Missed(Pocket::Empty),
    }
}

/// Joins the pair and settles it, or puts it back if there is no memory.
fn join<F: Fused, L: Ledger>(
    alloc: Global,
    site: &Site<F>,
    seat: &mut Seat<F>,
    taken: Taken<F::Value>,
    steps: &mut Steps<L>,
) -> Turn<F::Value>
    requires ready { IsReady site.now.board.now seat.old }
    requires taken { seat.old.taken ≡ claim_of taken ∷ [] }
    requires pair { IsPair F.rows F.stands seat.old.plan taken }
    requires plan { seat.old.plan ≡ Some site.now.plan.now }
    ensures ready { IsReady site.now.board.now seat.new }
    ensures same { IsSameSeat seat.old seat.new }
    ensures undrained { IsNotDrained result }
    ensures turn { TurnEnds F.rows F.stands seat.old (Pocket.Return taken) 0 result seat.new }
    ensures cost { steps.new ≤ steps.old + F.join_bound site.now.plan.now }
{
    let (left, right) = (&taken.left, &taken.right);
    let (lo, mid, hi) = (left.lo, left.hi, right.hi);
    match site
        .plan
        .join(alloc, lo, mid, hi, &left.value, &right.value, steps)
    {
        Ok(value) => settle(site.board, seat, taken, value),
        Err(AllocError) => put_back(site.board, seat, taken),
    }
}
