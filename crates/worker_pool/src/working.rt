//! A worker: its turns from the first to the one that ends it.
//! What it owes is in specs/Workers.antt.

ghost use Rattle.std.specs.Prelude.{◌≡◌, ◌+◌, ◌<◌, ◌≤◌, ◌≢◌, ◌⊎◌, ◌↔◌, Some, [], length, All};
ghost use Rattle.interval_kit.specs.Cut.{IsCut};
ghost use Rattle.steal_deal.specs.Hands.{IsDealtWith};
ghost use Rattle.board_table.specs.Seen.{IsReady, IsSameSeat};
ghost use Rattle.worker_pool.specs.Sites.{IsAtWork, IsSite, spent, spent_by};
ghost use Rattle.worker_pool.specs.Stops.{Stops};
ghost use Rattle.worker_pool.specs.Walk.{IsGood};
ghost use Rattle.worker_pool.specs.Workers.{WorkAccount, WorkEnds, lost};

use crate::gate::Gate;
use crate::pocket::Pocket;
use crate::site::{Site, Worker};
use crate::stepping::take_turn;
use crate::turn::Turn;
use board_table::{Board, Seat};
use interval_kit::{Cut, Fused, Piece};
use std::alloc::Global;
use std::sync::ledger::Ledger;
use std::thread;
use steal_deal::{Blocks, Hand};
use step_count::Steps;

/// How often a worker may miss the board before it ends.
pub const MOST_MISSES: u32 = 1_000_000;

// A pair that couldn't be put back is two pieces.
const POCKET_ROOM: usize = 2;

/// Why a worker ended.
#[derive(Clone, Copy, PartialEq, Eq, Debug)]
pub enum WorkEnd {
    /// There was no leaf left, and the board had no pair, or no room for one.
    Drained,
    /// Another caller had the board too often.
    Idle,
    /// The board didn't take a piece.
    Refused,
    /// There was no memory for the pocket, for a leaf or for a join.
    Memory,
}

/// What a worker has in hand at its end.
#[derive(Drop)]
struct Stop<V> {
    pocket: Pocket<V>,
    end: WorkEnd,
}

/// Takes turns until one of them ends the worker.
fn take_turns<F: Fused, G: Gate, L: Ledger>(
    alloc: Global,
    site: &Site<F>,
    worker: &mut Worker<F>,
    number: u32,
    gate: &G,
    steps: &mut Steps<L>,
) -> Stop<F::Value>
    requires site { IsSite F.rows site.now }
    requires at_work { IsAtWork site.now worker.old }
    requires none_claimed { worker.old.seat.taken ≡ [] }
    requires none_taken { worker.old.hand.view.taken ≡ [] }
    requires none_paired { worker.old.pairs ≡ 0 }
    ensures at_work { IsAtWork site.now worker.new }
    ensures same { IsSameSeat worker.old.seat worker.new.seat }
    ensures stop { Stops F.rows F.stands site.now.cut.now worker.old.seat result.pocket result.end
        worker.new }
    ensures cost { steps.new ≤ steps.old + spent_by F.leaf_bound F.join_bound site.now worker.new }
{
    let mut pocket = Pocket::Empty;
    let mut missed = 0u32;
    let mut turn = 0u64;
    loop {
        turn = turn.saturating_add(1);
        gate.pass(number, turn);
        match take_turn(alloc, site, worker, pocket, steps) {
            Turn::Went => pocket = Pocket::Empty,
            Turn::Missed(left) => {
                missed += 1;
                if missed == MOST_MISSES {
                    return Stop {
                        pocket: left,
                        end: WorkEnd::Idle,
                    };
                }
                thread::yield_now();
                pocket = left;
            }
            Turn::Refused(piece) => {
                return Stop {
                    pocket: Pocket::Offer(piece),
                    end: WorkEnd::Refused,
                };
            }
            Turn::Drained => return Stop {
                pocket: Pocket::Empty,
                end: WorkEnd::Drained,
            },
            Turn::Memory => return Stop {
                pocket: Pocket::Empty,
                end: WorkEnd::Memory,
            },
            Turn::Unreturned(taken) => {
                let pocket = Pocket::Return(taken);
                let end = without_memory(missed + 1);
                return Stop { pocket, end };
            }
        }
    }
}

// A pair that couldn't be put back missed the board once more.
fn without_memory(missed: u32) -> WorkEnd
    ensures { ((result ≡ WorkEnd.Idle) × (missed ≡ MOST_MISSES))
        ⊎ ((result ≡ WorkEnd.Memory) × (missed ≢ MOST_MISSES)) }
{
    if missed == MOST_MISSES {
        WorkEnd::Idle
    } else {
        WorkEnd::Memory
    }
}

/// What a worker gives at its end.
#[derive(Drop)]
pub struct Done<F: Fused> {
    pub seat: Seat<F>,
    pub hand: Hand,
    /// What it could not give to the board.
    pub pocket: Vec<Piece<F::Value>>,
    /// How many leaves it took.
    pub leaves: u32,
    /// How many pairs it claimed.
    pub pairs: u32,
    pub end: WorkEnd,
}

/// Works until there is nothing to do, or no way to do it. In each turn the worker does the first
/// of three things that it can: it tries again to deliver what it has in hand; it draws a leaf from
/// its own block or else from the others, computes it and offers it; it claims a pair, joins it and
/// settles it. It passes the gate before each turn.
pub fn work<F: Fused, G: Gate, L: Ledger>(
    alloc: Global,
    plan: &F,
    cut: &Cut,
    board: &Board<F>,
    seat: Seat<F>,
    blocks: &Blocks,
    hand: Hand,
    worker: u32,
    gate: &G,
    steps: &mut Steps<L>,
) -> Done<F>
    requires ready { IsReady board.now seat }
    requires none_claimed { seat.taken ≡ [] }
    requires plan { seat.plan ≡ Some plan.now }
    requires cut { IsCut (F.rows plan.now) cut.now }
    requires leaves { blocks.now.partition.count < length cut.now }
    requires hand { IsDealtWith blocks.now hand }
    requires number { hand.view.number + 1 ≡ worker }
    requires nothing_drawn { (hand.view.taken ≡ []) × (hand.view.met ≡ []) }
    ensures ready { IsReady board.now result.seat }
    ensures same { IsSameSeat seat result.seat }
    ensures hand { IsDealtWith blocks.now result.hand }
    ensures leaves { result.leaves ≡ length result.hand.view.taken }
    ensures account { WorkAccount cut.now seat result.seat result.hand.view result.pocket.items
        result.pairs (lost result.end) }
    ensures end { WorkEnds seat result.seat result.hand.view result.pocket.items result.end }
    ensures idle { (result.end ≡ WorkEnd.Idle) ↔ (result.seat.missed ≡ seat.missed + MOST_MISSES) }
    ensures pocket { All (IsGood (F.rows plan.now) (F.stands plan.now)) result.pocket.items }
    ensures cost { steps.new ≤ steps.old + spent (F.leaf_bound plan.now) (F.join_bound plan.now)
        cut.now result.hand.view result.pairs }
{
    let Ok(room) = Vec::with_capacity(alloc, POCKET_ROOM) else {
        return Done {
            seat,
            hand,
            pocket: Vec::new(alloc),
            leaves: 0,
            pairs: 0,
            end: WorkEnd::Memory,
        };
    };
    let site = Site {
        plan,
        cut,
        board,
        blocks,
    };
    let mut at_work = Worker {
        seat,
        hand,
        leaves: 0,
        pairs: 0,
    };
    let stop = take_turns(alloc, &site, &mut at_work, worker, gate, steps);
    let Worker {
        seat,
        hand,
        leaves,
        pairs,
    } = at_work;
    Done {
        seat,
        hand,
        pocket: stop.pocket.into_pieces(room),
        leaves,
        pairs,
        end: stop.end,
    }
}
