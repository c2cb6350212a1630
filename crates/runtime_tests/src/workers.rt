//! What no clause says: how often leaves and joins are computed, and workers that meet.
ghost use Rattle.std.specs.Prelude.{◌≡◌, ◌-◌, ◌+◌, ◌<◌, ◌≤◌, All, IfOk, length};
ghost use Rattle.step_count.specs.Blanks.{IsBlankOf};
ghost use Rattle.worker_pool.specs.Walk.{IsGood};

use board_table::{Board, start};
use interval_kit::{Cut, Fused, Piece, cut_of};
use std::alloc::{AllocError, Global};
use std::marker::Brand;
use std::sync::atomic::{AtomicU64, Ordering};
use std::sync::ledger::{Blank, Ledger};
use std::test::Fail;
use std::thread::Threads;
use steal_deal::{Dealt, deal};
use step_count::Steps;
use worker_pool::{Gate, OpenGate, WorkEnd, gather, solve, work};

/// The value of an interval is the number of its rows. Leaves and joins are counted.
#[derive(Drop)]
struct RowCount {
    rows: u32,
    leaves: AtomicU64,
    joins: AtomicU64,
}

impl RowCount {
    fn new(rows: u32) -> RowCount
        ensures { result.rows ≡ rows }
    {
        RowCount {
            rows,
            leaves: AtomicU64::new(0),
            joins: AtomicU64::new(0),
        }
    }

    fn calls(&self) -> (u64, u64) {
        let leaves = self.leaves.load(Ordering::SeqCst);
        (leaves, self.joins.load(Ordering::SeqCst))
    }
}

impl Fused for RowCount {
    type Value = u32;

    ghost rows = { λ p. p.rows };

    ghost stands = { λ p lo hi value. value ≡ hi - lo };

    ghost leaf_bound = { λ p rows. 0 };

    ghost join_bound = { λ p. 0 };

    fn rows(&self) -> u32 {
        self.rows
    }

    fn leaf<L: Ledger>(
        &self,
        _alloc: Global,
        lo: u32,
        hi: u32,
        _steps: &mut Steps<L>,
    ) -> Result<u32, AllocError> {
        self.leaves.fetch_add(1, Ordering::SeqCst);
        Ok(hi - lo)
    }

    fn join<L: Ledger>(
        &self,
        _alloc: Global,
        _lo: u32,
        _mid: u32,
        _hi: u32,
        left: &u32,
        right: &u32,
        _steps: &mut Steps<L>,
    ) -> Result<u32, AllocError> {
        self.joins.fetch_add(1, Ordering::SeqCst);
        Ok(*left + *right)
    }
}

/// Pieces of these intervals, those that have rows below 8.
fn pieces_at(alloc: Global, intervals: &[(u32, u32)]) -> Result<Vec<Piece<u32>>, AllocError>
    ensures { IfOk result (λ ps. All (IsGood 8 (λ lo hi value. value ≡ hi - lo)) ps.items) }
{
    let mut pieces = Vec::new(alloc);
    for (lo, hi) in intervals {
        let (lo, hi) = (*lo, *hi);
        if lo < hi && hi <= 8 {
            pieces.push(Piece {
                lo,
                hi,
                value: hi - lo,
            })?;
        }
    }
    Ok(pieces)
}

/// The value of 8 rows by leaves of 2 and from pieces of these intervals, and the calls for it.
fn gathered<L: Ledger>(
    alloc: Global,
    intervals: &[(u32, u32)],
    blank: Blank,
) -> Result<(u32, (u64, u64)), AllocError>
    requires blank { IsBlankOf L.name L.parts blank }
{
    let mut steps = Steps::<L>::new(blank);
    let plan = RowCount::new(8);
    let cut = cut_of(alloc, 8, 2)?;
    let pieces = pieces_at(alloc, intervals)?;
    let value = gather(alloc, &plan, &cut, pieces, &mut steps)?;
    Ok((value, plan.calls()))
}

#[test]
fn what_a_piece_covers_is_not_computed(rt: HostRuntime) -> Result<(), Fail> {
    // Intervals, and how many leaves and joins are computed.
    let cases = [
        ([(0, 4), (2, 6), (4, 8)].as_slice(), (0, 1)),
        ([].as_slice(), (4, 3)),
        ([(1, 4)].as_slice(), (4, 3)),
        ([(0, 8)].as_slice(), (0, 0)),
        ([(0, 2), (0, 6), (0, 4)].as_slice(), (1, 1)),
        ([(0, 3), (2, 7)].as_slice(), (4, 3)),
    ];
    for (intervals, calls) in cases {
        let (value, counted) = gathered::<Brand>(rt.alloc(), intervals, Blank::new(1))?;
        assert_eq!(rt; value, 8, "{intervals:?}");
        assert_eq!(rt; counted, calls, "{intervals:?}");
    }
    Ok(())
}

/// The value of the rows by leaves of this size and by so many workers, and the calls for it.
fn solved<R: Threads + Sync, G: Gate + Sync, L: Ledger>(
    rt: &R,
    alloc: Global,
    task: (u32, u32, u32),
    gate: &G,
    blank: Blank,
) -> Result<(u32, (u64, u64)), AllocError>
    requires blank { IsBlankOf L.name L.parts blank }
{
    let (rows, leaf, workers) = task;
    let mut steps = Steps::<L>::new(blank);
    let plan = RowCount::new(rows);
    let cut = cut_of(alloc, rows, leaf.max(1))?;
    if cut.bounds().len() > 1_000_001 || workers == 0 || workers > 64 {
        return Err(AllocError);
    }
    let value = solve(rt, alloc, &plan, &cut, workers, gate, &mut steps)?;
    Ok((value, plan.calls()))
}

#[test]
fn each_leaf_and_each_join_is_computed_once(rt: HostRuntime) -> Result<(), Fail> {
    // Rows, rows in a leaf, workers, and how many leaves and joins are computed.
    let cases = [
        ((8, 1, 1), (8, 7)),
        ((8, 1, 2), (8, 7)),
        ((64, 3, 3), (22, 21)),
        ((1000, 1, 8), (1000, 999)),
        ((3, 1, 64), (3, 2)),
        ((5, 8, 2), (1, 0)),
        ((0, 1, 2), (1, 0)),
    ];
    for (task, calls) in cases {
        let (value, counted) = solved::<HostRuntime, OpenGate, Brand>(
            &rt,
            rt.alloc(),
            task,
            &OpenGate,
            Blank::new(1),
        )?;
        assert_eq!(rt; value, task.0, "{task:?}");
        assert_eq!(rt; counted, calls, "{task:?}");
    }
    Ok(())
}

/// Two workers wait for each other at their second turns.
#[derive(Drop)]
struct Meeting {
    came: [AtomicU64; 2],
    missed: AtomicU64,
}

impl Gate for Meeting {
    fn pass(&self, worker: u32, turn: u64) {
        let (own, other) = if worker == 1 { (0, 1) } else { (1, 0) };
        if turn == 1 {
            self.came[own].store(1, Ordering::SeqCst);
        }
        if turn == 2 {
            for _ in 0..100_000_000u32 {
                if self.came[other].load(Ordering::SeqCst) == 1 {
                    return;
                }
            }
            self.missed.store(1, Ordering::SeqCst);
        }
    }
}

#[test]
fn two_workers_run_beside_each_other(rt: HostRuntime) -> Result<(), Fail> {
    let gate = Meeting {
        came: [AtomicU64::new(0), AtomicU64::new(0)],
        missed: AtomicU64::new(0),
    };
    let (value, _calls) = solved::<HostRuntime, Meeting, Brand>(
        &rt,
        rt.alloc(),
        (64, 1, 2),
        &gate,
        Blank::new(1),
    )?;
    assert_eq!(rt; value, 64);
    assert_eq!(rt; gate.missed.load(Ordering::SeqCst), 0);
    for came in &gate.came {
        assert_eq!(rt; came.load(Ordering::SeqCst), 1);
    }
    Ok(())
}

/// What one worker alone does on 8 rows: leaves, pairs, pieces in its pocket, and its end.
fn worked<L: Ledger>(alloc: Global, blank: Blank) -> Result<(u32, u32, usize, WorkEnd), AllocError>
    requires blank { IsBlankOf L.name L.parts blank }
{
    let mut steps = Steps::<L>::new(blank);
    let plan = RowCount::new(8);
    let cut = cut_of(alloc, 8, 1)?;
    let leaves = cut.bounds().len() as u32 - 1;
    let (board, seat) = start(alloc, &plan, 36, 1)?;
    let Dealt { blocks, mut hands } = deal(alloc, leaves, 1)?;
    let Some(hand) = hands.pop() else {
        return Err(AllocError);
    };
    let done = work(
        alloc, &plan, &cut, &board, seat, &blocks, hand, 1, &OpenGate, &mut steps,
    );
    Ok((done.leaves, done.pairs, done.pocket.len(), done.end))
}

#[test]
fn one_worker_does_all_the_work(rt: HostRuntime) -> Result<(), Fail> {
    let done = worked::<Brand>(rt.alloc(), Blank::new(1))?;
    assert_eq!(rt; done, (8, 7, 0, WorkEnd::Drained));
    Ok(())
}
