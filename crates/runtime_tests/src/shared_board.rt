//! What no clause says: worked rows, and two threads that offer beside each other.
ghost use Rattle.std.specs.Prelude.{◌≡◌, ◌+◌, ◌-◌, ◌≤◌, ◌<◌, ℕ, Some, IfOk};
ghost use Rattle.board_table.specs.Seen.{IsReady, SeatSeen};

use board_core::{Claim, Event, Logged, Reply};
use board_table::{Board, Claimed, Leftover, Offered, PutBack, Seat, start};
use interval_kit::{Fused, Piece};
use std::alloc::{AllocError, Global};
use std::sync::ledger::Ledger;
use std::test::Fail;
use std::thread::{Threads, join};
use step_count::Steps;

/// The value of an interval is the number of its rows.
#[derive(Drop)]
struct RowCount {
    rows: u32,
}

impl Fused for RowCount {
    type Value = u32;

    ghost rows = { λ p. p.rows };

    ghost stands = { λ p lo hi value. value ≡ hi - lo };

    ghost leaf_bound = { λ p rows. 0 };

    ghost join_bound = { λ p. 0 };

    fn rows(&self) -> u32 {
        self.rows
    }

    fn leaf<L: Ledger>(
        &self,
        _alloc: Global,
        lo: u32,
        hi: u32,
        _steps: &mut Steps<L>,
    ) -> Result<u32, AllocError> {
        Ok(hi - lo)
    }

    fn join<L: Ledger>(
        &self,
        _alloc: Global,
        _lo: u32,
        _mid: u32,
        _hi: u32,
        left: &u32,
        right: &u32,
        _steps: &mut Steps<L>,
    ) -> Result<u32, AllocError> {
        Ok(*left + *right)
    }
}

fn row(lo: u32) -> Piece<u32>
    requires { lo < 1000 }
    ensures { result ≡ record { lo = lo; hi = lo + 1; value = 1 } }
{
    Piece {
        lo,
        hi: lo + 1,
        value: 1,
    }
}

#[test]
fn a_pair_is_put_back_after_a_meeting(rt: HostRuntime) -> Result<(), Fail> {
    let plan = RowCount { rows: 4 };
    let (board, seat) = start(rt.alloc(), &plan, 16, 2)?;
    let (mut zero, mut one) = board.share(seat);
    let Offered::Kept = board.offer(&mut one, row(0)) else {
        panic!(rt; "rows 0..1 are kept")
    };
    let Offered::Kept = board.offer(&mut zero, row(1)) else {
        panic!(rt; "rows 1..2 are kept")
    };
    let note = board.note(&mut zero);
    board.meet(&mut one, note);
    let Claimed::Pair(taken) = board.claim(&mut one) else {
        panic!(rt; "0..1 and 1..2 are a pair")
    };
    assert_eq!(rt;
        (taken.who, taken.left.lo, taken.left.hi, taken.right.hi),
        (1, 0, 1, 2)
    );
    let PutBack::Kept = board.put_back(&mut one, taken) else {
        panic!(rt; "the pair goes back")
    };
    let Leftover::Left {
        seat: _,
        held,
        claimed,
        log,
    } = board.close(zero)
    else {
        panic!(rt; "the turn is free")
    };
    assert_eq!(rt; held.len(), 2);
    assert_eq!(rt;
        (held[0].lo, held[0].hi, held[1].lo, held[1].hi),
        (0, 1, 1, 2)
    );
    assert_eq!(rt; claimed.len(), 0);
    let kept = Reply::Kept;
    let calls = [
        Logged {
            who: 1,
            event: Event::Offer { lo: 0, hi: 1 },
            reply: kept,
        },
        Logged {
            who: 0,
            event: Event::Offer { lo: 1, hi: 2 },
            reply: kept,
        },
        Logged {
            who: 1,
            event: Event::Claim,
            reply: Reply::Pair {
                lo: 0,
                mid: 1,
                hi: 2,
            },
        },
        Logged {
            who: 1,
            event: Event::PutBack {
                lo: 0,
                mid: 1,
                hi: 2,
            },
            reply: kept,
        },
    ];
    assert_eq!(rt; log.as_slice(), calls.as_slice());
    Ok(())
}

/// A seat with the rows whose offers it made and were kept.
#[derive(Drop)]
struct Offering {
    seat: Seat<RowCount>,
    kept: Vec<u32>,
}

/// Offers the row until the answer isn't Busy, at most 1,000,000 times. Gives whether it was kept.
fn offer_row(board: &Board<RowCount>, seat: &mut Seat<RowCount>, lo: u32) -> bool
    requires ready { IsReady board.now seat.old }
    requires plan { seat.old.plan ≡ Some (record { rows = 200 }) }
    requires row { lo < 200 }
    ensures ready { IsReady board.now seat.new }
    ensures plan { seat.new.plan ≡ Some (record { rows = 200 }) }
{
    let mut piece = row(lo);
    for _ in 0..1_000_000 {
        match board.offer(seat, piece) {
            Offered::Kept => return true,
            Offered::Overlaps(_) | Offered::Full(_) => return false,
            Offered::Busy(back) => piece = back,
        }
    }
    false
}

/// Offers 100 rows, each second one from the first on.
fn offer_rows(
    alloc: Global,
    board: &Board<RowCount>,
    mut seat: Seat<RowCount>,
    first: u32,
) -> Result<Offering, AllocError>
    requires ready { IsReady board.now seat }
    requires plan { seat.plan ≡ Some (record { rows = 200 }) }
    requires first { first < 2 }
    ensures ready { IfOk result (λ o. IsReady board.now o.seat) }
{
    let mut kept = Vec::new(alloc);
    for i in 0..100 {
        let lo = first + 2 * i;
        if offer_row(board, &mut seat, lo) {
            kept.push(lo)?;
        }
    }
    Ok(Offering { seat, kept })
}

/// Two callers offer the even and the odd rows, in two threads where one can be started.
fn offer_together<R: Threads + Sync>(
    rt: &R,
    alloc: Global,
    board: &Board<RowCount>,
    even: Seat<RowCount>,
    odd: Seat<RowCount>,
) -> (Result<Offering, AllocError>, Result<Offering, AllocError>)
    requires even { IsReady board.now even }
    requires odd { IsReady board.now odd }
    requires even_plan { even.plan ≡ Some (record { rows = 200 }) }
    requires odd_plan { odd.plan ≡ Some (record { rows = 200 }) }
    ensures even { IfOk result.0 (λ o. IsReady board.now o.seat) }
{
    join(
        rt,
        move || -> Result<Offering, AllocError>
            requires { IsReady board.now even × (even.plan ≡ Some (record { rows = 200 })) }
            ensures { IfOk result (λ o. IsReady board.entry.now o.seat) }
        { offer_rows(alloc, board, even, 0) },
        move || -> Result<Offering, AllocError>
            requires { IsReady board.now odd × (odd.plan ≡ Some (record { rows = 200 })) }
        { offer_rows(alloc, board, odd, 1) },
    )
}

/// The rows of the held and claimed intervals, in order.
fn covered(alloc: Global, held: &[Piece<u32>], claimed: &[Claim]) -> Result<Vec<u32>, AllocError> {
    let mut rows = Vec::new(alloc);
    for piece in held {
        for row in piece.lo..piece.hi {
            rows.push(row)?;
        }
    }
    for claim in claimed {
        for row in claim.lo..claim.hi {
            rows.push(row)?;
        }
    }
    rows.sort()?;
    Ok(rows)
}

#[test]
fn two_threads_fill_a_board(rt: HostRuntime) -> Result<(), Fail> {
    let plan = RowCount { rows: 200 };
    let (board, seat) = start(rt.alloc(), &plan, 400, 2)?;
    let (even, odd) = board.share(seat);
    let (even, odd) = offer_together(&rt, rt.alloc(), &board, even, odd);
    let (even, odd) = (even?, odd?);
    let mut kept = even.kept;
    kept.extend_from_slice(&odd.kept)?;
    kept.sort()?;
    let Leftover::Left {
        seat: _,
        held,
        claimed,
        log: _,
    } = board.close(even.seat)
    else {
        panic!(rt; "the turn is free")
    };
    assert_eq!(rt; covered(rt.alloc(), &held, &claimed)?, kept);
    Ok(())
}
