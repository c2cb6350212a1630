//! What no clause says: what is left where a leaf or a join finds no memory or a piece finds no room, and that the
//! workers compute all leaves and joins, at their own turns.
ghost use Rattle.std.specs.Prelude.{◌≡◌, ◌-◌, ◌<◌};
ghost use Rattle.step_count.specs.Blanks.{IsBlankOf};

use board_table::{Leftover, start};
use interval_kit::{Fused, Piece, cut_of};
use std::alloc::{AllocError, Global};
use std::marker::Brand;
use std::sync::atomic::{AtomicU64, Ordering};
use std::sync::ledger::{Blank, Ledger};
use std::test::Fail;
use std::thread::Threads;
use steal_deal::{Dealt, deal};
use step_count::Steps;
use worker_pool::{Gate, OpenGate, WorkEnd, solve, work};

/// The value of an interval of 8 rows is the number of its rows. Calls of leaf and join are counted from 1, and those
/// whose numbers are listed find no memory.
#[derive(Drop)]
struct Refusing {
    calls: AtomicU64,
    refused: Vec<u64>,
    // A bit for each leaf of one row that was computed.
    computed: AtomicU64,
}

impl Refusing {
    fn new(alloc: Global, refused: &[u64]) -> Result<Refusing, AllocError> {
        Ok(Refusing {
            calls: AtomicU64::new(0),
            refused: Vec::from_slice(alloc, refused)?,
            computed: AtomicU64::new(0),
        })
    }

    fn call(&self) -> Result<(), AllocError> {
        let number = self.calls.fetch_add(1, Ordering::SeqCst).wrapping_add(1);
        if self.refused.contains(&number) {
            return Err(AllocError);
        }
        Ok(())
    }
}

impl Fused for Refusing {
    type Value = u32;

    ghost rows = { λ p. 8 };

    ghost stands = { λ p lo hi value. value ≡ hi - lo };

    ghost leaf_bound = { λ p rows. 0 };

    ghost join_bound = { λ p. 0 };

    fn rows(&self) -> u32 {
        8
    }

    fn leaf<L: Ledger>(
        &self,
        _alloc: Global,
        lo: u32,
        hi: u32,
        _steps: &mut Steps<L>,
    ) -> Result<u32, AllocError> {
        self.call()?;
        self.computed.fetch_add(1 << lo, Ordering::SeqCst);
        Ok(hi - lo)
    }

    fn join<L: Ledger>(
        &self,
        _alloc: Global,
        _lo: u32,
        _mid: u32,
        _hi: u32,
        left: &u32,
        right: &u32,
        _steps: &mut Steps<L>,
    ) -> Result<u32, AllocError> {
        self.call()?;
        Ok(*left + *right)
    }
}

/// The value of the 8 rows by leaves of one row, and none where it finds no memory.
fn solved<R: Threads + Sync, G: Gate + Sync, L: Ledger>(
    rt: &R,
    alloc: Global,
    plan: &Refusing,
    workers: u32,
    gate: &G,
    blank: Blank,
) -> Result<Option<u32>, AllocError>
    requires blank { IsBlankOf L.name L.parts blank }
{
    let mut steps = Steps::<L>::new(blank);
    let cut = cut_of(alloc, 8, 1)?;
    if cut.bounds().len() > 9 || workers == 0 || workers > 2 {
        return Err(AllocError);
    }
    Ok(solve(rt, alloc, plan, &cut, workers, gate, &mut steps).ok())
}

/// The same where calls of these numbers are refused, and the leaves that were computed.
fn solved_without<R: Threads + Sync, L: Ledger>(
    rt: &R,
    alloc: Global,
    workers: u32,
    refused: &[u64],
    blank: Blank,
) -> Result<(Option<u32>, u64), AllocError>
    requires blank { IsBlankOf L.name L.parts blank }
{
    let plan = Refusing::new(alloc, refused)?;
    let value = solved::<R, OpenGate, L>(rt, alloc, &plan, workers, &OpenGate, blank)?;
    Ok((value, plan.computed.load(Ordering::SeqCst)))
}

// Of 15 calls one is refused, in turn and many times, so that a pair is put back while the other worker has the board.
// The worker that it ends leaves the rest to the other and to the caller, and each leaf is computed once.
#[test]
fn a_refused_call_leaves_the_value(rt: HostRuntime) -> Result<(), Fail> {
    for round in 0..3000u64 {
        let number = round % 15 + 1;
        for workers in [1, 2] {
            let (value, leaves) = solved_without::<HostRuntime, Brand>(
                &rt,
                rt.alloc(),
                workers,
                &[number],
                Blank::new(1),
            )?;
            // Of two workers both may be gone before the call that is refused.
            if workers == 1 || value.is_some() {
                assert_eq!(rt;
                    (value, leaves),
                    (Some(8), 255),
                    "call {number}, {workers} workers"
                );
            }
        }
    }
    Ok(())
}

#[test]
fn with_all_calls_refused_there_is_no_value(rt: HostRuntime) -> Result<(), Fail> {
    let all = [1, 2, 3, 4, 5, 6, 7, 8, 9, 10, 11, 12, 13, 14, 15];
    for workers in [1, 2] {
        let left = solved_without::<HostRuntime, Brand>(
            &rt,
            rt.alloc(),
            workers,
            &all,
            Blank::new(1),
        )?;
        assert_eq!(rt; left, (None, 0), "{workers} workers");
    }
    Ok(())
}

/// Reads how often leaf and join were called, at the first turn and at each.
#[derive(Drop)]
struct Reading<'a> {
    calls: &'a AtomicU64,
    first: AtomicU64,
    last: AtomicU64,
}

impl<'a> Gate for Reading<'a> {
    fn pass(&self, _worker: u32, turn: u64) {
        let calls = self.calls.load(Ordering::SeqCst);
        if turn == 1 {
            self.first.store(calls, Ordering::SeqCst);
        }
        self.last.store(calls, Ordering::SeqCst);
    }
}

/// The readings at the first turn and at the last one, which are 100 without a turn, and the one after the answer.
fn readings<R: Threads + Sync, L: Ledger>(
    rt: &R,
    alloc: Global,
    workers: u32,
    blank: Blank,
) -> Result<(u64, u64, u64), AllocError>
    requires blank { IsBlankOf L.name L.parts blank }
{
    let plan = Refusing::new(alloc, &[])?;
    let gate = Reading {
        calls: &plan.calls,
        first: AtomicU64::new(100),
        last: AtomicU64::new(100),
    };
    solved::<R, Reading, L>(rt, alloc, &plan, workers, &gate, blank)?;
    let (first, last) = (
        gate.first.load(Ordering::SeqCst),
        gate.last.load(Ordering::SeqCst),
    );
    Ok((first, last, plan.calls.load(Ordering::SeqCst)))
}

#[test]
fn all_is_computed_between_the_turns(rt: HostRuntime) -> Result<(), Fail> {
    let readings_of_one = readings::<HostRuntime, Brand>(&rt, rt.alloc(), 1, Blank::new(1))?;
    assert_eq!(rt; readings_of_one, (0, 15, 15));
    let (_first, _last, calls) = readings::<HostRuntime, Brand>(&rt, rt.alloc(), 2, Blank::new(1))?;
    assert_eq!(rt; calls, 15);
    Ok(())
}

/// Whether the pieces have each row once whose leaf was computed, and no other. Each has a bit.
fn cover(pieces: &[Piece<u32>], computed: u64) -> bool {
    for row in 0..8u32 {
        let mut times = 0u64;
        for piece in pieces {
            if piece.lo <= row && row < piece.hi {
                times = times.wrapping_add(1);
            }
        }
        if times != computed >> row & 1 {
            return false;
        }
    }
    true
}

/// What one worker alone leaves on a board with this room, where calls of these numbers are refused: its end, the calls
/// that it made, the claims on the board, the pieces in its pocket, and whether these and the board's have each leaf
/// that was computed once.
fn left_by<L: Ledger>(
    alloc: Global,
    room: u32,
    refused: &[u64],
    blank: Blank,
) -> Result<(WorkEnd, u64, usize, usize, bool), AllocError>
    requires blank { IsBlankOf L.name L.parts blank }
{
    let mut steps = Steps::<L>::new(blank);
    let plan = Refusing::new(alloc, refused)?;
    let cut = cut_of(alloc, 8, 1)?;
    let leaves = cut.bounds().len() as u32 - 1;
    let (board, seat) = start(alloc, &plan, room, 1)?;
    let Dealt { blocks, mut hands } = deal(alloc, leaves, 1)?;
    let Some(hand) = hands.pop() else {
        return Err(AllocError);
    };
    let done = work(
        alloc, &plan, &cut, &board, seat, &blocks, hand, 1, &OpenGate, &mut steps,
    );
    let Leftover::Left {
        seat: _,
        held: mut pieces,
        claimed,
        log: _,
    } = board.close(done.seat)
    else {
        return Err(AllocError);
    };
    let mut pocket = done.pocket;
    let in_pocket = pocket.len();
    pieces.append(&mut pocket)?;
    let calls = plan.calls.load(Ordering::SeqCst);
    let covered = cover(&pieces, plan.computed.load(Ordering::SeqCst));
    Ok((done.end, calls, claimed.len(), in_pocket, covered))
}

// The worker ends at the call that is refused, and puts the pair of a join back.
#[test]
fn a_worker_without_memory_leaves_all_on_the_board(rt: HostRuntime) -> Result<(), Fail> {
    for number in 1..=15 {
        let left = left_by::<Brand>(rt.alloc(), 36, &[number], Blank::new(1))?;
        assert_eq!(rt; left, (WorkEnd::Memory, number, 0, 0, true));
    }
    Ok(())
}

// The room of a board: the end, the calls, and the pieces in the pocket. A leaf takes an entry, and a join two.
#[test]
fn a_worker_without_room_keeps_its_leaf(rt: HostRuntime) -> Result<(), Fail> {
    let cases = [
        (0, WorkEnd::Refused, 1, 1),
        (1, WorkEnd::Refused, 2, 1),
        (7, WorkEnd::Refused, 8, 1),
        (8, WorkEnd::Drained, 8, 0),
        (9, WorkEnd::Drained, 8, 0),
        (10, WorkEnd::Drained, 9, 0),
        (21, WorkEnd::Drained, 14, 0),
        (22, WorkEnd::Drained, 15, 0),
    ];
    for (room, end, calls, in_pocket) in cases {
        let left = left_by::<Brand>(rt.alloc(), room, &[], Blank::new(1))?;
        assert_eq!(rt; left, (end, calls, 0, in_pocket, true), "room {room}");
    }
    Ok(())
}
