//! The value of all rows, by workers that run beside each other where threads can be started.

ghost use Rattle.std.specs.Prelude.{◌≡◌, ◌+◌, ◌*◌, ◌≤◌, ◌<◌, ◌++◌, Some, [], length, IfOk, All};
ghost use Rattle.std.specs.List.{flat_map};
ghost use Rattle.step_count.specs.Blanks.{IsBlankOf};
ghost use Rattle.interval_kit.specs.Cut.{IsCut};
ghost use Rattle.steal_deal.specs.Hands.{new_hands};
ghost use Rattle.board_table.specs.Seen.{IsReady};
ghost use Rattle.worker_pool.specs.Jobs.{IsGoodDone, IsJob, MayShare};
ghost use Rattle.worker_pool.specs.Sites.{IsSite};
ghost use Rattle.worker_pool.specs.Walk.{IsGood, cut_cost};

use crate::gate::Gate;
use crate::gathering::gather;
use crate::site::Site;
use crate::working::{Done, work};
use board_table::{Board, Leftover, Seat, start};
use interval_kit::{Cut, Fused, Piece};
use std::alloc::{AllocError, Global};
use std::marker::Brand;
use std::sync::ledger::{Blank, Ledger};
use std::thread::{Threads, map_vec};
use steal_deal::{Blocks, Dealt, Hand, MOST_WORKERS, deal};
use step_count::Steps;

/// The largest number of leaves that a cut may have here.
pub const MOST_LEAVES: u32 = 1_000_000;

/// A value that stands for all rows of the plan. Workers compute the leaves of the cut and join
/// them over a board, in threads where these can be started; what they leave is gathered.
/// `steps` counts the gathering.
pub fn solve<R: Threads + Sync, F: Fused + Sync, G: Gate + Sync, L: Ledger>(
    rt: &R,
    alloc: Global,
    plan: &F,
    cut: &Cut,
    workers: u32,
    gate: &G,
    steps: &mut Steps<L>,
) -> Result<F::Value, AllocError>
    requires cut { IsCut (F.rows plan.now) cut.now }
    requires leaves { length cut.now ≤ MOST_LEAVES + 1 }
    requires some_workers { 0 < workers }
    requires few_workers { workers ≤ MOST_WORKERS }
    ensures stands { IfOk result (F.stands plan.now 0 (F.rows plan.now)) }
    ensures cost { steps.new ≤ steps.old
        + cut_cost (F.leaf_bound plan.now) (F.join_bound plan.now) cut.now }
{
    let leaves = (cut.bounds().len() - 1) as u32;
    // Each leaf and each join is an entry, and one entry is set aside for each claim.
    let room = 4 * leaves + 4 * workers;
    let (board, seat) = start(alloc, plan, room, workers + 1)?;
    let Dealt { blocks, hands } = deal(alloc, leaves, workers)?;
    let (seat, jobs) = share_out(alloc, plan, &board, seat, &blocks, hands)?;
    let site = Site {
        plan,
        cut,
        board: &board,
        blocks: &blocks,
    };
    let done = run(rt, alloc, &site, jobs, gate)?;
    let held = held_on(alloc, plan, board, seat);
    let pieces = with_pockets(plan, held, done)?;
    gather(alloc, plan, cut, pieces, steps)
}

/// What a worker is handed.
#[derive(Drop)]
pub(crate) struct Job<F: Fused> {
    pub seat: Seat<F>,
    pub hand: Hand,
    pub worker: u32,
}

/// A seat and a number for each hand. The seat that comes back is left over.
fn share_out<F: Fused>(
    alloc: Global,
    plan: &F,
    board: &Board<F>,
    mut seat: Seat<F>,
    blocks: &Blocks,
    hands: Vec<Hand>,
) -> Result<(Seat<F>, Vec<Job<F>>), AllocError>
    requires seat { MayShare board.now plan.now blocks.now.partition.workers seat }
    requires hands { hands.items ≡ new_hands blocks.now }
    requires few_workers { blocks.now.partition.workers ≤ MOST_WORKERS }
    ensures seat { IfOk result (λ r. MayShare board.now plan.now 0 r.0) }
    ensures each_hand { IfOk result (λ r. length r.1.items ≡ blocks.now.partition.workers) }
    ensures jobs { IfOk result (λ r. All (IsJob board.now plan.now blocks.now) r.1.items) }
{
    let mut jobs = Vec::with_capacity(alloc, hands.len())?;
    let mut worker = 0u32;
    for hand in hands {
        worker += 1;
        let (old, new) = board.share(seat);
        seat = old;
        jobs.push(Job {
            seat: new,
            hand,
            worker,
        })?;
    }
    Ok((seat, jobs))
}

/// Runs the workers, and gives what each has at its end.
fn run<R: Threads + Sync, F: Fused + Sync, G: Gate + Sync>(
    rt: &R,
    alloc: Global,
    site: &Site<F>,
    jobs: Vec<Job<F>>,
    gate: &G,
) -> Result<Vec<Done<F>>, AllocError>
    requires site { IsSite F.rows site.now }
    requires jobs { All (IsJob site.now.board.now site.now.plan.now site.now.blocks.now) jobs.items }
    requires each_hand { length jobs.items ≡ site.now.blocks.now.partition.workers }
    ensures done { IfOk result (λ done. All (IsGoodDone F.rows F.stands site.now.plan.now) done.items) }
    ensures each_job { IfOk result (λ done. length done.items ≡ length jobs.items) }
{
    map_vec(
        rt,
        jobs,
        &|job: Job<F>| -> Done<F>
            requires { IsSite F.rows site.now
                × IsJob site.now.board.now site.now.plan.now site.now.blocks.now job }
            ensures { IsGoodDone F.rows F.stands site.entry.now.plan.now result }
        { work_alone(alloc, site, job, gate) },
    )
}

/// Works with a counter of its own, since the workers' steps aren't added up.
fn work_alone<F: Fused, G: Gate>(alloc: Global, site: &Site<F>, job: Job<F>, gate: &G) -> Done<F>
    requires site { IsSite F.rows site.now }
    requires job { IsJob site.now.board.now site.now.plan.now site.now.blocks.now job }
    ensures { IsGoodDone F.rows F.stands site.now.plan.now result }
{
    work_counted::<F, G, Brand>(alloc, site, job, gate, Blank::new(1))
}

fn work_counted<F: Fused, G: Gate, L: Ledger>(
    alloc: Global,
    site: &Site<F>,
    job: Job<F>,
    gate: &G,
    blank: Blank,
) -> Done<F>
    requires blank { IsBlankOf L.name L.parts blank }
    requires site { IsSite F.rows site.now }
    requires job { IsJob site.now.board.now site.now.plan.now site.now.blocks.now job }
    ensures { IsGoodDone F.rows F.stands site.now.plan.now result }
{
    let mut steps = Steps::<L>::new(blank);
    let (plan, cut, board, blocks) = (site.plan, site.cut, site.board, site.blocks);
    let Job { seat, hand, worker } = job;
    work(
        alloc, plan, cut, board, seat, blocks, hand, worker, gate, &mut steps,
    )
}

/// What the board held, if the seat gets it.
fn held_on<F: Fused>(
    alloc: Global,
    plan: &F,
    board: Board<F>,
    seat: Seat<F>,
) -> Vec<Piece<F::Value>>
    requires ready { IsReady board seat }
    requires plan { seat.plan ≡ Some plan.now }
    ensures { All (IsGood (F.rows plan.now) (F.stands plan.now)) result.items }
{
    match board.close(seat) {
        Leftover::Left {
            seat: _,
            held,
            claimed: _,
            log: _,
        } => held,
        Leftover::Nothing(_) => Vec::new(alloc),
    }
}

/// The pieces, and what is in the workers' pockets.
fn with_pockets<F: Fused>(
    plan: &F,
    mut pieces: Vec<Piece<F::Value>>,
    done: Vec<Done<F>>,
) -> Result<Vec<Piece<F::Value>>, AllocError>
    requires pieces { All (IsGood (F.rows plan.now) (F.stands plan.now)) pieces.items }
    requires done { All (IsGoodDone F.rows F.stands plan.now) done.items }
    ensures good { IfOk result
        (λ pieces. All (IsGood (F.rows plan.now) (F.stands plan.now)) pieces.items) }
    ensures all { IfOk result
        (λ all. all.items ≡ pieces.items ++ flat_map (λ d. d.pocket.items) done.items) }
{
    for worker in done {
        let mut pocket = worker.pocket;
        pieces.append(&mut pocket)?;
    }
    Ok(pieces)
}
