//! What no clause says: draws in a given order, whole deals of different sizes, and threads that
//! draw beside each other.
ghost use Rattle.std.specs.Prelude.{◌<◌, All};
ghost use Rattle.steal_deal.specs.Hands.{IsDealtWith};

use std::alloc::{AllocError, Global};
use std::test::Fail;
use std::thread;
use std::thread::Threads;
use steal_deal::{Blocks, Dealt, Drawn, Hand, deal};

/// The first hand pops, the second steals from block 0, and the first pops twice.
fn draws_in_turn(blocks: &Blocks, first: &mut Hand, second: &mut Hand) -> [Drawn; 4]
    requires some_block { 0 < blocks.now.partition.workers }
    requires first { IsDealtWith blocks.now first.old }
    requires second { IsDealtWith blocks.now second.old }
{
    let popped = first.pop(blocks);
    let stolen = second.steal(blocks, 0);
    [popped, stolen, first.pop(blocks), first.pop(blocks)]
}

/// The numbers that a hand gets while it pops.
fn pop_all(alloc: Global, blocks: &Blocks, mut hand: Hand) -> Result<Vec<u32>, AllocError>
    requires { IsDealtWith blocks.now hand }
{
    let mut leaves = Vec::new(alloc);
    for _ in 0..100 {
        match hand.pop(blocks) {
            Drawn::Leaf(leaf) => leaves.push(leaf)?,
            Drawn::Empty => break,
        }
    }
    Ok(leaves)
}

/// The numbers that a hand gets while it steals from each block in turn until it meets it.
fn steal_all(alloc: Global, blocks: &Blocks, mut hand: Hand) -> Result<Vec<u32>, AllocError>
    requires { IsDealtWith blocks.now hand }
{
    let mut leaves = Vec::new(alloc);
    for from in 0..blocks.workers() {
        for _ in 0..1000 {
            match hand.steal(blocks, from) {
                Drawn::Leaf(leaf) => leaves.push(leaf)?,
                Drawn::Empty => break,
            }
        }
    }
    Ok(leaves)
}

#[test]
fn a_number_is_stolen_between_two_pops(rt: HostRuntime) -> Result<(), Fail> {
    let Dealt { blocks, mut hands } = deal(rt.alloc(), 5, 2)?;
    let (Some(mut second), Some(mut first)) = (hands.pop(), hands.pop()) else {
        panic!(rt; "two hands")
    };
    let drawn = draws_in_turn(&blocks, &mut first, &mut second);
    let row = [Drawn::Leaf(0), Drawn::Leaf(1), Drawn::Leaf(2), Drawn::Empty];
    assert!(rt; drawn == row, "{drawn:?}");
    Ok(())
}

/// The numbers from the one up to the other.
fn up_to(alloc: Global, range: (u32, u32)) -> Result<Vec<u32>, AllocError> {
    let mut numbers = Vec::new(alloc);
    for number in range.0..range.1 {
        numbers.push(number)?;
    }
    Ok(numbers)
}

/// What each hand pops, in the order of the hands.
fn pop_each(alloc: Global, blocks: &Blocks, hands: Vec<Hand>) -> Result<Vec<Vec<u32>>, AllocError>
    requires { All (IsDealtWith blocks.now) hands.items }
{
    let mut popped = Vec::new(alloc);
    for hand in hands {
        popped.push(pop_all(alloc, blocks, hand)?)?;
    }
    Ok(popped)
}

#[test]
fn every_number_is_popped_once_in_order(rt: HostRuntime) -> Result<(), Fail> {
    // Numbers, workers, and what the first and the last hand pop, from one number up to another.
    let deals = [
        (0, 1, (0, 0), (0, 0)),
        (0, 64, (0, 0), (0, 0)),
        (1, 1, (0, 1), (0, 1)),
        (1, 64, (0, 1), (1, 1)),
        (64, 1, (0, 64), (0, 64)),
        (64, 64, (0, 1), (63, 64)),
        (64, 3, (0, 22), (43, 64)),
    ];
    for (count, workers, first, last) in deals {
        let Dealt { blocks, hands } = deal(rt.alloc(), count, workers)?;
        let popped = pop_each(rt.alloc(), &blocks, hands)?;
        assert_eq!(rt; popped.len(), workers as usize, "{count} over {workers}");
        assert_eq!(rt;
            popped[0],
            up_to(rt.alloc(), first)?,
            "{count} over {workers}"
        );
        assert_eq!(rt;
            popped[popped.len() - 1],
            up_to(rt.alloc(), last)?,
            "{count} over {workers}"
        );
        let all = popped.concat(rt.alloc())?;
        assert_eq!(rt;
            all,
            up_to(rt.alloc(), (0, count))?,
            "{count} over {workers}"
        );
    }
    Ok(())
}

/// What each hand steals, in a thread of its own where one can be started: hands are sent to
/// threads, which share the blocks.
fn steal_together<R: Threads + Sync>(
    rt: &R,
    alloc: Global,
    blocks: &Blocks,
    hands: Vec<Hand>,
) -> Result<Vec<Result<Vec<u32>, AllocError>>, AllocError>
    requires { All (IsDealtWith blocks.now) hands.items }
{
    thread::map_vec(
        rt,
        hands,
        &|hand: Hand| -> Result<Vec<u32>, AllocError>
            requires { IsDealtWith blocks.now hand }
        { steal_all(alloc, blocks, hand) },
    )
}

#[test]
fn threads_draw_every_number_once(rt: HostRuntime) -> Result<(), Fail> {
    let Dealt { blocks, hands } = deal(rt.alloc(), 1000, 3)?;
    let mut all = Vec::new(rt.alloc());
    for leaves in steal_together(&rt, rt.alloc(), &blocks, hands)? {
        all.extend_from_slice(&leaves?)?;
    }
    all.sort()?;
    assert!(rt; all == up_to(rt.alloc(), (0, 1000))?);
    Ok(())
}
