//! Dealing: the blocks, and a hand for each worker. One hand is made first, which is to give all
//! numbers of workers. It keeps its own and passes the others on to the next hand, and so on.
ghost use Rattle.std.specs.Prelude.{◌≡◌, ◌≤◌, ◌<◌, ◌+◌, replicate, All, IfOk};
ghost use Rattle.steal_deal.specs.Partition.{block_begin};
ghost use Rattle.steal_deal.specs.Hands.{IsDealtWith, new_hand, new_hands, parent_hand};

use crate::blocks::{Blocks, PassOn};
use crate::hand::Hand;
use crate::partition::{MOST_WORKERS, Partition};
use atomic_table::Table;
use std::alloc::{AllocError, Global};
use std::mem;

/// Blocks of leaf numbers, and the hands of their workers in order.
#[derive(Drop)]
pub struct Dealt {
    pub blocks: Blocks,
    pub hands: Vec<Hand>,
}

/// Deals the numbers below `count` in consecutive ascending blocks, one for each worker. Hand i
/// has the number i, and has drawn nothing. All memory of the draws is taken here.
pub fn deal(alloc: Global, count: u32, workers: u32) -> Result<Dealt, AllocError>
    requires some_workers { 0 < workers }
    requires few_workers { workers ≤ MOST_WORKERS }
    ensures blocks { IfOk result
        (λ dealt. dealt.blocks.partition ≡ record { count = count; workers = workers }) }
    ensures whole { IfOk result
        (λ dealt. block_begin dealt.blocks.partition workers ≡ count) }
    ensures hands { IfOk result (λ dealt. dealt.hands.items ≡ new_hands dealt.blocks) }
    ensures dealt { IfOk result (λ dealt. All (IsDealtWith dealt.blocks) dealt.hands.items) }
{
    let (blocks, mut last) = open(alloc, count, workers)?;
    let mut hands = Vec::with_capacity(alloc, workers as usize)?;
    for _ in 0..workers - 1 {
        let next = blocks.next_hand(&mut last);
        hands.push(mem::replace(&mut last, next))?;
    }
    hands.push(last)?;
    Ok(Dealt { blocks, hands })
}

/// The blocks, and the hand that has number 0 and is to give all the others.
fn open(alloc: Global, count: u32, workers: u32) -> Result<(Blocks, Hand), AllocError>
    requires some_workers { 0 < workers }
    requires few_workers { workers ≤ MOST_WORKERS }
    ensures blocks { IfOk result
        (λ r. r.0.partition ≡ record { count = count; workers = workers }) }
    ensures hand { IfOk result (λ r. r.1 ≡ parent_hand r.0 0) }
{
    let partition = Partition { count, workers };
    let words = no_draws();
    let (table, seat) = Table::of_words(alloc, &words[..workers as usize], &partition)?;
    Ok((Blocks { table, partition }, Hand::of(seat, 0)))
}

impl Blocks {
    /// A hand for the next worker, which is to give all the further ones.
    fn next_hand(&self, last: &mut Hand) -> Hand
        requires dealt { IsDealtWith self.now last.old }
        requires spare { 0 < last.old.view.spare }
        requires unused { last.old ≡ parent_hand self.now last.old.view.number }
        ensures kept { last.new ≡ new_hand self.now last.old.view.number }
        ensures next { result ≡ parent_hand self.now (last.old.view.number + 1) }
    {
        let seat = self.table.shared.split_seat::<PassOn>(&mut last.seat);
        Hand::of(seat, last.number + 1)
    }
}

fn no_draws() -> [u64; MOST_WORKERS as usize]
    ensures { result ≡ replicate MOST_WORKERS 0 }
{
    [0; MOST_WORKERS as usize]
}
