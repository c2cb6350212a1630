//! The blocks as workers share them: a table with one word a block, which counts the draws made
//! on it, and the two kinds of step on it, a draw and a split.
//! The table's rule is in specs/Rule.antt, and what a draw tells its caller in specs/Steps.antt.
ghost use Rattle.std.specs.Prelude.{◌≡◌, ◌-◌};
ghost use Rattle.steal_deal.specs.Hands.{AreBlocks, BlocksSeen};
ghost use Rattle.steal_deal.specs.Rule.{DealingRule};
ghost use Rattle.steal_deal.specs.Steps.{draws};
ghost use Rattle.steal_deal.specs.Views.{alone, fresh, next};

use crate::partition::Partition;
use crate::view::View;
use atomic_table::{Play, Split, Table, TableRule};
use std::alloc::Global;
use std::marker::Model;

/// The rule of the table.
pub(crate) struct Dealing;

impl TableRule<(), View, Partition> for Dealing {
    ghost holds = { DealingRule };

    ghost first = { λ p. fresh p 0 (p.workers - 1) };
}

/// A draw from a block, which gives a number or finds none.
pub(crate) struct Draw;

impl Play<(), View> for Draw {
    ghost then = { draws };
}

/// The next worker's hand, which is to give the further numbers in its parent's place.
pub(crate) struct PassOn;

impl Split<View> for PassOn {
    ghost left = { alone };

    ghost right = { next };
}

/// The blocks of leaf numbers that were dealt together. Workers share them by reference.
#[derive(Drop)]
pub struct Blocks {
    pub(crate) table: Table<(), View, Partition, Dealing, Global>,
    pub(crate) partition: Partition,
}

impl Model for Blocks {
    ghost Value = { BlocksSeen };

    ghost view = { λ b. record { table = b.table.shared.table_id; partition = b.partition } };

    ghost invariant = { λ b. AreBlocks b.table.shared.table_id b.table.shared.key b.partition };
}

impl Blocks {
    /// The number of workers, which is that of the blocks. Takes no memory.
    pub fn workers(&self) -> u32
        ensures { result ≡ self.now.partition.workers }
    {
        self.partition.workers
    }
}
