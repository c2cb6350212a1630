//! The numbers below a count, cut into one block for each worker.
//! Which numbers a block has is in specs/Partition.antt.

/// The largest number of workers that numbers can be dealt to.
pub const MOST_WORKERS: u32 = 64;

/// What fixes the blocks: how many numbers there are, and how many workers they are dealt to.
#[derive(Clone, Copy)]
pub struct Partition {
    pub count: u32,
    pub workers: u32,
}

impl Partition {
    ghost use Rattle.std.specs.Prelude.{◌≡◌, ◌<◌};
    ghost use Rattle.steal_deal.specs.Partition.{block_begin, block_size};

    /// How many numbers the block has.
    pub(crate) fn block_size(self, block: u32) -> u32
        requires workers { 0 < self.workers }
        ensures { result ≡ block_size self block }
    {
        let more = if block < self.count % self.workers {
            1
        } else {
            0
        };
        self.count / self.workers + more
    }

    /// The block's first number, or the end of the block before it.
    pub(crate) fn block_begin(self, block: u32) -> u32
        requires block { block < self.workers }
        ensures { result ≡ block_begin self block }
    {
        block * (self.count / self.workers) + block.min(self.count % self.workers)
    }
}
