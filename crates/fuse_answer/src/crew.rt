//! What each call is handed besides its job.

ghost use Rattle.std.specs.Prelude.{◌≡◌, ◌<◌, ◌≤◌};
ghost use Rattle.steal_deal.specs.declared.partition.TheConstants.{MOST_WORKERS};

use std::alloc::Global;

/// The runtime whose threads compute, where they take memory, the gate that workers pass at each of their turns, how
/// many workers there are, and how many rows a leaf has; the last leaf may be shorter.
#[derive(Drop)]
pub struct Crew<'a, R, G> {
    pub rt: &'a R,
    pub alloc: Global,
    pub gate: &'a G,
    pub workers: u32,
    pub leaf: u32,
    ghost some_workers: { 0 < workers },
    ghost few_workers: { workers ≤ MOST_WORKERS },
    ghost some_rows: { 0 < leaf },
}

impl<'a, R, G> Crew<'a, R, G> {
    /// The same crew over leaves of so many rows.
    pub(crate) fn with_leaf(&self, leaf: u32) -> Crew<'a, R, G>
        requires some_rows { 0 < leaf }
        ensures workers { result.workers ≡ self.now.workers }
        ensures leaf { result.leaf ≡ leaf }
    {
        Crew {
            rt: self.rt,
            alloc: self.alloc,
            gate: self.gate,
            workers: self.workers,
            leaf,
        }
    }
}
