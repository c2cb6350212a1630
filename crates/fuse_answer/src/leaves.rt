//! How many rows a leaf has, by the number of keys. No answer depends on it. specs/Leaves.antt has the numbers.

ghost use Rattle.std.specs.Prelude.{◌≡◌};
ghost use Rattle.fuse_answer.specs.Leaves as leaves;

use crate::crew::Crew;

/// Maps of at least so many keys are rows of lanes, where the semiring has lanes.
pub const DENSE_KEYS: u32 = 16;

/// Jobs of no more rows keep the leaf that they ask for.
pub const SMALL_ROWS: u32 = 1024;

/// A leaf of lists has no more rows, unless there are many keys.
pub const LIST_ROWS: u32 = 1024;

/// The crew with longer leaves where there are many keys, over rows of lanes.
pub(crate) fn lane_crew<'a, R, G>(crew: &Crew<'a, R, G>, rows: u32, keys: u32) -> Crew<'a, R, G>
    ensures workers { result.workers ≡ crew.now.workers }
    ensures leaf { result.leaf ≡ leaves.lane_leaf crew.now.workers crew.now.leaf rows keys }
{
    if rows <= SMALL_ROWS || keys < DENSE_KEYS {
        return crew.with_leaf(crew.leaf);
    }
    let share = rows.div_ceil(crew.workers);
    let leaf = crew.leaf.max(keys.saturating_mul(4).min(keys.max(share)));
    crew.with_leaf(leaf)
}

/// The crew with longer leaves, over lists.
pub(crate) fn list_crew<'a, R, G>(crew: &Crew<'a, R, G>, rows: u32, keys: u32) -> Crew<'a, R, G>
    ensures workers { result.workers ≡ crew.now.workers }
    ensures leaf { result.leaf ≡ leaves.list_leaf crew.now.workers crew.now.leaf rows keys }
{
    if rows <= SMALL_ROWS {
        return crew.with_leaf(crew.leaf);
    }
    let share = rows.div_ceil(crew.workers);
    let leaf = crew
        .leaf
        .max(share.min(LIST_ROWS.max(keys.saturating_mul(16))));
    crew.with_leaf(leaf)
}
