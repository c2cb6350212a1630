//! The limits and defaults of options as numbers, which other clauses name by their constants.
ghost use Rattle.std.specs.Prelude.{◌≡◌};
ghost use Rattle.gta_words.specs.declared.words.TheConstants.{DRILL_LIMIT, LEAF, LEAF_LIMIT};
ghost use Rattle.gta_words.specs.declared.words.TheConstants.{SEED_LIMIT, WORKER_LIMIT, WORKERS};

/// How many workers and rows of a leaf there are where the words don't say, and how many they may say; and how many
/// rows and which seeds a drill may have. It does nothing: the numbers are its contract.
pub fn word_limits()
    ensures workers { WORKERS ≡ 4 }
    ensures leaf { LEAF ≡ 64 }
    ensures worker_limit { WORKER_LIMIT ≡ 64 }
    ensures leaf_limit { LEAF_LIMIT ≡ 65536 }
    ensures drill_limit { DRILL_LIMIT ≡ 20000 }
    ensures seed_limit { SEED_LIMIT ≡ 4294967295 }
{}
