//! The limits of a drill as numbers, which other clauses name by their constants.
ghost use Rattle.std.specs.Prelude.{◌≡◌};
ghost use Rattle.drill_texts.specs.declared.table.TheConstants.{ROWS_LIMIT};

/// How many rows a drill may have. It does nothing: the number is its contract.
pub fn drill_limits()
    ensures rows { ROWS_LIMIT ≡ 20000 }
{}
