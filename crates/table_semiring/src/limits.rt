//! The limits of semirings by tables as numbers, which other clauses name by their constants.
ghost use Rattle.std.specs.Prelude.{◌≡◌};
ghost use Rattle.table_semiring.specs.declared.laws.TheConstants.{LAWS};
ghost use Rattle.table_semiring.specs.declared.table.TheConstants.{GREATEST_SIZE};

/// How large a semiring may be, and how many laws there are. It does nothing: the numbers are its contract.
pub fn semiring_limits()
    ensures size { GREATEST_SIZE ≡ 16 }
    ensures laws { LAWS ≡ 10 }
{}
