//! The limits of the monoids as numbers, which other clauses name by their constants.
ghost use Rattle.std.specs.Prelude.{◌≡◌};
ghost use Rattle.monoid_kit.specs.declared.capped_sum.TheConstants.{GREATEST_BOUND};
ghost use Rattle.monoid_kit.specs.declared.modular.TheConstants.{GREATEST_MODULUS};
ghost use Rattle.monoid_kit.specs.declared.table.TheConstants.{GREATEST_TABLE};

/// How large sums, remainders and tables may be. It does nothing: the numbers are its contract.
pub fn monoid_limits()
    ensures bound { GREATEST_BOUND ≡ 8190 }
    ensures modulus { GREATEST_MODULUS ≡ 8192 }
    ensures table { GREATEST_TABLE ≡ 64 }
{}
