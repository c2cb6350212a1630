//! The bounds of a text as numbers, which other clauses name by their constants.
ghost use Rattle.std.specs.Prelude.{◌≡◌};
ghost use Rattle.gta_text.specs.declared.lines.TheConstants.{INPUT_BOUND};
ghost use Rattle.gta_text.specs.declared.numbers.TheConstants.{NUMBER_BOUND};

/// How large an input and a number may be. It does nothing: the numbers are its contract.
pub fn text_limits()
    ensures input { INPUT_BOUND ≡ 67108864 }
    ensures number { NUMBER_BOUND ≡ 4611686018427387903 }
{}
