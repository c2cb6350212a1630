//! The limits of the language as numbers, which other clauses name by their constants.
ghost use Rattle.std.specs.Prelude.{◌≡◌};
ghost use Rattle.gta_spec.specs.declared.limits.TheConstants as limits;

/// How long names and headers may be, and how many declarations and rows there may be. It does nothing: the
/// numbers are its contract.
pub fn declaration_limits()
    ensures name { limits.NAME_LIMIT ≡ 64 }
    ensures header { limits.HEADER_LIMIT ≡ 256 }
    ensures columns { limits.COLUMN_LIMIT ≡ 32 }
    ensures labels { limits.LABEL_LIMIT ≡ 16 }
    ensures measures { limits.MEASURE_LIMIT ≡ 32 }
    ensures tables { limits.TABLE_LIMIT ≡ 8 }
    ensures tests { limits.TEST_LIMIT ≡ 8 }
    ensures elements { limits.ELEMENT_LIMIT ≡ 64 }
    ensures first_rows { limits.FIRST_ROW_LIMIT ≡ 100000 }
    ensures rows { limits.ROW_LIMIT ≡ 400000 }
{}

/// How long a declaration may be, and how large its numbers. It does nothing: the numbers are its contract.
pub fn part_limits()
    ensures cases { limits.CASE_LIMIT ≡ 16 }
    ensures terms { limits.TERM_LIMIT ≡ 32 }
    ensures atoms { limits.ATOM_LIMIT ≡ 8 }
    ensures factor { limits.FACTOR_LIMIT ≡ 1000000 }
    ensures bound { limits.BOUND_LIMIT ≡ 8190 }
    ensures modulus { limits.MODULUS_LIMIT ≡ 8192 }
    ensures kept { limits.KEEP_LIMIT ≡ 64 }
    ensures kept_names { limits.KEPT_NAME_LIMIT ≡ 64 }
    ensures nesting { limits.NESTING_LIMIT ≡ 32 }
    ensures ranks { limits.RANK_LIMIT ≡ 3 }
    ensures automata { limits.AUTOMATON_LIMIT ≡ 8 }
    ensures states { limits.STATE_LIMIT ≡ 16 }
    ensures letters { limits.LETTER_LIMIT ≡ 16 }
{}
