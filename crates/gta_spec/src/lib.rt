//! The parts of a specification as types, and the grammar of its text. specs/Parts.antt has the parts
//! with lists in place of vectors. The grammar of a line is in specs/Grammar.antt, over the symbols
//! of specs/Symbols.antt; specs/SpecText.antt says which specification a text is, and
//! specs/WellFormed.antt which specifications there are. src/law.rt has the limits as numbers.
#![tactic(auto)]

mod law;
mod limits;
mod parts;

pub use law::{declaration_limits, part_limits};
pub use limits::{
    ATOM_LIMIT, AUTOMATON_LIMIT, BOUND_LIMIT, CASE_LIMIT, COLUMN_LIMIT, ELEMENT_LIMIT,
    FACTOR_LIMIT, FIRST_ROW_LIMIT, HEADER_LIMIT, KEEP_LIMIT, KEPT_NAME_LIMIT, LABEL_LIMIT,
    LETTER_LIMIT, MEASURE_LIMIT, MODULUS_LIMIT, NAME_LIMIT, NESTING_LIMIT, RANK_LIMIT, ROW_LIMIT,
    STATE_LIMIT, TABLE_LIMIT, TERM_LIMIT, TEST_LIMIT, row_limit,
};
pub use parts::{
    AtomPart, AutomatonPart, CasePart, Check, Cmp, ColumnItem, GoalPart, KeepPart, MeasurePart,
    Part, PartKind, PickPart, RankPart, Spec, StepPart, TablePart, TermPart, TestPart, TimesPart,
};
