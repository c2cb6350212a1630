//! The declared names of a specification, each kind in its order.

ghost use Rattle.std.specs.Prelude.{◌≤◌, vec_len, map, All};
ghost use Rattle.gta_spec.specs.declared.limits.TheConstants.{COLUMN_LIMIT, LABEL_LIMIT, MEASURE_LIMIT, TABLE_LIMIT};
ghost use Rattle.gta_spec.specs.declared.limits.TheConstants.{AUTOMATON_LIMIT, TEST_LIMIT};
ghost use Rattle.gta_checked.specs.Plain.{plain_named};
ghost use Rattle.gta_checked.specs.Within.{IsTableWithin};
ghost use Rattle.gta_spec.specs.Parts.{automaton_tree};
ghost use Rattle.spec_automata.specs.Ready.{IsReadyAutomaton};

use gta_checked::Table;
use gta_spec::{AutomatonPart, ColumnItem};
use gta_text::Name;

/// Copies of the declared columns and labels, and of the names of the declared measures and of all tests; and the
/// tables, and the lines of automata. A test that has no name has the empty one here.
#[derive(Drop)]
pub(crate) struct Lists<'a> {
    pub(crate) columns: Vec<ColumnItem>,
    pub(crate) labels: Vec<Name>,
    pub(crate) measures: Vec<Name>,
    pub(crate) tables: Vec<Table>,
    pub(crate) automata: Vec<&'a AutomatonPart>,
    pub(crate) tests: Vec<Name>,
    ghost few_columns: { vec_len columns ≤ COLUMN_LIMIT },
    ghost few_labels: { vec_len labels ≤ LABEL_LIMIT },
    ghost few_measures: { vec_len measures ≤ MEASURE_LIMIT },
    ghost few_tables: { vec_len tables ≤ TABLE_LIMIT },
    ghost few_automata: { vec_len automata ≤ AUTOMATON_LIMIT },
    ghost few_tests: { vec_len tests ≤ TEST_LIMIT },
    ghost tables_within: { All IsTableWithin (map plain_named tables.items) },
    ghost automata_ready: { All IsReadyAutomaton (map (λ line. automaton_tree line.now) automata.items) },
}
