//! A checked specification. What contracts see of it is in specs/Plain.antt, its limits are in specs/Within.antt.

ghost use Rattle.std.specs.Prelude.{◌≡◌, map};
ghost use Rattle.auto_monoid.specs.TransitionOf.{machine};
ghost use Rattle.gta_checked.specs.Plain.{plain_checked, plain_keep_if, plain_measure, plain_named, plain_test};
ghost use Rattle.gta_checked.specs.Within.{IsWithinLimits};

use crate::resolved::{Goal, Keep, Measure, Table, Test};
use auto_monoid::AutoMonoid;
use gta_spec::ColumnItem;
use gta_text::Name;
use shape_gen::Shape;
use std::marker::Model;

/// A specification whose names are resolved to numbers. It keeps the limits of the language.
#[derive(Drop)]
pub struct Checked {
    version: u8,
    columns: Vec<ColumnItem>,
    labels: Vec<Name>,
    measures: Vec<Measure>,
    tables: Vec<Table>,
    automata: Vec<AutoMonoid>,
    tests: Vec<Test>,
    named: Vec<bool>,
    keep: Option<Keep>,
    shape: Shape,
    goal: Goal,
}

impl Model for Checked {
    ghost use Rattle.gta_checked.specs.Plain.{PlainChecked, plain_checked};
    ghost use Rattle.gta_checked.specs.Within.{IsWithinLimits};
    ghost use Rattle.std.specs.Coded.{codes};
    ghost use Rattle.gta_checked.specs.Codes.{coded_keep};

    ghost Value = { PlainChecked };

    ghost coded = { Prim.hlevel (codes, coded_keep) };

    ghost view = { λ c. plain_checked c.version c.columns.items c.labels.items c.measures.items
        c.tables.items c.automata.items c.tests.items c.named.items c.keep c.shape c.goal };

    ghost invariant = { λ c. IsWithinLimits (plain_checked c.version c.columns.items c.labels.items
        c.measures.items c.tables.items c.automata.items c.tests.items c.named.items c.keep c.shape c.goal) };
}

/// Each reader lends its part, and takes no memory.
impl Checked {
    /// The checked specification with these parts.
    pub fn of(
        version: u8,
        columns: Vec<ColumnItem>,
        labels: Vec<Name>,
        measures: Vec<Measure>,
        tables: Vec<Table>,
        automata: Vec<AutoMonoid>,
        tests: Vec<Test>,
        named: Vec<bool>,
        keep: Option<Keep>,
        shape: Shape,
        goal: Goal,
    ) -> Checked
        requires within { IsWithinLimits (plain_checked version columns.items labels.items
            measures.items tables.items automata.items tests.items named.items keep shape goal) }
        ensures { result ≡ plain_checked version columns.items labels.items
            measures.items tables.items automata.items tests.items named.items keep shape goal }
    {
        Checked {
            version,
            columns,
            labels,
            measures,
            tables,
            automata,
            tests,
            named,
            keep,
            shape,
            goal,
        }
    }

    /// The version of the language.
    pub fn version(&self) -> &u8
        ensures { result.now ≡ self.now.version }
    {
        &self.version
    }

    /// The declared columns.
    pub fn columns(&self) -> &Vec<ColumnItem>
        ensures columns { result.now.items ≡ self.now.columns }
        ensures within { IsWithinLimits self.now }
    {
        &self.columns
    }

    /// The declared labels; there are some exactly where the shape is Assign.
    pub fn labels(&self) -> &Vec<Name>
        ensures labels { result.now.items ≡ self.now.labels }
        ensures within { IsWithinLimits self.now }
    {
        &self.labels
    }

    /// The columns as measures, then the declared measures.
    pub fn measures(&self) -> &Vec<Measure>
        ensures measures { map plain_measure result.now.items ≡ self.now.measures }
        ensures within { IsWithinLimits self.now }
    {
        &self.measures
    }

    /// The tables, in the order of their lines.
    pub fn tables(&self) -> &Vec<Table>
        ensures tables { map plain_named result.now.items ≡ self.now.tables }
        ensures within { IsWithinLimits self.now }
    {
        &self.tables
    }

    /// The transition monoids of the automata, in the order of their lines.
    pub fn automata(&self) -> &Vec<AutoMonoid>
        ensures automata { map machine result.now.items ≡ self.now.automata }
        ensures within { IsWithinLimits self.now }
    {
        &self.automata
    }

    /// The tests, in the order of their lines.
    pub fn tests(&self) -> &Vec<Test>
        ensures tests { map plain_test result.now.items ≡ self.now.tests }
        ensures within { IsWithinLimits self.now }
    {
        &self.tests
    }

    /// Whether each test has a name, in the order of the tests.
    pub fn named(&self) -> &Vec<bool>
        ensures named { result.now.items ≡ self.now.named }
        ensures within { IsWithinLimits self.now }
    {
        &self.named
    }

    /// The expression over tests that a candidate must meet beside the tests without a name, where a line says one.
    pub fn keep(&self) -> &Option<Keep>
        ensures keep { plain_keep_if result.now ≡ self.now.keep }
        ensures within { IsWithinLimits self.now }
    {
        &self.keep
    }

    /// Which candidates are generated.
    pub fn shape(&self) -> &Shape
        ensures shape { result.now ≡ self.now.shape }
        ensures within { IsWithinLimits self.now }
    {
        &self.shape
    }

    /// What is asked of the candidates that pass.
    pub fn goal(&self) -> &Goal
        ensures goal { result.now ≡ self.now.goal }
        ensures within { IsWithinLimits self.now }
    {
        &self.goal
    }
}
