//! The parts of a specification, as its lines say them. Names are not resolved here.

use gta_text::Name;
use shape_gen::Shape;
use sqlite_items::Items;

/// A specification: the version of the language, and its parts in order.
#[derive(Debug, Drop)]
pub struct Spec {
    pub version: u8,
    pub parts: Vec<Part>,
}

/// What one line says. Lines are numbered from 1.
#[derive(Debug, Drop)]
pub struct Part {
    pub line: u32,
    pub kind: PartKind,
}

#[derive(Debug, Drop)]
pub enum PartKind {
    Columns(Vec<ColumnItem>),
    Labels(Vec<Name>),
    Measure(MeasurePart),
    Table(TablePart),
    Times(TimesPart),
    /// From version 3 on.
    Automaton(AutomatonPart),
    /// From version 3 on.
    Step(StepPart),
    Generate(Shape),
    Test(TestPart),
    /// A test that has a name. From version 2 on.
    Named { name: Name, test: TestPart },
    /// From version 2 on.
    Keep(KeepPart),
    Aggregate(GoalPart),
}

/// A column, and the text of its header where that is not its name.
#[derive(Debug, Drop)]
pub struct ColumnItem {
    pub name: Name,
    pub header: Option<Name>,
}

#[derive(Debug, Drop)]
pub struct MeasurePart {
    pub name: Name,
    pub cases: Vec<CasePart>,
}

/// A linear form, and the atoms of its condition. No atoms: no condition was written.
#[derive(Debug, Drop)]
pub struct CasePart {
    pub form: Vec<TermPart>,
    pub cond: Vec<AtomPart>,
}

/// A number, a column, or a number times a column, and whether a minus stands before it.
#[derive(Debug, Drop)]
pub struct TermPart {
    pub minus: bool,
    pub number: Option<u64>,
    pub name: Option<Name>,
}

#[derive(Debug, Drop)]
pub enum AtomPart {
    Label(Name),
    Column { name: Name, cmp: Cmp, number: i64 },
}

#[derive(Clone, Copy, Debug, PartialEq, Eq)]
pub enum Cmp {
    AtMost,
    AtLeast,
    Equal,
}

#[derive(Debug, Drop)]
pub struct TablePart {
    pub name: Name,
    pub unit: Name,
    pub elements: Vec<Name>,
}

/// The products of an element with each element of its table, in the table's order.
#[derive(Debug, Drop)]
pub struct TimesPart {
    pub table: Name,
    pub element: Name,
    pub products: Vec<Name>,
}

/// The states of an automaton, the one in which it starts, and its letters.
#[derive(Debug, Drop)]
pub struct AutomatonPart {
    pub name: Name,
    pub states: Vec<Name>,
    pub start: Name,
    pub letters: Vec<Name>,
}

/// The states to which a letter leads from each state of its automaton, in the automaton's order.
#[derive(Debug, Drop)]
pub struct StepPart {
    pub automaton: Name,
    pub letter: Name,
    pub targets: Vec<Name>,
}

#[derive(Debug, Drop)]
pub enum TestPart {
    Sum {
        name: Name,
        check: Check,
    },
    Length {
        check: Check,
    },
    Fold {
        table: Name,
        picks: Vec<PickPart>,
        accept: Vec<Name>,
    },
    /// The picks are letters, and states are accepted. From version 3 on.
    Run {
        automaton: Name,
        picks: Vec<PickPart>,
        accept: Vec<Name>,
    },
}

#[derive(Clone, Copy, Debug, PartialEq, Eq)]
pub enum Check {
    Compare { cmp: Cmp, number: i64 },
    Mod { modulus: u64, residue: u64 },
}

/// An element or a letter, and the atoms of its condition. No atoms: no condition was written.
#[derive(Debug, Drop)]
pub struct PickPart {
    pub element: Name,
    pub cond: Vec<AtomPart>,
}

/// Which of the tests that have names a candidate must pass: one, not one, both, or one of two at least.
/// `and` and `or` group to the left.
#[derive(Debug, Drop)]
pub enum KeepPart {
    Test(Name),
    Not(Box<KeepPart>),
    Both(Box<KeepPart>, Box<KeepPart>),
    Either(Box<KeepPart>, Box<KeepPart>),
}

#[derive(Debug, Drop)]
pub enum GoalPart {
    Count,
    Any,
    Max(Name),
    Min(Name),
    Best {
        k: u64,
        greatest: bool,
        name: Name,
    },
    /// Two or three totals, compared one after the other; with `k` the best k. From version 2 on.
    Ranked {
        k: Option<u64>,
        keys: Items<RankPart>,
    },
}

/// A total, and whether the greater or the lesser one is better.
#[derive(Debug, Drop)]
pub struct RankPart {
    pub greatest: bool,
    pub name: Name,
}
