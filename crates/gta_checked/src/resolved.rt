//! The parts of a checked specification. Columns, labels, measures, tables and their elements, automata, their states
//! and their letters are numbered in their declared order from 0; the measures are the columns, followed by the
//! declared measures.

use gta_spec::{Check, Cmp};
use gta_text::Name;
use monoid_kit::TableMonoid;
use sqlite_items::Items;

/// A number, or a factor times a column.
#[derive(Clone, Copy, PartialEq, Eq, Debug)]
pub struct Term {
    pub factor: i64,
    pub column: Option<u32>,
}

/// What a condition asks of a row and its label.
#[derive(Clone, Copy, PartialEq, Eq, Debug)]
pub enum Atom {
    Label(u32),
    Column { column: u32, cmp: Cmp, number: i64 },
}

/// A linear form, and the atoms of its condition. No atoms: it always holds.
#[derive(Debug, Drop)]
pub struct Case {
    pub form: Vec<Term>,
    pub cond: Vec<Atom>,
}

/// A measure's cases; the first whose condition holds counts.
#[derive(Debug, Drop)]
pub struct Measure {
    pub cases: Vec<Case>,
}

/// An element or a letter, and the atoms of its condition. No atoms: it always holds.
#[derive(Debug, Drop)]
pub struct Pick {
    pub element: u32,
    pub cond: Vec<Atom>,
}

/// A table of products: the names of its elements, and the monoid on their numbers.
#[derive(Drop)]
pub struct Table {
    pub name: Name,
    pub elements: Vec<Name>,
    pub monoid: TableMonoid,
}

/// What a candidate must pass.
#[derive(Debug, Drop)]
pub enum Test {
    Sum {
        measure: u32,
        check: Check,
    },
    Length {
        check: Check,
    },
    Fold {
        table: u32,
        picks: Vec<Pick>,
        accept: Vec<u32>,
    },
    /// The picks are letters, and states are accepted.
    Run {
        automaton: u32,
        picks: Vec<Pick>,
        accept: Vec<u32>,
    },
}

/// Which tests a candidate must pass, by their numbers: one, not one, both, or one of two at least.
#[derive(Debug, Drop)]
pub enum Keep {
    Test(u32),
    Not(Box<Keep>),
    Both(Box<Keep>, Box<Keep>),
    Either(Box<Keep>, Box<Keep>),
}

/// What is asked of the candidates that pass.
#[derive(Debug, Drop)]
pub enum Goal {
    Count,
    Any,
    Max(u32),
    Min(u32),
    Best {
        k: u32,
        greatest: bool,
        measure: u32,
    },
    /// Two or three totals, compared one after the other; with `k` the best k.
    Ranked {
        k: Option<u32>,
        keys: Items<Rank>,
    },
}

/// A measure, and whether the greater or the lesser total is better.
#[derive(Clone, Copy, PartialEq, Eq, Debug)]
pub struct Rank {
    pub greatest: bool,
    pub measure: u32,
}
