//! The rules that a specification can break.

/// A part that stands at most once.
#[derive(Clone, Copy, PartialEq, Eq, Debug)]
pub enum SinglePart {
    Columns,
    Labels,
    Generate,
    Aggregate,
    Keep,
}

/// A limit of the language, in the order in which they are looked at.
#[derive(Clone, Copy, PartialEq, Eq, Debug)]
pub enum Limit {
    Name,
    Header,
    Columns,
    Labels,
    Measures,
    Tables,
    Tests,
    Elements,
    Cases,
    Terms,
    Atoms,
    Factor,
    Bound,
    Modulus,
    Residue,
    Kept,
    Automata,
    States,
    Letters,
}

/// The first rule that a specification breaks. Lines are numbered from 1.
#[derive(Clone, Copy, PartialEq, Eq, Debug)]
pub enum RuleFault {
    /// No line is this part, and one must be.
    Missing { part: SinglePart },
    /// This line repeats a part that stands at most once.
    SecondPart { line: u32, part: SinglePart },
    /// Assignments without labels, on the line of the assignments, or labels without assignments, on theirs.
    LabelsAssign { line: u32, assign: bool },
    /// This line passes a limit.
    Limit { line: u32, limit: Limit },
}
