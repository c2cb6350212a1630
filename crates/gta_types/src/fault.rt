//! Why a specification is not accepted.

ghost use Rattle.std.specs.Prelude.{◌≡◌};
ghost use Rattle.gta_types.specs.declared.fault.CheckFault.TheVariants.{Automaton, Memory, Table};

use gta_text::Name;
use spec_automata::AutomataFault;
use spec_tables::TablesFault;
use std::alloc::AllocError;

/// The first fault of a specification. Lines are numbered from 1.
#[derive(Debug, Drop)]
pub enum CheckFault {
    /// This line uses a name that isn't declared for that use.
    Unknown { line: u32, name: Name },
    /// This line declares a name that is declared before it.
    Twice { line: u32, name: Name },
    /// There is no line `columns`, `generate` or `aggregate`.
    Missing { part: Name },
    /// This line is the second `columns`, `labels`, `generate`, `aggregate` or `keep`.
    SecondPart { line: u32, part: Name },
    /// `generate assign` without `labels`, on its line, or `labels` without `generate assign`, on its line.
    LabelsAssign { line: u32, assign: bool },
    /// This line passes this limit.
    Limit { line: u32, limit: Name },
    /// The products of a table are those of no monoid.
    Table(TablesFault),
    /// An automaton isn't total, or has too many functions.
    Automaton(AutomataFault),
    /// Memory was wanting.
    Memory,
}

impl From<AllocError> for CheckFault {
    ghost from_gives = { λ _ e. e ≡ Memory };

    fn from(_: AllocError) -> CheckFault {
        CheckFault::Memory
    }
}

impl From<TablesFault> for CheckFault {
    ghost from_gives = { λ fault end. end ≡ Table fault };

    fn from(fault: TablesFault) -> CheckFault {
        CheckFault::Table(fault)
    }
}

impl From<AutomataFault> for CheckFault {
    ghost from_gives = { λ fault end. end ≡ Automaton fault };

    fn from(fault: AutomataFault) -> CheckFault {
        CheckFault::Automaton(fault)
    }
}
