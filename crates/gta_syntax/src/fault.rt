//! Why a line or a specification could not be taken.
ghost use Rattle.std.specs.Prelude.{◌≡◌};
ghost use Rattle.gta_syntax.specs.declared.fault.LineFault.TheVariants.{Memory};
ghost use Rattle.gta_syntax.specs.declared.fault.SpecFault.TheVariants as faults;
ghost use Rattle.gta_syntax.specs.Faults.{spec_fault};

use gta_text::TextFault;
use std::alloc::{AllocError, AllocFailed};

/// Why `read_spec` refuses. Lines, and places in them, are numbered from 1.
#[derive(Clone, Copy, Debug, PartialEq, Eq)]
pub enum SpecFault {
    /// A byte that may not stand in a specification: the first.
    Byte { line: u32, place: u32 },
    /// The first line that has tokens is not `gta 1`, `gta 2` or `gta 3`; line 1 where there is none.
    Version { line: u32 },
    /// A line is not in the grammar: the first.
    Grammar { line: u32 },
    /// A line has a number past the bound: the first.
    Number { line: u32 },
    /// There is no line `rows`.
    NoRows,
    /// Want of memory.
    Memory,
}

impl From<AllocError> for SpecFault {
    ghost from_gives = { λ _ e. e ≡ faults.Memory };

    fn from(_e: AllocError) -> SpecFault {
        SpecFault::Memory
    }
}

impl<T: Drop> From<AllocFailed<T>> for SpecFault {
    ghost from_gives = { λ _ e. e ≡ faults.Memory };

    fn from(_e: AllocFailed<T>) -> SpecFault {
        SpecFault::Memory
    }
}

impl From<TextFault> for SpecFault {
    ghost from_gives = { λ fault e. e ≡ spec_fault fault };

    fn from(fault: TextFault) -> SpecFault {
        match fault {
            TextFault::Byte { line, place } => SpecFault::Byte { line, place },
            TextFault::Memory => SpecFault::Memory,
        }
    }
}

/// Why one line could not be taken.
#[derive(Clone, Copy, Debug, PartialEq, Eq)]
pub(crate) enum LineFault {
    /// The line is not in the grammar.
    Grammar,
    /// Want of memory.
    Memory,
}

impl From<AllocError> for LineFault {
    ghost from_gives = { λ _ e. e ≡ Memory };

    fn from(_e: AllocError) -> LineFault {
        LineFault::Memory
    }
}

impl<T: Drop> From<AllocFailed<T>> for LineFault {
    ghost from_gives = { λ _ e. e ≡ Memory };

    fn from(_e: AllocFailed<T>) -> LineFault {
        LineFault::Memory
    }
}
