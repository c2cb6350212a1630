//! Why the lines of a text could not be taken.
ghost use Rattle.std.specs.Prelude.{◌≡◌};
ghost use Rattle.gta_text.specs.declared.fault.TextFault.TheVariants.{Memory};

use std::alloc::{AllocError, AllocFailed};

/// Why `lines_of` refuses.
#[derive(Clone, Copy, Debug, PartialEq, Eq)]
pub enum TextFault {
    /// The first byte that may not stand in a specification: its line and its place in the line,
    /// both from 1. A mark EF BB BF at the beginning of the text has no place.
    Byte { line: u32, place: u32 },
    /// Want of memory.
    Memory,
}

impl From<AllocError> for TextFault {
    ghost from_gives = { λ _ e. e ≡ Memory };

    fn from(_e: AllocError) -> TextFault {
        TextFault::Memory
    }
}

impl<T: Drop> From<AllocFailed<T>> for TextFault {
    ghost from_gives = { λ _ e. e ≡ Memory };

    fn from(_e: AllocFailed<T>) -> TextFault {
        TextFault::Memory
    }
}
