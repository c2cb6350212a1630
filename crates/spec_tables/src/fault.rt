//! Why the tables of a specification are no monoids.

ghost use Rattle.std.specs.Prelude.{◌≡◌};
ghost use Rattle.spec_tables.specs.declared.fault.TablesFault.TheVariants.{Memory};

use gta_text::Name;
use std::alloc::{AllocError, AllocFailed};

/// The first fault of the tables, by the names of their elements.
#[derive(Debug, Drop)]
pub enum TablesFault {
    /// The unit of this table changes the element, as the left factor or else as the right.
    UnitFails {
        table: Name,
        element: Name,
        left: bool,
    },
    /// In this table (a b) c isn't a (b c).
    NotAssociative {
        table: Name,
        a: Name,
        b: Name,
        c: Name,
    },
    /// The element of this table has no line `times`, more than one, or one with another number of products
    /// than there are elements.
    NotSquare {
        table: Name,
        element: Name,
    },
    /// Memory was wanting.
    Memory,
}

impl From<AllocError> for TablesFault {
    ghost from_gives = { λ _ fault. fault ≡ Memory };

    fn from(_: AllocError) -> TablesFault {
        TablesFault::Memory
    }
}

impl<T: Drop> From<AllocFailed<T>> for TablesFault {
    ghost from_gives = { λ _ fault. fault ≡ Memory };

    fn from(_: AllocFailed<T>) -> TablesFault {
        TablesFault::Memory
    }
}
