//! Why the automata of a specification are not accepted.

ghost use Rattle.std.specs.Prelude.{◌≡◌};
ghost use Rattle.spec_automata.specs.declared.fault.AutomataFault.TheVariants.{Memory};

use gta_text::Name;
use std::alloc::{AllocError, AllocFailed};

/// The first fault of the automata.
#[derive(Debug, Drop)]
pub enum AutomataFault {
    /// The letter of this automaton has no line `step`, more than one, or one with another number of states than the
    /// automaton has.
    NotTotal { automaton: Name, letter: Name },
    /// The letters of this automaton give more than 64 functions on its states.
    TooMany { automaton: Name },
    /// Memory was wanting.
    Memory,
}

impl From<AllocError> for AutomataFault {
    ghost from_gives = { λ _ fault. fault ≡ Memory };

    fn from(_: AllocError) -> AutomataFault {
        AutomataFault::Memory
    }
}

impl<T: Drop> From<AllocFailed<T>> for AutomataFault {
    ghost from_gives = { λ _ fault. fault ≡ Memory };

    fn from(_: AllocFailed<T>) -> AutomataFault {
        AutomataFault::Memory
    }
}
