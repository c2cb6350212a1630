//! Tests of a run of an automaton. The definition is in specs/Run.antt.

ghost use Rattle.std.specs.Prelude.{◌≡◌};
ghost use Rattle.auto_monoid.specs.MonoidOf.{state_after_element};
ghost use Rattle.auto_monoid.specs.Numbering.{all_functions};
ghost use Rattle.auto_monoid.specs.TransitionOf.{machine};

use crate::kind::Kind;
use auto_monoid::{AutoMonoid, transition_laws};
use gta_checked::{Pick, Rows};
use gta_meaning::{ElementSet, first_pick};
use monoid_kit::Monoid;
use monoid_product::Component;
use std::alloc::{AllocError, Global};

/// The state to which the letters that the marks pick lead is among the accepted states, which a set holds too.
#[derive(Drop)]
pub(crate) struct Run<'a> {
    pub rows: &'a Rows,
    pub automaton: &'a AutoMonoid,
    pub picks: &'a [Pick],
    pub accept: &'a [u32],
    pub accepted: &'a ElementSet,
}

impl<'a> Kind for Run<'a> {
    ghost use Rattle.std.specs.Prelude.{ℕ, All, map};
    ghost use Rattle.auto_monoid.specs.TransitionOf.{machine};
    ghost use Rattle.gta_checked.specs.Plain.{plain_pick};
    ghost use Rattle.gta_checked.specs.PlainRows.{plain_rows};
    ghost use Rattle.gta_checked.specs.Within.{IsPickWithin};
    ghost use Rattle.gta_meaning.specs.Elements.{HasElements};
    ghost use Rattle.test_homs.specs.Run.{run_of};

    ghost hom = { λ test. run_of (machine test.automaton.now) (map plain_pick test.picks.now) test.accept.now };

    ghost rows = { λ test. plain_rows test.rows.now };

    ghost is_within = { λ test. ((labels : ℕ) × All (IsPickWithin test.rows.now.columns labels
        (machine test.automaton.now).letters) (map plain_pick test.picks.now))
        × HasElements test.accept.now test.accepted.now };

    fn component(&self, alloc: Global) -> Result<Component, AllocError> {
        transition_laws(self.automaton);
        Ok(Component::Table(self.automaton.monoid().twin(alloc)?))
    }

    fn letter(&self, row: u32, label: u32) -> u32 {
        transition_laws(self.automaton);
        match first_pick(self.rows, self.picks, row, label) {
            Some(letter) => self.automaton.of_letter(letter),
            // The identity is the first element of every automaton.
            None => 0,
        }
    }

    fn accepts(&self, element: u32) -> bool {
        self.accepted.contains(state_after(self.automaton, element))
    }
}

/// The state to which an element takes the start, and 0 past the last element.
fn state_after(automaton: &AutoMonoid, element: u32) -> u32
    ensures { result ≡ state_after_element (machine automaton.now) (all_functions (machine automaton.now)) element }
{
    transition_laws(automaton);
    if element < automaton.monoid().size() {
        automaton.state_after(element)
    } else {
        0
    }
}
