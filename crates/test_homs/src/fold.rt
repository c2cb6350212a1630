//! Tests of a fold in a table. The definition is in specs/Fold.antt.

use crate::kind::Kind;
use gta_checked::{Pick, Rows};
use gta_meaning::{ElementSet, picked};
use monoid_kit::{Monoid, TableMonoid};
use monoid_product::Component;
use std::alloc::{AllocError, Global};

/// The product of what the marks pick is among the accepted elements, which a set holds too.
#[derive(Drop)]
pub(crate) struct Fold<'a> {
    pub rows: &'a Rows,
    pub table: &'a TableMonoid,
    pub picks: &'a [Pick],
    pub accept: &'a [u32],
    pub accepted: &'a ElementSet,
}

impl<'a> Kind for Fold<'a> {
    ghost use Rattle.std.specs.Prelude.{ℕ, All, map};
    ghost use Rattle.monoid_kit.specs.TableOf.{plain_table};
    ghost use Rattle.gta_checked.specs.Plain.{plain_pick};
    ghost use Rattle.gta_checked.specs.PlainRows.{plain_rows};
    ghost use Rattle.gta_checked.specs.Within.{IsPickWithin};
    ghost use Rattle.gta_meaning.specs.Elements.{HasElements};
    ghost use Rattle.test_homs.specs.Fold.{fold_in};

    ghost hom = { λ test. fold_in (plain_table test.table.now) (map plain_pick test.picks.now) test.accept.now };

    ghost rows = { λ test. plain_rows test.rows.now };

    ghost is_within = { λ test. ((labels : ℕ) × All (IsPickWithin test.rows.now.columns labels
        (plain_table test.table.now).size) (map plain_pick test.picks.now))
        × HasElements test.accept.now test.accepted.now };

    fn component(&self, alloc: Global) -> Result<Component, AllocError> {
        Ok(Component::Table(self.table.twin(alloc)?))
    }

    fn letter(&self, row: u32, label: u32) -> u32 {
        picked(self.rows, self.table.unit(), self.picks, row, label)
    }

    fn accepts(&self, element: u32) -> bool {
        self.accepted.contains(element)
    }
}
