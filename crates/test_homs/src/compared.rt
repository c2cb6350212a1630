//! Tests that compare a sum of natural numbers with a bound. The definition is in specs/Compared.antt.

use crate::added::{Added, added_at};
use crate::kind::Kind;
use gta_checked::{Checked, Rows};
use gta_meaning::compares;
use gta_spec::Cmp;
use monoid_kit::CappedSum;
use monoid_product::Component;
use std::alloc::{AllocError, Global};

/// What is added up compares with the number.
#[derive(Drop)]
pub(crate) struct Compared<'a> {
    pub checked: &'a Checked,
    pub rows: &'a Rows,
    pub added: Added,
    pub cmp: Cmp,
    pub number: i64,
}

impl<'a> Kind for Compared<'a> {
    ghost use Rattle.std.specs.Prelude.{length};
    ghost use Rattle.gta_checked.specs.PlainRows.{plain_rows};
    ghost use Rattle.gta_checked.specs.Within.{IsCheckWithin};
    ghost use Rattle.gta_meaning.specs.InRange.{HasColumnsOf};
    ghost use Rattle.gta_spec.specs.declared.parts.Check.TheVariants.{Compare};
    ghost use Rattle.test_homs.specs.Added.{IsAddedWithin};
    ghost use Rattle.test_homs.specs.Compared.{compared};

    ghost hom = { λ test. compared test.checked.now test.added test.cmp test.number };

    ghost rows = { λ test. plain_rows test.rows.now };

    ghost is_within = { λ test. HasColumnsOf test.checked.now (plain_rows test.rows.now)
        × IsAddedWithin (length test.checked.now.measures) test.added
        × IsCheckWithin (Compare test.cmp test.number) };

    fn component(&self, _: Global) -> Result<Component, AllocError> {
        let bound = self.number as u32;
        Ok(Component::Capped(CappedSum { bound }))
    }

    fn letter(&self, row: u32, label: u32) -> u32 {
        let value = added_at(self.checked, self.rows, self.added, row, label);
        value.unsigned_abs().min(self.number as u128 + 1) as u32
    }

    fn accepts(&self, element: u32) -> bool {
        compares(self.cmp, element as i128, self.number as i128)
    }
}
