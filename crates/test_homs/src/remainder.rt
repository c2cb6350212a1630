//! Tests of the remainder of a sum. The definition is in specs/Remainder.antt.

use crate::added::{Added, added_at};
use crate::kind::Kind;
use gta_checked::{Checked, Rows};
use monoid_kit::Modular;
use monoid_product::Component;
use std::alloc::{AllocError, Global};

/// What is added up has the residue as its remainder by the modulus, which is the least nonnegative one.
#[derive(Drop)]
pub(crate) struct Remainder<'a> {
    pub checked: &'a Checked,
    pub rows: &'a Rows,
    pub added: Added,
    pub modulus: u64,
    pub residue: u64,
}

impl<'a> Kind for Remainder<'a> {
    ghost use Rattle.std.specs.Prelude.{length};
    ghost use Rattle.gta_checked.specs.PlainRows.{plain_rows};
    ghost use Rattle.gta_checked.specs.Within.{IsCheckWithin};
    ghost use Rattle.gta_meaning.specs.InRange.{HasColumnsOf};
    ghost use Rattle.gta_spec.specs.declared.parts.Check.TheVariants.{Mod};
    ghost use Rattle.test_homs.specs.Added.{IsAddedWithin};
    ghost use Rattle.test_homs.specs.Remainder.{remainder};

    ghost hom = { λ test. remainder test.checked.now test.added test.modulus test.residue };

    ghost rows = { λ test. plain_rows test.rows.now };

    ghost is_within = { λ test. HasColumnsOf test.checked.now (plain_rows test.rows.now)
        × IsAddedWithin (length test.checked.now.measures) test.added
        × IsCheckWithin (Mod test.modulus test.residue) };

    fn component(&self, _: Global) -> Result<Component, AllocError> {
        let modulus = self.modulus as u32;
        Ok(Component::Modular(Modular { modulus }))
    }

    fn letter(&self, row: u32, label: u32) -> u32 {
        let value = added_at(self.checked, self.rows, self.added, row, label);
        value.rem_euclid(self.modulus as i128) as u32
    }

    fn accepts(&self, element: u32) -> bool {
        element as u64 == self.residue
    }
}
