//! The tests of a job as letters for its rows and labels, and the keys that are accepted.

ghost use Rattle.std.specs.Prelude.{◌≡◌, ◌<◌, ◌+◌, ◌*◌, length, slice_index_or};
ghost use Rattle.std.specs.Prelude.{map, IfOk};
ghost use Rattle.outcome_kit.specs.Outcome.{Passes};
ghost use Rattle.gta_checked.specs.PlainRows.{plain_rows};
ghost use Rattle.gta_meaning.specs.InRange.{HasColumnsOf};
ghost use Rattle.monoid_product.specs.ProductOf.{plain_parts};
ghost use Rattle.test_homs.specs.Homs as homs;
ghost use Rattle.test_homs.specs.Homs.{ArePrepared};
ghost use Rattle.test_homs.specs.Joined.{AreJoinable, components, joined};
ghost use Rattle.test_homs.specs.Prepared.{plain_prepared};
ghost use Rattle.test_homs.specs.declared.tests_of.ValueFault.TheVariants.{Memory};
ghost use Rattle.test_homs.specs.Faults.{fault_in, value_fault};

use crate::joined::{accepted_keys, components, keys};
use crate::kinds::prepared_tests;
use crate::negatives::first_negative;
use crate::order::put_in_order;
use crate::prepared::Prepared;
use gta_checked::{Checked, Rows};
use gta_meaning::label_count;
use monoid_product::{Product, TooLarge, product_of};
use std::alloc::{AllocError, AllocFailed, Global};
use std::marker::Model;

/// The monoid of the keys, a letter for each row and label, and which keys are accepted.
#[derive(Drop)]
pub struct Tests {
    product: Product,
    labels: u32,
    letters: Vec<u32>,
    accept: Vec<bool>,
}

impl Model for Tests {
    ghost use Rattle.monoid_product.specs.ProductOf.{plain_parts};
    ghost use Rattle.test_homs.specs.Homs.{PlainTests};

    ghost Value = { PlainTests };

    ghost view = { λ tests. record {
      parts = plain_parts tests.product;
      labels = tests.labels;
      letters = tests.letters.items;
      accept = tests.accept.items;
    } };
}

/// Why tests have no letters.
#[derive(Clone, Copy, PartialEq, Eq, Debug)]
pub enum ValueFault {
    /// This test is a compared sum, and the value at this row with this label is negative; all count from 0.
    Negative {
        test: u32,
        row: u32,
        label: u32,
        value: i128,
    },
    /// The tests have so many keys together, more than 8,192.
    TooManyKeys {
        keys: u128,
    },
    /// Memory was wanting.
    Memory,
}

impl From<AllocError> for ValueFault {
    ghost from_gives = { λ _ fault. fault ≡ Memory };

    fn from(_: AllocError) -> ValueFault {
        ValueFault::Memory
    }
}

impl<T: Drop> From<AllocFailed<T>> for ValueFault {
    ghost from_gives = { λ _ fault. fault ≡ Memory };

    fn from(_: AllocFailed<T>) -> ValueFault {
        ValueFault::Memory
    }
}

/// Each reader takes no memory.
impl Tests {
    /// The monoid in which the letters are multiplied.
    pub fn product(&self) -> &Product
        ensures { plain_parts result.now ≡ self.now.parts }
    {
        &self.product
    }

    /// The letters by row, and then by label.
    pub fn letters(&self) -> &[u32]
        ensures { result.now ≡ self.now.letters }
    {
        &self.letters
    }

    /// Which keys are accepted.
    pub fn accept(&self) -> &[bool]
        ensures { result.now ≡ self.now.accept }
    {
        &self.accept
    }

    /// The letter of a row with a label.
    pub fn letter(&self, row: u32, label: u32) -> u32
        requires in_range { row * self.now.labels + label < length self.now.letters }
        ensures { result ≡ slice_index_or self.now.letters (row * self.now.labels + label) 0 }
    {
        self.letters[row as usize * self.labels as usize + label as usize]
    }

    /// Whether a key is accepted.
    pub fn accepts(&self, key: u32) -> bool
        requires is_key { key < length self.now.accept }
        ensures { result ≡ homs.accepts self.now key }
    {
        self.accept[key as usize]
    }
}

/// The letters of the rows and labels for the tests of a checked specification, and the keys that they
/// accept. Refused at the first negative value of a compared sum, by test, row and label; and where there
/// is none, where the tests have more than 8,192 keys together.
pub fn prepare_tests(alloc: Global, checked: &Checked, rows: &Rows) -> Result<Tests, ValueFault>
    requires columns { HasColumnsOf checked.now (plain_rows rows.now) }
    ensures tells { Passes fault_in (value_fault checked.now (plain_rows rows.now)) result }
    ensures prepared { IfOk result (ArePrepared checked.now (plain_rows rows.now)) }
{
    if let Some(negative) = first_negative(checked, rows) {
        return Err(ValueFault::Negative {
            test: negative.test,
            row: negative.row,
            label: negative.label,
            value: negative.value,
        });
    }
    let mut tests = prepared_tests(alloc, checked, rows)?;
    put_in_order(&mut tests)?;
    match product_of(components(alloc, &tests)?) {
        Ok(product) => {
            let labels = label_count(checked);
            let count = rows.count as usize * labels as usize;
            Ok(tests_in(alloc, checked, product, &tests, count, labels)?)
        }
        Err(TooLarge { keys }) => Err(ValueFault::TooManyKeys { keys }),
    }
}

fn tests_in(
    alloc: Global,
    checked: &Checked,
    product: Product,
    tests: &[Prepared],
    count: usize,
    labels: u32,
) -> Result<Tests, AllocError>
    requires joinable { AreJoinable count (map plain_prepared tests.now) }
    requires whole { length tests.now ≡ length checked.now.tests }
    requires product { plain_parts product ≡ components (map plain_prepared tests.now) }
    ensures { IfOk result (λ made. made ≡ joined checked.now count labels (map plain_prepared tests.now)) }
{
    let letters = keys(alloc, &product, tests, count)?;
    let accept = accepted_keys(alloc, checked, &product, tests)?;
    Ok(Tests {
        product,
        labels,
        letters,
        accept,
    })
}
