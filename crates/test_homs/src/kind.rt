//! What a kind of test is: a monoid, letters, and the elements that are accepted. specs/Hom.antt has its meaning
//! and its law. Of a test of any kind its letters and accepted elements are listed; specs/Prepared.antt has the lists.

ghost use Rattle.std.specs.Prelude.{◌≡◌, ◌<◌, ◌++◌, map, IfOk, OnOk};
ghost use Rattle.std.specs.List.{range_with_len};
ghost use Rattle.gta_checked.specs.PlainRows.{PlainRows};
ghost use Rattle.monoid_product.specs.ComponentOf.{plain_component};
ghost use Rattle.test_homs.specs.Hom.{Hom};
ghost use Rattle.test_homs.specs.Prepared as plain;

use crate::prepared::Prepared;
use monoid_kit::Monoid;
use monoid_product::Component;
use std::alloc::{AllocError, Global};

/// A test that is decided by the product of letters, over the rows of a table.
pub(crate) trait Kind: Drop {
    ghost hom: { Self → Hom };

    ghost rows: { Self → PlainRows };

    // what the test needs of its specification and of the table
    ghost is_within: { Self → Type 0 };

    /// The monoid. It takes memory for a table.
    fn component(&self, alloc: Global) -> Result<Component, AllocError>
        requires within { is_within self.now }
        ensures { IfOk result (λ component. plain_component component ≡ (hom self.now).component) };

    /// The letter of a row with a label. It takes no memory.
    fn letter(&self, row: u32, label: u32) -> u32
        requires within { is_within self.now }
        requires row_in_range { row < (rows self.now).count }
        ensures { result ≡ (hom self.now).letter (rows self.now) row label };

    /// Whether an element is accepted. It takes no memory.
    fn accepts(&self, element: u32) -> bool
        requires within { is_within self.now }
        ensures { result ≡ (hom self.now).accepts element };
}

/// The test of this number, with the letters of so many rows and labels. It takes memory for them, for the accepted
/// elements and for a table.
pub(crate) fn prepare<K: Kind>(
    alloc: Global,
    number: usize,
    kind: &K,
    rows: u32,
    labels: u32,
) -> Result<Prepared, AllocError>
    requires within { K.is_within kind.now }
    requires rows { rows ≡ (K.rows kind.now).count }
    ensures { IfOk result (λ test.
        plain.plain_prepared test ≡ plain.prepared_of (K.rows kind.now) labels number (K.hom kind.now)) }
{
    let component = kind.component(alloc)?;
    let accept = accepted_by(alloc, kind, component.size())?;
    let letters = letters_of(alloc, kind, rows, labels)?;
    Ok(Prepared {
        number,
        component,
        letters,
        accept,
    })
}

fn letters_of<K: Kind>(
    alloc: Global,
    kind: &K,
    rows: u32,
    labels: u32,
) -> Result<Vec<u32>, AllocError>
    requires within { K.is_within kind.now }
    requires rows { rows ≡ (K.rows kind.now).count }
    ensures { IfOk result (λ letters.
        letters.items ≡ plain.letters_of (K.hom kind.now) (K.rows kind.now) labels) }
{
    let mut letters = Vec::with_capacity(alloc, rows as usize * labels as usize)?;
    for row in 0..rows {
        push_row(&mut letters, kind, row, labels)?;
    }
    Ok(letters)
}

/// Adds the letters of a row.
fn push_row<K: Kind>(
    letters: &mut Vec<u32>,
    kind: &K,
    row: u32,
    labels: u32,
) -> Result<(), AllocError>
    requires within { K.is_within kind.now }
    requires row_in_range { row < (K.rows kind.now).count }
    ensures { OnOk result (letters.new.items
        ≡ letters.old.items ++ plain.row_letters (K.hom kind.now) (K.rows kind.now) labels row) }
{
    for label in 0..labels {
        letters.push(kind.letter(row, label))?;
    }
    Ok(())
}

fn accepted_by<K: Kind>(alloc: Global, kind: &K, size: u32) -> Result<Vec<bool>, AllocError>
    requires within { K.is_within kind.now }
    ensures { IfOk result (λ accept.
        accept.items ≡ map (K.hom kind.now).accepts (range_with_len 0 size)) }
{
    let mut accept = Vec::with_capacity(alloc, size as usize)?;
    for element in 0..size {
        accept.push(kind.accepts(element))?;
    }
    Ok(accept)
}
