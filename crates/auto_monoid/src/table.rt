//! The table of the products of all functions.

ghost use Rattle.std.specs.Prelude.{◌≡◌, ◌++◌, ◌<◌, ◌≤◌, All, IfOk, OnOk, length};
ghost use Rattle.monoid_kit.specs.declared.table.TheConstants.{GREATEST_TABLE};
ghost use Rattle.monoid_kit.specs.TableOf.{plain_raw};
ghost use Rattle.auto_monoid.specs.Auto.{IsAuto};
ghost use Rattle.auto_monoid.specs.AutoOf.{plain_auto};
ghost use Rattle.auto_monoid.specs.Functions.{IsFunction};
ghost use Rattle.auto_monoid.specs.MonoidOf.{letter_elements, products, product_table};

use crate::auto::Auto;
use crate::discovery::place_of;
use crate::function::Function;
use monoid_kit::{GREATEST_TABLE, RawTable};
use std::alloc::{AllocError, Global};

/// The table of all products.
pub(crate) fn table_of(
    alloc: Global,
    functions: &[Function],
    states: u32,
) -> Result<RawTable, AllocError>
    requires functions { All (IsFunction states) functions.now }
    requires few { length functions.now ≤ GREATEST_TABLE }
    ensures { IfOk result (λ table. plain_raw table ≡ product_table functions.now) }
{
    let mut cells = Vec::new(alloc);
    for left in functions {
        add_products(alloc, functions, left, &mut cells)?;
    }
    Ok(RawTable {
        size: functions.len() as u32,
        unit: 0,
        cells,
    })
}

// Adds the products of one function with each.
fn add_products(
    alloc: Global,
    functions: &[Function],
    left: &Function,
    cells: &mut Vec<u32>,
) -> Result<(), AllocError>
    requires functions { All (λ right. All (λ state. state < length right) left.now) functions.now }
    requires few { length functions.now ≤ GREATEST_TABLE }
    ensures { OnOk result (cells.new.items ≡ cells.old.items ++ products functions.now left.now) }
{
    for right in functions {
        let product = left.then(alloc, right)?;
        cells.push(place_of(functions, &product) as u32)?;
    }
    Ok(())
}

/// The number of the function of each letter.
pub(crate) fn letters_of(
    alloc: Global,
    auto: &Auto,
    functions: &[Function],
) -> Result<Vec<u32>, AllocError>
    requires auto { IsAuto (plain_auto auto.now) }
    requires few { length functions.now ≤ GREATEST_TABLE }
    ensures { IfOk result (λ letters. letters.items
        ≡ letter_elements (plain_auto auto.now) functions.now) }
{
    let identity = Function::identity(alloc, auto.states)?;
    let mut letters = Vec::with_capacity(alloc, auto.letters as usize)?;
    for letter in 0..auto.letters {
        let function = identity.followed_by(alloc, auto, letter)?;
        letters.push(place_of(functions, &function) as u32)?;
    }
    Ok(letters)
}
