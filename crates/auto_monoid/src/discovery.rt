//! The functions of words are found and numbered. Their order is in specs/Numbering.antt.

ghost use Rattle.std.specs.Prelude.{◌≡◌, ◌<◌, ◌≤◌, All, [], IfOk, IfErr, OnOk, length, slice_index_or, true};
ghost use Rattle.std.specs.List.{fold};
ghost use Rattle.monoid_kit.specs.declared.table.TheConstants.{GREATEST_TABLE};
ghost use Rattle.auto_monoid.specs.declared.auto.AutoFault.TheVariants.{TooMany};
ghost use Rattle.auto_monoid.specs.Auto.{IsAuto};
ghost use Rattle.auto_monoid.specs.AutoOf.{plain_auto};
ghost use Rattle.auto_monoid.specs.Functions.{IsFunction, number_of};
ghost use Rattle.auto_monoid.specs.Numbering.{discovered, extensions, with_new, IsNumbering, are_too_many};

use crate::auto::{Auto, AutoFault};
use crate::function::Function;
use monoid_kit::GREATEST_TABLE;
use std::alloc::{AllocError, Global};

/// All functions of words, in order.
pub(crate) fn discover(alloc: Global, auto: &Auto) -> Result<Vec<Function>, AutoFault>
    requires auto { IsAuto (plain_auto auto.now) }
    ensures numbered { IfOk result (λ functions. IsNumbering (plain_auto auto.now) functions.items) }
    ensures few { IfOk result (λ functions. length functions.items ≤ GREATEST_TABLE) }
    ensures too_many { IfErr result (λ fault. fault ≡ TooMany → are_too_many (plain_auto auto.now) ≡ true) }
{
    let mut functions = match first(alloc, auto) {
        Ok(functions) => functions,
        Err(AllocError) => return Err(AutoFault::Memory),
    };
    for element in 0..GREATEST_TABLE as usize {
        if element == functions.len() {
            return Ok(functions);
        }
        if let Err(AllocError) = extend(alloc, auto, &mut functions, element) {
            return Err(AutoFault::Memory);
        }
        if functions.len() > GREATEST_TABLE as usize {
            return Err(AutoFault::TooMany);
        }
    }
    Ok(functions)
}

// The identity alone.
fn first(alloc: Global, auto: &Auto) -> Result<Vec<Function>, AllocError>
    ensures { IfOk result (λ functions. functions.items ≡ discovered (plain_auto auto.now) 0) }
{
    let mut functions = Vec::with_capacity(alloc, GREATEST_TABLE as usize)?;
    functions.push(Function::identity(alloc, auto.states)?)?;
    Ok(functions)
}

// Adds what is new among the function's extensions by each letter.
fn extend(
    alloc: Global,
    auto: &Auto,
    functions: &mut Vec<Function>,
    element: usize,
) -> Result<(), AllocError>
    requires auto { IsAuto (plain_auto auto.now) }
    requires functions { All (IsFunction auto.now.states) functions.now.items }
    requires element { element < length functions.now.items }
    requires few { length functions.now.items ≤ GREATEST_TABLE }
    ensures { OnOk result (functions.new.items ≡ fold with_new functions.old.items
        (extensions (plain_auto auto.now) (slice_index_or functions.old.items element []))) }
{
    for letter in 0..auto.letters {
        let extension = functions[element].followed_by(alloc, auto, letter)?;
        add_new(functions, extension)?;
    }
    Ok(())
}

// Adds the function if it is new.
fn add_new(functions: &mut Vec<Function>, function: Function) -> Result<(), AllocError>
    ensures { OnOk result (functions.new.items ≡ with_new functions.old.items function) }
{
    if place_of(functions, &function) < functions.len() {
        return Ok(());
    }
    functions.push(function)?;
    Ok(())
}

/// The place of the function, or the length of the list where it isn't there.
pub(crate) fn place_of(functions: &[Function], function: &Function) -> usize
    ensures place { result ≡ number_of functions.now function.now }
    ensures within { result ≤ length functions.now }
{
    for place in 0..functions.len() {
        if function.is_same(&functions[place]) {
            return place;
        }
    }
    functions.len()
}
