//! Names by their numbers.

ghost use Rattle.std.specs.Prelude.{◌≡◌, ◌<◌, ◌^◌, length, true, option_map, IfOk};
ghost use Rattle.spec_tables.specs.Tables.{is_one_of, number_of, numbers_in};

use gta_text::Name;
use std::alloc::{AllocError, Global};

/// The number of a name among these, from 0; that of the names where it is none of them. Takes no memory.
pub fn number_in(names: &[Name], name: &Name) -> u32
    requires { length names.now < 2 ^ 32 }
    ensures number { result ≡ number_of names.now name.now }
    ensures within { is_one_of names.now name.now ≡ true → result < length names.now }
{
    for (number, other) in names.iter().enumerate() {
        if other.bytes() == name.bytes() {
            return number as u32;
        }
    }
    names.len() as u32
}

/// The numbers of as many names as there are elements; None where there are more or fewer, or one is no element. It
/// takes memory for them.
pub fn numbers_in(
    alloc: Global,
    elements: &[Name],
    products: &[Name],
) -> Result<Option<Vec<u32>>, AllocError>
    requires { length elements.now < 2 ^ 32 }
    ensures { IfOk result (λ row. option_map (λ numbers. numbers.items) row ≡ numbers_in elements.now products.now) }
{
    if products.len() != elements.len() {
        return Ok(None);
    }
    let mut numbers = Vec::with_capacity(alloc, products.len())?;
    for product in products {
        let number = number_in(elements, product);
        if number as usize == elements.len() {
            return Ok(None);
        }
        numbers.push(number)?;
    }
    Ok(Some(numbers))
}
