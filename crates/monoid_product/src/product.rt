//! What a product holds. Its keys are in keys.rt.

ghost use Rattle.std.specs.Prelude.{◌≡◌, ◌≤◌, List, IfOk};
ghost use Rattle.monoid_product.specs.declared.component.Component.{Component};
ghost use Rattle.monoid_product.specs.declared.product.TheConstants.{KEY_LIMIT};
ghost use Rattle.monoid_product.specs.ComponentOf.{plain_components};
ghost use Rattle.monoid_product.specs.Product.{key_count};

use crate::component::Component;
use std::alloc::{AllocError, Global};
use std::marker::Model;

/// The most keys of a product.
pub const KEY_LIMIT: u32 = 8192;

/// The most components of a product.
pub const PART_LIMIT: usize = 8;

/// Components, seen as a list.
#[derive(Drop)]
pub(crate) struct Parts {
    items: Vec<Component>,
}

impl Model for Parts {
    ghost Value = { List Component };

    ghost view = { λ parts. parts.items.items };
}

impl Parts {
    pub(crate) fn of(items: Vec<Component>) -> Parts
        ensures { result ≡ items.items }
    {
        Parts { items }
    }

    pub(crate) fn as_slice(&self) -> &[Component]
        ensures { result.now ≡ self.now }
    {
        self.items.as_slice()
    }

    pub(crate) fn twin(&self, alloc: Global) -> Result<Parts, AllocError>
        ensures { IfOk result (λ twin. twin ≡ self.now) }
    {
        Ok(Parts {
            items: twins(alloc, &self.items)?,
        })
    }
}

fn twins(alloc: Global, parts: &[Component]) -> Result<Vec<Component>, AllocError>
    ensures { IfOk result (λ twins. twins.items ≡ parts.now) }
{
    let mut items = Vec::with_capacity(alloc, parts.len())?;
    for part in parts {
        items.push(part.twin(alloc)?)?;
    }
    Ok(items)
}

/// The product of at most 8 monoids, with at most 8,192 keys.
/// With no component there is one key, 0.
#[derive(Drop)]
pub struct Product {
    pub(crate) parts: Parts,
    pub(crate) size: u32,
    ghost counted: { size ≡ key_count (plain_components parts) },
    ghost within: { size ≤ KEY_LIMIT },
}
