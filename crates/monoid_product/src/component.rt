//! The monoids that a product is made of. Their sizes, units and products are in
//! specs/Component.antt.

ghost use Rattle.std.specs.Prelude.{◌≡◌, IfOk};

use monoid_kit::{CappedSum, Modular, Monoid, Span, TableMonoid};
use std::alloc::{AllocError, Global};

/// One of the monoids that a product is made of.
#[derive(Drop)]
pub enum Component {
    Capped(CappedSum),
    Modular(Modular),
    Table(TableMonoid),
}

impl Component {
    /// The same monoid once more. It takes memory for a table.
    pub fn twin(&self, alloc: Global) -> Result<Component, AllocError>
        ensures { IfOk result (λ twin. twin ≡ self.now) }
    {
        match self {
            Component::Capped(sum) => Ok(Component::Capped(*sum)),
            Component::Modular(sum) => Ok(Component::Modular(*sum)),
            Component::Table(table) => Ok(Component::Table(table.twin(alloc)?)),
        }
    }
}

impl Monoid for Component {
    ghost use Rattle.monoid_product.specs.Component.{component_size, component_unit, component_mul};
    ghost use Rattle.monoid_product.specs.ComponentOf.{plain_component};
    ghost use Rattle.monoid_product.specs.ComponentLaws.{component-IsMonoid};

    ghost size = { λ component. component_size (plain_component component) };

    ghost unit = { λ component. component_unit (plain_component component) };

    ghost mul = { λ component. component_mul (plain_component component) };

    ghost laws = { component-IsMonoid };

    fn size(&self) -> u32 {
        match self {
            Component::Capped(sum) => sum.size(),
            Component::Modular(sum) => sum.size(),
            Component::Table(table) => table.size(),
        }
    }

    fn unit(&self) -> u32 {
        match self {
            Component::Capped(sum) => sum.unit(),
            Component::Modular(sum) => sum.unit(),
            Component::Table(table) => table.unit(),
        }
    }

    fn mul(&self, a: u32, b: u32) -> u32 {
        match self {
            Component::Capped(sum) => sum.mul(a, b),
            Component::Modular(sum) => sum.mul(a, b),
            Component::Table(table) => table.mul(a, b),
        }
    }

    fn spans(&self, alloc: Global, a: u32) -> Result<Vec<Span>, AllocError> {
        match self {
            Component::Capped(sum) => sum.spans(alloc, a),
            Component::Modular(sum) => sum.spans(alloc, a),
            Component::Table(table) => table.spans(alloc, a),
        }
    }
}
