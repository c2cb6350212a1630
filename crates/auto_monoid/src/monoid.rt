//! What a transition monoid holds. Its calls are in calls.rt.

ghost use Rattle.std.specs.Prelude.{◌≡◌};
ghost use Rattle.monoid_kit.specs.TableOf.{plain_table};
ghost use Rattle.auto_monoid.specs.Auto.{IsAuto};
ghost use Rattle.auto_monoid.specs.AutoOf.{plain_auto};
ghost use Rattle.auto_monoid.specs.MonoidOf as tables;
ghost use Rattle.auto_monoid.specs.Numbering.{IsNumbering};

use crate::auto::Auto;
use crate::function::Function;
use monoid_kit::TableMonoid;

/// The transition monoid of an automaton: at most 64 functions on its states, numbered from 0 on,
/// with the table of their products. Element 0 is the identity.
#[derive(Drop)]
pub struct AutoMonoid {
    pub(crate) made_of: Auto,
    pub(crate) functions: Vec<Function>,
    pub(crate) letters: Vec<u32>,
    pub(crate) table: TableMonoid,
    ghost is_auto: { IsAuto (plain_auto made_of) },
    ghost numbered: { IsNumbering (plain_auto made_of) functions.items },
    ghost multiplied: { plain_table table ≡ tables.product_table functions.items },
    ghost lettered: { letters.items ≡ tables.letter_elements (plain_auto made_of) functions.items },
}
