//! What the elements of a transition monoid are.

ghost use Rattle.std.specs.Prelude.{◌≡◌, ℕ, ◌<◌, ◌≤◌, List, All, length, true, false};
ghost use Rattle.std.specs.List.{IsDistinct};
ghost use Rattle.monoid_kit.specs.declared.table.TheConstants.{GREATEST_TABLE};
ghost use Rattle.monoid_kit.specs.Table.{table_mul};
ghost use Rattle.auto_monoid.specs.declared.auto.TheConstants.{STATE_LIMIT, LETTER_LIMIT};
ghost use Rattle.auto_monoid.specs.Auto.{PlainAuto, IsAuto, IsWord, state_after_word};
ghost use Rattle.auto_monoid.specs.Functions.{AreFew, AreMany, IsReached, function_of, composition, same};
ghost use Rattle.auto_monoid.specs.MonoidOf.{product_table, function_at, word_element, state_after_element};
ghost use Rattle.auto_monoid.specs.Numbering.{IsNumbering, all_functions, are_too_many};
ghost use Rattle.auto_monoid.specs.TransitionOf.{machine, functions};

use crate::monoid::AutoMonoid;

/// Which functions the elements have, in which order, and where words lead. It does nothing.
pub fn transition_laws(monoid: &AutoMonoid)
    ensures is_auto { IsAuto (machine monoid.now) }
    ensures few { are_too_many (machine monoid.now) ≡ false }
    ensures complete { functions monoid.now ≡ all_functions (machine monoid.now) }
    ensures numbered { IsNumbering (machine monoid.now) (functions monoid.now) }
    ensures different { IsDistinct same (functions monoid.now) }
    ensures reached { All (IsReached (machine monoid.now)) (functions monoid.now) }
    ensures products { (a b : ℕ) → a < length (functions monoid.now) → b < length (functions monoid.now)
        → function_at (functions monoid.now) (table_mul (product_table (functions monoid.now)) a b)
        ≡ composition (function_at (functions monoid.now) a) (function_at (functions monoid.now) b) }
    ensures words { (word : List ℕ) → IsWord (machine monoid.now) word
        → function_at (functions monoid.now) (word_element (machine monoid.now) (functions monoid.now) word)
        ≡ function_of (machine monoid.now) word }
    ensures states { (word : List ℕ) → IsWord (machine monoid.now) word
        → state_after_element (machine monoid.now) (functions monoid.now)
        (word_element (machine monoid.now) (functions monoid.now) word)
        ≡ state_after_word (machine monoid.now) (machine monoid.now).start word }
{
    let _made_of = &monoid.made_of;
}

/// What it is to have too many elements: there are more than 64 words with a function of its own each. It does nothing.
pub fn too_many_law()
    ensures many { (a : PlainAuto) → IsAuto a → are_too_many a ≡ true → AreMany a }
    ensures few { (a : PlainAuto) → IsAuto a → are_too_many a ≡ false → AreFew a }
{}

/// How large automata may be. It does nothing: the numbers are its contract.
pub fn auto_limits()
    ensures states { STATE_LIMIT ≡ 16 }
    ensures letters { LETTER_LIMIT ≡ 16 }
{}
