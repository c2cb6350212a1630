//! Whether a candidate passes, by what each test comes to.

ghost use Rattle.std.specs.Prelude.{◌≡◌, Bool, List, false, length, slice_index_or};
ghost use Rattle.std.specs.List.{list_all};
ghost use Rattle.gta_spec.specs.Keep as expressions;
ghost use Rattle.gta_checked.specs.Plain.{plain_keep};
ghost use Rattle.gta_meaning.specs.Tests as tests;

use gta_checked::{Checked, Keep};

/// What each test comes to, asked by the number of the test.
pub trait Outcomes: Drop {
    ghost outcomes: { Self → List Bool };

    // what they need of what is asked
    ghost is_within: { Self → Type 0 };

    /// What the test of this number comes to; false where there is none. It takes no memory.
    fn holds(&self, number: usize) -> bool
        requires within { is_within self.now }
        ensures { result ≡ slice_index_or (outcomes self.now) number false };
}

/// Whether a candidate passes, by what each test comes to: each holds; or where an expression says what is kept, each
/// without a name holds, and the expression does. No test is asked that can't matter any more. Takes no memory.
pub fn verdict<O: Outcomes>(checked: &Checked, outcomes: &O) -> bool
    requires within { O.is_within outcomes.now }
    requires whole { length (O.outcomes outcomes.now) ≡ length checked.now.tests }
    ensures { result ≡ tests.verdict checked.now.keep checked.now.named (O.outcomes outcomes.now) }
{
    match checked.keep() {
        None => all_hold(outcomes, checked.tests().len()),
        Some(keep) => unnamed_hold(checked.named(), outcomes) && keep_holds(keep, outcomes),
    }
}

fn all_hold<O: Outcomes>(outcomes: &O, count: usize) -> bool
    requires within { O.is_within outcomes.now }
    requires whole { length (O.outcomes outcomes.now) ≡ count }
    ensures { result ≡ list_all (λ holds. holds) (O.outcomes outcomes.now) }
{
    for number in 0..count {
        if !outcomes.holds(number) {
            return false;
        }
    }
    true
}

fn unnamed_hold<O: Outcomes>(named: &[bool], outcomes: &O) -> bool
    requires within { O.is_within outcomes.now }
    requires whole { length (O.outcomes outcomes.now) ≡ length named.now }
    ensures { result ≡ tests.unnamed_hold named.now (O.outcomes outcomes.now) }
{
    for number in 0..named.len() {
        if !(named[number] || outcomes.holds(number)) {
            return false;
        }
    }
    true
}

fn keep_holds<O: Outcomes>(keep: &Keep, outcomes: &O) -> bool
    requires within { O.is_within outcomes.now }
    ensures { result
        ≡ expressions.keep_holds (λ test. slice_index_or (O.outcomes outcomes.now) test false) (plain_keep keep.now) }
{
    match keep {
        Keep::Test(test) => outcomes.holds(*test as usize),
        Keep::Not(other) => !keep_holds(other, outcomes),
        Keep::Both(first, second) => keep_holds(first, outcomes) && keep_holds(second, outcomes),
        Keep::Either(first, second) => keep_holds(first, outcomes) || keep_holds(second, outcomes),
    }
}
