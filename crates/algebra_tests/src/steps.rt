//! A caller that counts nothing can make a counter and tick it.

ghost use Rattle.std.specs.Prelude.{◌≡◌, ◌<◌};
ghost use Rattle.step_count.specs.Blanks.{IsBlankOf};

use std::marker::Brand;
use std::sync::ledger::{Blank, Ledger};
use step_count::Steps;

fn count_two<L: Ledger>(blank: Blank) -> u32
    requires blank { IsBlankOf L.name L.parts blank }
{
    let mut steps = Steps::<L>::new(blank);
    steps.tick();
    steps.tick();
    2
}

#[test]
fn a_caller_that_counts_nothing_makes_its_own_counter(rt: HostRuntime) {
    assert_eq!(rt; count_two::<Brand>(Blank::new(1)), 2);
}
