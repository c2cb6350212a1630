//! The state that a run reaches: an automaton goes by the letters that a candidate's marks pick. specs/Runs.antt has
//! its definition.

ghost use Rattle.std.specs.Prelude.{◌≡◌, ℕ, ◌<◌, All, map};
ghost use Rattle.auto_monoid.specs.Auto.{IsAuto, move};
ghost use Rattle.auto_monoid.specs.AutoOf.{plain_auto};
ghost use Rattle.gta_checked.specs.Plain.{plain_pick};
ghost use Rattle.gta_checked.specs.Within.{IsPickWithin};
ghost use Rattle.gta_checked.specs.PlainRows.{plain_rows};
ghost use Rattle.gta_meaning.specs.Runs as runs;

use crate::picks::first_pick;
use auto_monoid::Auto;
use gta_checked::{Pick, Rows};
use shape_gen::Mark;

/// The state that the marks, from left to right, reach from the start.
pub(crate) fn state_reached(rows: &Rows, automaton: &Auto, picks: &[Pick], marks: &[Mark]) -> u32
    requires auto { IsAuto (plain_auto automaton.now) }
    requires within { (labels : ℕ)
        × All (IsPickWithin rows.now.columns labels automaton.now.letters) (map plain_pick picks.now) }
    requires rows_in_range { All (λ mark. mark.row < rows.now.count) marks.now }
    ensures { result
        ≡ runs.state_reached (plain_rows rows.now) (plain_auto automaton.now) (map plain_pick picks.now) marks.now }
{
    let mut state = automaton.start;
    for mark in marks {
        state = state_after_mark(rows, automaton, picks, state, *mark);
    }
    state
}

/// The state after a mark. Where no pick holds the state stays.
fn state_after_mark(rows: &Rows, automaton: &Auto, picks: &[Pick], state: u32, mark: Mark) -> u32
    requires auto { IsAuto (plain_auto automaton.now) }
    requires within { (labels : ℕ)
        × All (IsPickWithin rows.now.columns labels automaton.now.letters) (map plain_pick picks.now) }
    requires is_state { state < automaton.now.states }
    requires row_in_range { mark.row < rows.now.count }
    ensures after { result
        ≡ runs.state_after_mark (plain_rows rows.now) (plain_auto automaton.now) (map plain_pick picks.now) state mark }
    ensures is_state { result < automaton.now.states }
{
    match first_pick(rows, picks, mark.row, mark.label) {
        Some(letter) => moved(automaton, letter, state),
        None => state,
    }
}

/// The state to which a letter leads.
fn moved(automaton: &Auto, letter: u32, state: u32) -> u32
    requires auto { IsAuto (plain_auto automaton.now) }
    requires is_letter { letter < automaton.now.letters }
    requires is_state { state < automaton.now.states }
    ensures moved { result ≡ move (plain_auto automaton.now) letter state }
    ensures is_state { result < automaton.now.states }
{
    automaton.moves[(letter * automaton.states + state) as usize]
}
