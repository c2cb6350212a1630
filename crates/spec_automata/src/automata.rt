//! Automata that are total and have few functions, or the fault that is told.

ghost use Rattle.std.specs.Prelude.{◌≡◌, map, All, IfOk, OnOk};
ghost use Rattle.outcome_kit.specs.Outcome.{Tells};
ghost use Rattle.auto_monoid.specs.Auto.{IsAuto};
ghost use Rattle.auto_monoid.specs.AutoOf.{plain_auto};
ghost use Rattle.auto_monoid.specs.TransitionOf.{machine};
ghost use Rattle.gta_spec.specs.Parts.{automaton_tree, part_tree};
ghost use Rattle.gta_spec.specs.WellFormed.{EachFits};
ghost use Rattle.gta_checked.specs.Within.{IsAutomatonWithin};
ghost use Rattle.spec_automata.specs.Automata.{automata_in};
ghost use Rattle.spec_automata.specs.Checked.{IsTotal, WasAdded};
ghost use Rattle.spec_automata.specs.Faults.{automata_outcome, fault_in};
ghost use Rattle.spec_automata.specs.Ready.{IsReadyAutomaton};

use crate::fault::AutomataFault;
use crate::moves::{Moves, moves_of};
use auto_monoid::{Auto, AutoFault, AutoMonoid, transition_monoid};
use gta_spec::{AutomatonPart, Part, PartKind};
use gta_text::Name;
use spec_tables::number_in;
use std::alloc::{AllocError, Global};

/// The transition monoids of the automata of these lines, in their order. Of several faults the first automaton that
/// isn't total is told, or else the first with more than 64 functions. It takes memory for the monoids.
pub fn checked_automata(alloc: Global, parts: &[Part]) -> Result<Vec<AutoMonoid>, AutomataFault>
    requires ready { EachFits IsReadyAutomaton (automata_in (map part_tree parts.now)) }
    ensures tells { let outcome = automata_outcome (map part_tree parts.now) in
        Tells fault_in (λ automata. map machine automata.items) outcome result }
    ensures within { IfOk result (λ automata. All IsAutomatonWithin (map machine automata.items)) }
{
    let mut automata = Vec::new(alloc);
    let mut not_total = None;
    let mut too_many = None;
    for part in parts {
        if let PartKind::Automaton(automaton) = &part.kind {
            match total_automaton(alloc, parts, automaton)? {
                Ok(auto) => {
                    let fault = add_monoid(alloc, &automaton.name, auto, &mut automata)?;
                    too_many = too_many.or(fault);
                }
                Err(fault) => not_total = not_total.or(Some(fault)),
            }
        }
    }
    match not_total.or(too_many) {
        Some(fault) => Err(fault),
        None => Ok(automata),
    }
}

/// The automaton of a line by numbers, or the first letter that doesn't lead from each state.
fn total_automaton(
    alloc: Global,
    parts: &[Part],
    automaton: &AutomatonPart,
) -> Result<Result<Auto, AutomataFault>, AllocError>
    requires ready { IsReadyAutomaton (automaton_tree automaton.now) }
    ensures { IfOk result (IsTotal (map part_tree parts.now) (automaton_tree automaton.now)) }
{
    match moves_of(alloc, parts, automaton)? {
        Moves::Total(moves) => Ok(Ok(Auto {
            states: automaton.states.len() as u32,
            start: number_in(automaton.states.as_slice(), &automaton.start),
            letters: automaton.letters.len() as u32,
            moves,
        })),
        Moves::NotAt(number) => Ok(Err(AutomataFault::NotTotal {
            automaton: copy_of(alloc, &automaton.name)?,
            letter: copy_of(alloc, &automaton.letters[number])?,
        })),
    }
}

/// Adds the transition monoid of an automaton with this name, or gives the fault that it has too many functions.
fn add_monoid(
    alloc: Global,
    name: &Name,
    auto: Auto,
    automata: &mut Vec<AutoMonoid>,
) -> Result<Option<AutomataFault>, AllocError>
    requires auto { IsAuto (plain_auto auto) }
    requires within { All IsAutomatonWithin (map machine automata.now.items) }
    ensures added { IfOk result (WasAdded name.now (plain_auto auto) (map machine automata.old.items)
        (map machine automata.new.items)) }
    ensures within { OnOk result (All IsAutomatonWithin (map machine automata.new.items)) }
{
    match transition_monoid(alloc, auto) {
        Ok(monoid) => {
            automata.push(monoid)?;
            Ok(None)
        }
        Err(AutoFault::TooMany) => Ok(Some(AutomataFault::TooMany {
            automaton: copy_of(alloc, name)?,
        })),
        Err(AutoFault::Memory) => Err(AllocError),
    }
}

fn copy_of(alloc: Global, name: &Name) -> Result<Name, AllocError>
    ensures { IfOk result (λ copy. copy ≡ name.now) }
{
    Name::of(alloc, name.bytes())
}
