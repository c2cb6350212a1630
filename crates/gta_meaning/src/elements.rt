//! The elements that folds accept and the states that runs accept, as sets, so that a list of them is looked through
//! once however often it is asked.
//! specs/Elements.antt has what a set holds.

ghost use Rattle.std.specs.Prelude.{◌≡◌, ◌<◌, Bool, List, All, length, IfOk};
ghost use Rattle.gta_checked.specs.Plain.{plain_test};
ghost use Rattle.gta_checked.specs.Within.{IsTestWithin};
ghost use Rattle.gta_meaning.specs.Elements.{is_in, AreAccepted, HasElements, IsAccepted};

use gta_checked::{Checked, Test};
use monoid_kit::Monoid;
use std::alloc::{AllocError, Global};
use std::marker::Model;

/// Some elements of a table, as a flag for each of its elements; or some states of an automaton alike.
#[derive(Drop)]
pub struct ElementSet {
    flags: Vec<bool>,
}

impl Model for ElementSet {
    ghost Value = { List Bool };

    ghost view = { λ set. set.flags.items };
}

impl ElementSet {
    /// The set of a list, in which elements may repeat. It takes memory for the flags.
    pub fn of(alloc: Global, size: u32, elements: &[u32]) -> Result<ElementSet, AllocError>
        requires within { All (λ element. element < size) elements.now }
        ensures { IfOk result (HasElements elements.now) }
    {
        let mut flags = vec![in alloc; false; size as usize]?;
        for &element in elements {
            flags[element as usize] = true;
        }
        Ok(ElementSet { flags })
    }

    /// Whether an element is in the set. Takes no memory.
    pub fn contains(&self, element: u32) -> bool
        ensures { result ≡ is_in self.now element }
    {
        self.flags.get(element as usize).copied().unwrap_or(false)
    }
}

/// For each test a set of the elements or states that it accepts; it is empty where the test is neither a fold nor a
/// run. It takes memory for them.
pub fn accepted_elements(alloc: Global, checked: &Checked) -> Result<Vec<ElementSet>, AllocError>
    ensures { IfOk result (λ sets. AreAccepted checked.now.tests sets.items) }
{
    let tests = checked.tests();
    let mut sets = Vec::with_capacity(alloc, tests.len())?;
    for test in tests {
        sets.push(accepted_by(alloc, checked, test)?)?;
    }
    Ok(sets)
}

fn accepted_by(alloc: Global, checked: &Checked, test: &Test) -> Result<ElementSet, AllocError>
    requires within { IsTestWithin (length checked.now.columns) (length checked.now.labels)
        (length checked.now.measures) checked.now.tables checked.now.automata (plain_test test.now) }
    ensures { IfOk result (IsAccepted (plain_test test.now)) }
{
    match test {
        Test::Fold { table, accept, .. } => {
            let size = checked.tables()[*table as usize].monoid.size();
            ElementSet::of(alloc, size, accept)
        }
        Test::Run {
            automaton,
            accept,
            ..
        } => {
            let states = checked.automata()[*automaton as usize].machine().states;
            ElementSet::of(alloc, states, accept)
        }
        _ => ElementSet::of(alloc, 0, &[]),
    }
}
