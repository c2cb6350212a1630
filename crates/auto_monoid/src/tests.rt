//! Automata whose monoids are known.

ghost use Rattle.std.specs.Prelude.{IsTrue};
ghost use Rattle.auto_monoid.specs.Auto.{IsAuto};
ghost use Rattle.auto_monoid.specs.AutoOf.{plain_auto};

use crate::auto::{Auto, AutoFault, LETTER_LIMIT, STATE_LIMIT};
use crate::calls::transition_monoid;
use monoid_kit::Monoid;
use std::alloc::{AllocError, Global};
use std::test::Fail;

// Whether there is a move by each letter from each state, and the start and all moves are states.
fn is_auto(auto: &Auto) -> bool
    ensures { IsTrue result → IsAuto (plain_auto auto.now) }
{
    auto.states >= 1
        && auto.states <= STATE_LIMIT
        && auto.letters >= 1
        && auto.letters <= LETTER_LIMIT
        && auto.moves.len() == (auto.letters * auto.states) as usize
        && auto.start < auto.states
        && auto.moves.iter().all(|state| *state < auto.states)
}

// How many elements the monoid of the automaton has; none where it is no automaton.
fn size_of(
    alloc: Global,
    states: u32,
    letters: u32,
    moves: &[u32],
) -> Result<Option<Result<u32, AutoFault>>, AllocError> {
    let auto = Auto {
        states,
        start: 0,
        letters,
        moves: Vec::from_slice(alloc, moves)?,
    };
    if is_auto(&auto) {
        Ok(Some(match transition_monoid(alloc, auto) {
            Ok(monoid) => Ok(monoid.monoid().size()),
            Err(fault) => Err(fault),
        }))
    } else {
        Ok(None)
    }
}

// The product, where both factors are elements.
fn product_in<M: Monoid>(monoid: &M, a: u32, b: u32) -> Option<u32> {
    if a < monoid.size() && b < monoid.size() {
        Some(monoid.mul(a, b))
    } else {
        None
    }
}

#[test]
fn sizes_of_monoids(rt: HostRuntime) -> Result<(), Fail> {
    let cases: [(&str, u32, u32, &[u32], Result<u32, AutoFault>); 4] = [
        (
            "letters that take turns",
            4,
            2,
            &[1, 3, 1, 3, 2, 2, 3, 3],
            Ok(6),
        ),
        ("one state", 1, 1, &[0], Ok(1)),
        ("a letter that is the identity", 2, 1, &[0, 1], Ok(1)),
        (
            "all functions on four states",
            4,
            3,
            &[1, 2, 3, 0, 1, 0, 2, 3, 0, 0, 2, 3],
            Err(AutoFault::TooMany),
        ),
    ];
    for (name, states, letters, moves, size) in cases {
        assert_eq!(rt;
            size_of(rt.alloc(), states, letters, moves)?,
            Some(size),
            "{name}"
        );
    }
    Ok(())
}

#[test]
fn letters_that_take_turns(rt: HostRuntime) -> Result<(), Fail> {
    let auto = Auto {
        states: 4,
        start: 0,
        letters: 2,
        moves: Vec::from_slice(rt.alloc(), &[1, 3, 1, 3, 2, 2, 3, 3])?,
    };
    if is_auto(&auto) {
        let monoid = transition_monoid(rt.alloc(), auto).expect(&rt, "a monoid");
        assert_eq!(rt; (monoid.machine().states, monoid.monoid().unit()), (4, 0));
        if monoid.machine().letters == 2 {
            assert_eq!(rt; (monoid.of_letter(0), monoid.of_letter(1)), (1, 2));
        }
        for (element, state) in [(0, 0), (1, 1), (2, 2), (3, 3), (4, 2), (5, 1)] {
            if element < monoid.monoid().size() {
                assert_eq!(rt; monoid.state_after(element), state, "after {element}");
            }
        }
        let cases = [(1, 1, 3), (1, 2, 4), (2, 1, 5), (2, 2, 3), (3, 2, 3)];
        for (a, b, product) in cases {
            assert_eq!(rt;
                product_in(monoid.monoid(), a, b),
                Some(product),
                "at {a} and {b}"
            );
        }
    }
    Ok(())
}
