//! The maps of no row, and those of a row and the later rows from the maps of these, over any wiring.

ghost use Rattle.std.specs.Prelude.{◌≡◌, ℕ, ◌+◌, ◌*◌, ◌<◌, ◌≤◌, ◌++◌, List, [], ◌∷◌, length, map, IfOk, if◌then◌else◌};
ghost use Rattle.std.specs.List.{flat_map};
ghost use Rattle.shape_gen.specs.declared.mark.Mark.{Mark};
ghost use Rattle.fuse_core.specs.Wirings.{wires_on, growth_lists, kept_lists, shifts, all_shifts, GrowthWithin};
ghost use Rattle.fuse_core.specs.Places.{StandsAt, AllFit, ShowEach, MayFollow, GrowthsWithin};
ghost use Rattle.fuse_core.specs.Places.{WiresGrow, Brings, ShowGrown, ShowNoRow};

use crate::maps::Maps;
use crate::wiring::{Growth, Wires};
use std::alloc::{AllocError, Global};
use std::collections::VecDeque;
use std::sync::ledger::Ledger;
use step_count::Steps;

/// The maps of no row.
pub(crate) fn no_row<M: Maps>(
    maps: &M,
    alloc: Global,
    wiring: &[Wires],
) -> Result<Vec<M::Map>, AllocError>
    ensures count { IfOk result (λ made. length made.items ≡ length wiring.now) }
    ensures shows { IfOk result (λ made. ShowNoRow (M.shows maps.now) wiring.now made.items) }
{
    let mut made = Vec::with_capacity(alloc, wiring.len())?;
    for wires in wiring {
        let map = of_no_row(maps, alloc, wires.has_empty)?;
        made.push(map)?;
    }
    Ok(made)
}

// The map of the empty list, or of none.
fn of_no_row<M: Maps>(maps: &M, alloc: Global, has_empty: bool) -> Result<M::Map, AllocError>
    ensures { let lists = if has_empty then [] ∷ [] else [] in
        IfOk result (M.shows maps.now lists) }
{
    if has_empty {
        maps.empty(alloc)
    } else {
        maps.nothing(alloc)
    }
}

/// The maps of a row and the later rows, from those of the later rows.
pub(crate) fn with_row<M: Maps, L: Ledger>(
    maps: &M,
    alloc: Global,
    row: u32,
    wiring: &[Wires],
    later: Vec<M::Map>,
    steps: &mut Steps<L>,
) -> Result<Vec<M::Map>, AllocError>
    requires row_in_range { row < M.rows maps.now }
    requires one_a_component { length later.items ≡ length wiring.now }
    requires wires_grow { WiresGrow (M.labels maps.now) (length later.items) wiring.now }
    requires later_fit { AllFit (M.fits maps.now) later.items }
    requires follow { MayFollow (M.follows maps.now row) (M.labels maps.now) later.items }
    ensures count { IfOk result (λ made. length made.items ≡ length wiring.now) }
    ensures shows { let shows = M.shows maps.now in
        IfOk result (λ made. (lists added : ℕ → List (List Mark))
        → Brings row lists added wiring.now
        → ShowEach shows lists later.items
        → ShowGrown shows lists added wiring.now made.items) }
    ensures cost { steps.new ≤ steps.old + all_shifts (map wires_on wiring.now) * M.size maps.now }
{
    let added = brought(maps, alloc, row, wiring, &later, steps)?;
    kept_and_added(maps, alloc, wiring, later, added)
}

// What the row brings to each component.
fn brought<M: Maps, L: Ledger>(
    maps: &M,
    alloc: Global,
    row: u32,
    wiring: &[Wires],
    later: &[M::Map],
    steps: &mut Steps<L>,
) -> Result<Vec<M::Map>, AllocError>
    requires row_in_range { row < M.rows maps.now }
    requires wires_grow { WiresGrow (M.labels maps.now) (length later.now) wiring.now }
    requires later_fit { AllFit (M.fits maps.now) later.now }
    requires follow { MayFollow (M.follows maps.now row) (M.labels maps.now) later.now }
    ensures count { IfOk result (λ made. length made.items ≡ length wiring.now) }
    ensures fit { IfOk result (λ made. AllFit (M.fits maps.now) made.items) }
    ensures shows { let shows = M.shows maps.now in
        IfOk result (λ made. (lists added : ℕ → List (List Mark))
        → Brings row lists added wiring.now
        → ShowEach shows lists later.now
        → ShowEach shows added made.items) }
    ensures cost { steps.new ≤ steps.old + all_shifts (map wires_on wiring.now) * M.size maps.now }
{
    let mut added = Vec::with_capacity(alloc, wiring.len())?;
    for wires in wiring {
        let map = grown(maps, alloc, row, &wires.growths, later, &added, steps)?;
        added.push(map)?;
    }
    Ok(added)
}

// What the row brings to one component.
fn grown<M: Maps, L: Ledger>(
    maps: &M,
    alloc: Global,
    row: u32,
    growths: &[Growth],
    later: &[M::Map],
    added: &[M::Map],
    steps: &mut Steps<L>,
) -> Result<M::Map, AllocError>
    requires row_in_range { row < M.rows maps.now }
    requires within { GrowthsWithin (M.labels maps.now) (length later.now) (length added.now) growths.now }
    requires later_fit { AllFit (M.fits maps.now) later.now }
    requires added_fit { AllFit (M.fits maps.now) added.now }
    requires follow { MayFollow (M.follows maps.now row) (M.labels maps.now) later.now }
    ensures fits { IfOk result (M.fits maps.now) }
    ensures shows { let shows = M.shows maps.now in
        IfOk result (λ made. (lists brought : ℕ → List (List Mark))
        → ShowEach shows lists later.now
        → ShowEach shows brought added.now
        → shows (flat_map (growth_lists row lists brought) growths.now) made) }
    ensures cost { steps.new ≤ steps.old + shifts growths.now * M.size maps.now }
{
    match growths {
        [] => maps.nothing(alloc),
        [first, others @ ..] => {
            let mut sum = growth_of(maps, alloc, row, first, later, added, steps)?;
            for growth in others {
                sum = match growth {
                    Growth::Before(label, place) => {
                        maps.with_before(alloc, sum, row, *label, &later[*place], steps)?
                    }
                    _ => {
                        let more = growth_of(maps, alloc, row, growth, later, added, steps)?;
                        maps.both(alloc, sum, more)?
                    }
                };
            }
            Ok(sum)
        }
    }
}

// What one growth gives.
fn growth_of<M: Maps, L: Ledger>(
    maps: &M,
    alloc: Global,
    row: u32,
    growth: &Growth,
    later: &[M::Map],
    added: &[M::Map],
    steps: &mut Steps<L>,
) -> Result<M::Map, AllocError>
    requires row_in_range { row < M.rows maps.now }
    requires within { GrowthWithin (M.labels maps.now) (length later.now) (length added.now) growth.now }
    requires later_fit { AllFit (M.fits maps.now) later.now }
    requires added_fit { AllFit (M.fits maps.now) added.now }
    requires follow { MayFollow (M.follows maps.now row) (M.labels maps.now) later.now }
    ensures fits { IfOk result (M.fits maps.now) }
    ensures shows { let shows = M.shows maps.now in
        IfOk result (λ made. (lists brought : ℕ → List (List Mark))
        → ShowEach shows lists later.now
        → ShowEach shows brought added.now
        → shows (growth_lists row lists brought growth.now) made) }
    ensures cost { steps.new ≤ steps.old + shifts (growth.now ∷ []) * M.size maps.now }
{
    match growth {
        Growth::Kept(place) => maps.same(alloc, &later[*place]),
        Growth::Alone(label) => maps.marked(alloc, row, *label),
        Growth::Before(label, place) => maps.before(alloc, row, *label, &later[*place], steps),
        Growth::Same(place) => maps.same(alloc, &added[*place]),
    }
}

// The maps that are kept, with what the row brings.
fn kept_and_added<M: Maps>(
    maps: &M,
    alloc: Global,
    wiring: &[Wires],
    later: Vec<M::Map>,
    added: Vec<M::Map>,
) -> Result<Vec<M::Map>, AllocError>
    requires one_a_component { length later.items ≡ length wiring.now }
    requires one_is_added { length added.items ≡ length wiring.now }
    requires later_fit { AllFit (M.fits maps.now) later.items }
    requires added_fit { AllFit (M.fits maps.now) added.items }
    ensures count { IfOk result (λ made. length made.items ≡ length wiring.now) }
    ensures shows { let shows = M.shows maps.now in
        IfOk result (λ made. (lists brought : ℕ → List (List Mark))
        → ShowEach shows lists later.items
        → ShowEach shows brought added.items
        → ShowGrown shows lists brought wiring.now made.items) }
{
    let mut made = Vec::with_capacity(alloc, wiring.len())?;
    let (mut later, mut added) = (VecDeque::from(later), VecDeque::from(added));
    for wires in wiring {
        let (old, new) = (take_first(&mut later), take_first(&mut added));
        let map = kept_with(maps, alloc, wires.keeps, old, new)?;
        made.push(map)?;
    }
    Ok(made)
}

// What the row brings to a component, with the map of the later rows where that is kept.
fn kept_with<M: Maps>(
    maps: &M,
    alloc: Global,
    keeps: bool,
    later: M::Map,
    added: M::Map,
) -> Result<M::Map, AllocError>
    requires later_fits { M.fits maps.now later }
    requires added_fits { M.fits maps.now added }
    ensures { let shows = M.shows maps.now in
        IfOk result (λ made. (cs ds : List (List Mark))
        → shows cs later
        → shows ds added
        → shows (kept_lists keeps cs ++ ds) made) }
{
    if keeps {
        maps.both(alloc, later, added)
    } else {
        Ok(added)
    }
}

// The first item, taken out.
fn take_first<T: Drop>(items: &mut VecDeque<T>) -> T
    requires { 0 < length items.old.items }
    ensures { items.old.items ≡ result ∷ items.new.items }
{
    items.pop_front().unwrap()
}
