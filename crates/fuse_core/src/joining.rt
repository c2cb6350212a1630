//! The maps of an interval from those of its halves, over any wiring.

ghost use Rattle.std.specs.Prelude.{◌≡◌, ℕ, ◌+◌, ◌*◌, ◌<◌, ◌≤◌, List, [], ◌∷◌, length, map, IfOk};
ghost use Rattle.std.specs.List.{flat_map};
ghost use Rattle.shape_gen.specs.declared.mark.Mark.{Mark};
ghost use Rattle.fuse_core.specs.Wirings.{wires_on, source_lists, crossings, all_crossings, SourceWithin};
ghost use Rattle.fuse_core.specs.Places.{StandsAt, AllFit, ShowEach, MayCross, SourcesWithin, WiresJoin, ShowJoined};

use crate::maps::Maps;
use crate::wiring::{Source, Wires};
use std::alloc::{AllocError, Global};
use std::sync::ledger::Ledger;
use step_count::Steps;

/// The maps of both halves together.
pub(crate) fn joined<M: Maps, L: Ledger>(
    maps: &M,
    alloc: Global,
    wiring: &[Wires],
    left: &[M::Map],
    right: &[M::Map],
    steps: &mut Steps<L>,
) -> Result<Vec<M::Map>, AllocError>
    requires same_count { length left.now ≡ length right.now }
    requires wires_join { WiresJoin (length left.now) wiring.now }
    requires left_fit { AllFit (M.fits maps.now) left.now }
    requires right_fit { AllFit (M.fits maps.now) right.now }
    requires cross { MayCross (M.crosses maps.now) left.now right.now }
    ensures count { IfOk result (λ made. length made.items ≡ length wiring.now) }
    ensures shows { let shows = M.shows maps.now in
        IfOk result (λ made. (earlier later : ℕ → List (List Mark))
        → ShowEach shows earlier left.now
        → ShowEach shows later right.now
        → ShowJoined shows earlier later wiring.now made.items) }
    ensures cost { let pairs = M.size maps.now * M.size maps.now in
        steps.new ≤ steps.old + all_crossings (map wires_on wiring.now) * pairs }
{
    let mut made = Vec::with_capacity(alloc, wiring.len())?;
    for wires in wiring {
        let map = component_of(maps, alloc, &wires.sources, left, right, steps)?;
        made.push(map)?;
    }
    Ok(made)
}

// One component of both halves together.
fn component_of<M: Maps, L: Ledger>(
    maps: &M,
    alloc: Global,
    sources: &[Source],
    left: &[M::Map],
    right: &[M::Map],
    steps: &mut Steps<L>,
) -> Result<M::Map, AllocError>
    requires same_count { length left.now ≡ length right.now }
    requires within { SourcesWithin (length left.now) sources.now }
    requires left_fit { AllFit (M.fits maps.now) left.now }
    requires right_fit { AllFit (M.fits maps.now) right.now }
    requires cross { MayCross (M.crosses maps.now) left.now right.now }
    ensures fits { IfOk result (M.fits maps.now) }
    ensures shows { let shows = M.shows maps.now in
        IfOk result (λ made. (earlier later : ℕ → List (List Mark))
        → ShowEach shows earlier left.now
        → ShowEach shows later right.now
        → shows (flat_map (source_lists earlier later) sources.now) made) }
    ensures cost { let pairs = M.size maps.now * M.size maps.now in
        steps.new ≤ steps.old + crossings sources.now * pairs }
{
    let mut sum = maps.nothing(alloc)?;
    for source in sources {
        let more = source_of(maps, alloc, source, left, right, steps)?;
        sum = maps.both(alloc, sum, more)?;
    }
    Ok(sum)
}

// What one source gives.
fn source_of<M: Maps, L: Ledger>(
    maps: &M,
    alloc: Global,
    source: &Source,
    left: &[M::Map],
    right: &[M::Map],
    steps: &mut Steps<L>,
) -> Result<M::Map, AllocError>
    requires same_count { length left.now ≡ length right.now }
    requires within { SourceWithin (length left.now) source.now }
    requires left_fit { AllFit (M.fits maps.now) left.now }
    requires right_fit { AllFit (M.fits maps.now) right.now }
    requires cross { MayCross (M.crosses maps.now) left.now right.now }
    ensures fits { IfOk result (M.fits maps.now) }
    ensures shows { let shows = M.shows maps.now in
        IfOk result (λ made. (earlier later : ℕ → List (List Mark))
        → ShowEach shows earlier left.now
        → ShowEach shows later right.now
        → shows (source_lists earlier later source.now) made) }
    ensures cost { let pairs = M.size maps.now * M.size maps.now in
        steps.new ≤ steps.old + crossings (source.now ∷ []) * pairs }
{
    match source {
        Source::Left(place) => maps.same(alloc, &left[*place]),
        Source::Right(place) => maps.same(alloc, &right[*place]),
        Source::Across(earlier, later) => {
            maps.across(alloc, &left[*earlier], &right[*later], steps)
        }
    }
}
