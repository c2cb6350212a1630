//! Products of candidates in order. Products are compared where they stand, as places in both lists, and only the
//! ones that are kept are made. Such places are in specs/Picks.antt.
ghost use Rattle.std.specs.Prelude.{◌≡◌, ℕ, ◌+◌, ◌<◌, ◌≤◌, true, false, ◌++◌, map, length, take};
ghost use Rattle.std.specs.Prelude.{slice_index_or, IfOk, OnOk};
ghost use Rattle.std.specs.List.{All};
ghost use Rattle.std.specs.Ordering.{is_gt};
ghost use Rattle.semiring_kit.specs.Semiring.{weight_bound};
ghost use Rattle.witness_order.specs.Ranked.{placed, first_of, Ascends, IsRankedWithin};
ghost use Rattle.first_k.specs.FirstK.{products, reach_of};
ghost use Rattle.first_k.specs.Picks.{product_at, pick_at, IsPickOf};

use crate::firsts::Firsts;
use crate::ranked::Ranked;
use std::alloc::{AllocError, Global};
use std::cmp::Ordering;

// The product of the candidates at these places.
#[derive(Clone, Copy, Drop)]
struct Pick {
    left: usize,
    right: usize,
}

/// The first k of all products of two lists. One candidate on the one side keeps the other side in its order.
pub(crate) fn product_of<R: Ranked>(
    alloc: Global,
    ranked: &R,
    k: usize,
    a: &[R::Item],
    b: &[R::Item],
) -> Result<Firsts<R::Item>, AllocError>
    requires some { 1 ≤ k }
    requires left_is_ranked { IsRankedWithin (R.order ranked.now) k a.now }
    requires right_is_ranked { IsRankedWithin (R.order ranked.now) k b.now }
    requires reaches_add_up { let reach = reach_of (R.reach ranked.now) in
        reach a.now + reach b.now ≤ weight_bound }
    ensures { IfOk result (λ firsts.
        firsts ≡ first_of (R.order ranked.now) k (products (R.joint ranked.now) a.now b.now)) }
{
    if a.len() == 1 {
        return row_of(alloc, ranked, &a[0], b);
    }
    if b.len() == 1 {
        return column_of(alloc, ranked, a, &b[0]);
    }
    product_of_rows(alloc, ranked, k, a, b)
}

// The products of one candidate with all of b.
fn row_of<R: Ranked>(
    alloc: Global,
    ranked: &R,
    a: &R::Item,
    b: &[R::Item],
) -> Result<Firsts<R::Item>, AllocError>
    requires { R.reach ranked.now a.now + reach_of (R.reach ranked.now) b.now ≤ weight_bound }
    ensures { IfOk result (λ firsts. firsts ≡ map (R.joint ranked.now a.now) b.now) }
{
    let mut items = Vec::with_capacity(alloc, b.len())?;
    'joining: for right in b {
        items.push(ranked.joint(alloc, a, right)?)?;
    }
    Ok(Firsts::of(items))
}

// The products of all of a with one candidate.
fn column_of<R: Ranked>(
    alloc: Global,
    ranked: &R,
    a: &[R::Item],
    b: &R::Item,
) -> Result<Firsts<R::Item>, AllocError>
    requires { reach_of (R.reach ranked.now) a.now + R.reach ranked.now b.now ≤ weight_bound }
    ensures { IfOk result (λ firsts. firsts ≡ map (λ left. R.joint ranked.now left b.now) a.now) }
{
    let mut items = Vec::with_capacity(alloc, a.len())?;
    'joining: for left in a {
        items.push(ranked.joint(alloc, left, b)?)?;
    }
    Ok(Firsts::of(items))
}

// The first k of all products of two lists, of which the right one is in order.
// A row of products ends at the first that is not among the first k so far, and each is placed by halving.
// Where the left list is in order too and no two products are equal, at most k / i products of row i are kept,
// counted from 1, and one more is looked at: at most k (2 + ln k) in all, where k rows or fewer are given.
// Equal products may stand beside each other, so that where some are equal all may be placed.
fn product_of_rows<R: Ranked>(
    alloc: Global,
    ranked: &R,
    k: usize,
    a: &[R::Item],
    b: &[R::Item],
) -> Result<Firsts<R::Item>, AllocError>
    requires some { 1 ≤ k }
    requires in_order { Ascends (R.order ranked.now) b.now }
    requires reaches_add_up { let reach = reach_of (R.reach ranked.now) in
        reach a.now + reach b.now ≤ weight_bound }
    ensures { IfOk result (λ firsts.
        firsts ≡ first_of (R.order ranked.now) k (products (R.joint ranked.now) a.now b.now)) }
{
    let mut picks = Vec::with_capacity(alloc, k.min(a.len().saturating_mul(b.len())))?;
    'rows: for left in 0..a.len() {
        add_row(ranked, k, a, b, &mut picks, left)?;
    }
    joints(alloc, ranked, a, b, picks.as_slice())
}

// Adds the products of one candidate of a with all of b, and keeps the first k.
fn add_row<R: Ranked>(
    ranked: &R,
    k: usize,
    a: &[R::Item],
    b: &[R::Item],
    picks: &mut Vec<Pick>,
    left: usize,
) -> Result<(), AllocError>
    requires some { 1 ≤ k }
    requires left_is_within { left < length a.now }
    requires in_order { Ascends (R.order ranked.now) b.now }
    requires reaches_add_up { let reach = reach_of (R.reach ranked.now) in
        reach a.now + reach b.now ≤ weight_bound }
    requires picks_are_within { All (IsPickOf a.now b.now) picks.old.items }
    requires picks_in_order { let at = product_at (R.joint ranked.now) (R.unit ranked.now) a.now b.now in
        IsRankedWithin (R.order ranked.now) k (map at picks.old.items) }
    ensures picks_are_within { OnOk result (All (IsPickOf a.now b.now) picks.new.items) }
    ensures value { let at = product_at (R.joint ranked.now) (R.unit ranked.now) a.now b.now in
        OnOk result (map at picks.new.items ≡ first_of (R.order ranked.now) k (map at picks.old.items
        ++ map (R.joint ranked.now (slice_index_or a.now left (R.unit ranked.now))) b.now)) }
{
    'row: for right in 0..b.len() {
        if !add_pick(ranked, k, a, b, picks, Pick { left, right })? {
            break;
        }
    }
    Ok(())
}

// Adds one product, and keeps the first k. Whether the product is among these.
fn add_pick<R: Ranked>(
    ranked: &R,
    k: usize,
    a: &[R::Item],
    b: &[R::Item],
    picks: &mut Vec<Pick>,
    pick: Pick,
) -> Result<bool, AllocError>
    requires some { 1 ≤ k }
    requires pick_is_within { IsPickOf a.now b.now pick }
    requires reaches_add_up { let reach = reach_of (R.reach ranked.now) in
        reach a.now + reach b.now ≤ weight_bound }
    requires picks_are_within { All (IsPickOf a.now b.now) picks.old.items }
    requires picks_in_order { let at = product_at (R.joint ranked.now) (R.unit ranked.now) a.now b.now in
        IsRankedWithin (R.order ranked.now) k (map at picks.old.items) }
    ensures picks_are_within { OnOk result (All (IsPickOf a.now b.now) picks.new.items) }
    ensures value { let at = product_at (R.joint ranked.now) (R.unit ranked.now) a.now b.now in
        OnOk result (map at picks.new.items
        ≡ take k (placed (R.order ranked.now) (at pick) (map at picks.old.items))) }
    ensures left_out { let at = product_at (R.joint ranked.now) (R.unit ranked.now) a.now b.now in
        IfOk result (λ kept. kept ≡ false → (i : ℕ) → i < k → (i < length picks.new.items)
        × (is_gt (R.order ranked.now (at pick) (at (pick_at picks.new.items i))) ≡ true)) }
{
    let place = place_of(ranked, a, b, picks.as_slice(), pick);
    if place >= k {
        return Ok(false);
    }
    picks.truncate(k - 1);
    picks.insert(place, pick)?;
    Ok(true)
}

// The number of picks that the pick comes after, found by halving.
fn place_of<R: Ranked>(
    ranked: &R,
    a: &[R::Item],
    b: &[R::Item],
    picks: &[Pick],
    pick: Pick,
) -> usize
    requires pick_is_within { IsPickOf a.now b.now pick }
    requires reaches_add_up { let reach = reach_of (R.reach ranked.now) in
        reach a.now + reach b.now ≤ weight_bound }
    requires picks_are_within { All (IsPickOf a.now b.now) picks.now }
    requires picks_in_order { let at = product_at (R.joint ranked.now) (R.unit ranked.now) a.now b.now in
        Ascends (R.order ranked.now) (map at picks.now) }
    ensures within { result ≤ length picks.now }
    ensures after { let at = product_at (R.joint ranked.now) (R.unit ranked.now) a.now b.now in
        (i : ℕ) → i < result → is_gt (R.order ranked.now (at pick) (at (pick_at picks.now i))) ≡ true }
    ensures not_after { let at = product_at (R.joint ranked.now) (R.unit ranked.now) a.now b.now in
        (i : ℕ) → result ≤ i → i < length picks.now
        → is_gt (R.order ranked.now (at pick) (at (pick_at picks.now i))) ≡ false }
{
    let mut lo = 0;
    let mut hi = picks.len();
    'halving: while lo < hi {
        let mid = lo + (hi - lo) / 2;
        if pick_comes_after(ranked, a, b, pick, picks[mid]) {
            lo = mid + 1;
        } else {
            hi = mid;
        }
    }
    lo
}

// Whether the product of the one pick comes after that of the other.
fn pick_comes_after<R: Ranked>(
    ranked: &R,
    a: &[R::Item],
    b: &[R::Item],
    pick: Pick,
    other: Pick,
) -> bool
    requires pick_is_within { IsPickOf a.now b.now pick }
    requires other_is_within { IsPickOf a.now b.now other }
    requires reaches_add_up { let reach = reach_of (R.reach ranked.now) in
        reach a.now + reach b.now ≤ weight_bound }
    ensures { let at = product_at (R.joint ranked.now) (R.unit ranked.now) a.now b.now in
        result ≡ is_gt (R.order ranked.now (at pick) (at other)) }
{
    let (first, second) = (&a[pick.left], &b[pick.right]);
    let order = ranked.compare_joint(first, second, &a[other.left], &b[other.right]);
    order == Ordering::Greater
}

// The products themselves.
fn joints<R: Ranked>(
    alloc: Global,
    ranked: &R,
    a: &[R::Item],
    b: &[R::Item],
    picks: &[Pick],
) -> Result<Firsts<R::Item>, AllocError>
    requires picks_are_within { All (IsPickOf a.now b.now) picks.now }
    requires reaches_add_up { let reach = reach_of (R.reach ranked.now) in
        reach a.now + reach b.now ≤ weight_bound }
    ensures { let at = product_at (R.joint ranked.now) (R.unit ranked.now) a.now b.now in
        IfOk result (λ firsts. firsts ≡ map at picks.now) }
{
    let mut items = Vec::with_capacity(alloc, picks.len())?;
    'joining: for pick in picks {
        items.push(ranked.joint(alloc, &a[pick.left], &b[pick.right])?)?;
    }
    Ok(Firsts::of(items))
}
