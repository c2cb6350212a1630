//! Lists of intervals in ascending order: where one stands, what lies clear of them, and puts and
//! takes that keep the order. A place is found by halving.
//! A put or a take then moves what stands below the place or what stands above it, whichever is less.

ghost use Rattle.std.specs.Prelude.{◌≡◌, ◌==◌, ◌+◌, ◌<◌, ◌≤◌, ℕ, IsTrue, IsSome, IfSome, IfNone, length};
ghost use Rattle.std.specs.List.{list_all, list_any};
ghost use Rattle.std.specs.VecDeque.{deque_len, deque_capacity};
ghost use Rattle.board_core.specs.Ordered.{IsRisingBy, put_by};
ghost use Rattle.board_core.specs.Board.{apart, is_same, without_claim, without_pair, first_pair};
ghost use Rattle.board_core.specs.Places.{place_of, AreApart, pair_index};

use crate::taken::Claim;
use interval_kit::Piece;
use std::collections::VecDeque;

/// What stands on a board: the rows `lo..hi`.
pub(crate) trait Interval {
    ghost lo: { Self → ℕ };

    ghost hi: { Self → ℕ };

    fn lo(&self) -> u32
        ensures { result ≡ lo self.now };

    fn hi(&self) -> u32
        ensures { result ≡ hi self.now };
}

impl<V> Interval for Piece<V> {
    ghost lo = { λ p. p.lo };

    ghost hi = { λ p. p.hi };

    fn lo(&self) -> u32 {
        self.lo
    }

    fn hi(&self) -> u32 {
        self.hi
    }
}

impl Interval for Claim {
    ghost lo = { λ c. c.lo };

    ghost hi = { λ c. c.hi };

    fn lo(&self) -> u32 {
        self.lo
    }

    fn hi(&self) -> u32 {
        self.hi
    }
}

fn place<I: Interval>(intervals: &VecDeque<I>, lo: u32) -> usize
    requires { IsRisingBy I.lo intervals.now.items }
    ensures index { result ≡ place_of I.lo lo intervals.now.items }
    ensures bound { result ≤ deque_len intervals.now }
{
    intervals.partition_point(|interval| interval.lo() < lo)
}

// Only the interval before the place of `lo` and the one at it can meet `lo..hi`.
pub(crate) fn lies_clear<I: Interval>(intervals: &VecDeque<I>, lo: u32, hi: u32) -> bool
    requires apart { AreApart I.lo I.hi intervals.now.items }
    requires nonempty { lo < hi }
    ensures { result ≡ list_all (λ x. apart lo hi (I.lo x) (I.hi x)) intervals.now.items }
{
    let at = place(intervals, lo);
    if at > 0 && lo < intervals[at - 1].hi() {
        return false;
    }
    if at < intervals.len() && intervals[at].lo() < hi {
        return false;
    }
    true
}

pub(crate) fn put<I: Interval + Drop>(intervals: &mut VecDeque<I>, interval: I)
    requires rises { IsRisingBy I.lo intervals.old.items }
    requires room { deque_len intervals.old < deque_capacity intervals.old }
    ensures items { intervals.new.items ≡ put_by I.lo interval intervals.old.items }
    ensures len { deque_len intervals.new ≡ deque_len intervals.old + 1 }
    ensures capacity { deque_capacity intervals.old ≤ deque_capacity intervals.new }
{
    let at = place(intervals, interval.lo());
    let Ok(()) = intervals.insert(at, interval) else {
        unreachable!()
    };
}

// The claim stands at the place of its `lo`, since no two claims begin in one row.
pub(crate) fn drop_claim(claims: &mut VecDeque<Claim>, claim: Claim)
    requires rises { IsRisingBy (λ c. c.lo) claims.old.items }
    requires is_open { IsTrue (list_any (λ c. is_same c claim) claims.old.items) }
    ensures items { claims.new.items ≡ without_claim claim claims.old.items }
    ensures len { deque_len claims.new + 1 ≡ deque_len claims.old }
    ensures capacity { deque_capacity claims.new ≡ deque_capacity claims.old }
{
    let at = place(claims, claim.lo);
    let _claim = claims.remove(at);
}

fn adjoin<V>(left: &Piece<V>, right: &Piece<V>) -> bool
    ensures { result ≡ (left.now.hi == right.now.lo) }
{
    left.hi == right.lo
}

/// Where the left one of the first two neighbours stands of which one ends where the other begins.
pub(crate) fn pair_place<V>(held: &VecDeque<Piece<V>>) -> Option<usize>
    ensures pair { IfSome result (λ at. at ≡ pair_index held.now.items) }
    ensures found { IsSome result → IsSome (first_pair held.now.items) }
    ensures no_pair { IfNone result (first_pair held.now.items ≡ None) }
{
    for at in 1..held.len() {
        if adjoin(&held[at - 1], &held[at]) {
            return Some(at - 1);
        }
    }
    None
}

pub(crate) fn take_pair<V>(held: &mut VecDeque<Piece<V>>, at: usize) -> (Piece<V>, Piece<V>)
    requires place { at ≡ pair_index held.old.items }
    requires found { IsSome (first_pair held.old.items) }
    ensures pair { first_pair held.old.items ≡ Some (result.0, result.1) }
    ensures items { held.new.items ≡ without_pair held.old.items }
    ensures len { deque_len held.new + 2 ≡ deque_len held.old }
    ensures capacity { deque_capacity held.new ≡ deque_capacity held.old }
{
    let Some(left) = held.remove(at) else {
        unreachable!()
    };
    let Some(right) = held.remove(at) else {
        unreachable!()
    };
    (left, right)
}
