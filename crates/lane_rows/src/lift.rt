//! The steps of convolutions: a row is lifted run by run, once for a key. They are methods of a trait,
//! since a method of an impl can't call a function whose bound has an associated type that is `Send`.

ghost use Rattle.std.specs.Prelude.{◌≡◌, ℕ, ◌+◌, ◌<◌, ◌≤◌, All, length, map, OnOk};
ghost use Rattle.monoid_kit.specs.Spans.{moved};
ghost use Rattle.semiring_kit.specs.Semiring.{SemiringOn};
ghost use Rattle.lane_rows.specs.Lanes.{IsGoodLane, LanesAddUp};
ghost use Rattle.lane_rows.specs.Rows.{shown, FitsRow, IsLifted, run_at, span_at, moved_at};

use crate::dense_kit::DenseKit;
use crate::lanes::Lanes;
use monoid_kit::{Monoid, Span};
use std::alloc::{AllocError, Global};

pub(crate) trait Lift: Drop {
    type Item;

    type Lane: Copy;

    ghost ring: { Self → SemiringOn Self.Item };

    ghost is_lane: { Self → Self.Lane → Type 0 };

    ghost shows: { Self → Self.Lane → Self.Item };

    ghost size: { Self → ℕ };

    ghost times: { Self → ℕ → ℕ → ℕ };

    // Adds the other row to the row, key by key.
    fn add_row(
        &self,
        alloc: Global,
        row: &mut [Self::Lane],
        other: &[Self::Lane],
    ) -> Result<(), AllocError>
        requires same_length { length row.old ≡ length other.now }
        requires row_is_good { All (IsGoodLane (ring self.now) (is_lane self.now) (shows self.now)) row.old }
        requires other_is_good { All (IsGoodLane (ring self.now) (is_lane self.now) (shows self.now)) other.now }
        ensures { let y = shown (ring self.now) (shows self.now) other.now in
            OnOk result (IsLifted (ring self.now) (is_lane self.now) (shows self.now) row.old row.new y) };

    // Adds the products of `by` with the lanes of `from`, at the places from `to` on.
    fn lift_run(&self, row: &mut [Self::Lane], to: usize, from: &[Self::Lane], by: Self::Lane)
        requires in_row { to + length from.now ≤ length row.old }
        requires row_is_good { All (IsGoodLane (ring self.now) (is_lane self.now) (shows self.now)) row.old }
        requires from_is_good { All (IsGoodLane (ring self.now) (is_lane self.now) (shows self.now)) from.now }
        requires by_is_good { IsGoodLane (ring self.now) (is_lane self.now) (shows self.now) by }
        requires reaches_add_up { LanesAddUp (ring self.now) (shows self.now) by from.now }
        ensures { let products = map (λ lane. (ring self.now).mul (shows self.now by) (shows self.now lane)) from.now in
            IsLifted (ring self.now) (is_lane self.now) (shows self.now) row.old row.new
            (run_at (ring self.now) to products) };

    // Adds the products of `by` with the lanes of `from` in the span, where the span moves them.
    fn lift_span(&self, row: &mut [Self::Lane], span: Span, from: &[Self::Lane], by: Self::Lane)
        requires some { 0 < span.len }
        requires in_from { span.from + span.len ≤ length from.now }
        requires in_row { (i : ℕ) → i < span.len → moved span i < length row.old }
        requires row_is_good { All (IsGoodLane (ring self.now) (is_lane self.now) (shows self.now)) row.old }
        requires from_is_good { All (IsGoodLane (ring self.now) (is_lane self.now) (shows self.now)) from.now }
        requires by_is_good { IsGoodLane (ring self.now) (is_lane self.now) (shows self.now) by }
        requires reaches_add_up { LanesAddUp (ring self.now) (shows self.now) by from.now }
        ensures { let y = shown (ring self.now) (shows self.now) from.now in
            IsLifted (ring self.now) (is_lane self.now) (shows self.now) row.old row.new
            (span_at (ring self.now) (shows self.now by) span y) };

    // Adds the products of `by` with all lanes of `from`, where the key as left factor moves them.
    fn lift_key(
        &self,
        alloc: Global,
        row: &mut [Self::Lane],
        key: u32,
        from: &[Self::Lane],
        by: Self::Lane,
    ) -> Result<(), AllocError>
        requires is_element { key < size self.now }
        requires row_fits { FitsRow (ring self.now) (is_lane self.now) (shows self.now) (size self.now) row.old }
        requires from_fits { FitsRow (ring self.now) (is_lane self.now) (shows self.now) (size self.now) from.now }
        requires by_is_good { IsGoodLane (ring self.now) (is_lane self.now) (shows self.now) by }
        requires reaches_add_up { LanesAddUp (ring self.now) (shows self.now) by from.now }
        ensures { let y = shown (ring self.now) (shows self.now) from.now in
            let added = moved_at (ring self.now) (shows self.now by) (times self.now key) (size self.now) y in
            OnOk result (IsLifted (ring self.now) (is_lane self.now) (shows self.now) row.old row.new added) };
}

impl<S: Lanes, M: Monoid> Lift for DenseKit<S, M> {
    type Item = S::Elem;

    type Lane = S::Lane;

    ghost ring = { λ s. S.ring s.kit };

    ghost is_lane = { λ s. S.is_lane s.kit };

    ghost shows = { λ s. S.shows s.kit };

    ghost size = { λ s. M.size s.keys };

    ghost times = { λ s. M.mul s.keys };

    fn add_row(
        &self,
        alloc: Global,
        row: &mut [S::Lane],
        other: &[S::Lane],
    ) -> Result<(), AllocError> {
        let one = self.kit.one(alloc)?;
        self.kit.lift(row, other, self.kit.lane_of(&one));
        Ok(())
    }

    fn lift_run(&self, row: &mut [S::Lane], to: usize, from: &[S::Lane], by: S::Lane) {
        let end = to + from.len();
        self.kit.lift(&mut row[to..end], from, by);
    }

    fn lift_span(&self, row: &mut [S::Lane], span: Span, from: &[S::Lane], by: S::Lane) {
        let first = span.from as usize;
        let end = first + span.len as usize;
        let lanes = &from[first..end];
        if span.rises {
            self.lift_run(row, span.to as usize, lanes, by);
        } else {
            let sum = self.kit.sum_of(lanes);
            self.lift_run(row, span.to as usize, &[sum], by);
        }
    }

    fn lift_key(
        &self,
        alloc: Global,
        row: &mut [S::Lane],
        key: u32,
        from: &[S::Lane],
        by: S::Lane,
    ) -> Result<(), AllocError> {
        for span in &self.keys.spans(alloc, key)? {
            self.lift_span(row, *span, from, by);
        }
        Ok(())
    }
}
