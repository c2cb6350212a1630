//! Lanes: values of fixed size, each of which shows an element of a semiring.
//! What the clauses say of them is in specs/Lanes.antt.

ghost use Rattle.std.specs.Prelude.{◌≡◌, ◌↔◌, All, IfOk, IsTrue, length, map};
ghost use Rattle.std.specs.Simd.Lanes.{zip2};
ghost use Rattle.semiring_kit.specs.Semiring.{IsGood};
ghost use Rattle.semiring_kit.specs.Total.{total};
ghost use Rattle.lane_rows.specs.Lanes.{IsGoodLane, LanesAddUp, add_times};

use semiring_kit::Semiring;
use std::alloc::{AllocError, Global};

/// A semiring whose elements are shown by lanes. No method but `elem_of` may take memory.
pub trait Lanes: Semiring {
    type Lane: Copy + Send + Drop;

    ghost is_lane: { Self → Self.Lane → Type 0 };

    ghost shows: { Self → Self.Lane → Self.Elem };

    /// The lane of zero.
    fn absent(&self) -> Self::Lane
        ensures is_lane { is_lane self.now result }
        ensures zero { shows self.now result ≡ (Self.ring self.now).zero };

    /// Whether the lane is that of zero.
    fn is_absent(&self, lane: Self::Lane) -> bool
        requires { is_lane self.now lane }
        ensures { IsTrue result ↔ (shows self.now lane ≡ (Self.ring self.now).zero) };

    /// The lane of an element.
    fn lane_of(&self, elem: &Self::Elem) -> Self::Lane
        requires { IsGood (Self.ring self.now) elem.now }
        ensures is_lane { is_lane self.now result }
        ensures shows { shows self.now result ≡ elem.now };

    /// The element that the lane shows.
    fn elem_of(&self, alloc: Global, lane: Self::Lane) -> Result<Self::Elem, AllocError>
        requires { is_lane self.now lane }
        ensures { IfOk result (λ elem. elem ≡ shows self.now lane) };

    /// Adds to each lane the product of `by` with the lane of `from` in its place.
    fn lift(&self, into: &mut [Self::Lane], from: &[Self::Lane], by: Self::Lane)
        requires same_length { length into.old ≡ length from.now }
        requires into_is_good { let ring = Self.ring self.now in
            All (IsGoodLane ring (is_lane self.now) (shows self.now)) into.old }
        requires from_is_good { let ring = Self.ring self.now in
            All (IsGoodLane ring (is_lane self.now) (shows self.now)) from.now }
        requires by_is_good { let ring = Self.ring self.now in
            IsGoodLane ring (is_lane self.now) (shows self.now) by }
        requires reaches_add_up { LanesAddUp (Self.ring self.now) (shows self.now) by from.now }
        ensures are_lanes { All (is_lane self.now) into.new }
        ensures values { let ring = Self.ring self.now in
            let show = shows self.now in
            map show into.new
            ≡ zip2 (add_times ring (show by)) (map show into.old) (map show from.now) };

    /// The lane of the sum of what the lanes show.
    fn sum_of(&self, lanes: &[Self::Lane]) -> Self::Lane
        requires { let ring = Self.ring self.now in
            All (IsGoodLane ring (is_lane self.now) (shows self.now)) lanes.now }
        ensures is_lane { is_lane self.now result }
        ensures shows { shows self.now result ≡ total (Self.ring self.now) (shows self.now) lanes.now };
}
