//! The greatest weight by lanes.

use crate::lanes::Lanes;
use crate::max_lanes::{ABSENT, greatest, lift_max};
use semiring_kit::MaxPlus;
use std::alloc::{AllocError, Global};

impl Lanes for MaxPlus {
    ghost use Rattle.lane_rows.specs.MaxLanes.{weight_of_lane};

    type Lane = i64;

    ghost is_lane = { λ kit lane. Unit {0} };

    ghost shows = { λ kit. weight_of_lane };

    fn absent(&self) -> i64 {
        ABSENT
    }

    fn is_absent(&self, lane: i64) -> bool {
        lane == ABSENT
    }

    fn lane_of(&self, elem: &Option<i64>) -> i64 {
        match *elem {
            None => ABSENT,
            Some(weight) => weight,
        }
    }

    fn elem_of(&self, _alloc: Global, lane: i64) -> Result<Option<i64>, AllocError> {
        if lane == ABSENT {
            return Ok(None);
        }
        Ok(Some(lane))
    }

    fn lift(&self, into: &mut [i64], from: &[i64], by: i64) {
        if by == ABSENT {
            return;
        }
        lift_max(into, from, by);
    }

    fn sum_of(&self, lanes: &[i64]) -> i64 {
        greatest(lanes)
    }
}
