//! Lanes of truth values, and what is done to rows of them. The meaning is in specs/TruthLanes.antt.

ghost use Rattle.std.specs.Prelude.{◌≡◌, All, length};
ghost use Rattle.lane_rows.specs.TruthLanes.{IsBit, lifted_or, any};

use crate::lanes::Lanes;
use semiring_kit::Truth;
use std::alloc::{AllocError, Global};

/// At each place `into` becomes 1 where either is 1, and else 0. It takes no memory.
pub fn lift_or(into: &mut [u8], from: &[u8])
    requires same_length { length into.old ≡ length from.now }
    requires into_are_bits { All IsBit into.old }
    requires from_are_bits { All IsBit from.now }
    ensures { into.new ≡ lifted_or into.old from.now }
{
    for i in 0..into.len() {
        into[i] = into[i].max(from[i]);
    }
}

/// 1 where any lane is 1, and else 0. It takes no memory.
pub fn any(lanes: &[u8]) -> u8
    requires { All IsBit lanes.now }
    ensures { result ≡ any lanes.now }
{
    let mut any: u8 = 0;
    for lane in lanes {
        any = any.max(*lane);
    }
    any
}

impl Lanes for Truth {
    ghost use Rattle.lane_rows.specs.TruthLanes.{IsBit, truth_of_lane};

    type Lane = u8;

    ghost is_lane = { λ kit. IsBit };

    ghost shows = { λ kit. truth_of_lane };

    fn absent(&self) -> u8 {
        0
    }

    fn is_absent(&self, lane: u8) -> bool {
        lane == 0
    }

    fn lane_of(&self, elem: &bool) -> u8 {
        u8::from(*elem)
    }

    fn elem_of(&self, _alloc: Global, lane: u8) -> Result<bool, AllocError> {
        Ok(lane == 1)
    }

    fn lift(&self, into: &mut [u8], from: &[u8], by: u8) {
        if by == 0 {
            return;
        }
        lift_or(into, from);
    }

    fn sum_of(&self, lanes: &[u8]) -> u8 {
        any(lanes)
    }
}
