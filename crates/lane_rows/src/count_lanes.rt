//! Counts as lanes, and what is done to rows of them. The meaning is in specs/CountLanes.antt.

ghost use Rattle.std.specs.Prelude.{◌≡◌, length};
ghost use Rattle.lane_rows.specs.CountLanes.{lifted_count, total_count};

use crate::lanes::Lanes;
use semiring_kit::Count;
use std::alloc::{AllocError, Global};

/// At each place `into` is raised by the product of the count with that of `from`, and stops at
/// the greatest u64. It takes no memory.
pub fn lift_count(into: &mut [u64], from: &[u64], by: u64)
    requires same_length { length into.old ≡ length from.now }
    ensures { into.new ≡ lifted_count by into.old from.now }
{
    for i in 0..into.len() {
        into[i] = into[i].saturating_add(by.saturating_mul(from[i]));
    }
}

/// The sum of the counts, or the greatest u64 where it is past it. It takes no memory.
pub fn total_count(counts: &[u64]) -> u64
    ensures { result ≡ total_count counts.now }
{
    let mut total: u64 = 0;
    for count in counts {
        total = total.saturating_add(*count);
    }
    total
}

impl Lanes for Count {
    type Lane = u64;

    ghost is_lane = { λ kit lane. Unit {0} };

    ghost shows = { λ kit lane. lane };

    fn absent(&self) -> u64 {
        0
    }

    fn is_absent(&self, lane: u64) -> bool {
        lane == 0
    }

    fn lane_of(&self, elem: &u64) -> u64 {
        *elem
    }

    fn elem_of(&self, _alloc: Global, lane: u64) -> Result<u64, AllocError> {
        Ok(lane)
    }

    fn lift(&self, into: &mut [u64], from: &[u64], by: u64) {
        lift_count(into, from, by);
    }

    fn sum_of(&self, lanes: &[u64]) -> u64 {
        total_count(lanes)
    }
}
