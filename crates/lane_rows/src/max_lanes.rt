//! Lanes of weights, and what is done to rows of them. The meaning is in specs/MaxLanes.antt.
//! The loops are plain ones, of which the compiler makes operations on vectors.

ghost use Rattle.std.specs.Prelude.{◌≡◌, ◌≤◌, All, length, unsigned_abs};
ghost use Rattle.semiring_kit.specs.Semiring.{weight_bound};
ghost use Rattle.lane_rows.specs.MaxLanes.{IsWithin, raised, lifted_max, greatest};

/// The lane of no weight.
pub const ABSENT: i64 = i64::MIN;

/// At each place where `from` has a weight, `into` becomes the greater of itself and of this weight
/// with the given one. A lane without a weight changes nothing. It takes no memory.
pub fn lift_max(into: &mut [i64], from: &[i64], weight: i64)
    requires same_length { length into.old ≡ length from.now }
    requires weight_is_within { unsigned_abs weight ≤ weight_bound }
    requires from_is_within { All IsWithin from.now }
    ensures { into.new ≡ lifted_max weight into.old from.now }
{
    for i in 0..into.len() {
        into[i] = raised(into[i], from[i], weight);
    }
}

fn raised(a: i64, b: i64, weight: i64) -> i64
    requires weight_is_within { unsigned_abs weight ≤ weight_bound }
    requires lane_is_within { IsWithin b }
    ensures { result ≡ raised weight a b }
{
    if b == ABSENT { a } else { a.max(b + weight) }
}

/// The greatest lane. It takes no memory.
pub fn greatest(lanes: &[i64]) -> i64
    ensures { result ≡ greatest lanes.now }
{
    let mut greatest = ABSENT;
    for lane in lanes {
        greatest = greatest.max(*lane);
    }
    greatest
}
