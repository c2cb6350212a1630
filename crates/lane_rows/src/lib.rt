//! Maps that keep a row with a lane for each key: dense_kit.rt, whose steps are in lift.rt.
//! What a kit of values must offer for that is in lanes.rt. max_lanes.rt has lanes of weights, and
//! max_plus.rt and min_plus.rt their kits; truth_lanes.rt and count_lanes.rt have lanes and kit.
//! faces.rt has the kits of numbers over capped sums.
#![tactic(auto)]

mod count_lanes;
mod dense_kit;
mod faces;
mod lanes;
mod lift;
mod max_lanes;
mod max_plus;
mod min_plus;
mod truth_lanes;

pub use count_lanes::{lift_count, total_count};
pub use dense_kit::DenseKit;
pub use faces::{DenseCount, DenseMax, DenseMin, DenseTruth};
pub use lanes::Lanes;
pub use max_lanes::{ABSENT, greatest, lift_max};
pub use truth_lanes::{any, lift_or};
