//! Fusion: the value of an interval of rows as maps from keys to semiring values, one for each component of the
//! shape, from leaves and joins. No candidate is listed.
//! What a tuple of maps stands for is in specs/Stands.antt; the lists that it is about are in shape_gen.
//! A plan is in plan.rt. The wirings of the shapes are in shapes.rt, and what is made over any wiring in growing.rt
//! and joining.rt. The answer of all rows is in finishing.rt.
#![tactic(auto)]

mod finishing;
mod growing;
mod joining;
mod letter;
mod maps;
mod plan;
mod shapes;
mod wiring;

pub use finishing::finish;
pub use letter::{Letter, Tuple};
pub use plan::{Plan, plan_of};
