//! The first k of any candidates in an order, as a semiring. What candidates are is said by the trait of
//! src/ranked.rt, a list of them is in src/firsts.rt, the semiring in src/kit.rt, its sums in src/sum.rt, over the
//! queues of src/queue.rt, and its products in src/product.rt. The operations are in specs/FirstK.antt, and their
//! laws over any ranking in specs/FirstKLaws.antt.
#![tactic(auto)]

mod firsts;
mod kit;
mod product;
mod queue;
mod ranked;
mod sum;

pub use firsts::Firsts;
pub use kit::FirstK;
pub use ranked::Ranked;
