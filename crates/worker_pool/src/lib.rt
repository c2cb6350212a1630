//! Workers that compute leaves and join neighbours over a shared board, and the value of all rows
//! from whatever they leave behind.
//! specs/Walk.antt says which parts make up the value of all rows, and what they cost, and
//! specs/Workers.antt what a worker owes at its end.
#![tactic(auto)]

mod drawing;
mod gate;
mod gathering;
mod pocket;
mod site;
mod slots;
mod solving;
mod stepping;
mod turn;
mod working;

pub use gate::{Gate, OpenGate};
pub use gathering::gather;
pub use solving::{MOST_LEAVES, solve};
pub use working::{Done, MOST_MISSES, WorkEnd, work};
