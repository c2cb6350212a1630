//! Counting: a number that goes up by one for each step, and takes no bytes when the program runs.
//! The counter is in steps.rt, and what a counter is made from in specs/Blanks.antt.
#![tactic(auto)]

mod steps;

pub use steps::Steps;
