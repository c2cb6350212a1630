//! The marks of a candidate, kept as runs of neighbouring rows. A run is in src/run.rt, a list of runs in
//! src/runs.rt, and how two lists are compared in src/walk.rt. Which marks runs stand for is in specs/Runs.antt.
#![tactic(auto)]

mod run;
mod runs;
mod walk;

pub use run::Run;
pub use runs::Runs;
