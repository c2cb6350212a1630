//! Tests of the crates of the runtime, a file for each crate but board_core, whose tests look at private fields: worked
//! cuts, boards and blocks, callers and workers in threads; and one for workers that find no memory or no room.
//! They stand in a crate of their own, since a crate with tests is proved twice.
#![tactic(auto)]

#[cfg(test)]
mod cuts;
#[cfg(test)]
mod leaf_numbers;
#[cfg(test)]
mod refusals;
#[cfg(test)]
mod shared_board;
#[cfg(test)]
mod workers;
