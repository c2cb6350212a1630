//! Tests of the crates of algebra, a file for each crate. They show what no clause says: worked values, each call once
//! with ample memory, each generic call at concrete types. Those of meaning are in meaning_tests, those of lists of best
//! entries in list_tests, and those of keys and maps in key_tests.
//! They stand in a crate of their own, since a crate with tests is proved twice.
#![tactic(auto)]

#[cfg(test)]
mod monoids;
#[cfg(test)]
mod semirings;
#[cfg(test)]
mod shapes;
#[cfg(test)]
mod steps;
#[cfg(test)]
mod witnesses;
