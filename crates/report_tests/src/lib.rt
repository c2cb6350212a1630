//! Tests of what goes out and of what comes in: reports and refusals, and streams that fail.
//! They stand in a crate of their own, since a crate with tests is proved twice.
#![tactic(auto)]

#[cfg(test)]
mod reports;
#[cfg(test)]
mod streams;
