//! Tests of the crates that read and print texts, a file for each crate: lines and words, specifications, canonical
//! texts, command lines, and the texts of drills.
//! They stand in a crate of their own, since a crate with tests is proved twice.
#![tactic(auto)]

#[cfg(test)]
mod drills;
#[cfg(test)]
mod printing;
#[cfg(test)]
mod reading;
#[cfg(test)]
mod tokens;
#[cfg(test)]
mod words;
