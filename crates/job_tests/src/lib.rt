//! Tests of whole jobs as a library: the reader and the printer of the language together, and answers by several
//! numbers of workers and sizes of leaves.
//! They stand in a crate of their own, since a crate with tests is proved twice.
#![tactic(auto)]

#[cfg(test)]
mod jobs;
#[cfg(test)]
mod keys;
#[cfg(test)]
mod texts;
