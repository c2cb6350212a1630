//! Tests of the crates that check a specification and read its table, a file for each crate: broken rules, names and
//! tables, and the rows of tables. They stand in a crate of their own, since a crate with tests is proved twice.
#![tactic(auto)]

#[cfg(test)]
mod checking;
#[cfg(test)]
mod rules;
#[cfg(test)]
mod tables;
