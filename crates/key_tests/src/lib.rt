//! Tests of keys and of maps over them: products of monoids, tests as letters, maps in both forms, and plans.
//! They stand in a crate of their own, since a crate with tests is proved twice.
#![tactic(auto)]

#[cfg(test)]
mod lanes;
#[cfg(test)]
mod letters;
#[cfg(test)]
mod maps;
#[cfg(test)]
mod plans;
#[cfg(test)]
mod products;
