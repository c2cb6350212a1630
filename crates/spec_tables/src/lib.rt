//! The tables of a specification: their products by number, and the first fault of those that are no monoids.
//! specs/Tables.antt has the products of a table, specs/Faults.antt the faults, and specs/Ready.antt what is
//! known of the lines before.
#![tactic(auto)]

mod fault;
mod numbers;
mod products;
mod tables;

pub use fault::TablesFault;
pub use numbers::{number_in, numbers_in};
pub use tables::checked_tables;
