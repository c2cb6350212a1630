//! Reads the table of an input: the cells of the declared columns, record by record.
//! The table and its first fault are in specs/Table.antt, over the records of the crate `csv`.
//! src/reading.rt reads these one at a time, src/header.rt finds the columns, and src/body.rt keeps
//! the cells.
#![tactic(auto)]

mod body;
mod fault;
mod fields;
mod header;
mod reading;
mod table;

pub use fault::RowsFault;
pub use table::read_rows;
