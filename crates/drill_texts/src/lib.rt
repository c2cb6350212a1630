//! The texts of the drill: three jobs over one table, which a seed and a number of rows give.
//! specs/Drills.antt has the exact bytes. The table is in src/table.rt, the jobs in src/drill.rt.
#![tactic(auto)]

mod drill;
mod law;
mod table;

pub use drill::{BYTES_LIMIT, Drill, drill_text, heading};
pub use law::drill_limits;
pub use table::ROWS_LIMIT;
