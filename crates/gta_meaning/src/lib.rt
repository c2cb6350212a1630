//! The plain meaning of a checked specification and its table, by lists and exact whole numbers.
//! specs/Values.antt has values and totals, specs/Tests.antt what passes, specs/Folds.antt the product of a fold,
//! specs/Runs.antt the state that a run reaches, specs/Elements.antt what sets of accepted elements and states hold,
//! specs/Kept.antt the candidates that pass, specs/Answers.antt and specs/Ranks.antt what is asked of them,
//! specs/Listed.antt which lists are too long, and specs/Heavy.antt the first row past the bound of weights.
#![tactic(auto)]

mod candidate;
mod elements;
mod folds;
mod heavy;
mod listing;
mod numbered;
mod passing;
mod picks;
mod runs;
mod totals;
mod values;
mod verdicts;

pub use candidate::{Candidate, label_count};
pub use elements::{ElementSet, accepted_elements};
pub use folds::picked;
pub use heavy::first_heavy;
pub use listing::{ListFault, list_kept};
pub use passing::passes;
pub use picks::first_pick;
pub use totals::weight_of;
pub use values::{VALUE_BOUND, compares, value_of};
pub use verdicts::{Outcomes, verdict};
