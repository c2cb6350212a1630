//! Whole jobs, from the bytes of an input to the bytes of an answer or the refusal.
//! specs/Outcome.antt says what a command comes to: its text or its first refusal. What that rests on is in
//! specs/Ends.antt (faults told as refusals), specs/Sizes.antt (how large a job is) and specs/Answers.antt (the
//! answer by its aggregate).
#![tactic(auto)]

mod drilling;
mod job;
mod law;
mod listing;
mod rows_job;
mod size;
mod steps;

pub use drilling::drill_job;
pub use job::{FIRST_INPUT_LIMIT, INPUT_LIMIT, JobEnd, answer_job, answer_with, show_job};
pub use law::job_limits;
pub use listing::{CANDIDATE_LIMIT, MARK_LIMIT, list_job};
pub use size::SIZE_LIMIT;
