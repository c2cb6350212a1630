//! What is asked of the candidates that pass, computed over maps: no candidate is listed.
//! This crate knows both meaning and algebra, since its contracts say that the sum which fusion gives is the plain
//! answer. A job is in job.rt, who computes in crew.rt, and what a question is in question.rt; each question has its
//! file, and several totals that are compared one after the other are in ranks.rt. The sum in any semiring is in sum.rt,
//! and over rows of lanes in dense.rt. specs/Letters.antt has the letters of a job, and specs/Sizes.antt how many entries
//! its pieces count.
#![tactic(auto)]

mod any;
mod best;
mod best_ranked;
mod best_totals;
mod count;
mod crew;
mod dense;
mod greatest;
mod job;
mod least;
mod leaves;
mod letters;
mod question;
mod ranks;
mod sum;

pub use any::Whether;
pub use best::BestOf;
pub use best_ranked::BestRanked;
pub use best_totals::BestTotals;
pub use count::HowMany;
pub use crew::Crew;
pub use dense::lane_sum_of_kept;
pub use greatest::GreatestOf;
pub use job::{Job, PreparedJob};
pub use least::LeastOf;
pub use leaves::{DENSE_KEYS, LIST_ROWS, SMALL_ROWS};
pub use question::{Question, answer_to, lane_answer_to};
pub use ranks::Ranks;
pub use sum::sum_of_kept;
