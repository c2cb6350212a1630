//! What is printed: the line of a refusal and the report of an answer, as bytes.
//! specs/Texts.antt has the exact bytes. A refusal is in src/refusal.rt, its line in src/fault.rt,
//! what such lines share in src/frame.rt, an answer with its report in src/answer.rt, and the line of an
//! entry with its candidate in src/candidate.rt.
#![tactic(auto)]

mod answer;
mod candidate;
mod fault;
mod frame;
mod refusal;

pub use answer::{Answer, COUNT_CAP, report};
pub use candidate::push_candidate_line;
pub use fault::fault_line;
pub use refusal::Refusal;
