//! The board that several callers share, each with a seat of its own.
//! specs/Rule.antt says what holds between any two steps of any callers, and specs/Answers.antt
//! what each call gives. One word says whose turn it is, and one slot holds the board.
#![tactic(auto)]

mod answers;
mod board;
mod calls;
mod note;
mod opening;
mod seat;
mod sharing;
mod table;
mod view;

pub use answers::{Claimed, Leftover, Offered, PutBack, Settled};
pub use board::Board;
pub use note::Note;
pub use opening::start;
pub use seat::Seat;
