//! The board that holds pieces and pairs neighbours, as plain data with no thread in it.
//! What a board is, what each call answers and does to it, and what holds of every board
//! stand in specs/: Board, Calls, Replay and Sound, in this order.
#![tactic(auto)]

mod board;
mod event;
mod law;
mod places;
mod taken;

pub use board::Core;
pub use event::{Event, Logged, Reply};
pub use law::{Standing, every_board_is_sound};
pub use taken::{Claim, CoreClaimed, CoreOffered, Lists, Taken};
