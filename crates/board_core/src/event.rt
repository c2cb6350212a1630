//! What a board's log holds: who called, what was asked, and what was answered.
//! Only calls that changed the board are logged.

/// A call that changes the board. `lo..hi` is the whole interval, and `mid` is where a pair meets.
#[derive(Clone, Copy, PartialEq, Eq, Debug)]
pub enum Event {
    Offer { lo: u32, hi: u32 },
    Claim,
    Settle { lo: u32, mid: u32, hi: u32 },
    PutBack { lo: u32, mid: u32, hi: u32 },
}

/// The answer to a logged call: a pair to a claim, and Kept to any other.
#[derive(Clone, Copy, PartialEq, Eq, Debug)]
pub enum Reply {
    Kept,
    Pair { lo: u32, mid: u32, hi: u32 },
}

/// An entry of a log: the caller's number, its call and the answer.
#[derive(Clone, Copy, PartialEq, Eq, Debug)]
pub struct Logged {
    pub who: u32,
    pub event: Event,
    pub reply: Reply,
}
