//! Worked rows, and random calls beside a plain list of rows that knows who has each row.

ghost use Rattle.std.specs.Prelude.{◌≡◌, ◌↔◌, ◌+◌, IsTrue};
ghost use Rattle.board_core.specs.Board.{IsClaim};

use super::*;
use crate::law::{Standing, every_board_is_sound};
use interval_kit::Piece;
use std::process::Abort;
use std::test::Fail;

/// A request to a board. Settle and put_back take the pair that was handed out last but `back`.
#[derive(Clone, Copy, Debug)]
enum Ask {
    Offer { lo: u32, hi: u32 },
    Claim,
    Settle { back: usize },
    PutBack { back: usize },
}

#[derive(Clone, Copy, PartialEq, Eq, Debug)]
enum Answer {
    Kept,
    Overlaps,
    Full,
    Pair { lo: u32, mid: u32, hi: u32 },
    NoPair,
    Nothing,
}

// The value that stands for the rows: their numbers, added up.
fn worth(lo: u32, hi: u32) -> u32 {
    (lo..hi).fold(0, |sum: u32, row| sum.wrapping_add(row))
}

fn stands(board: &Core<u32>, taken: &Taken<u32>) -> bool
    ensures { IsTrue result ↔ IsClaim taken.now board.now.claims }
{
    taken.left.hi == taken.right.lo && board.claims.contains(&claim_of(taken))
}

/// A board with the pairs that it handed out.
#[derive(Drop)]
struct Asked {
    board: Core<u32>,
    pairs: Vec<Taken<u32>>,
}

impl Asked {
    fn last_but(&mut self, back: usize) -> Option<Taken<u32>> {
        if back < self.pairs.len() {
            let at = self.pairs.len() - 1 - back;
            Some(self.pairs.remove(at))
        } else {
            None
        }
    }

    fn ask(&mut self, rt: &impl Abort, ask: Ask) -> Result<Answer, Fail> {
        match ask {
            Ask::Offer { lo, hi } => {
                assert!(rt; lo < hi && hi <= self.board.rows, "a good interval");
                let piece = Piece {
                    lo,
                    hi,
                    value: worth(lo, hi),
                };
                Ok(match self.board.offer(lo, piece) {
                    CoreOffered::Kept => Answer::Kept,
                    CoreOffered::Overlaps(_) => Answer::Overlaps,
                    CoreOffered::Full(_) => Answer::Full,
                })
            }
            Ask::Claim => match self.board.claim(7) {
                CoreClaimed::Pair(taken) => {
                    let (lo, mid, hi) = (taken.left.lo, taken.left.hi, taken.right.hi);
                    self.pairs.push(taken)?;
                    Ok(Answer::Pair { lo, mid, hi })
                }
                CoreClaimed::NoPair => Ok(Answer::NoPair),
                CoreClaimed::Full => Ok(Answer::Full),
            },
            Ask::Settle { back } => {
                let Some(taken) = self.last_but(back) else {
                    return Ok(Answer::Nothing);
                };
                assert!(rt; stands(&self.board, &taken), "its claim stands");
                let value = taken.left.value.wrapping_add(taken.right.value);
                self.board.settle(taken, value);
                Ok(Answer::Kept)
            }
            Ask::PutBack { back } => {
                let Some(taken) = self.last_but(back) else {
                    return Ok(Answer::Nothing);
                };
                assert!(rt; stands(&self.board, &taken), "its claim stands");
                self.board.put_back(taken);
                Ok(Answer::Kept)
            }
        }
    }
}

fn empty(rt: &HostRuntime, rows: u32, room: u32) -> Result<Asked, Fail> {
    Ok(Asked {
        board: Core::new(rt.alloc(), rows, room)?,
        pairs: Vec::new(rt.alloc()),
    })
}

#[test]
fn worked_rows(rt: HostRuntime) -> Result<(), Fail> {
    let cases = [
        (
            16,
            [
                (Ask::Offer { lo: 2, hi: 3 }, Answer::Kept),
                (Ask::Offer { lo: 0, hi: 1 }, Answer::Kept),
                (Ask::Offer { lo: 1, hi: 2 }, Answer::Kept),
                (
                    Ask::Claim,
                    Answer::Pair {
                        lo: 0,
                        mid: 1,
                        hi: 2,
                    },
                ),
                (Ask::Claim, Answer::NoPair),
                (Ask::Offer { lo: 1, hi: 2 }, Answer::Overlaps),
                (Ask::Settle { back: 0 }, Answer::Kept),
                (
                    Ask::Claim,
                    Answer::Pair {
                        lo: 0,
                        mid: 2,
                        hi: 3,
                    },
                ),
            ]
            .as_slice(),
        ),
        (
            1,
            [
                (Ask::Offer { lo: 0, hi: 1 }, Answer::Kept),
                (Ask::Offer { lo: 1, hi: 2 }, Answer::Full),
            ]
            .as_slice(),
        ),
        (
            3,
            [
                (Ask::Offer { lo: 0, hi: 1 }, Answer::Kept),
                (Ask::Offer { lo: 1, hi: 2 }, Answer::Kept),
                (Ask::Claim, Answer::Full),
            ]
            .as_slice(),
        ),
    ];
    for (room, steps) in cases {
        let mut asked = empty(&rt, 4, room)?;
        for (ask, answer) in steps {
            assert_eq!(rt;
                asked.ask(&rt, *ask)?,
                *answer,
                "{ask:?} on a board of room {room}"
            );
        }
    }
    Ok(())
}

// How many rows an interval has.
struct Size(u32);

impl Standing for Size {
    ghost stands = { λ lo hi size. lo + size.0 ≡ hi };
}

#[test]
fn lists_and_log_of_a_board(rt: HostRuntime) -> Result<(), Fail> {
    let mut asked = empty(&rt, 4, 16)?;
    let steps = [
        Ask::Offer { lo: 1, hi: 2 },
        Ask::Offer { lo: 0, hi: 1 },
        Ask::Offer { lo: 3, hi: 4 },
        Ask::Claim,
        Ask::PutBack { back: 0 },
        Ask::Claim,
    ];
    for ask in steps {
        let _ = asked.ask(&rt, ask)?;
    }
    let (lo, mid, hi) = (0, 1, 2);
    let pair = Reply::Pair { lo, mid, hi };
    let log = [
        (1, Event::Offer { lo: 1, hi: 2 }, Reply::Kept),
        (0, Event::Offer { lo: 0, hi: 1 }, Reply::Kept),
        (3, Event::Offer { lo: 3, hi: 4 }, Reply::Kept),
        (7, Event::Claim, pair),
        (7, Event::PutBack { lo, mid, hi }, Reply::Kept),
        (7, Event::Claim, pair),
    ]
    .map(|(who, event, reply)| Logged { who, event, reply });
    assert_eq!(rt; asked.board.log(), log.as_slice());
    let lists = asked.board.into_lists();
    let held: Vec<(u32, u32)> = lists.held.iter().map(|p| (p.lo, p.hi)).collect(rt.alloc())?;
    assert_eq!(rt; held.as_slice(), [(3, 4)].as_slice());
    assert_eq!(rt;
        lists.claimed.as_slice(),
        [Claim {
            who: 7,
            lo,
            mid,
            hi
        }]
        .as_slice()
    );
    assert_eq!(rt; lists.log.as_slice(), log.as_slice());
    every_board_is_sound::<Size>();
    Ok(())
}

const ROWS: u32 = 8;

/// Who has a row: a held piece or a claim, by a number of its own.
#[derive(Clone, Copy, PartialEq, Eq)]
struct Mark {
    number: u32,
    is_claimed: bool,
}

/// The plain list of rows. It keeps no list of pieces: each is read off the marks.
#[derive(Drop)]
struct Marked {
    rows: Vec<Option<Mark>>,
    pairs: Vec<(u32, u32, u32)>,
    free: u32,
    next: u32,
}

impl Marked {
    fn mark(&mut self, lo: u32, hi: u32, is_claimed: bool) {
        self.next = self.next.wrapping_add(1);
        let number = self.next;
        for row in lo..hi {
            if let Some(mark) = self.rows.get_mut(row as usize) {
                *mark = Some(Mark { number, is_claimed });
            }
        }
    }

    fn at(&self, row: u32) -> Option<Mark> {
        self.rows.get(row as usize).copied().flatten()
    }

    fn held_at(&self, row: u32) -> Option<u32> {
        match self.at(row) {
            Some(mark) if !mark.is_claimed => Some(mark.number),
            _ => None,
        }
    }

    fn start(&self, at: u32) -> u32 {
        for row in 0..at {
            if self.held_at(row) == self.held_at(at) {
                return row;
            }
        }
        at
    }

    fn end(&self, at: u32) -> u32 {
        for row in at..ROWS {
            if self.held_at(row) != self.held_at(at) {
                return row;
            }
        }
        ROWS
    }

    // The lowest row where one held piece begins as another ends.
    fn joint(&self) -> Option<u32> {
        for row in 1..ROWS {
            let (before, behind) = (self.held_at(row - 1), self.held_at(row));
            if before.is_some() && behind.is_some() && before != behind {
                return Some(row);
            }
        }
        None
    }

    fn last_but(&mut self, back: usize) -> Option<(u32, u32, u32)> {
        if back < self.pairs.len() {
            let at = self.pairs.len() - 1 - back;
            Some(self.pairs.remove(at))
        } else {
            None
        }
    }

    fn ask(&mut self, ask: Ask) -> Result<Answer, Fail> {
        match ask {
            Ask::Offer { lo, hi } => {
                for row in lo..hi {
                    if self.at(row).is_some() {
                        return Ok(Answer::Overlaps);
                    }
                }
                if self.free == 0 {
                    return Ok(Answer::Full);
                }
                self.free -= 1;
                self.mark(lo, hi, false);
                Ok(Answer::Kept)
            }
            Ask::Claim => {
                let Some(mid) = self.joint() else {
                    return Ok(Answer::NoPair);
                };
                if self.free < 2 {
                    return Ok(Answer::Full);
                }
                self.free -= 2;
                let (lo, hi) = (self.start(mid.saturating_sub(1)), self.end(mid));
                self.mark(lo, hi, true);
                self.pairs.push((lo, mid, hi))?;
                Ok(Answer::Pair { lo, mid, hi })
            }
            Ask::Settle { back } => {
                let Some((lo, _, hi)) = self.last_but(back) else {
                    return Ok(Answer::Nothing);
                };
                self.mark(lo, hi, false);
                Ok(Answer::Kept)
            }
            Ask::PutBack { back } => {
                let Some((lo, mid, hi)) = self.last_but(back) else {
                    return Ok(Answer::Nothing);
                };
                self.mark(lo, mid, false);
                self.mark(mid, hi, false);
                Ok(Answer::Kept)
            }
        }
    }

    // The held pieces, each with the value of its rows.
    fn held(&self, alloc: Global) -> Result<Vec<(u32, u32, u32)>, Fail> {
        let mut held = Vec::new(alloc);
        for row in 0..ROWS {
            if self.held_at(row).is_some() && self.start(row) == row {
                let end = self.end(row);
                held.push((row, end, worth(row, end)))?;
            }
        }
        Ok(held)
    }
}

fn drawn(seed: u32) -> (u32, Ask) {
    let seed = seed.wrapping_mul(1664525).wrapping_add(1013904223);
    let draw = seed >> 16;
    let lo = draw / 8 % ROWS;
    let hi = (lo + 1 + draw / 64 % 3).min(ROWS);
    let back = (draw / 8 % 3) as usize;
    let ask = match draw % 8 {
        0..=3 => Ask::Offer { lo, hi },
        4 | 5 => Ask::Claim,
        6 => Ask::Settle { back },
        _ => Ask::PutBack { back },
    };
    (seed, ask)
}

#[test]
fn random_calls_beside_marked_rows(rt: HostRuntime) -> Result<(), Fail> {
    for room in 0..24 {
        let mut seed = room;
        let mut asked = empty(&rt, ROWS, room)?;
        let mut marked = Marked {
            rows: vec![in rt.alloc(); None; ROWS as usize]?,
            pairs: Vec::new(rt.alloc()),
            free: room,
            next: 0,
        };
        for turn in 0..40 {
            let (next, ask) = drawn(seed);
            seed = next;
            assert_eq!(rt;
                asked.ask(&rt, ask)?,
                marked.ask(ask)?,
                "turn {turn} of room {room}: {ask:?}"
            );
            let held: Vec<(u32, u32, u32)> = asked
                .board
                .held
                .iter()
                .map(|p| (p.lo, p.hi, p.value))
                .collect(rt.alloc())?;
            assert_eq!(rt;
                held,
                marked.held(rt.alloc())?,
                "held at turn {turn} of room {room}"
            );
            let claims: Vec<(u32, u32, u32)> = asked
                .board
                .claims
                .iter()
                .map(|c| (c.lo, c.mid, c.hi))
                .collect(rt.alloc())?;
            let mut pairs = marked.pairs.clone()?;
            pairs.sort()?;
            assert_eq!(rt; claims, pairs, "claimed at turn {turn} of room {room}");
        }
    }
    Ok(())
}
