//! Bytes in memory that are given from the front.
ghost use Rattle.std.specs.Prelude.{ℕ, ◌≡◌, ◌≤◌, List, length, take, drop, min};

use std::marker::Model;

#[derive(Drop)]
pub struct Unread {
    bytes: Vec<u8>,
    at: usize,
}

impl Model for Unread {
    ghost Value = { List ℕ };

    ghost view = { λ u. drop u.at u.bytes.items };

    ghost invariant = { λ u. u.at ≤ length u.bytes.items };
}

impl Unread {
    pub fn new(bytes: Vec<u8>) -> Unread
        ensures { result ≡ bytes.items }
    {
        Unread { bytes, at: 0 }
    }

    /// Moves bytes to the front of `buf`, as many as fit and are there, and at most so many.
    pub fn give(&mut self, buf: &mut [u8], most: usize) -> usize
        ensures number { result ≡ min (min (length buf.old) most) (length self.old) }
        ensures given { take result buf.new ≡ take result self.old }
        ensures left { self.new ≡ drop result self.old }
    {
        let rest = &self.bytes[self.at..];
        let n = buf.len().min(most).min(rest.len());
        buf[..n].copy_from_slice(&rest[..n]);
        self.at += n;
        n
    }
}
