//! A source and a sink in memory that never fail.
ghost use Rattle.std.specs.Prelude.{ℕ, ◌≡◌, ◌+◌, List, Some, None, length, min};
ghost use Rattle.std.specs.Io.KnownBytes.{ReadConsumes};
ghost use Rattle.gta_port.specs.Port.{last_count};

use crate::ports::{Failed, Sink, Source};
use crate::unread::Unread;
use std::marker::Model;

/// A source over bytes in memory, which tells them and has no faults. It is seen as the bytes left.
#[derive(Drop)]
pub struct SteadySource {
    unread: Unread,
}

impl Model for SteadySource {
    ghost Value = { List ℕ };

    ghost view = { λ s. s.unread };
}

impl SteadySource {
    /// A source with these bytes left. Takes no memory.
    pub fn new(bytes: Vec<u8>) -> SteadySource
        ensures { result ≡ bytes.items }
    {
        SteadySource {
            unread: Unread::new(bytes),
        }
    }
}

impl Source for SteadySource {
    ghost left = { λ s. Some s };

    ghost faults = { λ _. 0 };

    /// Gives as many bytes as fit and are left.
    fn read(&mut self, buf: &mut [u8]) -> Result<usize, Failed>
        ensures bytes { ReadConsumes (Some self.old) (Some self.new) result buf.new }
        ensures given { result ≡ Ok (min (length buf.new) (length self.old)) }
    {
        Ok(self.unread.give(buf, usize::MAX))
    }
}

/// A sink that keeps only the number of its bytes. It doesn't tell them and has no faults.
/// It is seen as that number.
#[derive(Drop)]
pub struct SteadySink {
    taken: u64,
}

impl Model for SteadySink {
    ghost Value = { ℕ };

    ghost view = { λ s. s.taken };
}

impl SteadySink {
    /// A sink that took nothing so far. Takes no memory.
    pub fn new() -> SteadySink
        ensures { result ≡ 0 }
    {
        SteadySink { taken: 0 }
    }

    /// How many bytes went out, up to the last value of a `u64`.
    pub fn taken(&self) -> u64
        ensures { result ≡ self.now }
    {
        self.taken
    }
}

impl Sink for SteadySink {
    ghost gone = { λ _. None };

    ghost faults = { λ _. 0 };

    /// Takes all the bytes.
    fn write(&mut self, bytes: &[u8]) -> Result<usize, Failed>
        ensures taken { result ≡ Ok (length bytes.now) }
        ensures number { self.new ≡ min (self.old + length bytes.now) last_count }
    {
        self.taken = self.taken.saturating_add(bytes.len() as u64);
        Ok(bytes.len())
    }
}
