//! A source and a sink in memory that count their calls and fail at those that are listed.
//! How they are seen is in specs/Memory.antt.
ghost use Rattle.std.specs.Prelude.{◌≡◌, ◌<◌, ◌≤◌, ◌-◌, ◌++◌, ◌↔◌, ◌⊎◌, Some, []};
ghost use Rattle.std.specs.Prelude.{length, take, drop, min};
ghost use Rattle.std.specs.Prelude.{IfOk, OnOk, OnErr, IsErr, vec_capacity};
ghost use Rattle.std.specs.Io.KnownBytes.{ReadConsumes};
ghost use Rattle.gta_port.specs.Memory.{FailsNext, MemoryReads, MemoryWrites};
ghost use Rattle.gta_port.specs.Memory.{after_call, after_fault, no_calls};

use crate::calls::CallCounter;
use crate::ports::{Failed, Sink, Source};
use crate::unread::Unread;
use std::alloc::{AllocError, Global};
use std::marker::Model;

/// A source over bytes in memory, which tells them.
#[derive(Drop)]
pub struct MemorySource {
    unread: Unread,
    calls: CallCounter,
}

impl Model for MemorySource {
    ghost Value = { MemoryReads };

    ghost view = { λ s. record { left = s.unread; calls = s.calls } };
}

impl MemorySource {
    /// A source with these bytes left, which gives at most `chunk` of them in a call and fails at
    /// the calls whose numbers, from 1, are in `fails`. Takes no memory.
    pub fn new(bytes: Vec<u8>, chunk: usize, fails: Vec<u64>) -> MemorySource
        requires { 0 < chunk }
        ensures { result ≡ record { left = bytes.items; calls = no_calls chunk fails.items } }
    {
        MemorySource {
            unread: Unread::new(bytes),
            calls: CallCounter::new(chunk, fails),
        }
    }

    /// How many calls failed.
    pub fn faults(&self) -> u64
        ensures { result ≡ self.now.calls.faults }
    {
        self.calls.faults()
    }
}

impl Source for MemorySource {
    ghost left = { λ s. Some s.left };

    ghost faults = { λ s. s.calls.faults };

    /// Fails exactly at a listed call. Otherwise gives as many bytes as fit, are left, and may go
    /// over in a call.
    fn read(&mut self, buf: &mut [u8]) -> Result<usize, Failed>
        ensures bytes { ReadConsumes (Some self.old.left) (Some self.new.left) result buf.new }
        ensures counts { self.old.calls.faults ≤ self.new.calls.faults }
        ensures listed { IsErr result ↔ FailsNext self.old.calls }
        ensures number { IfOk result
            (λ n. n ≡ min (min (length buf.new) self.old.calls.chunk) (length self.old.left)) }
        ensures given { IfOk result (λ n. self.new
            ≡ record { left = drop n self.old.left; calls = after_call self.old.calls }) }
        ensures unread { OnErr result
            (self.new ≡ record self.old { calls = after_fault self.old.calls }) }
    {
        self.calls.begin()?;
        Ok(self.unread.give(buf, self.calls.chunk()))
    }
}

/// A sink that keeps its bytes in memory, and tells them.
#[derive(Drop)]
pub struct MemorySink {
    taken: Vec<u8>,
    room: usize,
    calls: CallCounter,
}

impl Model for MemorySink {
    ghost Value = { MemoryWrites };

    ghost view = { λ s. record { gone = s.taken.items; room = s.room; calls = s.calls } };

    ghost invariant = { λ s. (length s.taken.items ≤ s.room) × (s.room ≤ vec_capacity s.taken) };
}

impl MemorySink {
    /// An empty sink with this room, which takes at most `chunk` bytes in a call and fails at the
    /// calls whose numbers, from 1, are in `fails`, and where its room is used up.
    /// It takes memory for its room here and none later.
    pub fn new(
        alloc: Global,
        room: usize,
        chunk: usize,
        fails: Vec<u64>,
    ) -> Result<MemorySink, AllocError>
        requires { 0 < chunk }
        ensures { IfOk result
            (λ s. s ≡ record { gone = []; room = room; calls = no_calls chunk fails.items }) }
    {
        Ok(MemorySink {
            taken: Vec::with_capacity(alloc, room)?,
            room,
            calls: CallCounter::new(chunk, fails),
        })
    }

    /// The bytes taken so far.
    pub fn bytes(&self) -> &[u8]
        ensures { result.now ≡ self.now.gone }
    {
        self.taken.as_slice()
    }

    /// How many calls failed.
    pub fn faults(&self) -> u64
        ensures { result ≡ self.now.calls.faults }
    {
        self.calls.faults()
    }
}

impl Sink for MemorySink {
    ghost gone = { λ s. Some s.gone };

    ghost faults = { λ s. s.calls.faults };

    /// Fails exactly at a listed call and where the room is used up. Otherwise takes as many bytes
    /// as there are, have room, and may go over in a call.
    fn write(&mut self, bytes: &[u8]) -> Result<usize, Failed>
        ensures takes { IfOk result (λ n. 0 < length bytes.now → 0 < n) }
        ensures counts { self.old.calls.faults ≤ self.new.calls.faults }
        ensures refused { IsErr result
            ↔ (FailsNext self.old.calls ⊎ (self.old.room ≤ length self.old.gone)) }
        ensures number { IfOk result
            (λ n. n ≡ min (min (length bytes.now) self.old.calls.chunk)
            (self.old.room - length self.old.gone)) }
        ensures taken { IfOk result (λ n. self.new ≡ record self.old
            { gone = self.old.gone ++ take n bytes.now; calls = after_call self.old.calls }) }
        ensures untaken { OnErr result
            (self.new ≡ record self.old { calls = after_fault self.old.calls }) }
    {
        self.calls.begin()?;
        let room_left = self.room - self.taken.len();
        if room_left == 0 {
            return Err(self.calls.fault());
        }
        let n = bytes.len().min(self.calls.chunk()).min(room_left);
        self.taken.extend_from_slice(&bytes[..n]).unwrap();
        Ok(n)
    }
}
