//! The count of calls and faults of an object in memory, with the calls that are to fail.
ghost use Rattle.std.specs.Prelude.{◌≡◌, ◌<◌, ◌≤◌, ◌↔◌, IsErr, OnOk, OnErr};
ghost use Rattle.gta_port.specs.Memory.{Calls, FailsNext, no_calls};
ghost use Rattle.gta_port.specs.Memory.{after_call, after_fault, next_count};

use crate::ports::Failed;
use std::marker::Model;

#[derive(Drop)]
pub struct CallCounter {
    chunk: usize,
    fails: Vec<u64>,
    made: u64,
    faults: u64,
}

impl Model for CallCounter {
    ghost Value = { Calls };

    ghost view = { λ c. record {
      chunk = c.chunk;
      fails = c.fails.items;
      made = c.made;
      faults = c.faults;
    } };

    ghost invariant = { λ c. 0 < c.chunk };
}

impl CallCounter {
    pub fn new(chunk: usize, fails: Vec<u64>) -> CallCounter
        requires { 0 < chunk }
        ensures { result ≡ no_calls chunk fails.items }
    {
        CallCounter {
            chunk,
            fails,
            made: 0,
            faults: 0,
        }
    }

    pub fn chunk(&self) -> usize
        ensures value { result ≡ self.now.chunk }
        ensures some { 0 < result }
    {
        self.chunk
    }

    /// How many calls failed.
    pub fn faults(&self) -> u64
        ensures { result ≡ self.now.faults }
    {
        self.faults
    }

    /// Counts a call, which fails where it is listed.
    pub fn begin(&mut self) -> Result<(), Failed>
        ensures counted { OnOk result (self.new ≡ after_call self.old) }
        ensures listed { IsErr result ↔ FailsNext self.old }
        ensures failed { OnErr result (self.new ≡ after_fault self.old) }
        ensures counts { self.old.faults ≤ self.new.faults }
    {
        self.made = self.made.saturating_add(1);
        if self.fails.contains(&self.made) {
            return Err(self.fault());
        }
        Ok(())
    }

    /// Counts a fault of a call that was begun.
    pub fn fault(&mut self) -> Failed
        ensures counted { self.new ≡ record self.old { faults = next_count self.old.faults } }
        ensures counts { self.old.faults ≤ self.new.faults }
    {
        self.faults = self.faults.saturating_add(1);
        Failed
    }
}
