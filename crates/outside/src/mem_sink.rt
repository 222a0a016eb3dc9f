// A sink in memory with a fixed room, which reveals its bytes.
ghost use Rattle.std.specs.Prelude.{◌≡◌, [], IfOk};
ghost use Rattle.outside.specs.Sink.{IsPut, Puts, taken_of};

use crate::{PutFailed, Sink};
use sig_base::NoMemory;
use std::alloc::Global;
use std::marker::Model;

/// Keeps the bytes that it takes. A put fails, and takes nothing, where its piece passes the room
/// or its number was given to `fail_put`.
#[derive(Drop)]
pub struct MemSink {
    bytes: Vec<u8>,
    room: usize,
    failing: u64,
    calls: u64,
    faults: u64,
}

impl Model for MemSink {
    ghost use Rattle.std.specs.Prelude.{◌≤◌, vec_len, vec_capacity};
    ghost use Rattle.outside.specs.Sink.{SinkState};

    ghost Value = { SinkState };

    ghost view = { λ s. record {
      bytes = s.bytes.items;
      room = s.room;
      puts = s.calls;
      failing = s.failing;
      faults = s.faults;
    } };

    ghost invariant = { λ s. (vec_len s.bytes ≤ s.room) × (s.room ≤ vec_capacity s.bytes) };
}

impl MemSink {
    /// A sink for at most so many bytes. Its memory is all taken here.
    pub fn new(alloc: Global, room: usize) -> Result<Self, NoMemory>
        ensures { IfOk result (λ s. s ≡ record {
          bytes = [];
          room = room;
          puts = 0;
          failing = 0;
          faults = 0;
        }) }
    {
        let bytes = Vec::with_capacity(alloc, room)?;
        Ok(MemSink {
            bytes,
            room,
            failing: 0,
            calls: 0,
            faults: 0,
        })
    }

    /// After it the put of this number fails, counted from 1, and no other that a former call named.
    pub fn fail_put(&mut self, number: u64)
        ensures { self.new ≡ record self.old { failing = number } }
    {
        self.failing = number;
    }

    /// The bytes that were taken.
    pub fn bytes(&self) -> &[u8]
        ensures { result.now ≡ self.now.bytes }
    {
        &self.bytes
    }
}

impl Sink for MemSink {
    ghost taken = { taken_of };

    fn put(&mut self, bytes: &[u8]) -> Result<(), PutFailed>
        ensures puts { Puts (taken_of self.old) (taken_of self.new) bytes.now result }

        // The puts that fail are those that were told to, and those that pass the room.
        ensures exact { IsPut self.old self.new bytes.now result }
    {
        self.calls = self.calls.saturating_add(1);
        if self.calls == self.failing || bytes.len() > self.room - self.bytes.len() {
            self.faults = self.faults.saturating_add(1);
            return Err(PutFailed);
        }
        match self.bytes.extend_from_slice(bytes) {
            Ok(()) => Ok(()),
            Err(_) => unreachable!(),
        }
    }
}
