// A sink in memory, some of whose calls fail.

ghost use Rattle.std.specs.Prelude.{◌≡◌, ◌+◌, ◌-◌, ◌<◌, ◌≤◌, ◌↔◌, ◌⊎◌, [], min, length, true, Some, IfOk, IsErr};

use crate::copy::is_listed;
use crate::fault::Failed;
use crate::sink::Sink;
use script_tree::items::Items;
use script_tree::memory::OutOfMemory;
use std::alloc::Global;
use std::marker::Model;

/// A sink that holds bytes in memory, up to its room. It takes a bounded number of bytes a call, and fails in the calls
/// whose numbers, counted from 1 over writes and flushes, are listed, and where a write of at least one byte
/// comes to full room. It tells what it holds.
#[derive(Debug, Drop)]
pub struct MemSink {
    held: Vec<u8>,
    room: usize,
    most: usize,
    failing: Items<u64>,
    calls: u64,
    faults: u64,
    is_clean: bool,
}

impl Model for MemSink {
    ghost use Rattle.std.specs.Prelude.{◌<◌, ◌≤◌, vec_len, vec_capacity};
    ghost use Rattle.fs_io.specs.Memory.{Store};

    ghost Value = { Store };

    ghost view = { λ s. record {
      held = s.held.items;
      room = s.room;
      most = s.most;
      failing = s.failing;
      calls = s.calls;
      faults = s.faults;
      clean = s.is_clean;
    } };

    ghost invariant = { λ s. (vec_len s.held ≤ s.room) × (s.room ≤ vec_capacity s.held) × (0 < s.most) };
}

impl MemSink {
    /// An empty sink for `room` bytes, which takes at most `most` bytes a call and fails in the listed calls.
    /// Takes memory for all its room.
    pub fn new(
        alloc: Global,
        room: usize,
        most: usize,
        failing: &[u64],
    ) -> Result<MemSink, OutOfMemory>
        requires { 0 < most }
        ensures { IfOk result (λ sink. sink ≡ record {
          held = [];
          room = room;
          most = most;
          failing = failing.now;
          calls = 0;
          faults = 0;
          clean = true;
        }) }
    {
        Ok(MemSink {
            held: Vec::with_capacity(alloc, room)?,
            room,
            most,
            failing: Items::from_slice(alloc, failing)?,
            calls: 0,
            faults: 0,
            is_clean: true,
        })
    }

    /// The bytes that it took.
    pub fn held(&self) -> &[u8]
        ensures { result.now ≡ self.now.held }
    {
        self.held.as_slice()
    }

    /// How many faults there were.
    pub fn faults(&self) -> u64
        ensures { result ≡ self.now.faults }
    {
        self.faults
    }

    /// Whether it was flushed since the last write.
    pub fn is_clean(&self) -> bool
        ensures { result ≡ self.now.clean }
    {
        self.is_clean
    }
}

impl Sink for MemSink {
    ghost use Rattle.fs_io.specs.Memory.{Fails, IsFull, after_write, after_flush};

    ghost state = { λ s. record { held = Some s.held; faults = s.faults; clean = s.clean } };

    /// Takes no memory.
    fn write(&mut self, bytes: &[u8]) -> Result<usize, Failed>
        ensures some { IfOk result (λ n. 0 < length bytes.now → 0 < n) }
        ensures never_falls { self.old.faults ≤ self.new.faults }

        ensures fails { IsErr result ↔ (Fails self.old.failing self.old.calls ⊎ IsFull self.old bytes.now) }
        ensures count { IfOk result (λ n. n ≡ min self.old.most (min (length bytes.now) (self.old.room - length self.old.held))) }
        ensures after { self.new ≡ after_write self.old bytes.now result }
    {
        self.is_clean = false;
        self.calls = self.calls.saturating_add(1);
        let room = self.room - self.held.len();
        if is_listed(self.failing.as_slice(), self.calls) || (room == 0 && !bytes.is_empty()) {
            self.faults = self.faults.saturating_add(1);
            return Err(Failed);
        }
        let n = self.most.min(bytes.len().min(room));
        // The room was taken at the start.
        self.held.extend_from_slice(&bytes[..n]).unwrap();
        Ok(n)
    }

    /// Takes no memory.
    fn flush(&mut self) -> Result<(), Failed>
        ensures never_falls { self.old.faults ≤ self.new.faults }

        ensures fails { IsErr result ↔ Fails self.old.failing self.old.calls }
        ensures after { self.new ≡ after_flush self.old result }
    {
        self.calls = self.calls.saturating_add(1);
        if is_listed(self.failing.as_slice(), self.calls) {
            self.faults = self.faults.saturating_add(1);
            return Err(Failed);
        }
        self.is_clean = true;
        Ok(())
    }
}
