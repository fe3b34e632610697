// A source in memory, some of whose calls fail.

ghost use Rattle.std.specs.Prelude.{◌≡◌, ℕ, ◌<◌, ◌≤◌, ◌↔◌, [], min, length, Some, IfOk, IsErr};
ghost use Rattle.std.specs.Io.KnownBytes.{IsAtEnd};

use crate::copy::{copy_front, is_listed};
use crate::fault::Failed;
use crate::source::Source;
use script_tree::items::{Items, Text};
use script_tree::memory::OutOfMemory;
use std::alloc::Global;
use std::marker::Model;

/// A source over bytes in memory. It gives a bounded number of bytes a call, and fails in the calls
/// whose numbers, counted from 1, are listed. It tells what is left.
#[derive(Debug, Drop)]
pub struct MemSource {
    bytes: Text,
    at: usize,
    most: usize,
    failing: Items<u64>,
    calls: u64,
    faults: u64,
}

impl Model for MemSource {
    ghost use Rattle.std.specs.Prelude.{◌<◌, ◌≤◌, length, drop};
    ghost use Rattle.fs_io.specs.Memory.{Supply};

    ghost Value = { Supply };

    ghost view = { λ s. record {
      left = drop s.at s.bytes;
      most = s.most;
      failing = s.failing;
      calls = s.calls;
      faults = s.faults;
    } };

    ghost invariant = { λ s. (s.at ≤ length s.bytes) × (0 < s.most) };
}

impl MemSource {
    /// A source over a copy of the bytes, which gives at most `most` bytes a call and fails in the listed calls.
    /// Takes memory.
    pub fn new(
        alloc: Global,
        bytes: &[u8],
        most: usize,
        failing: &[u64],
    ) -> Result<MemSource, OutOfMemory>
        requires { 0 < most }
        ensures { IfOk result (λ source. source ≡ record {
          left = bytes.now;
          most = most;
          failing = failing.now;
          calls = 0;
          faults = 0;
        }) }
    {
        Ok(MemSource {
            bytes: Text::from_slice(alloc, bytes)?,
            at: 0,
            most,
            failing: Items::from_slice(alloc, failing)?,
            calls: 0,
            faults: 0,
        })
    }

    /// The bytes that it will still give.
    pub fn left(&self) -> &[u8]
        ensures { result.now ≡ self.now.left }
    {
        &self.bytes.as_slice()[self.at..]
    }

    /// How many faults there were.
    pub fn faults(&self) -> u64
        ensures { result ≡ self.now.faults }
    {
        self.faults
    }

    /// How many calls there were.
    pub fn calls(&self) -> u64
        ensures { result ≡ self.now.calls }
    {
        self.calls
    }
}

impl Source for MemSource {
    ghost use Rattle.fs_io.specs.Memory.{Fails, after_read, filled};

    ghost state = { λ s. record { left = Some s.left; faults = s.faults } };

    ghost reads = { λ s. s.calls };

    /// Takes no memory.
    fn read(&mut self, buf: &mut [u8]) -> Result<usize, Failed>
        ensures end { IfOk result (λ n. n ≡ 0 → 0 < length buf.new → IsAtEnd (Some self.old.left)) }
        ensures never_falls { self.old.faults ≤ self.new.faults }

        ensures fails { IsErr result ↔ Fails self.old.failing self.old.calls }
        ensures count { IfOk result (λ n. n ≡ min self.old.most (min (length self.old.left) (length buf.old))) }
        ensures filled { buf.new ≡ filled self.old.left result buf.old }
        ensures after { self.new ≡ after_read self.old result }
    {
        self.calls = self.calls.saturating_add(1);
        if is_listed(self.failing.as_slice(), self.calls) {
            self.faults = self.faults.saturating_add(1);
            return Err(Failed);
        }
        let n = copy_front(&self.bytes.as_slice()[self.at..], self.most, buf);
        self.at += n;
        Ok(n)
    }
}
