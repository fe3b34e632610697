// A sink in memory that never fails.

ghost use Rattle.std.specs.Prelude.{◌≡◌, ◌<◌, ◌≤◌, [], min, length, take, true, false, Ok, IfOk, IsOk};
ghost use Rattle.std.specs.Option.{option_copied};

use crate::fault::Failed;
use crate::sink::Sink;
use script_tree::memory::OutOfMemory;
use std::alloc::Global;
use std::marker::Model;

/// A sink that never fails. It takes a bounded number of bytes a call and keeps in memory those that first came, up to
/// its room. It tells what it holds while no more came.
#[derive(Debug, Drop)]
pub struct SureSink {
    kept: Vec<u8>,
    is_over: bool,
    room: usize,
    most: usize,
    is_clean: bool,
}

impl Model for SureSink {
    ghost use Rattle.std.specs.Prelude.{◌<◌, ◌≤◌, vec_len, vec_capacity};
    ghost use Rattle.fs_io.specs.Memory.{SureStore};

    ghost Value = { SureStore };

    ghost view = { λ s. record {
      kept = s.kept.items;
      over = s.is_over;
      room = s.room;
      most = s.most;
      clean = s.is_clean;
    } };

    ghost invariant = { λ s. (vec_len s.kept ≤ s.room) × (s.room ≤ vec_capacity s.kept) × (0 < s.most) };
}

impl SureSink {
    ghost use Rattle.fs_io.specs.Memory.{told};

    /// An empty sink that keeps `room` bytes and takes at most `most` bytes a call. Takes memory for all its room.
    pub fn new(alloc: Global, room: usize, most: usize) -> Result<SureSink, OutOfMemory>
        requires { 0 < most }
        ensures { IfOk result (λ sink. sink ≡ record { kept = []; over = false; room = room; most = most; clean = true }) }
    {
        Ok(SureSink {
            kept: Vec::with_capacity(alloc, room)?,
            is_over: false,
            room,
            most,
            is_clean: true,
        })
    }

    /// The bytes that it took, while no more came than it keeps.
    pub fn held(&self) -> Option<&[u8]>
        ensures { option_copied result ≡ told self.now }
    {
        if self.is_over {
            None
        } else {
            Some(self.kept.as_slice())
        }
    }

    /// The first bytes that it took, as many as it keeps.
    pub fn kept(&self) -> &[u8]
        ensures { result.now ≡ self.now.kept }
    {
        self.kept.as_slice()
    }

    /// Whether it was flushed since the last write.
    pub fn is_clean(&self) -> bool
        ensures { result ≡ self.now.clean }
    {
        self.is_clean
    }
}

impl Sink for SureSink {
    ghost use Rattle.fs_io.specs.Memory.{told, after_sure_write, after_sure_flush};

    ghost state = { λ s. record { held = told s; faults = 0; clean = s.clean } };

    /// Takes no memory.
    fn write(&mut self, bytes: &[u8]) -> Result<usize, Failed>
        ensures some { IfOk result (λ n. 0 < length bytes.now → 0 < n) }

        ensures count { result ≡ Ok (min self.old.most (length bytes.now)) }
        ensures after { IfOk result (λ n. self.new ≡ after_sure_write self.old (take n bytes.now)) }
    {
        self.is_clean = false;
        let n = self.most.min(bytes.len());
        let kept = n.min(self.room - self.kept.len());
        // The room was taken at the start.
        self.kept.extend_from_slice(&bytes[..kept]).unwrap();
        if kept < n {
            self.is_over = true;
        }
        Ok(n)
    }

    /// Takes no memory.
    fn flush(&mut self) -> Result<(), Failed>
        ensures done { IsOk result }
        ensures after { self.new ≡ after_sure_flush self.old }
    {
        self.is_clean = true;
        Ok(())
    }
}
