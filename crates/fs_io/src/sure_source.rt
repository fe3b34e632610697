// A source in memory that never fails.

ghost use Rattle.std.specs.Prelude.{◌≡◌, ℕ, ◌<◌, ◌≤◌, [], min, length, Some, Ok, IfOk};
ghost use Rattle.std.specs.Io.KnownBytes.{IsAtEnd};

use crate::copy::copy_front;
use crate::fault::Failed;
use crate::source::Source;
use script_tree::items::Text;
use script_tree::memory::OutOfMemory;
use std::alloc::Global;
use std::marker::Model;

/// A source over bytes in memory that never fails. It gives a bounded number of bytes a call, and tells what is left.
#[derive(Debug, Drop)]
pub struct SureSource {
    bytes: Text,
    at: usize,
    most: usize,
}

impl Model for SureSource {
    ghost use Rattle.std.specs.Prelude.{◌<◌, ◌≤◌, length, drop};
    ghost use Rattle.fs_io.specs.Memory.{SureSupply};

    ghost Value = { SureSupply };

    ghost view = { λ s. record { left = drop s.at s.bytes; most = s.most } };

    ghost invariant = { λ s. (s.at ≤ length s.bytes) × (0 < s.most) };
}

impl SureSource {
    /// A source over a copy of the bytes, which gives at most `most` bytes a call. Takes memory.
    pub fn new(alloc: Global, bytes: &[u8], most: usize) -> Result<SureSource, OutOfMemory>
        requires { 0 < most }
        ensures { IfOk result (λ source. source ≡ record { left = bytes.now; most = most }) }
    {
        Ok(SureSource {
            bytes: Text::from_slice(alloc, bytes)?,
            at: 0,
            most,
        })
    }

    /// The bytes that it will still give.
    pub fn left(&self) -> &[u8]
        ensures { result.now ≡ self.now.left }
    {
        &self.bytes.as_slice()[self.at..]
    }
}

impl Source for SureSource {
    ghost use Rattle.fs_io.specs.Memory.{after_sure_read, filled};

    ghost state = { λ s. record { left = Some s.left; faults = 0 } };

    /// Takes no memory.
    fn read(&mut self, buf: &mut [u8]) -> Result<usize, Failed>
        ensures end { IfOk result (λ n. n ≡ 0 → 0 < length buf.new → IsAtEnd (Some self.old.left)) }

        ensures count { result ≡ Ok (min self.old.most (min (length self.old.left) (length buf.old))) }
        ensures filled { buf.new ≡ filled self.old.left result buf.old }
        ensures after { IfOk result (λ n. self.new ≡ after_sure_read self.old n) }
    {
        let n = copy_front(&self.bytes.as_slice()[self.at..], self.most, buf);
        self.at += n;
        Ok(n)
    }
}
