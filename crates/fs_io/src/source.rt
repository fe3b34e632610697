// Where bytes come from.

ghost use Rattle.std.specs.Prelude.{◌≡◌, ℕ, ◌+◌, ◌<◌, ◌≤◌, length, take, IfOk, OnErr};
ghost use Rattle.std.specs.Io.KnownBytes.{Consumes, IsAtEnd};
ghost use Rattle.fs_io.specs.States.{SourceState};
ghost use Rattle.fs_io.specs.Count.{Rose};

use crate::fault::Failed;

/// A source of bytes, which counts its faults.
pub trait Source {
    // The bytes that it will still give, and how many faults there were.
    ghost state: { Self → SourceState };

    // How many reads there were, where it counts them.
    ghost reads: { Self → ℕ } = { λ _. 0 };

    /// Reads into the front of the buffer, at most as many bytes as it has places, and answers how many. 0 for a buffer that
    /// isn't empty is the end of input. Takes these bytes from those that are left. Fails only where the count of faults rose.
    fn read(&mut self, buf: &mut [u8]) -> Result<usize, Failed>
        ensures within { IfOk result (λ n. n ≤ length buf.new) }
        ensures bytes { IfOk result (λ n. Consumes (state self.old).left (state self.new).left (take n buf.new)) }
        ensures end { IfOk result (λ n. n ≡ 0 → 0 < length buf.new → IsAtEnd (state self.old).left) }
        ensures failed { OnErr result (Rose (state self.old).faults (state self.new).faults) }
        ensures never_falls { (state self.old).faults ≤ (state self.new).faults }
        ensures once { reads self.new ≤ reads self.old + 1 };
}
