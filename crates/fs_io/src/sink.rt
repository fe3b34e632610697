// Where bytes go to.

ghost use Rattle.std.specs.Prelude.{◌≡◌, ◌<◌, ◌≤◌, IsTrue, IsFalse, length, take, IfOk, OnOk, OnErr};
ghost use Rattle.fs_io.specs.States.{SinkState};
ghost use Rattle.fs_io.specs.Bytes.{Adds, Stays};
ghost use Rattle.fs_io.specs.Count.{Rose};

use crate::fault::Failed;

/// A sink of bytes, which counts its faults.
pub trait Sink {
    // The bytes that it took, how many faults there were, and whether it was flushed since the last write.
    ghost state: { Self → SinkState };

    /// Takes the first bytes of a piece, at least one where there is one, and answers how many.
    /// Fails only where the count of faults rose; nothing was taken then.
    fn write(&mut self, bytes: &[u8]) -> Result<usize, Failed>
        ensures within { IfOk result (λ n. n ≤ length bytes.now) }
        ensures some { IfOk result (λ n. 0 < length bytes.now → 0 < n) }
        ensures bytes { IfOk result (λ n. Adds (state self.old).held (state self.new).held (take n bytes.now)) }
        ensures kept { OnErr result (Stays (state self.old).held (state self.new).held) }
        ensures unclean { IsFalse (state self.new).clean }
        ensures failed { OnErr result (Rose (state self.old).faults (state self.new).faults) }
        ensures never_falls { (state self.old).faults ≤ (state self.new).faults };

    /// Passes on what was taken. Fails only where the count of faults rose. What was taken stays.
    fn flush(&mut self) -> Result<(), Failed>
        ensures clean { OnOk result (IsTrue (state self.new).clean) }
        ensures kept { Stays (state self.old).held (state self.new).held }
        ensures failed { OnErr result (Rose (state self.old).faults (state self.new).faults) }
        ensures never_falls { (state self.old).faults ≤ (state self.new).faults };
}
