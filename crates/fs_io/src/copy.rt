// Copies and look-ups that the sources and sinks in memory share.

ghost use Rattle.std.specs.Prelude.{◌≡◌, ◌↔◌, IsTrue, Contains, min, ◌++◌, length, take, drop};

/// Copies the first bytes, at most `most`, to the front of a buffer. Answers how many.
pub fn copy_front(from: &[u8], most: usize, to: &mut [u8]) -> usize
    ensures count { result ≡ min most (min (length from.now) (length to.old)) }
    ensures copied { to.new ≡ take result from.now ++ drop result to.old }
{
    let n = most.min(from.len().min(to.len()));
    to[..n].copy_from_slice(&from[..n]);
    n
}

/// Whether a call is among those that are to fail.
pub fn is_listed(failing: &[u64], call: u64) -> bool
    ensures { IsTrue result ↔ Contains failing.now call }
{
    failing.contains(&call)
}
