// How many calls there are.

ghost use Rattle.std.specs.Prelude.{◌≡◌, ◌<◌, ◌^◌, min, length, sum_by, All};

use signal_graph::call::CallList;

/// How many calls all scripts have, or `most` where they have more. Takes no memory.
#[tactic(auto, using(crate::proofs::Moving::next_count))]
pub fn count_calls(scripts: &[CallList], most: u32) -> u32
    requires { All (λ calls. length calls < 2 ^ 32) scripts.now }
    ensures { result ≡ min most (sum_by length scripts.now) }
{
    let mut count = 0;
    for calls in scripts {
        let left = most - count;
        let len = calls.len() as u32;
        count += if len < left { len } else { left };
    }
    count
}
