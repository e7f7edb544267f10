// Pairs of words, each on a lent stack as one number: a result and a step, say. Which half is meant stands beside the pairs: callers write it as a
// literal, and a struct of both would be taken apart again in each loop.
ghost use Rattle.std.specs.Prelude.{◌≡◌, true, false, ◌≤◌};
ghost use Rattle.bundle.specs.Words.{largest_word};
ghost use Rattle.scratch.specs.Stack.{half_of};

// The upper half of a pair, or the lower.
pub fn half(pair: u64, upper: bool) -> usize
    ensures { (result ≡ half_of upper pair) × (result ≤ largest_word) }
{
    if upper {
        (pair / 4294967296) as usize
    } else {
        (pair % 4294967296) as usize
    }
}

// The pair of an upper and a lower half.
pub fn pack(above: usize, below: usize) -> u64
    requires { (above ≤ largest_word) × (below ≤ largest_word) }
    ensures { (half_of true result ≡ above) × (half_of false result ≡ below) }
{
    (above as u64) * 4294967296 + (below as u64)
}
