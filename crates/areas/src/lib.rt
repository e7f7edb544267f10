// Lent areas: how many are long enough, zeros, and how every call leaves them.
#![tactic(auto)]

ghost use Rattle.std.specs.Prelude.{◌≡◌, ◌≤◌, length};
ghost use Rattle.expansion.specs.Answer.{Written, answer_in};
ghost use Rattle.expansion.specs.Expansion.{long_enough};
ghost use Rattle.expansion.specs.AreasAfter.{kept, Zeroed};

use bundle::Bundle;
use logic::checks::Failure;

// Words of 64 bits for the stack: as many as the free sets of all terms may take.
const STACK: usize = Bundle::SET_WORDS * Bundle::TERMS;

// The output, the scratch and the stack: so many have to be long enough.
pub const AREAS: usize = 3;

// How many of the three areas are long enough: a count, since check 4 compares what is lent with what is required.
pub fn long_enough(out: usize, words: usize, sets: usize) -> usize
    ensures { result ≡ long_enough out words sets }
{
    let output = usize::from(Bundle::BYTES <= out);
    let scratch = usize::from(Bundle::WORDS <= words);
    let stack = usize::from(STACK <= sets);
    output + scratch + stack
}

// Zeros after the first `end` bytes of the output, and in the scratch and the stack.
pub fn zero_after(end: usize, out: &mut [u8], words: &mut [u32], sets: &mut [u64])
    requires { end ≤ length out.old }
    ensures { Zeroed (Written end) out.old words.old sets.old out.new words.new sets.new }
{
    words.fill(0);
    sets::clear(sets, 0, sets.len());
    out[end..].fill(0);
}

// The end of every call that writes a file: zeros after the file, or in all of the output where there is none, and in the scratch and the stack.
// The three areas are no struct: C lends them apart, and each has its own use inside, where a struct would be taken apart again.
pub fn close(
    answer: Result<usize, Failure>,
    out: &mut [u8],
    words: &mut [u32],
    sets: &mut [u64],
) -> Result<usize, Failure>
    requires { kept (answer_in answer) ≤ length out.old }
    ensures { (result ≡ answer) × Zeroed (answer_in answer) out.old words.old sets.old out.new words.new
        sets.new }
{
    let end = answer.unwrap_or(0);
    zero_after(end, out, words, sets);
    answer
}
