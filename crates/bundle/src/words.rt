// Words of a file of bytes, and what its header says.
ghost use Rattle.std.specs.Prelude.{◌≡◌, ◌+◌, ◌*◌, ◌≤◌, length};
ghost use Rattle.bundle.specs.Words.{word_at};
ghost use Rattle.bundle.specs.Limits.{least_bytes, header_words, left_word, right_word};
ghost use Rattle.bundle.specs.File.{counts_of};

use super::{Bundle, Counts};

// A word as a number that can be an index: the library has no `From<u32> for usize`.
pub fn wide(x: u32) -> usize
    ensures { (result ≡ x) × (result ≤ 4294967295) }
{
    x as usize
}

// A number that fits as a word, which `TryFrom` would ask again at each use.
pub fn as_word(x: usize) -> u32
    requires { x ≤ 4294967295 }
    ensures { result ≡ x }
{
    x as u32
}

// Word k of the file, as a number that can be an index. The word by its number, as the definition has it.
#[tactic(auto, unfolding(crate::specs::Words::word_at))]
pub fn word_at(file: &[u8], k: usize) -> usize
    requires { 4 * k + 4 ≤ length file.now }
    ensures { (result ≡ word_at file.now k) × (result ≤ 4294967295) }
{
    let a = 4 * k;
    wide(u32::from_le_bytes([file[a], file[a + 1], file[a + 2], file[a + 3]]))
}

// The claim's left term, and its right term, as the header has them.
pub fn claim_left(file: &[u8]) -> usize
    requires { least_bytes ≤ length file.now }
    ensures { (result ≡ word_at file.now left_word) × (result ≤ 4294967295) }
{
    word_at(file, 7)
}

pub fn claim_right(file: &[u8]) -> usize
    requires { least_bytes ≤ length file.now }
    ensures { (result ≡ word_at file.now right_word) × (result ≤ 4294967295) }
{
    word_at(file, 8)
}

// The words of the header of a file of a version. Every place is computed from it.
pub fn header_words(version: usize) -> usize
    ensures { (result ≡ header_words version) × (result ≤ 16) }
{
    Bundle::HEADER
}

// The version and the counts that a file's header gives.
pub fn counts(file: &[u8]) -> Counts
    requires { least_bytes ≤ length file.now }
    ensures { result ≡ counts_of file.now }
{
    Counts {
        version: word_at(file, 0),
        symbols: word_at(file, 1),
        variables: word_at(file, 2),
        terms: word_at(file, 3),
        links: word_at(file, 4),
        contexts: word_at(file, 5),
        steps: word_at(file, 6),
    }
}
