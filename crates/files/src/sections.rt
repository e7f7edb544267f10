// Sections copied from a file into the scratch, and stored from the scratch into a file. Places and a count, where slices of just the section would say
// both ends of both places at each call, as in `&file[4 * from..4 * (from + count)]` and `&mut words[to..to + count]`.
ghost use Rattle.std.specs.Prelude.{◌≡◌, [], ◌∷◌, ◌+◌, ◌*◌, ◌≤◌, length, take, drop};
ghost use Rattle.files.specs.Copies.{copied};
ghost use Rattle.files.specs.Stores.{WordsStored};

use bundle::words::{as_word, word_at};

// Copies `count` words of the file from word `from` on to the words from place `to` on.
pub fn copy_section(file: &[u8], from: usize, words: &mut [u32], to: usize, count: usize)
    requires { (4 * (from + count) ≤ length file.now) × (to + count ≤ length words.old) }
    ensures { words.new ≡ copied words.old to file.now from count }
{
    for i in 0..count {
        words[to + i] = as_word(word_at(file, from + i));
    }
}

// Stores a word as the four bytes of word `place` of the output. What stood after it is not kept.
fn put_word(out: &mut [u8], place: usize, x: u32)
    requires { 4 * (place + 1) ≤ length out.old }
    ensures { WordsStored out.old place (place + 1) (x ∷ []) out.new }
{
    let at = 4 * place;
    out[at..at + 4].copy_from_slice(&x.to_le_bytes());
}

// Stores `count` words from place `from` on as bytes, from word `place` of the output on.
pub fn store_section(words: &[u32], from: usize, count: usize, out: &mut [u8], place: usize)
    requires { (from + count ≤ length words.now) × (4 * (place + count) ≤ length out.old) }
    ensures { WordsStored out.old place (place + count) (take count (drop from words.now)) out.new }
{
    for i in 0..count {
        put_word(out, place + i, words[from + i]);
    }
}
