// Sets of the n words that a file's variables ask for, made sets of as many words as every term has in the lent area. A set is given by its number in the
// area, and not as a slice: it is moved within the area, over its own words.
ghost use Rattle.std.specs.Prelude.{◌≡◌, ◌+◌, ◌*◌, ◌≤◌, ◌<◌, length, get_or};
ghost use Rattle.bundle.specs.Limits.{set_words};
ghost use Rattle.free_variables.specs.Spread.{SpreadOne, Spread};

use bundle::Bundle;

// Word k of set t, counted from 0, of n words: zero where it has no such word.
fn word_of(area: &[u64], n: usize, t: usize, k: usize) -> u64
    requires { n * t + n ≤ length area.now }
    ensures { (k < n → result ≡ get_or area.now (n * t + k) 0) × (n ≤ k → result ≡ 0) }
{
    if k < n {
        return area[n * t + k];
    }
    0
}

// Moves set t, counted from 0, to its wide place, with zeros after its words. From the last word down: what is still to be read stands lower.
fn spread_set(area: &mut [u64], n: usize, t: usize)
    requires { (n ≤ set_words) × (set_words * t + set_words ≤ length area.old) }
    ensures { SpreadOne area.old area.new n set_words t }
{
    for k in (0..Bundle::SET_WORDS).rev() {
        let x = word_of(area, n, t, k);
        area[Bundle::SET_WORDS * t + k] = x;
    }
}

// Moves all sets to their wide places, the last one first.
pub fn spread(area: &mut [u64], n: usize, terms: usize)
    requires { (n ≤ set_words) × (set_words * terms ≤ length area.old) }
    ensures { Spread area.old area.new n set_words terms }
{
    for t in (0..terms).rev() {
        spread_set(area, n, t);
    }
}
