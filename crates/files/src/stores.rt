// The file stored: header and sections one after another.
ghost use Rattle.std.specs.Prelude.{◌≡◌, [], ◌∷◌, ◌≤◌, length, take};
ghost use Rattle.bundle.specs.Words.{largest_word};
ghost use Rattle.bundle.specs.Limits.{limits, bytes_of, Within};
ghost use Rattle.bundle.specs.File.{own_counts};
ghost use Rattle.expansion.specs.Visit.{claiming};
ghost use Rattle.expansion.specs.File.{file_of};

use super::sections::store_section;
use bundle::{Bundle, Counts};
use scratch::View;

// The words of the header: version, counts, claim.
fn header(c: Counts, left: usize, right: usize) -> [u32; Bundle::HEADER]
    requires { Within c × (c.version ≤ largest_word) × (left ≤ largest_word) × (right ≤ largest_word) }
    ensures { result ≡ c.version ∷ c.symbols ∷ c.variables ∷ c.terms ∷ c.links ∷ c.contexts ∷ c.steps ∷ left ∷ right ∷ [] }
{
    [
        c.version as u32,
        c.symbols as u32,
        c.variables as u32,
        c.terms as u32,
        c.links as u32,
        c.contexts as u32,
        c.steps as u32,
        left as u32,
        right as u32,
    ]
}

// Stores the file of the bundle in the scratch, with the claim that `left` is `right`, at the start of the output. Its length in bytes.
// The walk over the sections is that of `copy_job`, turned round (see there).
pub fn store_file(scratch: &View<'_>, left: usize, right: usize, out: &mut [u8]) -> usize
    requires { (left ≤ largest_word) × (right ≤ largest_word) × (bytes_of limits ≤ length out.old)
        × (scratch.now.version ≤ largest_word) }
    ensures { (length out.new ≡ length out.old) × Within (own_counts scratch.now) × (result ≡ bytes_of (own_counts scratch.now))
        × (take result out.new ≡ file_of (claiming scratch.now left right)) }
{
    let counts = scratch.counts();
    let words = scratch.words();
    let room = Counts::largest();
    let mut from = room.symbols_at();
    let mut place = counts.symbols_at();
    store_section(&header(counts, left, right), 0, Bundle::HEADER, out, 0);
    for s in 0..Bundle::SECTIONS {
        let count = counts.extent(s);
        let most = room.extent(s);
        store_section(words, from, count, out, place);
        from += most;
        place += count;
    }
    counts.bytes()
}
