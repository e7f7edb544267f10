// The job's way into the scratch.
ghost use Rattle.std.specs.Prelude.{◌≡◌, ◌≤◌, length};
ghost use Rattle.bundle.specs.Limits.{limits, words_of};

use super::sections::copy_section;
use bundle::{Bundle, Counts};
use scratch::Scratch;

// Copies the header and every section of the job into its place in the words, where each section has room for its limit. The walk over the sections is
// that of `store_file`, turned round: one for both would take what is done with a section as a closure, whose clauses would have to say both.
pub fn copy_job<'a>(job: &Bundle<'_>, words: &'a mut [u32]) -> Scratch<'a>
    requires { words_of limits ≤ length words.old }
    ensures { result ≡ job.now }
{
    let counts = job.counts();
    let file = job.file();
    let room = Counts::largest();
    let mut from = counts.symbols_at();
    let mut to = room.symbols_at();
    copy_section(file, 0, words, 0, Bundle::HEADER);
    for s in 0..Bundle::SECTIONS {
        let count = counts.extent(s);
        let most = room.extent(s);
        copy_section(file, from, words, to, count);
        from += count;
        to += most;
    }
    Scratch::of(words, counts)
}
