// What a view is made of, and what is read of it as a whole.
ghost use Rattle.std.specs.Prelude.{◌≡◌, ◌≤◌, length};
ghost use Rattle.bundle.specs.Limits.{limits, Within};
ghost use Rattle.bundle.specs.File.{own_counts};
ghost use Rattle.scratch.specs.Scratch.{bundle_in, Roomy};

use super::View;
use bundle::Counts;

impl<'a> View<'a> {
    // The bundle that the words hold, by its counts.
    pub fn of(words: &'a [u32], counts: Counts) -> View<'a>
        requires { Roomy words.now counts }
        ensures { result ≡ bundle_in words.now counts }
    {
        View { words, counts }
    }

    // The words, and the counts.
    pub fn words(&self) -> &'a [u32]
        ensures { Roomy result.now (own_counts self.now) × (bundle_in result.now (own_counts self.now) ≡ self.now) }
    {
        self.words
    }

    pub fn counts(&self) -> Counts
        ensures { (result ≡ own_counts self.now) × Within result }
    {
        self.counts
    }

    pub fn links(&self) -> usize
        ensures { (result ≡ length self.now.links) × (result ≤ limits.links) }
    {
        self.counts.links
    }
}
