// Fields of records in the scratch, by the record's number: each is a word. A field is told by its number, as in the definitions: an enum of fields for
// each record would be numbered again.
ghost use Rattle.std.specs.Prelude.{◌≡◌, ◌+◌, ◌*◌, ◌≤◌, ◌<◌, length};
ghost use Rattle.bundle.specs.Words.{largest_word};
ghost use Rattle.bundle.specs.Bundle.{at, sort_of_variable, term_of, link_of, context_of, term_field, link_field, context_field};
ghost use Rattle.bundle.specs.File.{tab, record_by};
ghost use Rattle.bundle.specs.RecordWords.{as_term, TermFits};
ghost use Rattle.scratch.specs.Scratch.{word_in};

use super::View;
use bundle::Counts;
use bundle::records::TermWords;
use bundle::words::wide;

// Word k of record i of a section: the section starts at word `start` and has `count` records of `size` words.
fn field(words: &[u32], start: usize, size: usize, count: usize, i: usize, k: usize) -> usize
    requires { (k < size) × (start + size * count ≤ length words.now) }
    ensures { (result ≡ at 0 (tab (λ j. record_by (word_in words.now) start size j k) count) i) × (result ≤ largest_word) }
{
    if i == 0 {
        return 0;
    }
    if i > count {
        return 0;
    }
    wide(words[start + size * (i - 1) + k])
}

// The readers are alike, each with its own section, size and definition. `field` is bundle's, over words of another memory.
impl<'a> View<'a> {
    pub fn variable_sort(&self, i: usize) -> usize
        ensures { (result ≡ sort_of_variable self.now i) × (result ≤ largest_word) }
    {
        let count = self.counts.variables;
        field(self.words, Counts::largest().variables_at(), 1, count, i, 0)
    }

    pub fn term_field(&self, i: usize, k: usize) -> usize
        requires { k < 4 }
        ensures { (result ≡ term_field (term_of self.now i) k) × (result ≤ largest_word) }
    {
        let count = self.counts.terms;
        field(self.words, Counts::largest().terms_at(), 4, count, i, k)
    }

    pub fn link_field(&self, i: usize, k: usize) -> usize
        requires { k < 2 }
        ensures { (result ≡ link_field (link_of self.now i) k) × (result ≤ largest_word) }
    {
        let count = self.counts.links;
        field(self.words, Counts::largest().links_at(), 2, count, i, k)
    }

    pub fn context_field(&self, i: usize, k: usize) -> usize
        requires { k < 4 }
        ensures { (result ≡ context_field (context_of self.now i) k) × (result ≤ largest_word) }
    {
        let count = self.counts.contexts;
        field(self.words, Counts::largest().contexts_at(), 4, count, i, k)
    }

    // The words of term i. Alike in `bundle`: the same record, read from another memory.
    pub fn term_words(&self, i: usize) -> TermWords
        ensures { (as_term result ≡ term_of self.now i) × TermFits result }
    {
        TermWords {
            kind: self.term_field(i, 0),
            first: self.term_field(i, 1),
            second: self.term_field(i, 2),
            third: self.term_field(i, 3),
        }
    }
}
