// The file format: limits, words, and readers of records and lists straight from a lent file.
// Every reader is total: the number 0, or one past its section's last, reads zeros. What it gives is said of the bundle that the file stands for, which is
// what a clause sees of a `Bundle`.
#![tactic(auto)]

ghost use Rattle.std.specs.Prelude.{◌≡◌, ◌≤◌, ◌<◌, length};
ghost use Rattle.bundle.specs.File.{Whole, bundle_at, own_counts};
ghost use Rattle.bundle.specs.Limits.{limits, set_words, least_bytes, symbols_at, variables_at, terms_at, links_at, contexts_at, steps_at};
ghost use Rattle.bundle.specs.Limits.{bytes_of, within_of, Within};
ghost use Rattle.bundle.specs.Limits.{sections, extent_of};

pub mod words; // words.rt: words of bytes, and the header
pub mod records; // records.rt: the fields of a record
pub mod items; // items.rt: the items of a list, one after another
pub mod lists; // lists.rt: tests of lists of links
pub mod notes; // notes.rt: walks that note links of long lists
pub mod digests; // digests.rt: digests, by which records are filed

use std::marker::Model;

// A lent file whose counts are within the limits, and which is as long as they say, as the bundle that it stands for.
#[derive(Drop)]
pub struct Bundle<'a> {
    file: &'a [u8],
    counts: Counts,
    // The file from each section on: its place is computed once.
    symbols: &'a [u8],
    variables: &'a [u8],
    terms: &'a [u8],
    links: &'a [u8],
    contexts: &'a [u8],
    steps: &'a [u8],
}

impl<'a> Model for Bundle<'a> {
    ghost use Rattle.bundle.specs.Bundle.{Bundle};
    ghost use Rattle.bundle.specs.File.{bundle_at};
    ghost use Rattle.bundle.specs.Parts.{Parted};

    ghost Value = { Bundle };

    ghost view = { λ b. bundle_at b.file.now b.counts };

    ghost invariant = { λ b. Parted b.file.now b.counts b.symbols.now b.variables.now b.terms.now b.links.now b.contexts.now b.steps.now };
}

impl<'a> Bundle<'a> {
    // The limits of the counts.
    pub const SYMBOLS: usize = 64;

    pub const VARIABLES: usize = 256;

    pub const TERMS: usize = 1024;

    pub const LINKS: usize = 2048;

    pub const CONTEXTS: usize = 256;

    pub const STEPS: usize = 1024;

    // The words of the header, and the bytes of the shortest file, which is a header.
    pub const HEADER: usize = 9;

    pub const LEAST: usize = 4 * Bundle::HEADER;

    // The sections after the header: 0 symbols, 1 variables, 2 terms, 3 links, 4 contexts, 5 steps.
    pub const SECTIONS: usize = 6;

    // The length of the longest file, in words and in bytes.
    pub const WORDS: usize = Bundle::HEADER
        + 2 * Bundle::SYMBOLS
        + Bundle::VARIABLES
        + 4 * Bundle::TERMS
        + 2 * Bundle::LINKS
        + 4 * Bundle::CONTEXTS
        + 5 * Bundle::STEPS;

    pub const BYTES: usize = 4 * Bundle::WORDS;

    // Words of 64 bits for a set of variables: a bit for each of VARIABLES.
    pub const SET_WORDS: usize = 4;

    // The file as a bundle, by its counts.
    pub fn of(file: &'a [u8], counts: Counts) -> Self
        requires { Whole file.now counts }
        ensures { result ≡ bundle_at file.now counts }
    {
        Bundle {
            file,
            counts,
            symbols: &file[4 * counts.symbols_at()..],
            variables: &file[4 * counts.variables_at()..],
            terms: &file[4 * counts.terms_at()..],
            links: &file[4 * counts.links_at()..],
            contexts: &file[4 * counts.contexts_at()..],
            steps: &file[4 * counts.steps_at()..],
        }
    }

    // The file, and its counts.
    pub fn file(&self) -> &'a [u8]
        ensures { (Whole result.now (own_counts self.now)) × (bundle_at result.now (own_counts self.now) ≡ self.now) }
    {
        self.file
    }

    pub fn counts(&self) -> Counts
        ensures { (result ≡ own_counts self.now) × Within result }
    {
        self.counts
    }

    // How many records each section has.
    pub fn symbols(&self) -> usize
        ensures { (result ≡ length self.now.symbols) × (result ≤ limits.symbols) }
    {
        self.counts.symbols
    }

    pub fn variables(&self) -> usize
        ensures { (result ≡ length self.now.variables) × (result ≤ limits.variables) }
    {
        self.counts.variables
    }

    pub fn terms(&self) -> usize
        ensures { (result ≡ length self.now.terms) × (result ≤ limits.terms) }
    {
        self.counts.terms
    }

    pub fn links(&self) -> usize
        ensures { (result ≡ length self.now.links) × (result ≤ limits.links) }
    {
        self.counts.links
    }

    pub fn contexts(&self) -> usize
        ensures { (result ≡ length self.now.contexts) × (result ≤ limits.contexts) }
    {
        self.counts.contexts
    }

    pub fn steps(&self) -> usize
        ensures { (result ≡ length self.now.steps) × (result ≤ limits.steps) }
    {
        self.counts.steps
    }

    // The claim's left term, and its right term, as the header has them.
    pub fn claim_left(&self) -> usize
        ensures { (result ≡ self.now.left) × (result ≤ 4294967295) }
    {
        words::claim_left(self.file)
    }

    pub fn claim_right(&self) -> usize
        ensures { (result ≡ self.now.right) × (result ≤ 4294967295) }
    {
        words::claim_right(self.file)
    }
}

// A bundle's version, and the numbers of records of its sections: with the lent file it gives every record.
#[derive(Clone, Copy)]
pub struct Counts {
    pub version: usize,
    pub symbols: usize,
    pub variables: usize,
    pub terms: usize,
    pub links: usize,
    pub contexts: usize,
    pub steps: usize,
}

impl Counts {
    // The bundle with every section at its limit: ties the constants above to `limits` in specs/.
    pub fn largest() -> Self
        ensures { result ≡ limits }
    {
        Self {
            version: 1,
            symbols: Bundle::SYMBOLS,
            variables: Bundle::VARIABLES,
            terms: Bundle::TERMS,
            links: Bundle::LINKS,
            contexts: Bundle::CONTEXTS,
            steps: Bundle::STEPS,
        }
    }

    // Ties the shortest and the longest length, and the words of a set, to those in specs/.
    pub fn shortest() -> usize
        ensures { result ≡ least_bytes }
    {
        Bundle::LEAST
    }

    pub fn longest() -> usize
        ensures { result ≡ bytes_of limits }
    {
        Bundle::BYTES
    }

    pub fn set_words() -> usize
        ensures { result ≡ set_words }
    {
        Bundle::SET_WORDS
    }

    // Whether each count is within its limit.
    pub fn within(self) -> bool
        ensures { result ≡ within_of self }
    {
        (self.symbols <= Bundle::SYMBOLS)
            & (self.variables <= Bundle::VARIABLES)
            & (self.terms <= Bundle::TERMS)
            & (self.links <= Bundle::LINKS)
            & (self.contexts <= Bundle::CONTEXTS)
            & (self.steps <= Bundle::STEPS)
    }

    // The word at which each section starts.
    pub fn symbols_at(self) -> usize
        ensures { (result ≡ symbols_at self) × (result ≤ 16) }
    {
        words::header_words(self.version)
    }

    pub fn variables_at(self) -> usize
        requires { Within self }
        ensures { (result ≡ variables_at self) × (result ≤ 1024) }
    {
        self.symbols_at() + 2 * self.symbols
    }

    pub fn terms_at(self) -> usize
        requires { Within self }
        ensures { (result ≡ terms_at self) × (result ≤ 2048) }
    {
        self.variables_at() + self.variables
    }

    pub fn links_at(self) -> usize
        requires { Within self }
        ensures { (result ≡ links_at self) × (result ≤ 8192) }
    {
        self.terms_at() + 4 * self.terms
    }

    pub fn contexts_at(self) -> usize
        requires { Within self }
        ensures { (result ≡ contexts_at self) × (result ≤ 16384) }
    {
        self.links_at() + 2 * self.links
    }

    pub fn steps_at(self) -> usize
        requires { Within self }
        ensures { (result ≡ steps_at self) × (result ≤ 32768) }
    {
        self.contexts_at() + 4 * self.contexts
    }

    // The words of section s: by number, since all that ask go over the sections in their order.
    pub fn extent(self, s: usize) -> usize
        requires { Within self × (s < sections) }
        ensures { result ≡ extent_of self s }
    {
        let extents = [
            2 * self.symbols,
            self.variables,
            4 * self.terms,
            2 * self.links,
            4 * self.contexts,
            5 * self.steps,
        ];
        extents[s]
    }

    // The length of the file in bytes, from the counts.
    pub fn bytes(self) -> usize
        requires { Within self }
        ensures { result ≡ bytes_of self }
    {
        4 * (self.steps_at() + 5 * self.steps)
    }
}
