// The writer's scratch: a bundle in lent words, each section with room for its limit. `Scratch` is appended to, and `View` is read.
#![tactic(auto)]

ghost use Rattle.std.specs.Prelude.{◌≡◌, ◌≤◌, length};
ghost use Rattle.bundle.specs.Limits.{limits, Within};
ghost use Rattle.bundle.specs.File.{own_counts};
ghost use Rattle.scratch.specs.Scratch.{bundle_in, Roomy};

pub mod views; // views.rt: what a view is made of
pub mod records; // records.rt: the fields of a record
pub mod lists; // lists.rt: lists of links
pub mod appends; // appends.rt: one record or list appended
pub mod images; // images.rt: images of variables
pub mod pairs; // pairs.rt: pairs of words

use bundle::Counts;
use std::marker::Model;

// A bundle in words lent for writing. A clause sees the bundle.
#[derive(Drop)]
pub struct Scratch<'a> {
    words: &'a mut [u32],
    counts: Counts,
}

impl<'a> Model for Scratch<'a> {
    ghost use Rattle.bundle.specs.Bundle.{Bundle};
    ghost use Rattle.scratch.specs.Scratch.{bundle_in, Roomy};

    ghost Value = { Bundle };

    ghost view = { λ s. bundle_in s.words.now s.counts };

    ghost invariant = { λ s. Roomy s.words.now s.counts };
}

impl<'a> Scratch<'a> {
    // The bundle that the words hold, by its counts.
    pub fn of(words: &'a mut [u32], counts: Counts) -> Scratch<'a>
        requires { Roomy words.old counts }
        ensures { result ≡ bundle_in words.old counts }
    {
        Scratch { words, counts }
    }

    // The words lent on, for reading.
    pub fn view(&self) -> View<'_>
        ensures { result ≡ self.now }
    {
        View {
            words: &*self.words,
            counts: self.counts,
        }
    }

    // The words given back: they hold the bundle by its counts.
    pub fn into_words(self) -> &'a mut [u32]
        ensures { Roomy result.now (own_counts self.entry) × (bundle_in result.now (own_counts self.entry) ≡ self.entry) }
    {
        self.words
    }

    pub fn counts(&self) -> Counts
        ensures { (result ≡ own_counts self.now) × Within result }
    {
        self.counts
    }

    // How many records each section has. `Bundle` has the same readers, `View` two of them: each keeps counts, under an invariant of its own.
    pub fn variables(&self) -> usize
        ensures { (result ≡ length self.now.variables) × (result ≤ limits.variables) }
    {
        self.counts.variables
    }

    pub fn terms(&self) -> usize
        ensures { (result ≡ length self.now.terms) × (result ≤ limits.terms) }
    {
        self.counts.terms
    }

    pub fn links(&self) -> usize
        ensures { (result ≡ length self.now.links) × (result ≤ limits.links) }
    {
        self.counts.links
    }

    pub fn contexts(&self) -> usize
        ensures { (result ≡ length self.now.contexts) × (result ≤ limits.contexts) }
    {
        self.counts.contexts
    }

    pub fn steps(&self) -> usize
        ensures { (result ≡ length self.now.steps) × (result ≤ limits.steps) }
    {
        self.counts.steps
    }
}

// A bundle in words lent for reading alone, the scratch's or others. A clause sees the bundle. A type beside `Scratch`, which cannot be made of words that are
// lent for reading.
#[derive(Drop)]
pub struct View<'a> {
    words: &'a [u32],
    counts: Counts,
}

impl<'a> Model for View<'a> {
    ghost use Rattle.bundle.specs.Bundle.{Bundle};
    ghost use Rattle.scratch.specs.Scratch.{bundle_in, Roomy};

    ghost Value = { Bundle };

    ghost view = { λ s. bundle_in s.words.now s.counts };

    ghost invariant = { λ s. Roomy s.words.now s.counts };
}
