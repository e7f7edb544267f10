// Terms of the scratch filed by their digests, and looked up by them.
#![tactic(auto)]

ghost use Rattle.std.specs.Prelude.{◌≡◌, [], ◌∷◌, ◌+◌, ◌≤◌, ◌<◌, length, get_or, set, replicate};
ghost use Rattle.bundle.specs.Words.{largest_word};
ghost use Rattle.bundle.specs.Limits.{limits};
ghost use Rattle.bundle.specs.Filed.{digests};
ghost use Rattle.bundle.specs.RecordWords.{as_term, TermFits};
ghost use Rattle.logic.specs.WellFormed.{TablesFormed};
ghost use Rattle.logic.specs.Longer.{with_variables, with_terms};
ghost use Rattle.filing.specs.Filing.{Digested, Indexed};

pub mod digests; // digests.rt: digests of terms
pub mod lookups; // lookups.rt: terms looked up

use bundle::digests::{DIGESTS, Digest};
use bundle::records::{ContextWords, StepWords, TermWords};
use bundle::{Bundle, Counts};
use digests::digest;
use logic::Image;
use scratch::appends::Appends;
use scratch::{Scratch, View};
use std::marker::Model;

// The places of an index: for each digest its newest term, then, from place DIGESTS on, for each term the one before it with its digest; 0 for none, which is no
// term's number. One array, as the definition of the index has it.
pub const PLACES: usize = DIGESTS + Bundle::TERMS + 1;

// A scratch of which all terms are filed by a digest, made of what terms are looked up by. A clause sees the bundle.
// The index is lent: as a field of its own it would be moved with the struct, 6 KB by a call of the C library's `memcpy` each time.
#[derive(Drop)]
pub struct Filed<'a> {
    scratch: Scratch<'a>,
    index: &'a mut [u16; PLACES],
}

impl<'a> Model for Filed<'a> {
    ghost use Rattle.bundle.specs.Bundle.{Bundle};
    ghost use Rattle.filing.specs.Filing.{Indexed};

    ghost Value = { Bundle };

    ghost view = { λ f. f.scratch };

    ghost invariant = { λ f. Indexed f.scratch f.index.now };
}

// The same, lent for reading alone: terms are looked up in it. A type beside `Filed`, as `View` beside `Scratch`.
#[derive(Drop)]
pub struct FiledView<'a> {
    scratch: View<'a>,
    index: &'a [u16; PLACES],
}

impl<'a> Model for FiledView<'a> {
    ghost use Rattle.bundle.specs.Bundle.{Bundle};
    ghost use Rattle.filing.specs.Filing.{Indexed};

    ghost Value = { Bundle };

    ghost view = { λ f. f.scratch };

    ghost invariant = { λ f. Indexed f.scratch f.index.now };
}

impl<'a> FiledView<'a> {
    // A scratch with the index of its terms.
    pub fn of(scratch: View<'a>, index: &'a [u16; PLACES]) -> FiledView<'a>
        requires { Indexed scratch index.now }
        ensures { result ≡ scratch.entry }
    {
        FiledView { scratch, index }
    }
}

// Files term t, whose digest is d.
pub fn file_term(index: &mut [u16; PLACES], d: Digest, t: usize)
    requires { (1 ≤ t) × (t ≤ limits.terms) }
    ensures { index.new ≡ set (set index.old (digests + t) (get_or index.old d 0)) d t }
{
    index[DIGESTS + t] = index[d.place()];
    index[d.place()] = t as u16;
}

// Files all terms, where none is filed yet.
pub fn file_terms(scratch: &View<'_>, index: &mut [u16; PLACES])
    requires { TablesFormed scratch.now × (index.old ≡ replicate (digests + limits.terms + 1) 0) }
    ensures { Indexed scratch.now index.new }
{
    for t in 1..scratch.counts().terms + 1 {
        file_term(index, digest(scratch, t), t);
    }
}

impl<'a> Filed<'a> {
    // Files all terms of a scratch in an index, whatever stood in it.
    pub fn of(scratch: Scratch<'a>, index: &'a mut [u16; PLACES]) -> Filed<'a>
        requires { TablesFormed scratch }
        ensures { result ≡ scratch.entry }
    {
        *index = [0u16; PLACES];
        file_terms(&scratch.view(), index);
        Filed::with(scratch, index)
    }

    // A scratch with the index of its terms, which is at hand.
    pub fn with(scratch: Scratch<'a>, index: &'a mut [u16; PLACES]) -> Filed<'a>
        requires { Indexed scratch index.old }
        ensures { result ≡ scratch.entry }
    {
        Filed { scratch, index }
    }

    pub fn scratch(&self) -> &Scratch<'a>
        ensures { result.now ≡ self.now }
    {
        &self.scratch
    }

    // The index lent on: it holds all terms.
    pub fn index(&self) -> &[u16; PLACES]
        ensures { Indexed self.now result.now }
    {
        let index = &*self.index;
        index
    }

    // The scratch given back.
    pub fn into_scratch(self) -> Scratch<'a>
        ensures { result ≡ self.entry }
    {
        self.scratch
    }

    // The scratch and its index lent on, for reading.
    pub fn view(&self) -> FiledView<'_>
        ensures { result ≡ self.now }
    {
        FiledView::of(self.scratch.view(), self.index)
    }

    // ---- One record appended to a section that has room: as the scratch does, and a term is filed.

    pub fn append_variable(&mut self, sort: usize)
        requires { (length self.old.variables < limits.variables) × (sort ≤ largest_word) }
        ensures { self.new ≡ with_variables self.old (sort ∷ []) }
    {
        self.scratch.append_variable(sort);
    }

    // A term whose digest is d.
    pub fn append_term(&mut self, term: TermWords, d: Digest)
        requires { (length self.old.terms < limits.terms) × TermFits term × Digested self.old (as_term term) d }
        ensures { self.new ≡ with_terms self.old (as_term term ∷ []) }
    {
        let t = self.scratch.terms() + 1;
        self.scratch.append_term(term);
        file_term(self.index, d, t);
    }
}

// Lists, contexts and steps are appended as the scratch does: the index holds terms alone.
impl<'a> Appends for Filed<'a> {
    ghost use Rattle.bundle.specs.Bundle.{Bundle};

    ghost bundle = { λ (b : Bundle). b };

    fn counts(&self) -> Counts {
        self.scratch.counts()
    }

    fn image(&self, context: usize, x: usize) -> Image {
        self.scratch.image(context, x)
    }

    fn push_halves(&mut self, pairs: &[u64], upper: bool) -> usize {
        self.scratch.push_halves(pairs, upper)
    }

    fn push_one(&mut self, value: usize) -> usize {
        self.scratch.push_one(value)
    }

    fn append_context(&mut self, context: ContextWords) {
        self.scratch.append_context(context);
    }

    fn append_step(&mut self, step: StepWords) {
        self.scratch.append_step(step);
    }
}
