// A set of variables for each term, in lent words, whatever they hold.
ghost use Rattle.std.specs.Prelude.{◌≡◌, ◌&&◌, ◌+◌, ◌*◌, ◌≤◌, length};
ghost use Rattle.free_variables.specs.TermSets.{TermSets, Words, free_in, settled_in, in_scope_in, mentioned_at};

use super::parts;
use bundle::Bundle;
use std::marker::Model;

// A bundle, and n words for each of its terms.
#[derive(Drop)]
pub struct TermSets<'a> {
    bundle: &'a Bundle<'a>,
    words: &'a [u64],
    n: usize,
}

impl<'a> Model for TermSets<'a> {
    ghost use Rattle.std.specs.Prelude.{◌*◌, ◌≤◌, length};
    ghost use Rattle.free_variables.specs.TermSets.{TermSets, Words};

    ghost Value = { TermSets };

    ghost view = { λ s. record { bundle = s.bundle.now; words = s.words.now; n = s.n } };

    ghost invariant = { λ s. (s.n * length s.bundle.now.terms ≤ length s.words.now) × Words s.words.now };
}

impl<'a> TermSets<'a> {
    pub fn of(bundle: &'a Bundle<'a>, words: &'a [u64], n: usize) -> TermSets<'a>
        requires { n * length bundle.now.terms ≤ length words.now }
        ensures { result ≡ record { bundle = bundle.now; words = words.now; n = n } }
    {
        TermSets { bundle, words, n }
    }

    pub fn bundle(&self) -> &'a Bundle<'a>
        ensures { result.now ≡ self.now.bundle }
    {
        self.bundle
    }

    // The words: the set of term t starts at word n (t - 1).
    pub fn words(&self) -> &'a [u64]
        ensures { (result.now ≡ self.now.words) × (self.now.n * length self.now.bundle.terms ≤ length result.now) × Words result.now }
    {
        self.words
    }

    // How many words a set has.
    pub fn n(&self) -> usize
        ensures { result ≡ self.now.n }
    {
        self.n
    }

    // Whether variable v is in the set of term t. A number that is no term's has none.
    pub fn is_free(&self, t: usize, v: usize) -> bool
        ensures { result ≡ free_in self.now t v }
    {
        parts::is_free(self.bundle.terms(), self.words, self.n, t, v)
    }

    // Whether term t is settled where the set at `at` is that of the moved variables: it has none of them free. The set by its place, as in `sets`: that of
    // a context is one of many in an area.
    pub fn is_settled(&self, moved: &[u64], at: usize, t: usize) -> bool
        requires { at + self.now.n ≤ length moved.now }
        ensures { result ≡ settled_in self.now moved.now at t }
    {
        parts::is_settled(self.bundle.terms(), self.words, self.n, moved, at, t)
    }

    // Whether two terms are in scope in a context: each free variable of theirs is mentioned there.
    pub fn both_in_scope(&self, scopes: &[u64], context: usize, left: usize, right: usize) -> bool
        requires { (2 * self.now.n * (context + 1) ≤ length scopes.now)
            × (1 ≤ left) × (left ≤ length self.now.bundle.terms) × (1 ≤ right) × (right ≤ length self.now.bundle.terms) }
        ensures { let scope = in_scope_in self.now scopes.now (mentioned_at self.now.n context) in
            result ≡ (scope left && scope right) }
    {
        let terms = self.bundle.terms();
        parts::both_in_scope(terms, self.words, self.n, scopes, context, left, right)
    }
}
