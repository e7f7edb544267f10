// Terms looked up in the scratch, the lowest number first. Each is looked for among the terms with its digest alone, from the newest on: so the last
// that is found is the lowest.
ghost use Rattle.std.specs.Prelude.{◌≡◌, Bool, true, false, ℕ, ◌<◌, ◌≤◌};
ghost use Rattle.bundle.specs.Bundle.{TermRecord, term_of};
ghost use Rattle.bundle.specs.Limits.{limits};
ghost use Rattle.logic.specs.Terms.{Binder, binder, number_of};
ghost use Rattle.logic.specs.Lookup.{seek, same_variable, same_application, same_binder, same_let};
ghost use Rattle.scratch.specs.Stack.{halves_of};
ghost use Rattle.filing.specs.Filing.{mix_all, root_digest, let_digest, lookup_digest, found};

use super::FiledView;
use bundle::Bundle;
use bundle::digests::{DIGESTS, Digest};
use logic::kinds::Kind;
use scratch::View;
use scratch::lists::same_halves;

// Whether term t is the variable y. Alike to that of `images`, which reads a file.
fn is_variable(scratch: &View<'_>, t: usize, y: usize) -> bool
    ensures { result ≡ same_variable y (term_of scratch.now t) }
{
    let term = scratch.term_words(t);
    (term.kind == Kind::Variable.number()) & (term.first == y)
}

// Whether term t is the symbol at the upper halves of pairs.
fn is_application(scratch: &View<'_>, t: usize, symbol: usize, arguments: &[u64]) -> bool
    ensures { result ≡ same_application scratch.now symbol (halves_of true arguments.now) (term_of scratch.now t) }
{
    let term = scratch.term_words(t);
    if term.kind != Kind::Application.number() {
        return false;
    }
    if term.first != symbol {
        return false;
    }
    same_halves(scratch, term.second, arguments, true)
}

// Whether term t has this kind, which is a binder's, this variable and this body.
fn same_binder(scratch: &View<'_>, t: usize, kind: usize, y: usize, body: usize) -> bool
    ensures { (q : Binder) → kind ≡ number_of (binder q) → result ≡ same_binder q y body (term_of scratch.now t) }
{
    let term = scratch.term_words(t);
    (term.kind == kind) & ((term.first == y) & (term.second == body))
}

// Whether term t is the let, in the term `body`, of pairs: a pair has a variable in its lower half and the variable's bound term in its upper.
fn is_let(scratch: &View<'_>, t: usize, body: usize, pairs: &[u64]) -> bool
    ensures { result ≡ same_let scratch.now (halves_of false pairs.now) (halves_of true pairs.now) body (term_of scratch.now t) }
{
    let term = scratch.term_words(t);
    if term.kind != Kind::Let.number() {
        return false;
    }
    let named = same_halves(scratch, term.first, pairs, false);
    let bound = same_halves(scratch, term.second, pairs, true);
    named & (bound & (term.third == body))
}

impl<'a> FiledView<'a> {
    // The lowest term that passes a test, where all that pass have the digest d.
    fn lowest<F: Fn(usize) -> bool>(&self, d: Digest, same: F) -> Option<usize>
        requires { F.IsAlwaysCallable same }
        ensures { (p : TermRecord → Bool) → ((t : ℕ) (r : Bool) → t ≤ limits.terms → F.post same t r → r ≡ p (term_of self.now t))
            → ((r : TermRecord) → p r ≡ true → lookup_digest self.now r ≡ d)
            → result ≡ found (seek p self.now.terms) }
    {
        // So each place that the chain names is in the index.
        prove!(self.scratch.counts().terms <= Bundle::TERMS);
        let mut lowest = None;
        let mut t = usize::from(self.index[d.place()]);
        // No `for`: this follows the chain of a digest through the index.
        while t != 0 {
            if same(t) {
                lowest = Some(t);
            }
            t = usize::from(self.index[DIGESTS + t]);
        }
        lowest
    }

    // The four that follow are alike: each hands its own test to `lowest`, and has a definition of its own.

    // d is the digest of the variable.
    pub fn find_variable(&self, d: Digest, y: usize) -> Option<usize>
        requires { d ≡ root_digest 1 y }
        ensures { result ≡ found (seek (same_variable y) self.now.terms) }
    {
        let scratch = &self.scratch;
        self.lowest(d, |t| is_variable(scratch, t, y))
    }

    // d is the digest of the application, of a symbol at the upper halves of pairs.
    pub fn find_application(&self, d: Digest, symbol: usize, arguments: &[u64]) -> Option<usize>
        requires { d ≡ mix_all (root_digest 2 symbol) (halves_of true arguments.now) }
        ensures { result ≡ found (seek (same_application self.now symbol (halves_of true arguments.now)) self.now.terms) }
    {
        let scratch = &self.scratch;
        self.lowest(d, |t| is_application(scratch, t, symbol, arguments))
    }

    // d is the digest of the binder. Its kind by number: any may be asked for, and a `Binder` would ask for more.
    pub fn find_binder(&self, d: Digest, kind: usize, y: usize, body: usize) -> Option<usize>
        requires { d ≡ root_digest kind y }
        ensures { (q : Binder) → kind ≡ number_of (binder q) → result ≡ found (seek (same_binder q y body) self.now.terms) }
    {
        let scratch = &self.scratch;
        self.lowest(d, |t| same_binder(scratch, t, kind, y, body))
    }

    // d is the digest of the let.
    pub fn find_let(&self, d: Digest, body: usize, pairs: &[u64]) -> Option<usize>
        requires { d ≡ let_digest (halves_of false pairs.now) (halves_of true pairs.now) body }
        ensures { result ≡ found (seek (same_let self.now (halves_of false pairs.now) (halves_of true pairs.now) body) self.now.terms) }
    {
        let scratch = &self.scratch;
        self.lowest(d, |t| is_let(scratch, t, body, pairs))
    }
}
