// The digest of a term, made of what terms are looked up by.
ghost use Rattle.std.specs.Prelude.{◌≡◌, true, false};
ghost use Rattle.bundle.specs.Bundle.{term_of};
ghost use Rattle.bundle.specs.Links.{items};
ghost use Rattle.scratch.specs.Stack.{halves_of};
ghost use Rattle.filing.specs.Filing.{mix_all, root_digest, let_digest, lookup_digest};

use bundle::digests::Digest;
use logic::kinds::Kind;
use scratch::View;
use scratch::pairs::half;

// The digest of a kind and a first field. The kind by number: a term's record may have any.
pub fn root_digest(kind: usize, first: usize) -> Digest
    ensures { result ≡ root_digest kind first }
{
    let d = Digest::empty().mixed(kind);
    d.mixed(first)
}

// A digest and the upper halves of pairs, or the lower.
pub fn mixed_halves(d: Digest, pairs: &[u64], upper: bool) -> Digest
    ensures { result ≡ mix_all d (halves_of upper pairs.now) }
{
    let mut sum = d;
    for pair in pairs {
        sum = sum.mixed(half(*pair, upper));
    }
    sum
}

// A digest and the items of a list.
fn mixed_items(scratch: &View<'_>, d: Digest, list: usize) -> Digest
    ensures { result ≡ mix_all d (items scratch.now list) }
{
    let mut sum = d;
    for x in scratch.items(list) {
        sum = sum.mixed(x);
    }
    sum
}

// The digest of a let, by its lists of variables and of bound terms and its body.
fn let_digest(scratch: &View<'_>, variables: usize, bound: usize, body: usize) -> Digest
    ensures { result ≡ let_digest (items scratch.now variables) (items scratch.now bound) body }
{
    let d = Digest::empty().mixed(Kind::Let.number());
    let e = mixed_items(scratch, d, variables);
    let f = mixed_items(scratch, e, bound);
    f.mixed(body)
}

// The digest of a let, by its pairs and its body: a pair has a variable in its lower half and the variable's bound term in its upper. As `let_digest`, of
// lists that are not yet in the scratch.
pub fn pairs_digest(body: usize, pairs: &[u64]) -> Digest
    ensures { result ≡ let_digest (halves_of false pairs.now) (halves_of true pairs.now) body }
{
    let d = Digest::empty().mixed(Kind::Let.number());
    let e = mixed_halves(d, pairs, false);
    let f = mixed_halves(e, pairs, true);
    f.mixed(body)
}

// The digest of the record of term t.
pub fn digest(scratch: &View<'_>, t: usize) -> Digest
    ensures { result ≡ lookup_digest scratch.now (term_of scratch.now t) }
{
    let term = scratch.term_words(t);
    let root = root_digest(term.kind, term.first);
    match Kind::of(term.kind) {
        Some(Kind::Variable) => root,
        Some(Kind::Application) => mixed_items(scratch, root, term.second),
        Some(Kind::Binder(_)) => root,
        Some(Kind::Let) => let_digest(scratch, term.first, term.second, term.third),
        None => root,
    }
}
