// Check 9: whether a term is equal to an earlier one. Earlier terms are filed by a digest of their records (`Earlier`): `heads` has the newest term of each
// digest, `next` the one before each term among those with its digest, 0 for none: no term has number 0, and a word of 16 bits is enough. So a term is compared with those of its digest alone.
#![tactic(auto)]

ghost use Rattle.std.specs.Prelude.{◌≡◌, ◌<◌, length};
ghost use Rattle.bundle.specs.Bundle.{term_of};
ghost use Rattle.bundle.specs.Links.{items};
ghost use Rattle.logic.specs.Checks.{first_is_list, second_is_list, same_field, same_term, is_new};
ghost use Rattle.duplicates.specs.Digests.{mix_items, mix_field, term_digest, FiledBelow};
ghost use Rattle.bundle.specs.RecordWords.{as_term};

pub mod earlier; // earlier.rt: the earlier terms

use bundle::Bundle;
use bundle::digests::{DIGESTS, Digest};
use bundle::records::TermWords;
use logic::kinds::Kind;

// Whether the first field of a term is a list, by its kind: that of a let is.
fn first_is_list(kind: usize) -> bool
    ensures { result ≡ first_is_list kind }
{
    kind == Kind::Let.number()
}

// Whether the second one is: that of an application and that of a let are.
fn second_is_list(kind: usize) -> bool
    ensures { result ≡ second_is_list kind }
{
    (kind == Kind::Application.number()) | (kind == Kind::Let.number())
}

// A digest and the first items of a list. That of `filing` takes all items (DECISIONS 60).
fn mixed_items(bundle: &Bundle, d: Digest, list: usize) -> Digest
    ensures { result ≡ mix_items 8 d (items bundle.now list) }
{
    let mut sum = d;
    for x in bundle.items(list).take(8) {
        sum = sum.mixed(x);
    }
    sum
}

// A digest and a field.
fn mixed_field(bundle: &Bundle, list: bool, d: Digest, x: usize) -> Digest
    ensures { result ≡ mix_field bundle.now list d x }
{
    if list {
        mixed_items(bundle, d, x)
    } else {
        d.mixed(x)
    }
}

// The digest of a term's record, by its words.
pub fn digest(bundle: &Bundle, w: TermWords) -> Digest
    ensures { result ≡ term_digest bundle.now (as_term w) }
{
    let kind = w.kind;
    let d = Digest::empty().mixed(kind);
    let d1 = mixed_field(bundle, first_is_list(kind), d, w.first);
    let d2 = mixed_field(bundle, second_is_list(kind), d1, w.second);
    d2.mixed(w.third)
}

// Whether two fields are the same: as lists, item by item, or as numbers.
fn same_field(bundle: &Bundle, list: bool, x: usize, y: usize) -> bool
    ensures { result ≡ same_field bundle.now list x y }
{
    if list { bundle.same_list(x, y) } else { x == y }
}

// Whether terms i and j have the same record, lists compared item by item.
pub fn same_term(bundle: &Bundle, i: usize, j: usize) -> bool
    ensures { result ≡ same_term bundle.now (term_of bundle.now i) (term_of bundle.now j) }
{
    let kind = bundle.term_field(i, 0);
    if kind != bundle.term_field(j, 0) {
        return false;
    }
    let first = same_field(
        bundle,
        first_is_list(kind),
        bundle.term_field(i, 1),
        bundle.term_field(j, 1),
    );
    let second = same_field(
        bundle,
        second_is_list(kind),
        bundle.term_field(i, 2),
        bundle.term_field(j, 2),
    );
    first & second & (bundle.term_field(i, 3) == bundle.term_field(j, 3))
}

// 9: whether no earlier term has the same record, where the terms below i are filed, and d is its digest. Over the arrays: `Earlier` calls it.
pub fn is_new(bundle: &Bundle, heads: &[u16; DIGESTS], next: &[u16], i: usize, d: Digest) -> bool
    requires { FiledBelow bundle.now heads.now next.now i × (i < length next.now) × (d ≡ term_digest bundle.now (term_of bundle.now
        i)) }
    ensures { result ≡ is_new bundle.now i }
{
    let mut j = usize::from(heads[d.place()]);
    // Down the chain of the digest, which has no iterator.
    while j != 0 {
        if same_term(bundle, j, i) {
            return false;
        }
        j = usize::from(next[j]);
    }
    true
}
