// The free sets of all terms, n words each, written into a lent area. What lists share is united once for all of them (crate `unions`).
// A set is given by its place in the area, and not as a slice: those of the terms below it are read while it is written.
#![tactic(auto)]

pub mod parts; // parts.rt: the sets of terms by their words alone
pub mod spread; // spread.rt: sets of few words made sets of as many as a term has
pub mod term_sets; // term_sets.rt: a set for each term, in lent words

ghost use Rattle.std.specs.Prelude.{◌≡◌, not, ◌&&◌, ◌+◌, ◌*◌, ◌-◌, ◌≤◌, ◌<◌, length};
ghost use Rattle.bundle.specs.Limits.{limits, set_words};
ghost use Rattle.bundle.specs.Bundle.{term_of};
ghost use Rattle.bundle.specs.Links.{items};
ghost use Rattle.bundle.specs.Lists.{has};
ghost use Rattle.sets.specs.Sets.{member};
ghost use Rattle.logic.specs.Free.{free_by, free_area};
ghost use Rattle.unions.specs.Put.{SetRoom, Put, set_below, SetsBelow, own_by, list_of};
ghost use Rattle.unions.specs.Unions.{Unions};

use bundle::Bundle;
use logic::kinds::Kind;
use unions::{Uniting, unite_term};

// Removes the variables of a list.
fn remove_list(bundle: &Bundle, area: &mut [u64], n: usize, at: usize, list: usize)
    requires { (at + n ≤ length area.old) }
    ensures { Put area.old area.new n at
        (λ x. member area.old at n x && not (has x (items bundle.now list))) }
{
    for v in bundle.items(list) {
        sets::remove(area, at, n, v);
    }
}

// ---- Terms

// Writes the free set of term t, but for the terms of its list, from the sets of the terms below it. Gives that list; 0, the empty list, where it has none.
fn free_own(bundle: &Bundle, area: &mut [u64], n: usize, t: usize, at: usize) -> usize
    requires { SetRoom area.old n t at × (length bundle.now.variables ≤ 64 * n) }
    ensures { (result ≡ list_of (term_of bundle.now t)) × Put area.old area.new n at (own_by bundle.now (set_below area.old n t) (term_of bundle.now t)) }
{
    let kind = bundle.term_field(t, 0);
    let first = bundle.term_field(t, 1);
    let second = bundle.term_field(t, 2);
    let third = bundle.term_field(t, 3);
    sets::clear(area, at, n);
    match Kind::of(kind) {
        Some(Kind::Application) => second,
        Some(Kind::Variable) => {
            if (0 < first) & (first <= bundle.variables()) {
                sets::insert(area, at, n, first);
            }
            0
        }
        Some(Kind::Binder(_)) => {
            unite_term(area, n, t, at, second);
            sets::remove(area, at, n, first);
            0
        }
        Some(Kind::Let) => {
            unite_term(area, n, t, at, third);
            remove_list(bundle, area, n, at, first);
            second
        }
        None => 0,
    }
}

// Writes the free set of the term that `uniting` is at, from those of the terms below it.
fn free_term(area: &mut [u64], uniting: &mut Uniting)
    requires { let u = uniting.old in SetRoom area.old u.n u.t (u.n * (u.t - 1)) × (length u.bundle.variables ≤ 64 * u.n) × SetsBelow area.old u.n u.t u.bundle }
    ensures { let u = uniting.old in Put area.old area.new u.n (u.n * (u.t - 1)) (free_by u.bundle (set_below area.old u.n u.t) (term_of u.bundle u.t))
        × (uniting.new ≡ u) }
{
    let n = uniting.n();
    let t = uniting.t();
    let at = n * (t - 1);
    let list = free_own(uniting.bundle(), area, n, t, at);
    uniting.unite_list(area, at, list);
}

// Writes the free sets of all terms, where no list is known yet.
fn free_terms(bundle: &Bundle, area: &mut [u64], n: usize, lists: &mut [u64], marks: &mut [u16])
    requires { (1 ≤ n) × (n * length bundle.now.terms ≤ length area.old) × (length bundle.now.variables ≤ 64 * n)
        × Unions bundle.now n 1 lists.old marks.old }
    ensures { (length area.new ≡ length area.old)
        × SetsBelow area.new n (length bundle.now.terms + 1) bundle.now }
{
    let terms = bundle.terms();
    let mut uniting = Uniting::of(bundle, n, 1, lists, marks);
    for _ in 0..terms {
        free_term(area, &mut uniting);
        uniting.next();
    }
}

// The same, with room of its own for the unions of the lists: for WORDS words of them, and for fewer than MARKS links.
fn fitted<const WORDS: usize, const MARKS: usize>(bundle: &Bundle, area: &mut [u64], n: usize)
    requires { (1 ≤ n) × (n * length bundle.now.terms ≤ length area.old) × (length bundle.now.variables ≤ 64 * n)
        × (n * (length bundle.now.links + 1) ≤ WORDS) × (WORDS ≤ set_words * (limits.links + 1)) × (length bundle.now.links < MARKS) × (MARKS ≤ limits.links + 1) }
    ensures { (length area.new ≡ length area.old)
        × SetsBelow area.new n (length bundle.now.terms + 1) bundle.now }
{
    let mut lists = [0u64; WORDS];
    let mut marks = [0u16; MARKS];
    free_terms(bundle, area, n, &mut lists, &mut marks);
}

// Words for 512 links, for 1024, and for all that a file can have, where each set has as many words as a set may have.
const FEW_WORDS: usize = Bundle::SET_WORDS * 513;

const SOME_WORDS: usize = Bundle::SET_WORDS * 1025;

const ALL_WORDS: usize = Bundle::SET_WORDS * (Bundle::LINKS + 1);

const ALL_MARKS: usize = Bundle::LINKS + 1;

// The same with room of one of three sizes, for files with many variables. It is kept apart, and its room with it: inlined, every file would pay for it in
// stack.
#[inline(never)]
fn fitting_wide(bundle: &Bundle, area: &mut [u64], n: usize)
    requires { (1 ≤ n) × (n ≤ set_words) × (n * length bundle.now.terms ≤ length area.old) × (length bundle.now.variables ≤ 64 * n) }
    ensures { (length area.new ≡ length area.old)
        × SetsBelow area.new n (length bundle.now.terms + 1) bundle.now }
{
    let links = bundle.links();
    if links <= 512 {
        fitted::<FEW_WORDS, 513>(bundle, area, n);
        return;
    }
    if links <= 1024 {
        fitted::<SOME_WORDS, 1025>(bundle, area, n);
        return;
    }
    fitted::<ALL_WORDS, ALL_MARKS>(bundle, area, n);
}

// The same with room of one of three sizes, or as above: small files ask for little room, since all of it is cleared.
fn fitting(bundle: &Bundle, area: &mut [u64], n: usize)
    requires { (1 ≤ n) × (n ≤ set_words) × (n * length bundle.now.terms ≤ length area.old) × (length bundle.now.variables ≤ 64 * n) }
    ensures { (length area.new ≡ length area.old)
        × SetsBelow area.new n (length bundle.now.terms + 1) bundle.now }
{
    let words = n * (bundle.links() + 1);
    if words <= 65 {
        fitted::<65, 65>(bundle, area, n);
        return;
    }
    if words <= 513 {
        fitted::<513, 513>(bundle, area, n);
        return;
    }
    if n > 1 {
        fitting_wide(bundle, area, n);
        return;
    }
    if words <= 2049 {
        fitted::<2049, 2049>(bundle, area, n);
        return;
    }
    fitting_wide(bundle, area, n);
}

// Writes the free sets of all terms, n words each, and zeros after them.
pub fn free_sets(bundle: &Bundle, area: &mut [u64], n: usize)
    requires { (1 ≤ n) × (n ≤ set_words) × (n * length bundle.now.terms ≤ length area.old) × (length bundle.now.variables ≤ 64 * n) }
    ensures { area.new ≡ free_area bundle.now n (length area.old) }
{
    fitting(bundle, area, n);
    let end = n * bundle.terms();
    sets::clear(area, end, area.len() - end);
}

// The words that a file's sets take while it is checked: one where that is enough, as it is for most files. Of two numbers the compiler knows more than of
// many.
pub fn words_for(variables: usize) -> usize
    requires { variables ≤ limits.variables }
    ensures { (1 ≤ result) × (result ≤ set_words) × (variables ≤ 64 * result) }
{
    if variables <= 64 {
        return 1;
    }
    Bundle::SET_WORDS
}
