// Checks 7, 8 and 9: a term's references, its sorts, and whether it is equal to an earlier one.
ghost use Rattle.std.specs.Prelude.{◌≡◌, true, ◌+◌, ◌-◌, ◌≤◌, ◌<◌, length, IfOk};
ghost use Rattle.bundle.specs.Limits.{limits};
ghost use Rattle.bundle.specs.Bundle.{term_of};
ghost use Rattle.bundle.specs.Lists.{numbers};
ghost use Rattle.bundle.specs.LinkNotes.{Zeros, LowerNoted};
ghost use Rattle.logic.specs.Failures.{number_in, fault_in};
ghost use Rattle.logic.specs.Terms.{kind_of};
ghost use Rattle.logic.specs.Tests.{passed};
ghost use Rattle.logic.specs.Checks.{refers_as, sorted_as, term_fault, terms_fault};
ghost use Rattle.bundle.specs.RecordWords.{as_term};
ghost use Rattle.duplicates.specs.Digests.{term_digest, EarlierThan};
ghost use Rattle.sorting.specs.Notes.{Fitting};

use bundle::Bundle;
use bundle::digests::Digest;
use bundle::records::TermWords;
use duplicates::digest;
use duplicates::earlier::Earlier;
use logic::checks::{Check, Failure};
use logic::kinds::Kind;
use sorting::sorted_bundle::SortedBundle;
use sorting::sorts::{is_known, signature_of, some_different};

// Whether x is a record's number in a section of n. `unions` and *show* have their own: a line each.
fn is_number(n: usize, x: usize) -> bool
    ensures { result ≡ numbers n x }
{
    (0 < x) & (x <= n)
}

// 7: whether the kind of term i, by its words, is one, its unused fields are zero, and it refers to variables, symbols, links and lower terms.
pub fn term_refers(bundle: &Bundle, lower: &mut [u8], w: TermWords, i: usize) -> bool
    requires { LowerNoted bundle.now (i - 1) lower.old × (1 ≤ i) }
    ensures { (result ≡ passed (refers_as bundle.now (kind_of w.kind) i (as_term w)))
        × (result ≡ true → LowerNoted bundle.now (i - 1) lower.new) }
{
    let first = w.first;
    let second = w.second;
    let third = w.third;
    let links = bundle.links();
    let variables = bundle.variables();
    let below = i - 1;
    match Kind::of(w.kind) {
        Some(Kind::Variable) => is_number(variables, first) & (second == 0) & (third == 0),
        Some(Kind::Application) => {
            let terms = bundle.all_lower(lower, second, below);
            let symbol = is_known(signature_of(bundle, first));
            symbol & (second <= links) & terms & (third == 0)
        }
        Some(Kind::Binder(_)) => {
            is_number(variables, first) & is_number(below, second) & (third == 0)
        }
        Some(Kind::Let) => {
            let terms = bundle.all_lower(lower, second, below);
            let bound = bundle.all_numbers(first, variables);
            (first <= links) & bound & (second <= links) & terms & is_number(below, third)
        }
        None => false,
    }
}

// 8: whether the counts and sorts of a term are right, by its words.
pub fn term_sorted(sorted: &SortedBundle, fitting: &mut [u16], w: TermWords) -> bool
    requires { Fitting sorted.now fitting.old }
    ensures { (result ≡ sorted_as sorted.now (kind_of w.kind) (as_term w))
        × (result ≡ true → Fitting sorted.now fitting.new) }
{
    let first = w.first;
    let second = w.second;
    match Kind::of(w.kind) {
        Some(Kind::Application) => {
            sorted.arguments_fit(fitting, signature_of(sorted.bundle(), first), second)
        }
        Some(Kind::Binder(_)) => sorted.sort(second) == 0,
        Some(Kind::Let) => {
            let distinct = some_different(sorted.bundle(), first);
            let fit = sorted.variables_fit(first, second);
            distinct & fit
        }
        Some(Kind::Variable) => true,
        None => true,
    }
}

// What is wrong with term i, where the terms below it are filed, w are its words and d is its digest. A later test is made where the earlier ones hold.
fn term_fault(
    sorted: &SortedBundle,
    lower: &mut [u8],
    fitting: &mut [u16],
    earlier: &Earlier<'_>,
    w: TermWords,
    i: usize,
    d: Digest,
) -> Result<(), Check>
    requires whole { LowerNoted sorted.now (i - 1) lower.old × Fitting sorted.now fitting.old }
    requires fact { EarlierThan sorted.now earlier.now i × (1 ≤ i) × (i < length earlier.now.next) × (d ≡ term_digest sorted.now (term_of sorted.now i)) × (as_term w
        ≡ term_of sorted.now i) }
    ensures { (number_in result ≡ term_fault sorted.now i)
        × IfOk result (λ _. LowerNoted sorted.now (i - 1) lower.new × Fitting sorted.now fitting.new) }
{
    let bundle = sorted.bundle();
    if !term_refers(bundle, lower, w, i) {
        return Err(Check::Refers);
    }
    if !term_sorted(sorted, fitting, w) {
        return Err(Check::Sorted);
    }
    if !earlier.is_new(bundle, i, d) {
        return Err(Check::New);
    }
    Ok(())
}

// The first bad term, by what is noted. Terms that are good are filed by their digests.
fn noted_fault(
    sorted: &SortedBundle,
    lower: &mut [u8],
    fitting: &mut [u16],
    next: &mut [u16],
) -> Result<(), Failure>
    requires { (length sorted.now.links < length lower.old) × Zeros lower.old × (length sorted.now.links < length fitting.old)
        × Zeros fitting.old × (length sorted.now.terms < length next.old) × Zeros next.old }
    ensures { fault_in result ≡ terms_fault sorted.now }
{
    let bundle = sorted.bundle();
    let mut earlier = Earlier::none(next);
    for i in 1..bundle.terms() + 1 {
        let w = bundle.term_words(i);
        let d = digest(bundle, w);
        if let Err(check) = term_fault(sorted, lower, fitting, &earlier, w, i, d) {
            return Err(Failure { check, record: i });
        }
        earlier.file(i, d);
    }
    Ok(())
}

// The first bad term of a file with fewer than LINKS links and TERMS terms, with arrays of its own.
fn fault_within<const LINKS: usize, const TERMS: usize>(
    sorted: &SortedBundle,
) -> Result<(), Failure>
    requires { (length sorted.now.links < LINKS) × (LINKS ≤ limits.links + 1) × (length sorted.now.terms < TERMS) × (TERMS ≤ limits.terms + 1) }
    ensures { fault_in result ≡ terms_fault sorted.now }
{
    let mut lower = [0u8; LINKS];
    let mut fitting = [0u16; LINKS];
    let mut next = [0u16; TERMS];
    noted_fault(sorted, &mut lower, &mut fitting, &mut next)
}

// A small file has fewer links and terms than these: arrays for all that a file can have take longer to clear than it takes to check.
const FEW_LINKS: usize = 512;

const FEW_TERMS: usize = 256;

// A place for each link, and for each term, of any file.
const ALL_LINKS: usize = Bundle::LINKS + 1;

const ALL_TERMS: usize = Bundle::TERMS + 1;

// The first bad term.
pub fn terms_fault(sorted: &SortedBundle) -> Result<(), Failure>
    ensures { fault_in result ≡ terms_fault sorted.now }
{
    let bundle = sorted.bundle();
    if (bundle.terms() < FEW_TERMS) & (bundle.links() < FEW_LINKS) {
        return fault_within::<FEW_LINKS, FEW_TERMS>(sorted);
    }
    fault_within::<ALL_LINKS, ALL_TERMS>(sorted)
}
