// Checks 10 and 11 of a context. The functions of one context take the bundle besides: so the compiler knows that no write to the rows changes it, and
// reads a record once for all of them.
ghost use Rattle.std.specs.Prelude.{◌≡◌, true, ◌+◌, ◌*◌, ◌≤◌, length, IfOk};
ghost use Rattle.bundle.specs.Links.{items};
ghost use Rattle.bundle.specs.Lists.{each};
ghost use Rattle.logic.specs.Failures.{number_in, fault_in};
ghost use Rattle.logic.specs.Contexts.{settled, context_refers, replacements_settled, context_fault, contexts_fault};
ghost use Rattle.free_variables.specs.FreeSets.{FreeSets};
ghost use Rattle.images.specs.ContextRows.{Images, Scopes};

use bundle::Bundle;
use free_variables::term_sets::TermSets;
use images::rows::Rows;
use logic::checks::{Check, Failure};
use logic::kinds::Entry;
use sorting::sorted_bundle::SortedBundle;
use sorting::sorts::some_different;

// 10: whether the kind of context i is one, its unused field is zero, its lists agree, and it refers to variables, terms and a lower context.
fn context_refers(bundle: &Bundle, sorted: &SortedBundle, i: usize) -> bool
    requires { bundle.now ≡ sorted.now }
    ensures { result ≡ context_refers sorted.now i }
{
    let kind = bundle.context_field(i, 0);
    let first = bundle.context_field(i, 1);
    let second = bundle.context_field(i, 2);
    let parent = bundle.context_field(i, 3);
    let links = bundle.links();
    let variables = bundle.variables();
    let terms = bundle.terms();
    match Entry::of(kind) {
        Some(Entry::Fixes) => { (0 < first) & (first <= variables) & (second == 0) & (parent < i) }
        Some(Entry::Replaces) => {
            let replaced = bundle.all_numbers(first, variables);
            let replacing = bundle.all_numbers(second, terms);
            let distinct = some_different(bundle, first);
            let fit = sorted.variables_fit(first, second);
            (first <= links)
                & replaced
                & (second <= links)
                & replacing
                & (distinct & fit)
                & (parent < i)
        }
        None => false,
    }
}

// Whether each term of a list is settled in a context.
fn all_settled(sets: &TermSets, scopes: &[u64], context: usize, terms: usize) -> bool
    requires { FreeSets sets.now × Scopes sets.now.bundle scopes.now sets.now.n (context + 1) }
    ensures { result ≡ each (settled sets.now.bundle context) (items sets.now.bundle terms) }
{
    let _words = sets.words(); // each of 64 bits
    let moved = 2 * sets.n() * context;
    for t in sets.bundle().items(terms) {
        if !sets.is_settled(scopes, moved, t) {
            return false;
        }
    }
    true
}

// 11: whether the terms of context i, if it replaces, are settled in its parent.
fn replacements_settled(bundle: &Bundle, sets: &TermSets, scopes: &[u64], i: usize) -> bool
    requires { (bundle.now ≡ sets.now.bundle) × FreeSets sets.now × Scopes sets.now.bundle scopes.now sets.now.n i × (context_refers sets.now.bundle i ≡ true) }
    ensures { result ≡ replacements_settled sets.now.bundle i }
{
    let kind = bundle.context_field(i, 0);
    let terms = bundle.context_field(i, 2);
    let parent = bundle.context_field(i, 3);
    match Entry::of(kind) {
        Some(Entry::Replaces) => all_settled(sets, scopes, parent, terms),
        Some(Entry::Fixes) => true,
        None => true,
    }
}

// What is wrong with context i.
fn context_fault(
    bundle: &Bundle,
    sorted: &SortedBundle,
    sets: &TermSets,
    scopes: &[u64],
    i: usize,
) -> Result<(), Check>
    requires { (bundle.now ≡ sorted.now) × (sets.now.bundle ≡ sorted.now) × FreeSets sets.now × Scopes sorted.now scopes.now sets.now.n i }
    ensures { number_in result ≡ context_fault sorted.now i }
{
    if !context_refers(bundle, sorted, i) {
        return Err(Check::Context);
    }
    if !replacements_settled(bundle, sets, scopes, i) {
        return Err(Check::Settled);
    }
    Ok(())
}

// The first bad context. Where there is none, all that is to be known of contexts is written.
pub fn contexts_fault(
    sorted: &SortedBundle,
    sets: &TermSets,
    rows: &mut Rows,
) -> Result<(), Failure>
    requires same { (sets.now.bundle ≡ sorted.now) × (rows.old.bundle ≡ sorted.now) × (rows.old.n ≡ sets.now.n) }
    requires fact { FreeSets sets.now × (length sorted.now.variables ≤ 64 * sets.now.n)
        × (length sorted.now.variables * (length sorted.now.contexts + 1) ≤ length rows.old.images)
        × (2 * sets.now.n * (length sorted.now.contexts + 1) ≤ length rows.old.scopes)
        × Images sorted.now rows.old.images 1 × Scopes sorted.now rows.old.scopes sets.now.n 1 }
    ensures value { fault_in result ≡ contexts_fault sorted.now }
    ensures fact { IfOk result (λ _. Images sorted.now rows.new.images (length sorted.now.contexts + 1) × Scopes sorted.now rows.new.scopes sets.now.n (length sorted.now.contexts + 1)) }
{
    let bundle = sorted.bundle();
    for i in 1..bundle.contexts() + 1 {
        if let Err(check) = context_fault(bundle, sorted, sets, rows.scopes(), i) {
            return Err(Failure { check, record: i });
        }
        rows.enter(i);
    }
    Ok(())
}
