// What is noted while terms are checked: the sort of each term.
ghost use Rattle.std.specs.Prelude.{◌≡◌, ◌<◌, length, get_or};
ghost use Rattle.bundle.specs.Bundle.{sort_of_variable, term_of};
ghost use Rattle.bundle.specs.LinkNotes.{Zeros};
ghost use Rattle.logic.specs.Named.{binder_in};
ghost use Rattle.logic.specs.Sorts.{binder_sort, sort_by};
ghost use Rattle.sorting.specs.Notes.{Sorted};

use super::sorts::{result_sort, signature_of, sort_in};
use bundle::Bundle;
use logic::kinds::{Binder, Kind};

// The sort of a binder's term that binds variable x: 0, the sort of truths, for a quantifier.
fn binder_sort(bundle: &Bundle, q: Binder, x: usize) -> usize
    ensures { result ≡ binder_sort (binder_in q) (sort_of_variable bundle.now x) }
{
    match q {
        Binder::ForAll | Binder::Exists => 0,
        Binder::Choice => bundle.variable_sort(x),
    }
}

// The sort of term t by its record, from the sorts of the terms below it. 0, the sort of truths, for what has no kind, as the definition has it.
fn sort_by(bundle: &Bundle, sorts: &[usize], t: usize) -> usize
    ensures { result ≡ sort_by bundle.now (λ i. get_or sorts.now i 0) (term_of bundle.now t) }
{
    let kind = bundle.term_field(t, 0);
    match Kind::of(kind) {
        Some(Kind::Variable) => bundle.variable_sort(bundle.term_field(t, 1)),
        Some(Kind::Application) => {
            result_sort(bundle, signature_of(bundle, bundle.term_field(t, 1)))
        }
        Some(Kind::Let) => sort_in(sorts, bundle.term_field(t, 3)),
        Some(Kind::Binder(q)) => binder_sort(bundle, q, bundle.term_field(t, 1)),
        None => 0,
    }
}

// Notes the sort of every term.
pub fn note_sorts(bundle: &Bundle, sorts: &mut [usize])
    requires { (length bundle.now.terms < length sorts.old) × Zeros sorts.old }
    ensures { Sorted bundle.now sorts.new }
{
    for t in 1..bundle.terms() + 1 {
        let sort = sort_by(bundle, sorts, t);
        sorts[t] = sort;
    }
}
