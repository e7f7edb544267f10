// Records that meet, where the left one is no variable: the same kind and symbol, or variables of the same sorts.
ghost use Rattle.std.specs.Prelude.{◌≡◌, length, eqb};
ghost use Rattle.bundle.specs.Bundle.{term_of};
ghost use Rattle.bundle.specs.Links.{items};
ghost use Rattle.logic.specs.ReflWalk.{application_meets, sorts_meet, all_sorts_meet, binder_meets, let_meets};

use bundle::Bundle;
use logic::kinds::Kind;

pub fn application_meets(bundle: &Bundle, l: usize, r: usize) -> bool
    ensures { result ≡ application_meets bundle.now (term_of bundle.now l) r }
{
    let symbol = bundle.term_field(l, 1);
    let kind = bundle.term_field(r, 0);
    let other = bundle.term_field(r, 1);
    (kind == Kind::Application.number()) & (symbol == other)
}

// Whether x and y are variables of one sort.
pub fn sorts_meet(bundle: &Bundle, x: usize, y: usize) -> bool
    ensures { result ≡ sorts_meet bundle.now x y }
{
    let count = bundle.variables();
    let s = bundle.variable_sort(x);
    let t = bundle.variable_sort(y);
    ((0 < x) & (x <= count)) & ((0 < y) & (y <= count)) & (s == t)
}

pub fn binder_meets(bundle: &Bundle, l: usize, r: usize) -> bool
    ensures { result ≡ binder_meets bundle.now (term_of bundle.now l) r }
{
    let kind = bundle.term_field(l, 0);
    let x = bundle.term_field(l, 1);
    let other = bundle.term_field(r, 0);
    let y = bundle.term_field(r, 1);
    let sorts = sorts_meet(bundle, x, y);
    (other == kind) & sorts
}

// Whether two lists of variables have the same sorts, one by one. As `same_list` and `same_length`, two lists side by side, each with a test and a
// definition of its own.
pub fn all_sorts_meet(bundle: &Bundle, first: usize, second: usize) -> bool
    ensures { result ≡ all_sorts_meet bundle.now (items bundle.now first) (items bundle.now second) }
{
    let mut others = bundle.items(second);
    for x in bundle.items(first) {
        let Some(y) = others.next() else {
            return false;
        };
        if !sorts_meet(bundle, x, y) {
            return false;
        }
    }
    others.next().is_none()
}

// Whether one list is as long as another.
fn same_length(bundle: &Bundle, first: usize, second: usize) -> bool
    ensures { result ≡ eqb (length (items bundle.now first)) (length (items bundle.now second)) }
{
    let mut others = bundle.items(second);
    for _ in bundle.items(first) {
        let Some(_) = others.next() else {
            return false;
        };
    }
    others.next().is_none()
}

pub fn let_meets(bundle: &Bundle, l: usize, r: usize) -> bool
    ensures { result ≡ let_meets bundle.now (term_of bundle.now l) r }
{
    let kind = bundle.term_field(r, 0);
    if kind != Kind::Let.number() {
        return false;
    }
    let variables = bundle.term_field(l, 1);
    let terms = bundle.term_field(l, 2);
    let others = bundle.term_field(r, 1);
    let sorts = all_sorts_meet(bundle, variables, others);
    let lengths = same_length(bundle, terms, variables);
    sorts & lengths
}
