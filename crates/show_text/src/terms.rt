// Terms in SMT-LIB 2. Terms are trees: a shared one is written again wherever it stands. So a budget of parts goes down and what is left of it comes
// back, and a part for which none is left is written as its number, t7; as is one that is not lower than its term, in a file where terms are damaged.
// SMT-LIB has no choice: one is written as a quantifier is.

use super::out;
use bundle::Bundle;
use logic::kinds::{Binder, Kind};

// `(`, and the symbol of an application.
fn open_application(f: usize) {
    out::text(b"(");
    out::symbol(f);
}

// `(forall ((v1 Item)) `, up to the body.
fn open_binder(bundle: &Bundle, binder: Binder, variable: usize) {
    match binder {
        Binder::ForAll => out::text(b"(forall ((v"),
        Binder::Exists => out::text(b"(exists ((v"),
        Binder::Choice => out::text(b"(choice ((v"),
    }
    out::number(variable);
    out::space();
    out::sort(bundle.variable_sort(variable));
    out::text(b")) ");
}

fn open_let() {
    out::text(b"(let (");
}

fn open_body() {
    out::text(b") ");
}

// A name, and the budget as it was. The number is what is printed, no length of the slice.
fn leaf(letter: &[u8], n: usize, budget: usize) -> usize {
    out::name(letter, n);
    budget
}

fn term_name(t: usize, budget: usize) -> usize {
    leaf(b"t", t, budget)
}

// A record of no kind that there is.
fn no_term(kind: usize, first: usize, second: usize, third: usize, budget: usize) -> usize {
    out::name(b"(kind ", kind);
    out::name(b" ", first);
    out::name(b" ", second);
    out::name(b" ", third);
    out::close();
    budget
}

fn constant(f: usize, budget: usize) -> usize {
    out::symbol(f);
    budget
}

// A part of the term `owner`: the term t, or its number where it is not lower or nothing of the budget is left.
#[cycle(arguments_bound_terms_part_term)]
fn part(bundle: &Bundle, owner: usize, t: usize, budget: usize) -> usize {
    if t == 0 {
        return term_name(t, budget);
    }
    if t >= owner {
        return term_name(t, budget);
    }
    if budget == 0 {
        return term_name(t, budget);
    }
    term(bundle, t, budget - 1)
}

// The arguments of the term `owner`, each after a space.
#[cycle(arguments_bound_terms_part_term)]
fn arguments(bundle: &Bundle, owner: usize, list: usize, budget: usize) -> usize {
    let mut left = budget;
    for t in bundle.items(list) {
        out::space();
        left = part(bundle, owner, t, left);
    }
    left
}

// The bindings of the let `owner`: `(v1 t) (v2 u)`, with t0 where there is no term for a variable.
#[cycle(arguments_bound_terms_part_term)]
fn bound_terms(
    bundle: &Bundle,
    owner: usize,
    variables: usize,
    terms: usize,
    budget: usize,
) -> usize {
    let mut left = budget;
    let mut opening: &[u8] = b"(v";
    let mut bound = bundle.items(terms);
    for variable in bundle.items(variables) {
        out::name(opening, variable);
        out::space();
        left = part(bundle, owner, bound.next().unwrap_or(0), left);
        out::close();
        opening = b" (v";
    }
    left
}

// The term t, with as many of its parts written out as the budget has; with 0, `(f34 t2 t2)`. Gives what is left of the budget.
#[cycle(arguments_bound_terms_part_term)]
pub fn term(bundle: &Bundle, t: usize, budget: usize) -> usize {
    let kind = bundle.term_field(t, 0);
    let first = bundle.term_field(t, 1);
    let second = bundle.term_field(t, 2);
    let third = bundle.term_field(t, 3);
    match Kind::of(kind) {
        Some(Kind::Variable) => leaf(b"v", first, budget),
        Some(Kind::Application) => {
            if bundle.first_link(second) == 0 {
                return constant(first, budget);
            }
            open_application(first);
            let after = arguments(bundle, t, second, budget);
            out::close();
            after
        }
        Some(Kind::Binder(binder)) => {
            open_binder(bundle, binder, first);
            let after = part(bundle, t, second, budget);
            out::close();
            after
        }
        Some(Kind::Let) => {
            open_let();
            let bound = bound_terms(bundle, t, first, second, budget);
            open_body();
            let after = part(bundle, t, third, bound);
            out::close();
            after
        }
        None => no_term(kind, first, second, third, budget),
    }
}
