// What a refusal by 7 to 9 means, in one sentence. Each function goes through the tests of its check, up to the first that fails; where only one is
// left, it is that one.

use bundle::Bundle;
use duplicates::same_term;
use logic::kinds::{Binder, Kind};
use show_tables::tables::{before, is_number, no_list, not_lower, not_to};
use show_text::out;
use sorting::sorts::{is_known, signature_of};

fn bad_variable_term(bundle: &Bundle, v: usize) {
    if !is_number(v, bundle.variables()) {
        not_to(b" is variable ", v, bundle.variables());
    } else {
        out::text(b" is a variable, and a field that it does not use is not 0");
    }
}

fn bad_application(bundle: &Bundle, i: usize, f: usize, list: usize) {
    if !is_known(signature_of(bundle, f)) {
        let last = 32 + bundle.symbols();
        out::print(format_args!(
            " applies symbol {f}, neither built in (1 to 8) nor declared (33 up to {last})"
        ));
    } else if list > bundle.links() {
        no_list(
            b": its list of arguments starts at link ",
            list,
            bundle.links(),
        );
    } else if !bundle.all_numbers(list, before(i)) {
        not_lower(b": an argument", i);
    } else {
        out::text(b" is an application, and the field that it does not use is not 0");
    }
}

fn unused_field(binder: Binder) {
    match binder {
        Binder::ForAll | Binder::Exists => out::text(b" is a quantifier"),
        Binder::Choice => out::text(b" is a choice"),
    }
    out::text(b", and the field that it does not use is not 0");
}

fn bad_binder(bundle: &Bundle, i: usize, binder: Binder, v: usize, body: usize) {
    if !is_number(v, bundle.variables()) {
        not_to(b" binds variable ", v, bundle.variables());
    } else if !is_number(body, before(i)) {
        out::name(b": its body, t", body);
        not_lower(b",", i);
    } else {
        unused_field(binder);
    }
}

fn bad_let(bundle: &Bundle, i: usize, variables: usize, terms: usize, body: usize) {
    if variables > bundle.links() {
        no_list(
            b": its list of variables starts at link ",
            variables,
            bundle.links(),
        );
    } else if !bundle.all_numbers(variables, bundle.variables()) {
        out::name(b": one of its variables is not 1 to ", bundle.variables());
    } else if terms > bundle.links() {
        no_list(
            b": its list of bound terms starts at link ",
            terms,
            bundle.links(),
        );
    } else if !bundle.all_numbers(terms, before(i)) {
        not_lower(b": a bound term", i);
    } else {
        out::name(b": its body, t", body);
        not_lower(b",", i);
    }
}

// 7: a term's kind, unused field or reference.
pub fn bad_term(bundle: &Bundle, i: usize) {
    let kind = bundle.term_field(i, 0);
    let first = bundle.term_field(i, 1);
    let second = bundle.term_field(i, 2);
    let third = bundle.term_field(i, 3);
    out::name(b"t", i);
    match Kind::of(kind) {
        Some(Kind::Variable) => bad_variable_term(bundle, first),
        Some(Kind::Application) => bad_application(bundle, i, first, second),
        Some(Kind::Binder(binder)) => bad_binder(bundle, i, binder, first, second),
        Some(Kind::Let) => bad_let(bundle, i, first, second, third),
        None => not_to(b" has kind ", kind, Kind::COUNT),
    }
}

// The lists of a let or of a replacing context do not agree.
pub fn bad_pairs(bundle: &Bundle, variables: usize) {
    if bundle.first_link(variables) == 0 {
        out::text(b" has no variables");
    } else if !bundle.all_different(variables) {
        out::text(b" has a variable twice");
    } else {
        out::text(b": its terms are not as many as its variables, or not of the same sorts");
    }
}

// 8: argument, body or let counts, sorts, repeats.
pub fn missorted(bundle: &Bundle, i: usize) {
    let kind = bundle.term_field(i, 0);
    let first = bundle.term_field(i, 1);
    let second = bundle.term_field(i, 2);
    out::name(b"t", i);
    match Kind::of(kind) {
        Some(Kind::Application) => {
            out::print(format_args!(": its arguments are not as many as symbol {first} ("));
            out::symbol(first);
            out::text(b") takes, or not of its sorts");
        }
        Some(Kind::Let) => bad_pairs(bundle, first),
        _ => out::print(format_args!(": its body, t{second}, is not of the sort Bool")),
    }
}

// 9: a term equal to an earlier one. Where 9 is the first check that fails, there is one.
pub fn repeated_term(bundle: &Bundle, i: usize) {
    let earlier = (1..i).find(|j| same_term(bundle, *j, i));
    let earlier = earlier.unwrap_or(i);
    out::print(format_args!("t{i} is the same term as t{earlier}"));
}
