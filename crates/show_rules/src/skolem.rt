// What a refusal by 13 means for a step by SKO: the first test of its rule that fails. The parent of the premise's context is asked for before the term
// that this context puts in, so that where only one test is left it is whether that term is the choice that is due.

use bundle::Bundle;
use logic::kinds::{Binder, Entry, Kind};
use show_text::out;

// A quantifier's name.
fn word(quantifier: Binder) -> &'static str {
    match quantifier {
        Binder::ForAll => "for-all",
        Binder::Exists => "exists",
        Binder::Choice => "choice",
    }
}

fn is_a(bundle: &Bundle, t: usize, binder: Binder) -> bool {
    Kind::of(bundle.term_field(t, 0)) == Some(Kind::Binder(binder))
}

fn carries(bundle: &Bundle, premise: usize, left: usize, right: usize) -> bool {
    (bundle.step_field(premise, 2) == left) & (bundle.step_field(premise, 3) == right)
}

// The premise carries something else than the body to the right side.
fn other_premise(bundle: &Bundle, premise: usize, body: usize, right: usize) {
    out::print(format_args!("its premise, step {premise}, gives "));
    out::judgement(
        bundle.step_field(premise, 1),
        bundle.step_field(premise, 2),
        bundle.step_field(premise, 3),
    );
    out::print(format_args!(" and does not carry t{body}, the body, to t{right}, the right side"));
}

// Whether context c replaces variable x alone.
fn replaces_alone(bundle: &Bundle, c: usize, x: usize) -> bool {
    let variables = bundle.context_field(c, 1);
    (Entry::of(bundle.context_field(c, 0)) == Some(Entry::Replaces))
        & bundle.is_single(variables)
        & (bundle.first_item(variables) == x)
}

// Context c replaces x by a term that is not the choice that is due.
fn other_choice(bundle: &Bundle, quantifier: Binder, c: usize, x: usize, body: usize) {
    let t = bundle.first_item(bundle.context_field(c, 2));
    out::print(format_args!("c{c} replaces v{x} by t{t}, "));
    if is_a(bundle, t, Binder::Choice) {
        let y = bundle.term_field(t, 1);
        let other = bundle.term_field(t, 2);
        out::print(format_args!("the choice of v{y} in t{other}, "));
    } else {
        out::text(b"which is no choice, ");
    }
    out::print(format_args!("and not by the choice of v{x} in "));
    match quantifier {
        Binder::ForAll => out::print(format_args!("(not t{body})")),
        Binder::Exists | Binder::Choice => out::print(format_args!("t{body}")),
    }
}

// The context c of the premise is not the one that the step's context and the left side's variable and body ask for.
fn other_context(bundle: &Bundle, quantifier: Binder, c: usize, context: usize, left: usize) {
    let x = bundle.term_field(left, 1);
    let parent = bundle.context_field(c, 3);
    if !replaces_alone(bundle, c, x) {
        out::print(format_args!("c{c}, the context of its premise, does not replace v{x} alone"));
    } else if parent != context {
        out::print(format_args!(
            "c{c}, the context of its premise, has the parent c{parent}, not the step's context, c{context}"
        ));
    } else {
        other_choice(bundle, quantifier, c, x, bundle.term_field(left, 2));
    }
}

// 13, of a step by SKO for a quantifier, after its rule is named.
pub fn false_sko(bundle: &Bundle, k: usize, quantifier: Binder) {
    let left = bundle.step_field(k, 2);
    let right = bundle.step_field(k, 3);
    let premise = bundle.first_item(bundle.step_field(k, 4));
    let body = bundle.term_field(left, 2);
    out::text(b" is ");
    out::rule(bundle.step_field(k, 0));
    out::text(b", and ");
    if !is_a(bundle, left, quantifier) {
        out::print(format_args!("t{left} is no {}", word(quantifier)));
    } else if !carries(bundle, premise, body, right) {
        other_premise(bundle, premise, body, right);
    } else {
        other_context(
            bundle,
            quantifier,
            bundle.step_field(premise, 1),
            bundle.step_field(k, 1),
            left,
        );
    }
}
