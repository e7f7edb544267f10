// What a refusal by 13, 14 or 21 means: a step that is no instance of its rule, a side that fails, or a REFL whose walk is too long.
// Each function goes through the tests of its rule, up to the first that fails; where only one is left, it is that one.

use super::skolem::false_sko;
use bundle::Bundle;
use logic::kinds::{Binder, Kind, is_binder};
use logic::rules::Rule;
use show_text::out;
use show_walks::sentences::{failed_walk, spent_walk};

fn false_cong(bundle: &Bundle, context: usize, left: usize, right: usize) {
    let applied = Kind::of(bundle.term_field(left, 0)) == Some(Kind::Application);
    let result = Kind::of(bundle.term_field(right, 0)) == Some(Kind::Application);
    let same = bundle.term_field(left, 1) == bundle.term_field(right, 1);
    if !(applied & result & same) {
        out::print(format_args!(
            " is CONG, and t{left} and t{right} are not applications of one symbol"
        ));
    } else {
        out::print(format_args!(
            " is CONG, and t{left}'s arguments are not carried to those of t{right}, in order and in c{context}, by the premises"
        ));
    }
}

fn false_bind(bundle: &Bundle, context: usize, left: usize, right: usize) {
    let kind = bundle.term_field(left, 0);
    let same = kind == bundle.term_field(right, 0);
    let x = bundle.term_field(left, 1);
    let y = bundle.term_field(right, 1);
    if same & is_binder(kind) {
        let body = bundle.term_field(left, 2);
        let other = bundle.term_field(right, 2);
        out::print(format_args!(
            " is BIND, and its premise does not carry t{body} to t{other} in a context that replaces v{x} alone by v{y}, over one that fixes v{y}, over c{context}"
        ));
    } else {
        out::print(format_args!(
            " is BIND, and t{left} and t{right} are not two for-alls, two exists or two choices"
        ));
    }
}

fn false_let(bundle: &Bundle, context: usize, left: usize, right: usize) {
    if Kind::of(bundle.term_field(left, 0)) == Some(Kind::Let) {
        out::print(format_args!(
            " is LET, and its premises do not carry the bound terms of t{left} to some terms, in order and in c{context}, and then its body to t{right} in a context that replaces its variables by those terms, over c{context}"
        ));
    } else {
        out::print(format_args!(" is LET, and t{left} is no let"));
    }
}

// 13: any other mismatch with its rule.
pub fn false_step(bundle: &Bundle, k: usize) {
    let rule = bundle.step_field(k, 0);
    let context = bundle.step_field(k, 1);
    let left = bundle.step_field(k, 2);
    let right = bundle.step_field(k, 3);
    out::name(b"step ", k);
    match Rule::of(rule) {
        Some(Rule::Refl) => failed_walk(bundle, context, left, right),
        Some(Rule::Cong) => false_cong(bundle, context, left, right),
        Some(Rule::Bind) => false_bind(bundle, context, left, right),
        Some(Rule::Let) => false_let(bundle, context, left, right),
        Some(Rule::SkoExists) => false_sko(bundle, k, Binder::Exists),
        Some(Rule::SkoForAll) => false_sko(bundle, k, Binder::ForAll),
        Some(Rule::Trans) | None => out::print(format_args!(
            " is TRANS, and its premises do not carry t{left} to a middle term and that to t{right}, both in c{context}"
        )),
    }
}

// 14: TRANS's middle not settled, or a BIND side fails.
pub fn failed_side(bundle: &Bundle, k: usize) {
    let context = bundle.step_field(k, 1);
    let left = bundle.step_field(k, 2);
    let right = bundle.step_field(k, 3);
    let premise = bundle.link_field(bundle.first_link(bundle.step_field(k, 4)), 0);
    if Rule::of(bundle.step_field(k, 0)) == Some(Rule::Trans) {
        let middle = bundle.step_field(premise, 3);
        out::print(format_args!(
            "step {k} is TRANS, and its middle term, t{middle}, has a free variable that is moved in c{context}"
        ));
    } else {
        let variable = bundle.term_field(right, 1);
        out::print(format_args!(
            "step {k} is BIND, and v{variable} is free in t{left}, or in the image in c{context} of a variable free there"
        ));
    }
}

// 21: a REFL that would visit too many pairs.
pub fn spent_step(bundle: &Bundle, k: usize) {
    let left = bundle.step_field(k, 2);
    let right = bundle.step_field(k, 3);
    out::name(b"step ", k);
    spent_walk(left, right);
}
