// What a refusal by 12 to 15, 21 or 22 means, in one sentence, and the sentence for every check.
// Each function goes through the tests of its check, up to the first that fails; where only one is left, it is that one.

use super::strays::stray_step;
use bundle::Bundle;
use logic::checks::{Check, Failure};
use logic::rules::Rule;
use show_rules::failures::{failed_side, false_step, spent_step};
use show_tables::tables::{bad_link, bad_sort, before, is_number, no_list, not_to};
use show_terms::bad_contexts::{bad_context, unsettled};
use show_terms::bad_terms::{bad_term, missorted, repeated_term};
use show_text::out;

// ---- 12: steps

fn takes(rule: usize, premises: &[u8]) {
    out::text(b" is ");
    out::rule(rule);
    out::text(b", which takes ");
    out::text(premises);
}

// A table of words.
fn wrong_count(rule: usize) {
    match Rule::of(rule) {
        Some(Rule::Refl) => takes(rule, b"no premises"),
        Some(Rule::Trans) => takes(rule, b"two premises"),
        Some(Rule::Bind) | Some(Rule::SkoExists) | Some(Rule::SkoForAll) => {
            takes(rule, b"one premise")
        }
        Some(Rule::Cong) | Some(Rule::Let) | None => not_to(b" has rule ", rule, Rule::COUNT),
    }
}

fn bad_premises(bundle: &Bundle, k: usize, rule: usize, list: usize) {
    if list > bundle.links() {
        no_list(
            b": its list of premises starts at link ",
            list,
            bundle.links(),
        );
    } else if !bundle.all_numbers(list, before(k)) {
        out::text(b": a premise is not an earlier step");
    } else {
        wrong_count(rule);
    }
}

// 12: a step's rule or reference, or premise count of REFL, TRANS, BIND, SKO.
fn bad_step(bundle: &Bundle, k: usize) {
    let rule = bundle.step_field(k, 0);
    let context = bundle.step_field(k, 1);
    let left = bundle.step_field(k, 2);
    let right = bundle.step_field(k, 3);
    let list = bundle.step_field(k, 4);
    out::name(b"step ", k);
    if context > bundle.contexts() {
        let contexts = bundle.contexts();
        out::print(format_args!(": its context is {context}, not 0 to {contexts}"));
    } else if !is_number(left, bundle.terms()) {
        not_to(b": its left is ", left, bundle.terms());
    } else if !is_number(right, bundle.terms()) {
        not_to(b": its right is ", right, bundle.terms());
    } else {
        bad_premises(bundle, k, rule, list);
    }
}

// ---- 15: the claim

fn other_claim(bundle: &Bundle, left: usize, right: usize) {
    let last = bundle.steps();
    if last == 0 {
        out::text(b"there is no step");
    } else {
        out::text(b"the claim is ");
        out::judgement(0, left, right);
        out::print(format_args!(", and the last step, {last}, gives "));
        out::judgement(
            bundle.step_field(last, 1),
            bundle.step_field(last, 2),
            bundle.step_field(last, 3),
        );
    }
}

// The sentence for a file that is whole and claims left and right: a table of sentences.
pub fn sentence(bundle: &Bundle, left: usize, right: usize, failure: Failure) {
    let record = failure.record;
    match failure.check {
        Check::Next => bad_link(bundle, record),
        Check::Declared => bad_sort(bundle, record),
        Check::Refers => bad_term(bundle, record),
        Check::Sorted => missorted(bundle, record),
        Check::New => repeated_term(bundle, record),
        Check::Context => bad_context(bundle, record),
        Check::Settled => unsettled(bundle, record),
        Check::Step => bad_step(bundle, record),
        Check::Matches => false_step(bundle, record),
        Check::Side => failed_side(bundle, record),
        Check::Claim => other_claim(bundle, left, right),
        Check::Pairs => spent_step(bundle, record),
        Check::Scope => stray_step(bundle, record),
        _ => out::text(b"the area lent to the checker is too short"),
    }
}

// The same by number. One of no check has the sentence of 4.
pub fn sentence_by_number(
    bundle: &Bundle,
    left: usize,
    right: usize,
    number: usize,
    record: usize,
) {
    let check = Check::of(number).unwrap_or(Check::Area);
    sentence(bundle, left, right, Failure { check, record });
}
