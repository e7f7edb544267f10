// What a refusal by 10 and 11 means, in one sentence, as for terms.

use super::bad_terms::bad_pairs;
use bundle::Bundle;
use logic::kinds::Entry;
use show_tables::tables::{is_number, no_list, not_to};
use show_text::out;

// As `bad_variable_term`, in other words: one for both would be handed each sentence.
fn bad_fixing(bundle: &Bundle, v: usize, unused: usize) {
    if !is_number(v, bundle.variables()) {
        not_to(b" fixes variable ", v, bundle.variables());
    } else {
        out::name(
            b" fixes a variable, and the field that it does not use is ",
            unused,
        );
    }
}

// As `bad_let` for the variables, and in other words from there on.
fn bad_replacing(bundle: &Bundle, variables: usize, terms: usize) {
    if variables > bundle.links() {
        no_list(
            b": its list of variables starts at link ",
            variables,
            bundle.links(),
        );
    } else if !bundle.all_numbers(variables, bundle.variables()) {
        out::name(b": one of its variables is not 1 to ", bundle.variables());
    } else if terms > bundle.links() {
        no_list(
            b": its list of terms starts at link ",
            terms,
            bundle.links(),
        );
    } else if !bundle.all_numbers(terms, bundle.terms()) {
        out::name(b": one of its terms is not 1 to ", bundle.terms());
    } else {
        bad_pairs(bundle, variables);
    }
}

// 10: a context's kind, unused field, reference, lists.
pub fn bad_context(bundle: &Bundle, i: usize) {
    let kind = bundle.context_field(i, 0);
    let first = bundle.context_field(i, 1);
    let second = bundle.context_field(i, 2);
    let parent = bundle.context_field(i, 3);
    out::name(b"c", i);
    if i <= parent {
        out::print(format_args!(": its parent is c{parent}, not an earlier context"));
        return;
    }
    match Entry::of(kind) {
        Some(Entry::Fixes) => bad_fixing(bundle, first, second),
        Some(Entry::Replaces) => bad_replacing(bundle, first, second),
        None => not_to(b" has kind ", kind, Entry::COUNT),
    }
}

// 11: a replacement moved in its parent.
pub fn unsettled(bundle: &Bundle, i: usize) {
    let parent = bundle.context_field(i, 3);
    out::print(format_args!(
        "c{i}: one of its terms has a free variable that the parent, c{parent}, replaces by another term"
    ));
}
