// What a refusal by 22 means: a variable that is free in a side of a step, and that no entry of its context mentions.
ghost use Rattle.std.specs.Prelude.{◌≡◌, None};

use bundle::Bundle;
use show_rules::chains::chain_of;
use show_rules::strays::{Stray, find};
use show_text::out;

// Where the context ends, and that no entry up to there mentions x.
fn not_mentioned(bundle: &Bundle, context: usize, x: usize) {
    let Some(chain) = chain_of(bundle, context) else {
        out::text(b", and its context is the empty one, c0");
        return;
    };
    if chain.entries == 1 {
        out::print(format_args!(
            ", and c{context}, where its context ends, neither fixes nor replaces v{x}"
        ));
    } else {
        let entries = chain.entries;
        let last = chain.last;
        out::print(format_args!(
            ", and none of the {entries} entries of its context, from c{context} up to c{last}, where it ends, fixes or replaces v{x}"
        ));
    }
}

// What to do about it.
fn advice(context: usize, t: usize, x: usize) {
    if context == 0 {
        out::print(format_args!(
            ": bind v{x} in t{t}, or take the step in a context that fixes it"
        ));
    } else {
        out::print(format_args!(": add an entry that fixes v{x}, and bind it in the claim"));
    }
}

// Where no variable is stray the sentence names v0 and the right side.
fn none_in(right: usize) -> Stray
    ensures { (result.variable ≡ 0) × (result.term ≡ right) × (result.replacer ≡ None) }
{
    Stray {
        variable: 0,
        term: right,
        replacer: None,
    }
}

// 22: a free variable of a side that no entry mentions. Where 22 is the first check that fails, there is one.
pub fn stray_step(bundle: &Bundle, k: usize) {
    let context = bundle.step_field(k, 1);
    let left = bundle.step_field(k, 2);
    let right = bundle.step_field(k, 3);
    let stray = find(bundle, context, left, right).unwrap_or(none_in(right));
    out::name(b"step ", k);
    let x = stray.variable;
    let t = stray.term;
    let side = if t == left { "left" } else { "right" };
    out::print(format_args!(": v{x} is free in t{t}, its {side}"));
    not_mentioned(bundle, context, x);
    if let Some(c) = stray.replacer {
        out::print(format_args!(" (c{c} has v{x} only in a replacement)"));
    }
    advice(context, t, x);
}
