// The derivation as a graph, for Graphviz: a node for each step, an edge from each premise to its step.

use bundle::Bundle;
use show_text::out;

// `  s1 -> s3;`.
fn edge(premise: usize, step: usize) {
    out::print(format_args!("  s{premise} -> s{step};\n"));
}

fn edges(bundle: &Bundle, step: usize, list: usize) {
    for premise in bundle.items(list) {
        edge(premise, step);
    }
}

// `  s3 [label="3 CONG\nc1 ▷ t3 ≃ t4"];`, and its edges.
fn node(bundle: &Bundle, i: usize) {
    let rule = bundle.step_field(i, 0);
    let context = bundle.step_field(i, 1);
    let left = bundle.step_field(i, 2);
    let right = bundle.step_field(i, 3);
    let list = bundle.step_field(i, 4);
    out::print(format_args!("  s{i} [label=\"{i} "));
    out::rule(rule);
    out::text(b"\\n");
    out::judgement(context, left, right);
    out::text(b"\"];\n");
    edges(bundle, i, list);
}

pub fn nodes(bundle: &Bundle) {
    for i in 1..bundle.steps() + 1 {
        node(bundle, i);
    }
}
