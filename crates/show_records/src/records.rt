// A line for each record: declarations, terms by the numbers of their parts, contexts, steps.
ghost use Rattle.std.specs.Prelude.{◌≤◌};

use bundle::Bundle;
use logic::kinds::Entry;
use show_text::out;
use show_text::terms::term;

fn sort_item(s: usize) {
    out::sort(s);
    out::space();
}

// The argument sorts of a symbol, each before a space.
fn argument_sorts(bundle: &Bundle, list: usize) {
    for s in bundle.items(list) {
        sort_item(s);
    }
}

// `f34 : Item Item -> Bool`.
fn symbol_line(bundle: &Bundle, i: usize) {
    let result = bundle.symbol_field(i, 0);
    let sorts = bundle.symbol_field(i, 1);
    out::declared(i);
    out::text(b" : ");
    argument_sorts(bundle, sorts);
    if bundle.first_link(sorts) != 0 {
        out::text(b"-> ");
    }
    out::sort(result);
}

// `v1 : Item`.
fn variable_line(bundle: &Bundle, i: usize) {
    out::print(format_args!("v{i} : "));
    out::sort(bundle.variable_sort(i));
}

// `t5 = (f34 t2 t2)`: with no budget, parts are numbers.
fn term_line(bundle: &Bundle, i: usize) {
    out::print(format_args!("t{i} = "));
    term(bundle, i, 0);
}

fn replacement(v: usize, t: usize) {
    out::print(format_args!(", v{v} := t{t}"));
}

// `, v1 := t2, v3 := t4`, with t0 where there is no term for a variable.
fn replacements(bundle: &Bundle, variables: usize, terms: usize) {
    let mut others = bundle.items(terms);
    for v in bundle.items(variables) {
        replacement(v, others.next().unwrap_or(0));
    }
}

// `c2 = c1, v1 fixed` or `c3 = c2, v1 := t2`.
fn context_line(bundle: &Bundle, i: usize) {
    let kind = bundle.context_field(i, 0);
    let first = bundle.context_field(i, 1);
    let second = bundle.context_field(i, 2);
    let parent = bundle.context_field(i, 3);
    out::print(format_args!("c{i} = c{parent}"));
    match Entry::of(kind) {
        Some(Entry::Fixes) => out::print(format_args!(", v{first} fixed")),
        Some(Entry::Replaces) => replacements(bundle, first, second),
        None => out::print(format_args!(", kind {kind} {first} {second}")),
    }
}

// `  from 1, 2`, where there are any.
fn premises(bundle: &Bundle, list: usize) {
    let mut before: &[u8] = b"  from ";
    for premise in bundle.items(list) {
        out::name(before, premise);
        before = b", ";
    }
}

// `3. CONG  c1 ▷ t3 ≃ t4  from 1, 2`.
fn step_line(bundle: &Bundle, i: usize) {
    let context = bundle.step_field(i, 1);
    let left = bundle.step_field(i, 2);
    let right = bundle.step_field(i, 3);
    let list = bundle.step_field(i, 4);
    out::print(format_args!("{i}. "));
    out::rule(bundle.step_field(i, 0));
    out::text(b"  ");
    out::judgement(context, left, right);
    premises(bundle, list);
}

// The lines of a section of `count` records, each as `line` writes it.
fn section_lines<F: Fn(&Bundle, usize)>(bundle: &Bundle, count: usize, line: F)
    requires room { count ≤ 1024 }
    requires calls { F.IsAlwaysCallable line }
{
    for i in 1..count + 1 {
        line(bundle, i);
        out::line_end();
    }
}

// A term written out, as far as its first 4,000 parts.
fn whole_term(bundle: &Bundle, t: usize) {
    let left = term(bundle, t, 4000);
    if left == 0 {
        out::text(b"  (cut: a term that is only named here has a line below)");
    }
}

// The claim's left or right.
fn claimed(bundle: &Bundle, side: &[u8], t: usize) {
    out::text(side);
    out::name(b" t", t);
    if (0 < t) & (t <= bundle.terms()) {
        out::text(b" = ");
        whole_term(bundle, t);
    } else {
        out::text(b", which is not there");
    }
    out::line_end();
}

// All sections, and the claim after the declarations.
pub fn all_lines(bundle: &Bundle, left: usize, right: usize) {
    section_lines(bundle, bundle.symbols(), symbol_line);
    section_lines(bundle, bundle.variables(), variable_line);
    claimed(bundle, b"left ", left);
    claimed(bundle, b"right", right);
    section_lines(bundle, bundle.terms(), term_line);
    section_lines(bundle, bundle.contexts(), context_line);
    section_lines(bundle, bundle.steps(), step_line);
}
