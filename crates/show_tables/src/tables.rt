// What a refusal by 1 to 6 means: document 01's word for each check, and one sentence that says what is wrong there.
// Each function goes through the tests of its check, up to the first that fails; where only one is left, it is that one.

use bundle::{Bundle, Counts};
use declarations::{Section, section_fault};
use logic::checks::Check;
use show_text::out;

// A table of words: document 01's, as it prints them, and document 02's for 21 and 22. Other checks than these, and 15, are of no bundle.
pub fn word(check: Check) {
    match check {
        Check::Length => out::text(b"short"),
        Check::Version => out::text(b"foreign"),
        Check::Limits => out::text(b"oversize"),
        Check::Area => out::text(b"narrow bed"),
        Check::Next => out::text(b"broken chain"),
        Check::Declared => out::text(b"bad sort"),
        Check::Refers => out::text(b"bad stick"),
        Check::Sorted => out::text(b"missorted"),
        Check::New => out::text(b"twin"),
        Check::Context => out::text(b"bad setting"),
        Check::Settled => out::text(b"unsettled"),
        Check::Step => out::text(b"bad step"),
        Check::Matches => out::text(b"false step"),
        Check::Side => out::text(b"captured"),
        Check::Pairs => out::text(b"spent"),
        Check::Scope => out::text(b"stray"),
        _ => out::text(b"other claim"),
    }
}

// The same by number. One of no check has 15's word.
pub fn word_by_number(number: usize) {
    word(Check::of(number).unwrap_or(Check::Claim));
}

// ---- sentences of one shape: the numbers after a slice of words are what is printed, no length of the slice

// `WHAT n, not 1 to most`.
pub fn not_to(what: &[u8], n: usize, most: usize) {
    out::name(what, n);
    out::name(b", not 1 to ", most);
}

// A part of term i that is not a lower term.
pub fn not_lower(what: &[u8], i: usize) {
    out::text(what);
    out::name(b" is not one of the terms before t", i);
}

// A list that starts at a link that is not there.
pub fn no_list(what: &[u8], start: usize, links: usize) {
    out::name(what, start);
    out::name(b", and there are only links 1 to ", links);
}

// ---- tests that the sentences share

// The number before i.
pub fn before(i: usize) -> usize {
    i.saturating_sub(1)
}

// As crate terms has it for its own tests.
pub fn is_number(n: usize, most: usize) -> bool {
    (0 < n) & (n <= most)
}

// ---- 1 to 3: the file as a whole

pub fn too_short(length: usize) {
    out::print(format_args!("the file has {length} bytes, and a header alone has 36"));
}

pub fn wrong_length(length: usize, bytes: usize) {
    out::print(format_args!("the file has {length} bytes, and its counts ask for {bytes}"));
}

pub fn foreign(version: usize) {
    out::print(format_args!("the version is {version}, not 1"));
}

fn over(what: &str, count: usize, limit: usize) {
    out::print(format_args!("the header counts {count} {what}, and the limit is {limit}"));
}

// The first count over its limit.
pub fn oversize(counts: Counts) {
    if counts.symbols > Bundle::SYMBOLS {
        over("symbols", counts.symbols, Bundle::SYMBOLS);
    } else if counts.variables > Bundle::VARIABLES {
        over("variables", counts.variables, Bundle::VARIABLES);
    } else if counts.terms > Bundle::TERMS {
        over("terms", counts.terms, Bundle::TERMS);
    } else if counts.links > Bundle::LINKS {
        over("links", counts.links, Bundle::LINKS);
    } else if counts.contexts > Bundle::CONTEXTS {
        over("contexts", counts.contexts, Bundle::CONTEXTS);
    } else {
        over("steps", counts.steps, Bundle::STEPS);
    }
}

// ---- 5: links

pub fn bad_link(bundle: &Bundle, i: usize) {
    let next = bundle.link_field(i, 1);
    let last = bundle.links();
    out::print(format_args!(
        "link {i}: its next is {next}, neither 0 nor a link after {i}, and the last link is {last}"
    ));
}

// ---- 6: symbols and variables

fn bad_variable(bundle: &Bundle, i: usize) {
    let sort = bundle.variable_sort(i);
    out::print(format_args!("v{i}: its sort is {sort}, not 0 (Bool) or 1 (Item)"));
}

fn bad_symbol(bundle: &Bundle, i: usize) {
    let result = bundle.symbol_field(i, 0);
    let sorts = bundle.symbol_field(i, 1);
    out::declared(i);
    if result > 1 {
        out::print(format_args!(": its result sort is {result}, not 0 (Bool) or 1 (Item)"));
    } else if sorts > bundle.links() {
        no_list(
            b": its list of sorts starts at link ",
            sorts,
            bundle.links(),
        );
    } else {
        out::text(b": an argument sort is not 0 (Bool) or 1 (Item)");
    }
}

// The number is the symbols' where one of them is bad, for they come first.
pub fn bad_sort(bundle: &Bundle, i: usize) {
    match section_fault(bundle, Section::Symbols, bundle.symbols()) {
        Err(_) => bad_symbol(bundle, i),
        Ok(()) => bad_variable(bundle, i),
    }
}
