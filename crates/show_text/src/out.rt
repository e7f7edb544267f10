// Pieces of text on standard output: words, numbers and names. A sentence is one format; sorts, symbols and rules are functions, since they are numbers in a
// file, some of which name none: a `Display` would want a type around each number and the same table.
use bundle::Bundle;
use logic::rules::Rule;
use std::fmt::Display;

// What std's formats give, as `print(format_args!("t{t}"))`.
pub fn print<D: Display + Drop>(text: D) {
    printing::print(1, text);
}

pub fn text(words: &[u8]) {
    io::write_all(1, words);
}

pub fn number(n: usize) {
    io::print_decimal(1, n as u64);
}

// A name is a letter and a number: f33 a symbol, v1 a variable, t5 a term, c2 a context, s3 a step. The number is what is printed, no length of the slice.
pub fn name(letter: &[u8], n: usize) {
    text(letter);
    number(n);
}

pub fn space() {
    text(b" ");
}

pub fn close() {
    text(b")");
}

pub fn line_end() {
    text(b"\n");
}

// A sort: a table of words.
pub fn sort(s: usize) {
    match s {
        0 => text(b"Bool"),
        1 => text(b"Item"),
        _ => name(b"sort", s),
    }
}

// A symbol as SMT-LIB names it: a table of the built-in ones' words, and the others by their numbers.
pub fn symbol(f: usize) {
    match f {
        1 => text(b"true"),
        2 => text(b"false"),
        3 => text(b"not"),
        4 => text(b"and"),
        5 => text(b"or"),
        6 => text(b"=>"),
        7 | 8 => text(b"="),
        _ => name(b"f", f),
    }
}

// A declared symbol, by its record.
pub fn declared(i: usize) {
    if i <= Bundle::SYMBOLS {
        name(b"f", 32 + i);
    } else {
        name(b"symbol ", i);
    }
}

// A rule: a table of words.
pub fn rule(r: usize) {
    match Rule::of(r) {
        Some(Rule::Refl) => text(b"REFL"),
        Some(Rule::Cong) => text(b"CONG"),
        Some(Rule::Trans) => text(b"TRANS"),
        Some(Rule::Bind) => text(b"BIND"),
        Some(Rule::Let) => text(b"LET"),
        Some(Rule::SkoExists) => text(b"SKO exists"),
        Some(Rule::SkoForAll) => text(b"SKO for-all"),
        None => name(b"rule ", r),
    }
}

// What a step says: c1 ▷ t3 ≃ t4.
pub fn judgement(context: usize, left: usize, right: usize) {
    print(format_args!("c{context} ▷ t{left} ≃ t{right}"));
}
