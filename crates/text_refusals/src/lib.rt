// What a refusal says on standard error: a line with the numbers and what they mean; for a refused byte also its line and column, the text's line and a mark.
#![tactic(auto)]

ghost use Rattle.std.specs.Prelude.{◌+◌, ◌≤◌, ◌<◌, length};

use bundle::Bundle;
use logic::checks::{Check, Failure};
use std::fmt::Display;
use text_places::places::{content_end, line_end, place_of};
use text_places::shown::{mark_line, shown_from, shown_line, shown_to};

// The first bytes of an area, so many as a call that wrote to it has answered: a call answers with a length, and fills an area that is lent.
pub fn write_start(file: i32, area: &[u8], length: usize) {
    if let Some(start) = area.get(..length) {
        io::write_all(file, start);
    }
}

fn put(words: &[u8]) {
    io::write_all(2, words);
}

// What std's formats give; the lines of the text, which need not be UTF-8, go by `put`.
fn print<D: Display + Drop>(text: D) {
    printing::print(2, text);
}

fn limits() {
    print(format_args!(
        "the declarations have too many records: there may be {} symbols, {} variables and {} links, and nothing else",
        Bundle::SYMBOLS,
        Bundle::VARIABLES,
        Bundle::LINKS
    ));
}

fn full() {
    print(format_args!(
        "the formula is too large: a job may have {} terms and {} links, and equal parts count once",
        Bundle::TERMS,
        Bundle::LINKS
    ));
}

fn bad_sort(record: usize) {
    print(format_args!(
        "symbol {record} or variable {record} of the declarations has a sort that is not 0 or 1, or a list that starts past the links"
    ));
}

// What is wrong where no byte of the text is: with the declarations, or with the formula as a whole.
fn whole(failure: Failure) {
    match failure.check {
        Check::Length => put(
            b"the declarations are shorter than a header, or not as long as their counts say",
        ),
        Check::Version => put(b"the declarations are of a version other than 1"),
        Check::Limits => limits(),
        Check::Next => print(format_args!(
            "the declarations have a link that leads to no later one: link {}",
            failure.record
        )),
        Check::Declared => bad_sort(failure.record),
        Check::Sorted => put(
            b"a sort or a number of arguments is wrong, a let has a variable twice, or the formula is not Bool",
        ),
        Check::Room => full(),
        Check::Job => put(
            b"the declarations have terms, contexts, steps or a claim; they may declare symbols and variables only",
        ),
        _ => put(b"the areas of this program are too short"),
    }
    put(b"\n");
}

// `the symbols f33 to f36`.
fn names(kind: &str, letter: char, first: usize, last: usize) {
    if last < first {
        print(format_args!("no {kind}"));
    } else if first == last {
        print(format_args!("the {kind} {letter}{first}"));
    } else {
        print(format_args!("the {kind}s {letter}{first} to {letter}{last}"));
    }
}

// A name that is refused, beside declarations that passed their checks.
fn unknown(declarations: &[u8]) {
    put(b"a name that is not declared, or of the other kind");
    if declarations.len() >= Bundle::LEAST {
        let b = bundle::words::counts(declarations);
        let symbols = b.symbols;
        if symbols <= Bundle::SYMBOLS {
            put(b": there are ");
            names("symbol", 'f', 33, 32 + symbols);
            put(b" and ");
            names("variable", 'v', 1, b.variables);
        }
    }
}

fn unread(byte: u8) {
    if byte == b')' {
        put(b"this bracket closes too soon, or closes nothing");
        return;
    }
    put(b"no formula goes on like this: something else is due here, or nothing more");
}

fn put_if(is_due: bool, words: &[u8]) {
    if is_due {
        put(words);
    }
}

// A part of a line, with dots where more stands before or after it, and a mark under its byte `at`.
fn show_part(part: &[u8], at: usize, is_cut_before: bool, is_cut_after: bool)
    requires { (at ≤ length part.now) × (at ≤ 60) × (length part.now ≤ at + 40) }
{
    let mut line = [0u8; 128];
    let mut under = [0u8; 128];
    let shown = shown_line(part, &mut line);
    let mark = mark_line(&part[..at], &mut under);
    put_if(is_cut_before, b"...");
    put(shown);
    put_if(is_cut_after, b"...");
    put(b"\n");
    put_if(is_cut_before, b"   ");
    put(mark);
    put(b"\n");
}

// The line of a byte, or what is near the byte, and the mark under it. A place in the text, since that is what a refusal tells.
fn show_line(text: &[u8], at: usize)
    requires { at ≤ length text.now }
{
    let place = place_of(text, at);
    let start = place.start;
    let end = line_end(text, at);
    let from = shown_from(text, start, at);
    let to = shown_to(text, at, end);
    show_part(&text[from..to], at - from, start < from, to < end);
}

// `line 1, column 13: `.
fn put_place(text: &[u8], at: usize)
    requires { at ≤ length text.now }
{
    let place = place_of(text, at);
    print(format_args!("line {}, column {}: ", place.line, place.column));
}

// The text's end, where the formula is not complete: the last line with anything in it is shown.
fn too_short(text: &[u8]) {
    put_place(text, text.len());
    put(b"the text stops too soon: the formula is not complete\n");
    show_line(text, content_end(text));
}

// A byte of the text that is refused, told by its place.
fn at_byte(declarations: &[u8], text: &[u8], check: Check, at: usize)
    requires { at < length text.now }
{
    put_place(text, at);
    if check == Check::Name {
        unknown(declarations);
    } else {
        unread(text[at]);
    }
    put(b"\n");
    show_line(text, at);
}

// A text that is no formula, or a name in it that is not known.
fn in_text(declarations: &[u8], text: &[u8], failure: Failure) {
    if failure.record < text.len() {
        at_byte(declarations, text, failure.check, failure.record);
    } else {
        too_short(text);
    }
}

// The checks of a text are the last; 21 and 22, which it is not asked, are told as 19.
fn tell(declarations: &[u8], text: &[u8], number: usize, failure: Failure) {
    print(format_args!("refused {number} {}: ", failure.record));
    match failure.check {
        Check::Text | Check::Name | Check::Pairs | Check::Scope => {
            in_text(declarations, text, failure)
        }
        _ => whole(failure),
    }
}

pub fn refusal(declarations: &[u8], text: &[u8], failure: Failure) {
    tell(declarations, text, failure.check.number(), failure);
}

// The same by number. One of no check is told as 4 below the text's checks, and as 19 above.
pub fn refusal_by_number(declarations: &[u8], text: &[u8], number: usize, record: usize) {
    let check = match Check::of(number) {
        Some(check) => check,
        None => {
            if number < Check::Text.number() {
                Check::Area
            } else {
                Check::Text
            }
        }
    };
    tell(declarations, text, number, Failure { check, record });
}
