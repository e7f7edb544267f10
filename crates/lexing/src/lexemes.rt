// The next lexeme of a text, and what follows it.
ghost use Rattle.std.specs.Prelude.{MatchOption, ◌≡◌, ◌<◌, [], length, get_or};
ghost use Rattle.grammar.specs.Bytes.{class_of};
ghost use Rattle.lexing.specs.Codes.{class_code};
ghost use Rattle.lexing.specs.Lexes.{skips, Skipped, RunEnds, lexemes_of, Found, rest_of, Leaves};

use crate::runs::{Class, class_code, class_of};
use crate::words::{Word, word_of};

#[derive(Clone, Copy)]
pub enum Lexeme<'a> {
    Opens,
    Closes,
    // A byte that no lexeme starts with.
    Stray,
    Word(Word<'a>),
}

// A lexeme, and the text behind it.
#[derive(Clone, Copy)]
pub struct Lexed<'a> {
    pub lexeme: Lexeme<'a>,
    pub rest: &'a [u8],
}

// What a byte of a class does, between lexemes and (8 on) in a comment. A number: 0 and 1 are rows of the table, by which it is read again.
fn skip_mode(at: usize) -> u8
    requires { at < 16 }
    ensures { result ≡ get_or skips at 0 }
{
    let table = b"\x00\x00\x01\x02\x02\x02\x02\x02\x01\x00\x01\x01\x01\x01\x01\x01";
    table[at]
}

// The text behind its white space and comments. No `position`: whether a byte is skipped hangs on those before it, which its test would have to keep.
fn skipped(text: &[u8]) -> &[u8]
    ensures { Skipped text.now result.now }
{
    let mut mode = 0;
    for j in 0..text.len() {
        let class = class_code(text[j]);
        mode = usize::from(skip_mode(8 * mode + class));
        if mode == 2 {
            return &text[j..];
        }
    }
    &text[text.len()..]
}

// The end of the run of symbol characters at the start of a text. No `position`: it counts from byte 1 and gives `None` for the text's end, so that both
// would be put back behind it.
fn run_end(text: &[u8]) -> usize
    requires { (0 < length text.now) × (class_code (class_of (get_or text.now 0 0)) ≡ 6) }
    ensures { RunEnds text.now result }
{
    for j in 1..text.len() {
        let class = class_of(text[j]);
        if !class.goes_on() {
            return j;
        }
    }
    text.len()
}

// The first lexeme of a text; `None` where there is no more.
pub fn next_lexeme<'a>(text: &'a [u8]) -> Option<Lexed<'a>>
    ensures { MatchOption result (lexemes_of text.now ≡ []) (Found text.now) }
{
    let start = skipped(text);
    if start.len() == 0 {
        return None;
    }
    let class = class_of(start[0]);
    if let Class::Symbol = class {
        let end = run_end(start);
        return Some(Lexed {
            lexeme: Lexeme::Word(word_of(&start[..end])),
            rest: &start[end..],
        });
    }
    let lexeme = match class {
        Class::Opening => Lexeme::Opens,
        Class::Closing => Lexeme::Closes,
        _ => Lexeme::Stray,
    };
    Some(Lexed {
        lexeme,
        rest: &start[1..],
    })
}

// The text behind its first lexeme, if it has one.
pub fn after_lexeme<'a>(text: &'a [u8]) -> &'a [u8]
    ensures { Leaves text.now (rest_of (lexemes_of text.now)) result.now }
{
    match next_lexeme(text) {
        Some(first) => first.rest,
        None => text,
    }
}
