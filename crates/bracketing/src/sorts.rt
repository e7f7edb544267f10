// What a word names, and the sort of the formula at the front of a text.
ghost use Rattle.std.specs.Prelude.{IfSome, ◌≡◌, ◌≤◌};
ghost use Rattle.bundle.specs.Limits.{limits};
ghost use Rattle.lexing.specs.Counted.{Numbered, variable_among};
ghost use Rattle.lexing.specs.Words.{word_in};
ghost use Rattle.lexing.specs.Lexes.{lexemes_of, rest_of};
ghost use Rattle.bracketing.specs.Brackets.{front_of};
ghost use Rattle.bracketing.specs.Nodes.{name_in, word_sort, result_of, sort_from};
ghost use Rattle.bracketing.specs.Texts.{Worded, Says};

use super::brackets::after_formula;
use bundle::Bundle;
use lexing::lexemes::{Lexeme, after_lexeme, next_lexeme};
use lexing::names::{symbol_called, variable_called};
use lexing::words::{SortWord, Word};
use sorting::sorts::{result_sort, signature_of};

// The word at the front.
fn word_at<'a>(text: &'a [u8]) -> Option<Word<'a>>
    ensures { Worded (front_of (lexemes_of text.now)) result }
{
    match next_lexeme(text)?.lexeme {
        Lexeme::Word(word) => Some(word),
        Lexeme::Opens | Lexeme::Closes | Lexeme::Stray => None,
    }
}

// The variable after the bracket at the front, where so many are declared.
pub fn variable_at(variables: usize, text: &[u8]) -> Option<usize>
    requires { variables ≤ limits.variables }
    ensures called { Numbered (variable_among variables (name_in (front_of (rest_of (lexemes_of text.now))))) result }
    ensures small { IfSome result (λ x. x ≤ limits.variables) }
{
    match word_at(after_lexeme(text))? {
        Word::Name(name) => variable_called(variables, name),
        _ => None,
    }
}

// The word for a sort at the front.
pub fn said_at(text: &[u8]) -> Option<SortWord>
    ensures { Says (front_of (lexemes_of text.now)) result }
{
    match word_at(text)? {
        Word::Sort(sort) => Some(sort),
        _ => None,
    }
}

// The sort of a bracket with this head, a let apart: all but a declared symbol make truths.
fn result_of(bundle: &Bundle, head: Word) -> usize
    ensures { result ≡ result_of bundle.now (word_in head.entry) }
{
    if let Word::Name(name) = head {
        if let Some(f) = symbol_called(bundle.symbols(), name) {
            return result_sort(bundle, signature_of(bundle, f));
        }
    }
    0
}

// The sort of a word alone.
fn word_sort(bundle: &Bundle, word: Word) -> usize
    ensures { result ≡ word_sort bundle.now (word_in word.entry) }
{
    if let Word::Name(name) = word {
        if let Some(x) = variable_called(bundle.variables(), name) {
            return bundle.variable_sort(x);
        }
    }
    result_of(bundle, word)
}

// The sort of the formula at the front: a let's is its body's. 0, the sort of truths, where no formula stands, as the definition has it.
pub fn sort_at(bundle: &Bundle, text: &[u8]) -> usize
    ensures { result ≡ sort_from bundle.now (lexemes_of text.now) }
{
    let mut rest = text;
    // No `for`: a turn goes on behind the bindings of a let.
    loop {
        let Some(l) = next_lexeme(rest) else {
            return 0;
        };
        match l.lexeme {
            Lexeme::Opens => {}
            Lexeme::Word(word) => return word_sort(bundle, word),
            Lexeme::Closes | Lexeme::Stray => return 0,
        }
        let Some(h) = next_lexeme(l.rest) else {
            return 0;
        };
        let Lexeme::Word(head) = h.lexeme else {
            return 0;
        };
        let Word::Let = head else {
            return result_of(bundle, head);
        };
        rest = after_formula(h.rest);
    }
}
