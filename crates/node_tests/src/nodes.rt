// Every node of a text, and the whole text.
ghost use Rattle.std.specs.Prelude.{◌≡◌, ◌∷◌, false};
ghost use Rattle.lexing.specs.Words.{word_in, lexeme_in};
ghost use Rattle.lexing.specs.Lexes.{lexemes_of};
ghost use Rattle.bracketing.specs.Nodes.{head_fine, inside_fine, node_fine, fine_from};
ghost use Rattle.node_tests.specs.Tests.{Judges};

use super::arguments::{symbol_fine, word_fine};
use super::heads::{connective_fine, let_fine, quantifier_fine};
use bracketing::sorts::sort_at;
use bundle::Bundle;
use lexing::lexemes::{Lexed, Lexeme, next_lexeme};
use lexing::words::Word;

// The test of a bracket, by its head and what follows the head.
#[tactic(auto, unfolding(bracketing::specs::Nodes::head_fine))]
fn head_fine(bundle: &Bundle, head: Word, rest: &[u8]) -> bool
    ensures { result ≡ head_fine bundle.now (word_in head.entry) (lexemes_of rest.now) }
{
    match head {
        Word::Name(name) => symbol_fine(bundle, name, rest),
        Word::Negation => sort_at(bundle, rest) == 0,
        Word::Connective(connective) => connective_fine(bundle, connective, rest),
        Word::Quantifier(_) => quantifier_fine(bundle, rest),
        Word::Let => let_fine(bundle, rest),
        Word::Constant(_) | Word::Sort(_) => true,
    }
}

// The test of the bracket whose head is at the front; a bracket that starts a list has no head.
fn bracket_fine(bundle: &Bundle, text: &[u8]) -> bool
    ensures { result ≡ inside_fine bundle.now (lexemes_of text.now) }
{
    let Some(h) = next_lexeme(text) else {
        return true;
    };
    match h.lexeme {
        Lexeme::Word(head) => head_fine(bundle, head, h.rest),
        Lexeme::Opens | Lexeme::Closes | Lexeme::Stray => true,
    }
}

// The test of the node that a lexeme starts; `head` says that a bracket stands just before it.
#[tactic(auto, unfolding(bracketing::specs::Nodes::node_fine))]
fn node_fine(bundle: &Bundle, head: bool, l: Lexed) -> bool
    ensures { result ≡ node_fine bundle.now head (lexeme_in l.entry.lexeme ∷ lexemes_of l.entry.rest.now) }
{
    match l.lexeme {
        Lexeme::Opens => bracket_fine(bundle, l.rest),
        Lexeme::Word(word) => head || word_fine(bundle, word),
        Lexeme::Closes | Lexeme::Stray => true,
    }
}

// The tests of all nodes of a text, one after another.
fn all_fine(bundle: &Bundle, text: &[u8]) -> bool
    ensures { result ≡ fine_from bundle.now false (lexemes_of text.now) }
{
    let mut head = false;
    let mut rest = text;
    // No `for`: a node's test reads on behind its lexeme.
    while let Some(l) = next_lexeme(rest) {
        if !node_fine(bundle, head, l) {
            return false;
        }
        head = matches!(l.lexeme, Lexeme::Opens);
        rest = l.rest;
    }
    true
}

// Whether the formula of a text, where its names are known, is well sorted and Bool.
pub fn text_fine(bundle: &Bundle, text: &[u8]) -> bool
    ensures { Judges bundle.now text.now result }
{
    let sort = sort_at(bundle, text);
    if sort != 0 {
        return false;
    }
    all_fine(bundle, text)
}
