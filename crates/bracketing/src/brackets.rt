// Brackets counted: what follows a bracket and a name, what follows a formula.
ghost use Rattle.std.specs.Prelude.{◌≡◌, ◌<◌};
ghost use Rattle.lexing.specs.Words.{lexeme_in};
ghost use Rattle.lexing.specs.Lexes.{lexemes_of, rest_of, Leaves};
ghost use Rattle.bracketing.specs.Brackets.{open_after, after_formula, starts_part};

use lexing::lexemes::{Lexeme, after_lexeme, next_lexeme};

// How many brackets are open after a lexeme, where n were before it.
#[tactic(auto, using(crate::proofs::TextLaws::less_one), unfolding(crate::specs::Brackets::open_after))]
fn open_after(lexeme: Lexeme, n: usize) -> usize
    requires { n < 18446744073709551615 }
    ensures { result ≡ open_after (lexeme_in lexeme.entry) n }
{
    match lexeme {
        Lexeme::Opens => n + 1,
        Lexeme::Closes => n.saturating_sub(1),
        Lexeme::Stray | Lexeme::Word(_) => n,
    }
}

// What follows a bracket and a name.
pub fn after_name<'a>(text: &'a [u8]) -> &'a [u8]
    ensures { Leaves text.now (rest_of (rest_of (lexemes_of text.now))) result.now }
{
    after_lexeme(after_lexeme(text))
}

// Whether a part of a bracket starts here: a lexeme that does not close the bracket.
#[tactic(auto, using(crate::proofs::TextLaws::starts_not, crate::proofs::TextLaws::starts_next), unfolding(crate::specs::Brackets::starts_part))]
pub fn part_at(text: &[u8]) -> bool
    ensures { result ≡ starts_part (lexemes_of text.now) }
{
    match next_lexeme(text) {
        Some(l) => !matches!(l.lexeme, Lexeme::Closes),
        None => false,
    }
}

// What follows the first formula, or list.
pub fn after_formula<'a>(text: &'a [u8]) -> &'a [u8]
    ensures { Leaves text.now (after_formula (lexemes_of text.now)) result.now }
{
    let mut open = 0;
    let mut rest = text;
    // No `for`: what is left behind the last lexeme is handed on.
    while let Some(l) = next_lexeme(rest) {
        open = open_after(l.lexeme, open);
        rest = l.rest;
        if open == 0 {
            return rest;
        }
    }
    rest
}
