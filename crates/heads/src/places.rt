// What stands at the start of a text: the head of a formula, an item of a list.
ghost use Rattle.std.specs.Prelude.{◌≤◌};
ghost use Rattle.bundle.specs.Limits.{limits};
ghost use Rattle.heads.specs.Places.{head_in, HeadAt, BracketedAt, ListedAt, NamedAt, VariableAt, PartAt, PartEnd};

use crate::words::variable_for;
use crate::{Head, Headed, Item};
use lexing::lexemes::{Lexeme, after_lexeme, next_lexeme};
use lexing::words::Word;

// The head of a formula; `None` where none starts.
pub fn head_at<'a>(text: &'a [u8]) -> Option<Headed<'a>>
    ensures { HeadAt text.now result }
{
    let first = next_lexeme(text)?;
    match first.lexeme {
        Lexeme::Word(word) => Some(Headed {
            head: Head::Alone(word),
            rest: first.rest,
        }),
        Lexeme::Opens => bracketed_at(first.rest),
        Lexeme::Closes => None,
        Lexeme::Stray => None,
    }
}

// The same behind an opening bracket. The arms make the head that a word stands for: no table of functions, from which one is chosen.
fn bracketed_at<'a>(text: &'a [u8]) -> Option<Headed<'a>>
    ensures { BracketedAt text.now result }
{
    let next = next_lexeme(text)?;
    let Lexeme::Word(word) = next.lexeme else {
        return None;
    };
    match word {
        Word::Quantifier(binder) => listed_at(next.rest, Head::Quantifier(binder)),
        Word::Let => listed_at(next.rest, Head::Let),
        _ => Some(Headed {
            head: Head::Application(word),
            rest: next.rest,
        }),
    }
}

// A head that a list follows, with the text behind the opening bracket of the list.
fn listed_at<'a>(text: &'a [u8], head: Head<'a>) -> Option<Headed<'a>>
    ensures { ListedAt text.now (head_in head.entry) result }
{
    let opened = next_lexeme(text)?;
    Some(Headed {
        head,
        rest: opened.rest,
    })
}

// The item of the variable that is named at the start of a text.
fn named_at<'a>(text: &'a [u8], variables: usize) -> Item<'a>
    requires { variables ≤ limits.variables }
    ensures { NamedAt text.now variables result }
{
    let Some(first) = next_lexeme(text) else {
        return Item {
            variable: Some(0),
            rest: text,
        };
    };
    let Lexeme::Word(word) = first.lexeme else {
        return Item {
            variable: Some(0),
            rest: first.rest,
        };
    };
    Item {
        variable: Some(variable_for(variables, word).unwrap_or(0)),
        rest: first.rest,
    }
}

// Of a quantifier's variables, where so many are declared, the first; or their list's end.
pub fn variable_at<'a>(text: &'a [u8], variables: usize) -> Item<'a>
    requires { variables ≤ limits.variables }
    ensures { VariableAt text.now variables result }
{
    let Some(first) = next_lexeme(text) else {
        return Item {
            variable: None,
            rest: text,
        };
    };
    let Lexeme::Opens = first.lexeme else {
        return Item {
            variable: None,
            rest: first.rest,
        };
    };
    let named = named_at(first.rest, variables);
    Item {
        variable: named.variable,
        rest: after_lexeme(after_lexeme(named.rest)),
    }
}

// The first part: where it is bound, its variable, with the text that its formula starts; or the list's end. `bound` as the definitions have it: a let's
// pair or an argument.
pub fn part_at<'a>(text: &'a [u8], variables: usize, bound: bool) -> Item<'a>
    requires { variables ≤ limits.variables }
    ensures { PartAt text.now variables bound result }
{
    let Some(first) = next_lexeme(text) else {
        return Item {
            variable: None,
            rest: text,
        };
    };
    if let Lexeme::Closes = first.lexeme {
        return Item {
            variable: None,
            rest: first.rest,
        };
    }
    if bound {
        return named_at(first.rest, variables);
    }
    Item {
        variable: Some(0),
        rest: text,
    }
}

// What is left behind a part, from the text behind its formula. `bound` as in `part_at`.
pub fn part_end<'a>(text: &'a [u8], bound: bool) -> &'a [u8]
    ensures { PartEnd bound text.now result.now }
{
    if bound { after_lexeme(text) } else { text }
}
