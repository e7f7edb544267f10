// The variable or the symbol that a word stands for.
ghost use Rattle.std.specs.Prelude.{◌≡◌, ◌≤◌};
ghost use Rattle.reading.specs.Typing.{connective_symbol};
ghost use Rattle.lexing.specs.Counted.{Numbered};
ghost use Rattle.lexing.specs.Words.{connective_in, word_in};
ghost use Rattle.heads.specs.HeadSymbols.{symbol_for, variable_for};

use lexing::names::{symbol_called, variable_called};
use lexing::words::{Connective, Word};

// The variable, where so many are declared.
pub fn variable_for(variables: usize, word: Word<'_>) -> Option<usize>
    requires { variables ≤ 4294967295 }
    ensures { Numbered (variable_for variables (word_in word.entry)) result }
{
    match word {
        Word::Name(run) => variable_called(variables, run),
        _ => None,
    }
}

// The symbol of a connective, where the first argument has this sort. Numbers, as records have them: the symbol is placed as it is.
fn connective_symbol(connective: Connective, sort: usize) -> usize
    ensures { (result ≡ connective_symbol (connective_in connective) sort) × (result ≤ 8) }
{
    match connective {
        Connective::And => 4,
        Connective::Or => 5,
        Connective::Implies => 6,
        Connective::Equal => if sort == 0 { 7 } else { 8 },
    }
}

// The symbol, where so many are declared and the first argument has this sort; 0 for none, as records and definitions have it: it is placed as it is.
pub fn symbol_for(symbols: usize, word: Word<'_>, sort: usize) -> usize
    requires { symbols ≤ 4294967263 }
    ensures { (result ≡ symbol_for symbols (word_in word.entry) sort) × (result ≤ 4294967295) }
{
    match word {
        Word::Constant(value) => if value { 1 } else { 2 },
        Word::Negation => 3,
        Word::Connective(connective) => connective_symbol(connective, sort),
        Word::Name(run) => symbol_called(symbols, run).unwrap_or(0),
        Word::Quantifier(_) => 0,
        Word::Let => 0,
        Word::Sort(_) => 0,
    }
}
