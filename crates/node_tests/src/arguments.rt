// Words alone, and symbols with their arguments.
ghost use Rattle.std.specs.Prelude.{◌≡◌};
ghost use Rattle.bundle.specs.Links.{items};
ghost use Rattle.bundle.specs.Lists.{same_list};
ghost use Rattle.lexing.specs.Words.{word_in};
ghost use Rattle.lexing.specs.Lexes.{lexemes_of};
ghost use Rattle.reading.specs.Called.{symbol_called};
ghost use Rattle.bracketing.specs.Brackets.{parts_from};
ghost use Rattle.bracketing.specs.Nodes.{takes, word_fine, sort_from};

use bracketing::brackets::{after_formula, part_at};
use bracketing::sorts::sort_at;
use bundle::Bundle;
use lexing::names::{symbol_called, variable_called};
use lexing::words::Word;

// Whether the formulas of a text up to the closing bracket have the sorts of a list, one each.
fn arguments_fit(bundle: &Bundle, text: &[u8], list: usize) -> bool
    ensures { result ≡ same_list (items bundle.now list) (parts_from (sort_from bundle.now) (lexemes_of text.now)) }
{
    let mut rest = text;
    for sort in bundle.items(list) {
        let here = part_at(rest);
        let s = sort_at(bundle, rest);
        if !here | (sort != s) {
            return false;
        }
        rest = after_formula(rest);
    }
    !part_at(rest)
}

// Whether the symbol that is called so takes what follows it; a head that names no symbol is no node's.
pub fn symbol_fine(bundle: &Bundle, name: &[u8], rest: &[u8]) -> bool
    ensures { result ≡ takes bundle.now (symbol_called bundle.now name.now) (parts_from (sort_from bundle.now) (lexemes_of rest.now)) }
{
    match symbol_called(bundle.symbols(), name) {
        Some(f) => arguments_fit(bundle, rest, bundle.symbol_field(f - 32, 1)),
        None => true,
    }
}

// Whether a word alone is a variable, or a symbol that takes no argument; a word that is no name passes.
pub fn word_fine(bundle: &Bundle, word: Word) -> bool
    ensures { result ≡ word_fine bundle.now (word_in word.entry) }
{
    let Word::Name(name) = word else {
        return true;
    };
    if variable_called(bundle.variables(), name).is_some() {
        return true;
    }
    match symbol_called(bundle.symbols(), name) {
        Some(f) => bundle.first_link(bundle.symbol_field(f - 32, 1)) == 0,
        None => true,
    }
}
