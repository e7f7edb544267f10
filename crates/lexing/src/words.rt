// The words of a text: what a run of symbol characters is.
ghost use Rattle.std.specs.Prelude.{◌≡◌, cond};
ghost use Rattle.bundle.specs.Lists.{same_list};
ghost use Rattle.grammar.specs.Bytes.{word_of, name};
ghost use Rattle.reading.specs.Typing.{sort_number};
ghost use Rattle.lexing.specs.Codes.{word_code};
ghost use Rattle.lexing.specs.Words.{sort_in, word_in};

use crate::runs::is_word;
use logic::kinds::Binder;

#[derive(Clone, Copy, Debug, PartialEq, Eq)]
pub enum Connective {
    And,
    Or,
    Implies,
    Equal,
}

// A word for a sort: two things by name, and nothing that may be missing.
#[derive(Clone, Copy, Debug, PartialEq, Eq)]
pub enum SortWord {
    Bool,
    Item,
}

impl SortWord {
    // The number of the sort: as a number records have it, and all that is compared with them.
    pub fn number(self) -> usize
        ensures { result ≡ sort_number (sort_in self) }
    {
        match self {
            SortWord::Bool => 0,
            SortWord::Item => 1,
        }
    }
}

// One of the twelve words, or a name.
#[derive(Clone, Copy)]
pub enum Word<'a> {
    Constant(bool),
    Negation,
    Connective(Connective),
    Quantifier(Binder),
    Let,
    Sort(SortWord),
    Name(&'a [u8]),
}

impl<'a> Word<'a> {
    // The number of what may stand where the word does, by which the table of spots has its columns.
    pub fn code(self) -> usize
        ensures { result ≡ word_code (word_in self.entry) }
    {
        match self {
            Word::Constant(_) => 3,
            Word::Negation => 4,
            Word::Connective(_) => 5,
            Word::Quantifier(_) => 6,
            Word::Let => 7,
            Word::Sort(_) => 8,
            Word::Name(_) => 9,
        }
    }
}

// The word where a run is spelled so, else a name.
fn word_if<'a>(run: &'a [u8], spelled: &[u8], word: Word<'a>) -> Word<'a>
    ensures { word_in result ≡ cond (same_list run.now spelled.now) (word_in word.entry) (name run.now) }
{
    if is_word(run, spelled) {
        word
    } else {
        Word::Name(run)
    }
}

// The word that a run is: at most two of the twelve start with its first byte.
pub fn word_of<'a>(run: &'a [u8]) -> Word<'a>
    ensures { word_in result ≡ word_of run.now }
{
    if run.len() == 0 {
        return Word::Name(run);
    }
    match run[0] {
        b't' => word_if(run, b"true", Word::Constant(true)),
        b'f' => {
            if is_word(run, b"false") {
                return Word::Constant(false);
            }
            word_if(run, b"forall", Word::Quantifier(Binder::ForAll))
        }
        b'n' => word_if(run, b"not", Word::Negation),
        b'a' => word_if(run, b"and", Word::Connective(Connective::And)),
        b'o' => word_if(run, b"or", Word::Connective(Connective::Or)),
        b'=' => {
            if is_word(run, b"=>") {
                return Word::Connective(Connective::Implies);
            }
            word_if(run, b"=", Word::Connective(Connective::Equal))
        }
        b'e' => word_if(run, b"exists", Word::Quantifier(Binder::Exists)),
        b'l' => word_if(run, b"let", Word::Let),
        b'B' => word_if(run, b"Bool", Word::Sort(SortWord::Bool)),
        b'I' => word_if(run, b"Item", Word::Sort(SortWord::Item)),
        _ => Word::Name(run),
    }
}
