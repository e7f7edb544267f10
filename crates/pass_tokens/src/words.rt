// Words and names. By the bytes and a place: with slices from a word's start on, which was tried, the words took 8 % more instructions.
ghost use Rattle.std.specs.Prelude.{IfSome, ◌≡◌, true, ◌≤◌, ◌<◌, length, get_or};
ghost use Rattle.bundle.specs.Words.{largest_word};
ghost use Rattle.bundle.specs.Limits.{limits};
ghost use Rattle.pass_tokens.specs.Tokens.{goes_on, RunStops, DigitsAt, WordStands, WordIf, WordAt, WordTo};

use super::{Meaning, Text};
use lexing::words::SortWord;
use logic::kinds::Binder;

// A word, and the byte after it.
#[derive(Clone, Copy)]
pub struct Token {
    pub meaning: Meaning,
    pub end: usize,
}

// A number in digits, and the byte after them.
#[derive(Clone, Copy)]
pub struct Digits {
    pub value: usize,
    pub end: usize,
}

// Whether a run goes on with a byte: a symbol character or a digit. A yes or no, where lexing's class_code gives the class.
fn goes_on(x: u8) -> bool
    ensures { result ≡ goes_on x }
{
    if x > 96 {
        return (x < 123) | (x == 126);
    }
    if x > 59 {
        return (x < 91) | (x == 94) | (x == 95);
    }
    if x > 47 {
        return x < 58;
    }
    if x > 41 {
        return x != 44;
    }
    (x == 33) | ((x > 35) & (x < 39))
}

// Whether a run ends before byte j.
fn run_stops(text: &[u8], j: usize) -> bool
    ensures { result ≡ true → RunStops text.now j }
{
    if j >= text.len() {
        return true;
    }
    let c = text[j];
    if c == b')' {
        return true;
    }
    if c == b' ' {
        return true;
    }
    !goes_on(c)
}

// The number that digits from byte `from` on have, no zero first, where it is at most `high`.
fn numeral(text: &[u8], from: usize, high: usize) -> Option<Digits>
    requires { (from ≤ length text.now) × (high ≤ largest_word) }
    ensures { DigitsAt text.now from high result }
{
    let mut value = 0;
    let mut end = text.len();
    for j in from..text.len() {
        let c = usize::from(text[j]);
        if (c < 48) | (c > 57) {
            end = j;
            break;
        }
        value = 10 * value + (c - 48);
        if (value > high) | (value == 0) {
            return None;
        }
    }
    if value == 0 {
        return None;
    }
    Some(Digits { value, end })
}

// Whether a word stands at byte `start`, where its first byte does, and the run ends with it. Not by `starts_with`, which was tried: a text took 3.4 % more
// instructions.
fn word_stands(text: &[u8], start: usize, spelled: &[u8]) -> bool
    requires { (start < length text.now) × (0 < length spelled.now) × (get_or text.now start 0 ≡ get_or spelled.now 0 0) }
    ensures { result ≡ true → WordStands text.now start spelled.now }
{
    let n = spelled.len();
    if text.len() - start < n {
        return false;
    }
    for k in 1..n {
        if text[start + k] != spelled[k] {
            return false;
        }
    }
    run_stops(text, start + n)
}

// One of the twelve words, where it stands at byte `start` and its first byte does.
fn word_if(text: &[u8], start: usize, spelled: &[u8], meaning: Meaning) -> Option<Token>
    requires { (start < length text.now) × (0 < length spelled.now) × (get_or text.now start 0 ≡ get_or spelled.now 0 0) }
    ensures { WordIf text.now start spelled.now meaning result }
{
    if !word_stands(text, start, spelled) {
        return None;
    }
    Some(Token {
        meaning,
        end: start + spelled.len(),
    })
}

// One of the twelve words, at byte `start`: at most two of them start with its first byte. Not by lexing's word_of, which takes a run whose end is known.
#[tactic(auto, using(crate::proofs::WordLaws::twelve_words), unfolding(grammar::specs::Bytes::bytes))]
fn reserved_at(text: &[u8], symbols: usize, variables: usize, start: usize) -> Option<Token>
    requires { start < length text.now }
    ensures { WordAt symbols variables text.now start result }
{
    match text[start] {
        b'a' => word_if(text, start, b"and", Meaning::Symbol(4)),
        b'l' => word_if(text, start, b"let", Meaning::Let),
        b'I' => word_if(text, start, b"Item", Meaning::Sort(SortWord::Item)),
        b'=' => {
            let equal = word_if(text, start, b"=", Meaning::Symbol(7));
            if equal.is_some() {
                return equal;
            }
            word_if(text, start, b"=>", Meaning::Symbol(6))
        }
        b'n' => word_if(text, start, b"not", Meaning::Symbol(3)),
        b'f' => {
            let for_all = word_if(text, start, b"forall", Meaning::Binder(Binder::ForAll));
            if for_all.is_some() {
                return for_all;
            }
            word_if(text, start, b"false", Meaning::Symbol(2))
        }
        b'e' => word_if(text, start, b"exists", Meaning::Binder(Binder::Exists)),
        b'o' => word_if(text, start, b"or", Meaning::Symbol(5)),
        b't' => word_if(text, start, b"true", Meaning::Symbol(1)),
        b'B' => word_if(text, start, b"Bool", Meaning::Sort(SortWord::Bool)),
        _ => None,
    }
}

// The word at byte `start`, where so many symbols and variables are declared.
fn word_at(text: &[u8], symbols: usize, variables: usize, start: usize) -> Option<Token>
    requires { (start ≤ length text.now) × (symbols ≤ limits.symbols) × (variables ≤ limits.variables) }
    ensures { WordAt symbols variables text.now start result }
{
    if start >= text.len() {
        return None;
    }
    let c = text[start];
    if c == b'v' {
        let n = numeral(text, start + 1, variables)?;
        if !run_stops(text, n.end) {
            return None;
        }
        return Some(Token {
            meaning: Meaning::Variable(n.value),
            end: n.end,
        });
    }
    if c == b'f' {
        if let Some(n) = numeral(text, start + 1, 32 + symbols) {
            if (n.value <= 32) | !run_stops(text, n.end) {
                return None;
            }
            return Some(Token {
                meaning: Meaning::Symbol(n.value),
                end: n.end,
            });
        }
    }
    reserved_at(text, symbols, variables, start)
}

impl<'a> Text<'a> {
    // The word that stands next, where so many symbols and variables are declared: a bundle's two counts, for which a struct would be made at each call.
    pub fn word(&mut self, symbols: usize, variables: usize) -> Option<Meaning>
        requires { (symbols ≤ limits.symbols) × (variables ≤ limits.variables) }
        ensures { IfSome result (WordTo symbols variables self.old self.new) }
    {
        let token = word_at(self.bytes, symbols, variables, self.at)?;
        self.at = token.end;
        Some(token.meaning)
    }
}
