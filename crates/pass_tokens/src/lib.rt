// The lexemes of a text for the reading in one pass: nothing is promised where what stands there is not what is due.
#![tactic(auto)]

ghost use Rattle.std.specs.Prelude.{◌≡◌, ◌<◌, length, get_or, drop, eqb};

pub mod blanks; // blanks.rt: white space and comments, brackets
pub mod words; // words.rt: words and names
pub mod openings; // openings.rt: heads of formulas
pub mod places; // places.rt: variables, as they stand in lists

use blanks::byte_at;
use lexing::words::SortWord;
use logic::kinds::Binder;
use std::marker::Model;

// What a word stands for: a variable or a symbol by its number, as records have it (built-in symbols below the declared ones), a binder, let, or a sort.
#[derive(Clone, Copy)]
pub enum Meaning {
    Variable(usize),
    Symbol(usize),
    Binder(Binder),
    Let,
    Sort(SortWord),
}

// A variable with its sort, as a quantifier lists it.
#[derive(Clone, Copy)]
pub struct Sorted {
    pub variable: usize,
    pub sort: SortWord,
}

// A text that is read from its start to its end: a clause sees the bytes that are left.
// A place in it and not what is left as a slice, whose two words are handed on through memory: that was tried, and the pass took 4 to 10 % more instructions.
#[derive(Drop)]
pub struct Text<'a> {
    bytes: &'a [u8],
    at: usize,
}

impl<'a> Model for Text<'a> {
    ghost use Rattle.std.specs.Prelude.{ℕ, List, ◌≤◌, length, drop};

    ghost Value = { List ℕ };

    ghost view = { λ t. drop t.at t.bytes.now };

    ghost invariant = { λ t. t.at ≤ length t.bytes.now };
}

impl<'a> Text<'a> {
    pub fn of(bytes: &'a [u8]) -> Text<'a>
        ensures { result ≡ bytes.now }
    {
        Text { bytes, at: 0 }
    }

    // What is left.
    pub fn left(&self) -> &'a [u8]
        ensures { result.now ≡ self.now }
    {
        &self.bytes[self.at..]
    }

    // Whether nothing is left.
    pub fn is_empty(&self) -> bool
        ensures { result ≡ eqb (length self.now) 0 }
    {
        self.at >= self.bytes.len()
    }

    // The first byte; 0, which no formula has, where there is none: so each byte is compared at once.
    pub fn first(&self) -> u8
        ensures { result ≡ get_or self.now 0 0 }
    {
        byte_at(self.bytes, self.at)
    }

    // Goes past a byte.
    pub fn skip(&mut self)
        requires { 0 < length self.old }
        ensures { self.new ≡ drop 1 self.old }
    {
        self.at += 1;
    }
}
