// Heads of formulas, and the items of their lists, as they stand in a text.
#![tactic(auto)]

pub mod words; // words.rt: the variable or the symbol that a word stands for
pub mod places; // places.rt: the head of a formula, the items of a list

use lexing::words::Word;
use logic::kinds::Binder;

// What a formula starts with.
#[derive(Clone, Copy)]
pub enum Head<'a> {
    // A word that is the formula.
    Alone(Word<'a>),
    // In brackets, the word of an application.
    Application(Word<'a>),
    Quantifier(Binder),
    Let,
}

// A head, and the text behind it: what follows a word alone, the parts of an application, the variables of a quantifier, the pairs of a let.
#[derive(Clone, Copy)]
pub struct Headed<'a> {
    pub head: Head<'a>,
    pub rest: &'a [u8],
}

// An item of a list, or the list's end; and the text behind it. The end is `None`; an item without a variable has 0 in its place, as definitions have it.
#[derive(Clone, Copy)]
pub struct Item<'a> {
    pub variable: Option<usize>,
    pub rest: &'a [u8],
}
